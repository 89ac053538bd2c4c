//! What `cut` prints of a recorded channel.

ghost use Rattle.hls_m3u8.specs.Uri.{IsUri};
ghost use Rattle.hls_commands.specs.Listings.{CanList, IsSingle, Lists};

use crate::list_each::list_each;
use crate::list_least_plan::list_least_plan;
use crate::listing_fault::ListingFault;
use crate::listing_mode::{ListingMode, ListingOutput};
use hls_check_tables::Goal;
use hls_core::snapshot::Snapshot;
use std::alloc::Global;

/// Lists a channel of one rendition that has begun, over its resource `uri`, which is its init section followed by all units. The
/// target duration and the preferred length are the channel's. If it has an epoch, the segments are dated.
///
/// `Each` yields the playlist with one segment from each place to the next (RFC 8216 section 4.3.3.5), or `NotAllowed` with the
/// number of the first place that can't reach the next. `Planned` yields a least plan's playlist or its certificate, `NoCut` if there
/// is no plan, or `ProgrammeTooLong` for more than 16384 places. With fewer than two places both yield `NoPlace`. `Memory` is
/// returned only if an allocation failed, and after every other fault.
pub fn list_channel(
    alloc: Global,
    snapshot: &Snapshot,
    uri: &str,
    listing: ListingMode,
) -> Result<ListingOutput, ListingFault>
    requires single { IsSingle snapshot.now }
    requires uri { IsUri uri.now }
    requires rule { CanList listing }
    ensures { Lists snapshot.now uri.now listing result }
{
    let Some(recording) = snapshot.recording(0) else {
        unreachable!()
    };
    let places = snapshot.places();
    if places.next() < 2 {
        return Err(ListingFault::NoPlace);
    }
    let _ = recording.count(); // the proof needs that the recording is well formed
    let config = snapshot.config();
    let epoch = config.epoch();
    match listing {
        ListingMode::Each => list_each(alloc, config.target(), recording, epoch, places, uri),
        ListingMode::Planned { rule, certificate } => {
            let goal = Goal {
                target: config.target(),
                preferred: config.preferred(),
                rule,
            };
            list_least_plan(alloc, goal, recording, epoch, places, uri, certificate)
        }
    }
}
