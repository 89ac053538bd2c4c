//! `cut --each`: a segment from each place to the next.

ghost use Rattle.std.specs.Prelude.{◌≡◌, ◌≤◌, length};
ghost use Rattle.hls_blocks.specs.Numbered.{list_limit};
ghost use Rattle.hls_m3u8.specs.Uri.{IsUri};
ghost use Rattle.hls_check_tables.specs.Tables.{target_limit};
ghost use Rattle.hls_places_laws.specs.Order.{spots_of};
ghost use Rattle.hls_core_laws.specs.Config.{IsEpoch};
ghost use Rattle.hls_commands.specs.Each.{ListsEach};
ghost use Rattle.hls_commands.specs.Places.{ArePlacesOf};

use crate::find_first_refused::find_first_refused;
use crate::listing_fault::ListingFault;
use crate::listing_mode::ListingOutput;
use crate::segments::make_consecutive_segments;
use crate::vod_playlist::write_vod_playlist;
use bytes::ByteStr;
use hls_blocks::Shared;
use hls_places::Place;
use hls_record::Recording;
use std::alloc::Global;

/// Writes the playlist with one segment from each place to the next. There are at least two places; the target duration is in seconds.
pub fn list_each(
    alloc: Global,
    target: u64,
    recording: &Recording,
    epoch: Option<i64>,
    places: &Shared<Place>,
    uri: &str,
) -> Result<ListingOutput, ListingFault>
    requires epoch { IsEpoch epoch }
    requires first { places.now.first ≡ 0 }
    requires target { target ≤ target_limit }
    requires places { ArePlacesOf recording.now places.now.items }
    requires count { (2 ≤ length places.now.items) × (length places.now.items ≤ list_limit) }
    requires uri { IsUri uri.now }
    ensures { ListsEach target epoch recording.now (spots_of places.now.items) uri.now result }
{
    if let Some(place) = find_first_refused(target, places) {
        return Err(ListingFault::NotAllowed { place });
    }
    let uri = ByteStr::copy_from_str(alloc, uri)?;
    let segments = make_consecutive_segments(alloc, recording, epoch, &uri, places)?;
    let text = write_vod_playlist(alloc, target, recording, uri, segments)?;
    Ok(ListingOutput::Text(text))
}
