//! The master playlist below `/hls/`, made of what came in: the codecs, sizes, frame rates, channels and languages that init sections and
//! units say, and measured bandwidths (RFC 8216 section 4.3.4).
#![tactic(auto)]

ghost use Rattle.std.specs.Prelude.{◌≡◌, IfOk, option_map};
ghost use Rattle.hls_players_master.specs.Master.{players_master};

pub mod rates;
mod segment_iterator;
mod summaries;
pub mod summary;
pub mod tracks;
mod write;

use hls_core::snapshot::Snapshot;
use std::alloc::{AllocError, Global};
pub use summaries::summarize_renditions;
pub use write::write_players_master;

/// Makes the text of a channel's master playlist below `/hls/`, whose media playlists are `<rendition>.m3u8` beside it. None before each
/// rendition has its init section.
///
/// With `independent`, the playlist says that each segment can be decoded alone (EXT-X-INDEPENDENT-SEGMENTS, section 4.3.5.1); that is the
/// operator's to know.
///
/// The work is bounded whatever the channel's age: for each rendition 256 segments, eight units' headers and the init section are looked
/// at.
pub fn players_master(
    alloc: Global,
    snapshot: &Snapshot,
    independent: bool,
) -> Result<Option<Vec<u8>>, AllocError>
    ensures { IfOk result (λ found. option_map (λ text. text.items) found ≡ players_master snapshot.now independent) }
{
    let Some(summaries) = summarize_renditions(alloc, snapshot)? else {
        return Ok(None);
    };
    Ok(Some(write_players_master(alloc, independent, summaries.as_slice())?))
}
