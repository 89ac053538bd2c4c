//! A live playlist that shows less than the line keeps, and its law.

ghost use Rattle.std.specs.Prelude.{◌≡◌, IfOk};
ghost use Rattle.std.specs.Option.{option_map};
ghost use Rattle.hls_m3u8.specs.Lines.{media_text};
ghost use Rattle.hls_playlists.specs.RecentLists.{RecentListsFollow, recent_list_of};

use crate::live_writer::LivePlaylistWriter;
use crate::media_uris::MediaUris;
use hls_core::snapshot::Snapshot;
use hls_places_laws::front_is_a_place;
use hls_playlists_laws::path_laws::based_lists_follow;
use std::alloc::{AllocError, Global};
use std::sync::Arc;

/// Starts the text of a rendition's live playlist by paths that shows the last segments: the fewest that last `us` microseconds in
/// rendition 0, and three target durations in each.
pub fn write_recent_list(
    alloc: Global,
    snapshot: Arc<Snapshot>,
    rendition: usize,
    us: u64,
) -> Result<Option<LivePlaylistWriter>, AllocError>
    ensures { IfOk result (λ found. found ≡ option_map media_text (recent_list_of us snapshot.value rendition)) }
{
    let hidden = snapshot.line().max_slide(us);
    LivePlaylistWriter::new_shortened(alloc, snapshot, rendition, MediaUris::Paths, hidden, None)
}

/// In a state that follows one with such a playlist there is one, and it is valid as a later one (RFC 8216 section 6.2.2).
pub fn recent_lists_follow()
    ensures { RecentListsFollow }
{
    front_is_a_place();
    based_lists_follow();
}
