//! Laws of playlists that start at a time and only grow. The contract of each function is the law.

ghost use Rattle.hls_playlists.specs.StartLaws.{ListsSinceGrow, RemovedListsStayRemoved};

use hls_places_laws::{front_is_a_place, line_from_cut_agrees, places_never_go_back};
use hls_playlists_laws::path_laws::based_lists_follow;

/// In a state that follows one with a playlist since a time, that playlist has grown: it begins with the same segment and is valid as a
/// later one (RFC 8216 section 6.2.2). Or its first segment was removed.
pub fn lists_since_grow()
    ensures { ListsSinceGrow }
{
    front_is_a_place();
    line_from_cut_agrees();
    places_never_go_back();
    based_lists_follow();
}

/// Once the first segment was removed, it stays so.
pub fn removed_lists_stay_removed()
    ensures { RemovedListsStayRemoved }
{
    front_is_a_place();
    line_from_cut_agrees();
    places_never_go_back();
    based_lists_follow();
}
