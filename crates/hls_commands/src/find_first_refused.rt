//! Whether each place reaches the next.

ghost use Rattle.std.specs.Prelude.{◌≡◌, ◌≤◌, length, MatchOption};
ghost use Rattle.hls_blocks.specs.Numbered.{list_limit};
ghost use Rattle.hls_places_laws.specs.Order.{spots_of};
ghost use Rattle.hls_commands.specs.Each.{AllReachNext, IsFirstRefused};

use crate::iterators::iter_places;
use hls_blocks::Shared;
use hls_catchup::next_place;
use hls_places::{Place, pair_allowed};

/// Returns the number of the first place from which no segment of at most `target` seconds can reach the next. Doesn't allocate.
pub fn find_first_refused(target: u64, places: &Shared<Place>) -> Option<usize>
    requires first { places.now.first ≡ 0 }
    requires few { length places.now.items ≤ list_limit }
    ensures { MatchOption result (AllReachNext target (spots_of places.now.items)) (IsFirstRefused target (spots_of places.now.items)) }
{
    let mut walk = iter_places(places);
    let Some(first) = next_place(&mut walk) else {
        return None;
    };
    let mut from = first;
    let mut place = 0;
    while let Some(to) = next_place(&mut walk) {
        if !pair_allowed(target, from, to) {
            return Some(place);
        }
        from = to;
        place += 1;
    }
    None
}
