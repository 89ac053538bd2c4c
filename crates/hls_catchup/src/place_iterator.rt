//! Iterators over common places. All iterations of this crate call these, so the generic iterator of lists is called only here.

ghost use Rattle.std.specs.Prelude.{◌≡◌, ◌≤◌};
ghost use Rattle.std.specs.Map.Iter.{TakesFirst, deref};
ghost use Rattle.hls_blocks.specs.Numbered.{next_of, items_starting_at};

use hls_blocks::{Iter, Shared};
use hls_places::Place;

/// Iterates over the places from number `n` on.
pub fn iter_places_from(places: &Shared<Place>, n: u64) -> Iter<'_, Place>
    requires low { places.now.first ≤ n }
    requires high { n ≤ next_of places.now }
    ensures { result ≡ items_starting_at places.now n }
{
    places.iter_from(n)
}

/// Returns the next place of an iteration.
pub fn next_place<'a>(walk: &mut Iter<'a, Place>) -> Option<&'a Place>
    ensures { TakesFirst deref walk.old result walk.new }
{
    walk.next()
}
