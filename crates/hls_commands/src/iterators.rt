//! An iterator over a channel's places, which `hls_catchup::next_place` advances. All iterations of this crate over places call these
//! two, so the generic iterator of lists is called only here.

ghost use Rattle.std.specs.Prelude.{◌≡◌};

use hls_blocks::{Iter, Shared};
use hls_places::Place;

/// Iterates over all places, in order.
pub fn iter_places(places: &Shared<Place>) -> Iter<'_, Place>
    requires { places.now.first ≡ 0 }
    ensures { result ≡ places.now.items }
{
    places.iter_from(0)
}
