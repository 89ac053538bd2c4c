//! Properties of places: the time of one, whether it is kept, and whether a segment may span from one to another.

ghost use Rattle.std.specs.Prelude.{◌≡◌, ◌<◌, ◌↔◌, IsTrue};
ghost use Rattle.hls_places_laws.specs.Order.{time_of};
ghost use Rattle.hls_places_laws.specs.Programmes.{is_kept};
ghost use Rattle.hls_check_tables.specs.Steps.{IsPlaceStep};

use hls_places_laws::Place;

/// The start of a place in rendition 0, in microseconds; 0 for a place without spots.
pub fn time_of(place: &Place) -> u64
    ensures { result ≡ time_of place.now }
{
    match place.spots.as_slice().first() {
        Some(spot) => spot.start,
        None => 0,
    }
}

/// Whether no fragment of a place is below its rendition's floor, the number of the first fragment that isn't trimmed.
pub fn is_kept(place: &Place, floors: &[u64]) -> bool
    ensures { result ≡ is_kept floors.now place.now }
{
    let spots = place.spots.as_slice();
    for (r, floor) in floors.iter().enumerate() {
        if r >= spots.len() {
            return true;
        }
        if spots[r].fragment < *floor {
            return false;
        }
    }
    true
}

/// Whether one segment of at most `target` seconds, with a half second rounded up, may span from a place to another.
pub fn pair_allowed(target: u64, from: &Place, to: &Place) -> bool
    ensures { IsTrue result ↔ IsPlaceStep target from.now.spots to.now.spots }
{
    hls_check_tables::pair_allowed(target, &from.spots, &to.spots)
}
