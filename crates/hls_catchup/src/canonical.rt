//! Canonical requests: those whose times lie within the same places ask for one programme, which is planned and cached once.

ghost use Rattle.std.specs.Prelude.{◌≡◌};
ghost use Rattle.hls_places_laws.specs.Programmes.{time_at};
ghost use Rattle.hls_catchup.specs.Canonical.{IsCanonical, IsCanonicalOrFault};
ghost use Rattle.hls_catchup.specs.Programmes.{ArePlacesFor};

use crate::fault::CatchFault;
use crate::programme::{Programme, find_programme};
use crate::request::Request;
use hls_blocks::Shared;
use hls_core::snapshot::Snapshot;
use hls_places::{Place, time_of};

/// Returns the request with the times of the first and the last place of its programme, or the first fault. Each request that gets the
/// same places gets the same result. Doesn't allocate.
pub fn canonical_request(snapshot: &Snapshot, request: Request) -> Result<Request, CatchFault>
    ensures { IsCanonicalOrFault snapshot.now request result }
{
    match find_programme(snapshot, request) {
        Ok(programme) => Ok(widen_request(snapshot, request, &programme)),
        Err(fault) => Err(fault),
    }
}

/// Returns a request with the times of its programme.
fn widen_request(snapshot: &Snapshot, request: Request, programme: &Programme) -> Request
    requires { ArePlacesFor snapshot.now request programme.now }
    ensures { IsCanonical snapshot.now request result }
{
    let places = snapshot.places();
    let _ = places.next(); // the proof needs that the places' numbers fit
    let last = programme.from + programme.count as u64 - 1;
    Request {
        start_us: time_of_place(places, programme.from),
        stop_us: time_of_place(places, last),
        preferred: request.preferred,
        rule: request.rule,
    }
}

/// Returns the time of the place of a number, counted from 0.
fn time_of_place(places: &Shared<Place>, number: u64) -> u64
    requires { places.now.first ≡ 0 }
    ensures { result ≡ time_at places.now.items number }
{
    match places.get(number) {
        Some(place) => time_of(place),
        None => 0,
    }
}
