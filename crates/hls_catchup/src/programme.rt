//! The programme of a request among the kept places.

ghost use Rattle.std.specs.Prelude.{◌≡◌, ◌<◌, if◌then◌else◌};
ghost use Rattle.hls_core.specs.KeptPlaces.{IsLastKeptBy};
ghost use Rattle.hls_catchup.specs.declared.fault.CatchFault.TheVariants.{NotYet, AfterRecording};
ghost use Rattle.hls_catchup.specs.Requests.{all_finished, IsInRange};
ghost use Rattle.hls_catchup.specs.KeptPlaces.{IsCountTo, places_and_floors_of};
ghost use Rattle.hls_catchup.specs.Programmes.{IsProgrammeOrFault};

use crate::fault::CatchFault;
use crate::kept_places::KeptPlaces;
use crate::recordings::all_finished;
use crate::request::Request;
use hls_check_tables::{CHARGE_LIMIT, PLACE_LIMIT};
use hls_core::place_search::last_kept_place_by;
use hls_core::snapshot::Snapshot;

/// A programme is what a catch-up request gets: the kept places from the last one at or before its start to the first one at or after
/// its end. They are the first `count` kept ones from number `from` on.
#[derive(Drop)]
pub struct Programme<'a> {
    pub places: KeptPlaces<'a>,
    pub from: u64,
    pub count: usize,
}

/// Returns the programme that a request asks for, or the first fault. Doesn't allocate.
pub fn find_programme(snapshot: &Snapshot, request: Request) -> Result<Programme<'_>, CatchFault>
    ensures { IsProgrammeOrFault snapshot.now request result }
{
    if request.stop_us <= request.start_us {
        return Err(CatchFault::BadRange);
    }
    if request.preferred == 0 {
        return Err(CatchFault::BadPreferred);
    }
    if snapshot.config().target() * 1_000_000 < request.preferred {
        return Err(CatchFault::BadPreferred);
    }
    if CHARGE_LIMIT < request.rule.charge() {
        return Err(CatchFault::BadCharge);
    }
    find_places(snapshot, request)
}

/// Returns the kept places from the last one at or before the start to the first one at or after the stop.
fn find_places(snapshot: &Snapshot, request: Request) -> Result<Programme<'_>, CatchFault>
    requires { IsInRange snapshot.now request }
    ensures { IsProgrammeOrFault snapshot.now request result }
{
    let places = KeptPlaces::new(snapshot);
    let Some(from) = last_kept_place_by(snapshot, request.start_us) else {
        return Err(CatchFault::BeforeRecording);
    };
    let Some(count) = count_places(snapshot, request, from) else {
        return Err(find_late_fault(snapshot));
    };
    if PLACE_LIMIT < count {
        return Err(CatchFault::ProgrammeTooLong);
    }
    Ok(Programme {
        places,
        from,
        count,
    })
}

/// Counts the places from number `from`, the last one at or before the start, to the first at or after the stop, inclusive; `None` if none
/// is that late. Doesn't allocate, and looks at few places.
fn count_places(snapshot: &Snapshot, request: Request, from: u64) -> Option<usize>
    requires order { request.start_us < request.stop_us }
    requires from { IsLastKeptBy snapshot.now request.start_us from }
    ensures { IsCountTo (places_and_floors_of snapshot.now) from request.stop_us result }
{
    // times are whole microseconds: the place after the last one before the stop is the first at or after it
    let Some(before) = last_kept_place_by(snapshot, request.stop_us - 1) else {
        unreachable!()
    };
    if snapshot.places().next() <= before + 1 {
        return None;
    }
    Some((before - from + 2) as usize)
}

/// Returns why there is no place at or after a stop.
fn find_late_fault(snapshot: &Snapshot) -> CatchFault
    ensures { result ≡ (if all_finished snapshot.now then AfterRecording else NotYet) }
{
    if all_finished(snapshot) {
        return CatchFault::AfterRecording;
    }
    CatchFault::NotYet
}
