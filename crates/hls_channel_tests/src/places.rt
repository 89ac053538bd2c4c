//! Common places and programmes, of three units of 4 s.

ghost use Rattle.std.specs.Prelude.{IfSome};
ghost use Rattle.hls_places_laws.specs.Order.{ArePlaces};

use hls_check_tables::{CostRule, Goal, PlaceTable, Spots};
use hls_fakes::CallOutcome;
use hls_places::{Place, PlaceCursor, common, programme};
use hls_places_laws::ProgrammeFault;
use hls_record::Recording;
use hls_sample_channels::{SECOND, THREE_UNITS, end_channel_with_retry};
use std::alloc::Global;

/// Whether it is the place with a number, 4 s after the one before it; the fourth is the closing one.
fn is_place(place: &Place, number: u64) -> bool {
    let start = number.wrapping_mul(4 * SECOND);
    match place.spots.as_slice() {
        [only] => {
            only.fragment == number
                && only.start == start
                && only.prev_end == start
                && only.run_in == 0
                && only.run_out == 0
                && place.closing == (number == 3)
        }
        _ => false,
    }
}

fn are_places(places: &[Place]) -> bool {
    match places {
        [first, second, third, last] => {
            is_place(first, 0) && is_place(second, 1) && is_place(third, 2) && is_place(last, 3)
        }
        _ => false,
    }
}

/// Returns the places of the recording.
pub fn find_places(alloc: Global, recording: &Recording) -> Option<Vec<Place>>
    ensures { IfSome result (λ places. ArePlaces places.items) }
{
    common(alloc, &[recording], &[0], &[true]).ok()
}

pub fn outcome_of_common(alloc: Global, recording: &Recording) -> CallOutcome {
    let outcome = match common(alloc, &[recording], &[0], &[true]) {
        Ok(places) => CallOutcome::from_answer(are_places(&places)),
        Err(_) => CallOutcome::OutOfMemory,
    };
    outcome.require_unchanged(recording.count() == 3)
}

pub fn outcome_of_cursor(alloc: Global) -> CallOutcome {
    match PlaceCursor::first(alloc, 1) {
        Ok(_) => CallOutcome::Right,
        Err(_) => CallOutcome::OutOfMemory,
    }
}

fn starts_at(spots: &Spots, start: u64) -> bool {
    match spots.as_slice() {
        [first, ..] => first.start == start,
        [] => false,
    }
}

/// Whether it is the table of the places from 4 s to 12 s.
fn is_programme(table: &PlaceTable) -> bool {
    match table.places() {
        [first, second, third] => {
            starts_at(first, 4 * SECOND)
                && starts_at(second, 8 * SECOND)
                && starts_at(third, 12 * SECOND)
        }
        _ => false,
    }
}

/// The outcome of the programme from 5 s to 9 s.
pub fn outcome_of_programme(alloc: Global, places: &[Place]) -> CallOutcome
    requires { ArePlaces places.now }
{
    let [first, second, third, last] = places else {
        return CallOutcome::Wrong;
    };
    let goal = Goal {
        target: 6,
        preferred: 4_000_000,
        rule: CostRule::Deviation,
    };
    let all = [first, second, third, last];
    let outcome = match programme(alloc, &all, goal, true, 5 * SECOND, 9 * SECOND) {
        Ok(table) => CallOutcome::from_answer(is_programme(&table)),
        Err(ProgrammeFault::Memory) => CallOutcome::OutOfMemory,
        Err(_) => CallOutcome::Wrong,
    };
    outcome.require_unchanged(are_places(places))
}

#[test]
fn out_of_memory_then_finds_places_again(rt: HostRuntime) {
    let alloc = rt.alloc();
    let state = end_channel_with_retry(alloc, &THREE_UNITS).expect(&rt, "a channel");
    let recording = state.recording(0).expect(&rt, "a recording");
    let first = outcome_of_common(alloc, recording);
    assert!(rt; first.is_consistent_with(outcome_of_common(alloc, recording)));
    assert!(rt; outcome_of_cursor(alloc).is_consistent_with(outcome_of_cursor(alloc)));
}

fn find_places_with_retry(alloc: Global, recording: &Recording) -> Option<Vec<Place>>
    ensures { IfSome result (λ places. ArePlaces places.items) }
{
    match find_places(alloc, recording) {
        Some(places) => Some(places),
        None => find_places(alloc, recording),
    }
}

#[test]
fn out_of_memory_then_cuts_programmes_again(rt: HostRuntime) {
    let alloc = rt.alloc();
    let state = end_channel_with_retry(alloc, &THREE_UNITS).expect(&rt, "a channel");
    let recording = state.recording(0).expect(&rt, "a recording");
    let places = find_places_with_retry(alloc, recording).expect(&rt, "places");
    let first = outcome_of_programme(alloc, &places);
    assert!(rt; first.is_consistent_with(outcome_of_programme(alloc, &places)));
}
