//! A live line with three places 4 s apart and a closing one. The target duration is 6 s, the preferred length 4 s: each two places
//! make a segment.
//!
//! `ensures { result ≡ result }` states nothing: with a contract, a helper's body isn't checked again at each call.

ghost use Rattle.std.specs.Prelude.{◌≡◌};

use hls_check_tables::{Spot, Spots};
use hls_fakes::CallOutcome;
use hls_live::{LineFault, LiveLine};
use hls_places_laws::Place;
use std::alloc::Global;

/// Makes the place with a number; `None` if an allocation failed.
pub fn place(alloc: Global, number: u64) -> Option<Place> {
    let start = number.saturating_mul(4_000_000);
    let spot = Spot {
        fragment: number,
        prev_end: start,
        start,
        run_in: 0,
        run_out: 0,
    };
    Some(Place {
        spots: Spots::new(alloc, vec![in alloc; spot].ok()?).ok()?,
        closing: number == 3,
    })
}

/// Returns the line after one more place; `TooMany` if it isn't one of this test.
fn advance_line(alloc: Global, line: &LiveLine, place: &Place) -> Result<LiveLine, LineFault> {
    if place.spots.len() == 0 || line.segments().next() > 7 {
        return Err(LineFault::TooMany);
    }
    line.advanced(alloc, place)
}

/// Returns the same by the call that also continues at the end.
pub fn place_at_once(alloc: Global, line: &LiveLine, place: &Place) -> Result<LiveLine, LineFault> {
    if place.spots.len() == 0 || line.segments().next() > 7 {
        return Err(LineFault::TooMany);
    }
    Ok(line.with_place(alloc, place)?)
}

/// Returns the line after the place with a number.
fn with_place(alloc: Global, line: &LiveLine, number: u64) -> Option<LiveLine> {
    let place = place(alloc, number)?;
    advance_line(alloc, line, &place).ok()
}

/// Returns the line of the first places.
pub fn line(alloc: Global, places: u64) -> Option<LiveLine> {
    let mut line = LiveLine::fresh(alloc, 6, 4_000_000);
    for number in 0..places {
        line = with_place(alloc, &line, number)?;
    }
    Some(line)
}

fn line_with_retry(alloc: Global, places: u64) -> Option<LiveLine> {
    match line(alloc, places) {
        Some(line) => Some(line),
        None => line(alloc, places),
    }
}

fn place_with_retry(alloc: Global, number: u64) -> Option<Place> {
    match place(alloc, number) {
        Some(place) => Some(place),
        None => place(alloc, number),
    }
}

fn begins_at(place: &Place, number: u64) -> bool {
    match place.spots.as_slice() {
        [first, ..] => first.fragment == number,
        [] => false,
    }
}

/// Whether the line keeps the segments from one number to the one before another, from place to place, and has ended or not.
fn is_line(line: &LiveLine, from: u64, to: u64, ended: bool) -> bool {
    let segments = line.segments();
    if segments.first() != from || segments.next() != to || line.removed() != from {
        return false;
    }
    for number in from..to {
        let Some(segment) = segments.get(number) else {
            return false;
        };
        if !begins_at(&segment.from, number) || !begins_at(&segment.to, number.wrapping_add(1)) {
            return false;
        }
    }
    line.ended() == ended
}

/// The outcome for a line that should keep the segments from a number to its end.
pub fn outcome_of(line: Result<LiveLine, LineFault>, from: u64) -> CallOutcome {
    match line {
        Ok(line) => CallOutcome::from_answer(is_line(&line, from, 3, true)),
        Err(LineFault::Memory) => CallOutcome::OutOfMemory,
        Err(_) => CallOutcome::Wrong,
    }
}

/// Whether it is still the line of two segments, and the closing place.
fn are_two_and_last(two: &LiveLine, last: &Place) -> bool {
    is_line(two, 0, 2, false) && begins_at(last, 3)
}

pub fn outcome_of_advanced(alloc: Global, two: &LiveLine, last: &Place) -> CallOutcome {
    outcome_of(advance_line(alloc, two, last), 0).require_unchanged(are_two_and_last(two, last))
}

pub fn outcome_of_at_once(alloc: Global, two: &LiveLine, last: &Place) -> CallOutcome {
    outcome_of(place_at_once(alloc, two, last), 0).require_unchanged(are_two_and_last(two, last))
}

/// The outcome of sharing the line of three segments at its end.
pub fn outcome_of_shared(alloc: Global, ended: &LiveLine) -> CallOutcome {
    let outcome = match ended.share(alloc) {
        Ok(line) => CallOutcome::from_answer(is_line(&line, 0, 3, true)),
        Err(_) => CallOutcome::OutOfMemory,
    };
    outcome.require_unchanged(is_line(ended, 0, 3, true))
}

pub fn outcome_of_slid(alloc: Global, ended: &LiveLine) -> CallOutcome {
    outcome_of(ended.slide(alloc, 1), 1).require_unchanged(is_line(ended, 0, 3, true))
}

/// Whether both calls advance the line of two segments to its end.
fn is_advanced(alloc: Global, two: &LiveLine, last: &Place) -> bool
    ensures { result ≡ result }
{
    outcome_of_advanced(alloc, two, last).is_consistent_with(outcome_of_advanced(alloc, two, last))
        && outcome_of_at_once(alloc, two, last).is_consistent_with(outcome_of_at_once(
            alloc, two, last,
        ))
}

/// Whether the ended line can be shared and slid.
fn is_slid(alloc: Global, ended: &LiveLine) -> bool
    ensures { result ≡ result }
{
    outcome_of_shared(alloc, ended).is_consistent_with(outcome_of_shared(alloc, ended))
        && outcome_of_slid(alloc, ended).is_consistent_with(outcome_of_slid(alloc, ended))
}

#[test]
fn out_of_memory_then_moves_the_line_again(rt: HostRuntime) {
    let alloc = rt.alloc();
    let two = line_with_retry(alloc, 3).expect(&rt, "a line");
    let ended = line_with_retry(alloc, 4).expect(&rt, "an ended line");
    let last = place_with_retry(alloc, 3).expect(&rt, "a place");
    assert!(rt; is_advanced(alloc, &two, &last));
    assert!(rt; is_slid(alloc, &ended));
}
