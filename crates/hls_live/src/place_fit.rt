//! Classifies a place relative to the open one of the line.
ghost use Rattle.std.specs.Prelude.{◌≡◌, ◌-◌, ◌&&◌, not};
ghost use Rattle.hls_check_tables.specs.Tables.{spot_in};
ghost use Rattle.hls_places_laws.specs.Line.Steps.{is_later_place, is_allowed, is_long_enough, is_at_gap};
ghost use Rattle.hls_live.specs.PlaceFit.{fit_of};

use hls_check_tables::pair_allowed;
use hls_places_laws::{LineGoal, Place};

#[derive(Clone, Copy)]
pub enum PlaceFit {
    /// In some rendition its fragment number isn't greater than the open place's.
    Skipped,

    /// No segment reaches it.
    TooFar,

    /// A segment reaches it, and may be longer.
    Reachable,

    /// A segment reaches it, and is long enough.
    LongEnough,
}

/// The length from a place to another in rendition `r`, in microseconds.
pub fn length_between(from: &Place, to: &Place, r: usize) -> u64
    ensures { result ≡ (spot_in to.now.spots r).prev_end - (spot_in from.now.spots r).start }
{
    to.spots
        .get_or_zero(r)
        .prev_end
        .saturating_sub(from.spots.get_or_zero(r).start)
}

/// Whether in every rendition the fragment number is greater at `place` than at the open place.
fn is_later_place(from: &Place, place: &Place) -> bool
    ensures { result ≡ is_later_place from.now place.now }
{
    let starts = from.spots.as_slice();
    let ends = place.spots.as_slice();
    if starts.len() != ends.len() {
        return false;
    }
    for r in 0..starts.len() {
        if starts[r].fragment >= ends[r].fragment {
            return false;
        }
    }
    true
}

/// Whether a segment may span from a place to another.
fn is_allowed(line_goal: LineGoal, from: &Place, place: &Place) -> bool
    ensures { result ≡ is_allowed line_goal from.now place.now }
{
    pair_allowed(line_goal.target, &from.spots, &place.spots)
}

/// Whether a segment that may end here is long enough.
fn is_long_enough(line_goal: LineGoal, from: &Place, place: &Place) -> bool
    ensures { result ≡ is_long_enough line_goal from.now place.now }
{
    line_goal.preferred <= length_between(from, place, 0) || place.closing
}

/// Whether some rendition has a gap immediately before the place.
pub fn is_at_gap(place: &Place) -> bool
    ensures { result ≡ is_at_gap place.now }
{
    let spots = place.spots.as_slice();
    spots.iter().any(|spot| spot.run_in != spot.run_out)
}

/// Whether a later place is out of reach.
pub fn is_too_far(line_goal: LineGoal, from: &Place, place: &Place) -> bool
    ensures { result ≡ (is_later_place from.now place.now && not (is_allowed line_goal from.now place.now)) }
{
    is_later_place(from, place) && !is_allowed(line_goal, from, place)
}

/// Classifies a place relative to the open one.
pub fn classify_place(line_goal: LineGoal, from: &Place, place: &Place) -> PlaceFit
    ensures { result ≡ fit_of line_goal from.now place.now }
{
    if !is_later_place(from, place) {
        PlaceFit::Skipped
    } else if !is_allowed(line_goal, from, place) {
        PlaceFit::TooFar
    } else if is_long_enough(line_goal, from, place) {
        PlaceFit::LongEnough
    } else {
        PlaceFit::Reachable
    }
}
