//! Steps from place to place: which are allowed, and their costs.

ghost use Rattle.std.specs.Prelude.{◌≡◌, ◌^◌, ◌<◌, ◌↔◌, length, IsTrue};
ghost use Rattle.hls_check_tables.specs.Tables.{IsGoal, spot_in};
ghost use Rattle.hls_check_tables.specs.Steps.{IsSpotStep, IsPlaceStep, step_cost};

use crate::goal::Goal;
use crate::spot::Spot;
use crate::spots::Spots;
use hls_time::fits;

/// Whether one segment may span from a spot to another of the same rendition: the second is at a later fragment, there is no gap between,
/// and the length is above 0 and rounds to at most `target` seconds (RFC 8216 section 4.3.3.1).
#[inline(always)]
pub fn spot_allowed(target: u64, from: Spot, to: Spot) -> bool
    ensures { IsTrue result ↔ IsSpotStep target from to }
{
    from.fragment < to.fragment
        && from.run_out == to.run_in
        && from.start < to.prev_end
        && fits(to.prev_end - from.start, target)
}

/// Whether one segment may span from a place to another: in each rendition a later fragment, no gap between, and a length above 0 that
/// rounds to at most `target` seconds (RFC 8216 section 4.3.3.1). False if the places have different numbers of renditions.
#[inline(always)]
pub fn pair_allowed(target: u64, from: &Spots, to: &Spots) -> bool
    ensures { IsTrue result ↔ IsPlaceStep target from.now to.now }
{
    if to.len() != from.len() {
        return false;
    }
    for r in 0..from.len() {
        if !spot_allowed(target, from.get(r), to.get(r)) {
            return false;
        }
    }
    true
}

/// The cost of a step in microseconds: the deviation of its length in rendition 0 from the preferred one, plus the rule's charge.
#[inline(always)]
pub fn pair_cost(goal: Goal, from: &Spots, to: &Spots) -> u64
    requires goal { IsGoal goal }
    requires from_one { 0 < length from.now }
    requires to_one { 0 < length to.now }
    requires small { (spot_in to.now 0).prev_end < 2 ^ 53 }
    ensures { result ≡ step_cost goal from.now to.now }
{
    let length = to.get(0).prev_end.saturating_sub(from.get(0).start);
    length.abs_diff(goal.preferred) + goal.rule.charge()
}
