//! Decides what becomes of a unit.

ghost use Rattle.std.specs.Prelude.{◌≡◌};
ghost use Rattle.hls_mend_laws.specs.Treatments.{are_near as lie_near, can_start_at as may_start_at, is_retimable, other_treatment, treatment_of};

use hls_mend_laws::limits::MendLimits;
use hls_mend_laws::treatment::{Treatment, UnitSpan};

/// Whether two times are at most `most` ticks apart.
fn are_near(most: u64, a: u64, b: u64) -> bool
    ensures { result ≡ lie_near most a b }
{
    if a > b { a - b <= most } else { b - a <= most }
}

/// Whether the first sample of a unit can start at `start` and end as before.
fn can_start_at(start: u64, unit: UnitSpan) -> bool
    ensures { result ≡ may_start_at start unit }
{
    let first_end = u128::from(unit.start) + u128::from(unit.first);
    first_end > u128::from(start) && first_end < u128::from(start) + (1 << 32)
}

/// What becomes of a unit that is neither kept as it is nor written again.
fn treat_other(limits: MendLimits, end: u64, unit: UnitSpan) -> Treatment
    ensures { result ≡ other_treatment limits end unit }
{
    if unit.start > end {
        if unit.start - end <= limits.fill {
            Treatment::Fill
        } else {
            Treatment::Jump
        }
    } else if unit.may_be_cut && unit.duration > end - unit.start {
        Treatment::Cut
    } else {
        Treatment::Drop
    }
}

/// What becomes of a unit whose rendition ends at `end`, or has no unit yet.
#[tactic(auto, unfolding(hls_mend_laws::specs::Treatments::treatment_of))]
pub fn decide_treatment(limits: MendLimits, end: Option<u64>, unit: UnitSpan) -> Treatment
    ensures { result ≡ treatment_of limits end unit }
{
    let Some(end) = end else {
        return Treatment::Keep;
    };
    if unit.start == end {
        return Treatment::Keep;
    }
    if are_near(limits.snap, unit.start, end) && can_start_at(end, unit) {
        return Treatment::Retime;
    }
    treat_other(limits, end, unit)
}
