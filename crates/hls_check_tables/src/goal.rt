//! The goal of a plan.

ghost use Rattle.std.specs.Prelude.{◌↔◌, IsTrue};
ghost use Rattle.hls_check_tables.specs.Tables.{IsGoal};

use crate::cost_rule::CostRule;

/// The maximum target, in seconds.
pub const TARGET_LIMIT: u64 = 3600;

/// The maximum preferred length, in microseconds.
pub const PREFERRED_LIMIT: u64 = 3_600_000_000;

/// The maximum charge for a segment, in microseconds.
pub const CHARGE_LIMIT: u64 = 3_600_000_000;

/// The goal of a plan: the maximum and the preferred length of a segment, and the rule for its cost.
#[derive(Clone, Copy, PartialEq, Eq)]
pub struct Goal {
    /// The maximum length of a segment, 1 to 3600 seconds.
    pub target: u64,

    /// The preferred length of a segment, 1 to 3600000000 microseconds.
    pub preferred: u64,

    /// The rule for the cost of a segment.
    pub rule: CostRule,
}

/// Whether each value is in its range.
pub fn is_goal(goal: Goal) -> bool
    ensures { IsTrue result ↔ IsGoal goal }
{
    1 <= goal.target
        && goal.target <= TARGET_LIMIT
        && 1 <= goal.preferred
        && goal.preferred <= PREFERRED_LIMIT
        && goal.rule.charge() <= CHARGE_LIMIT
}
