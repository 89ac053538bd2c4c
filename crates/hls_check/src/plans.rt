//! The tests of a plan: its ends, its pairs and its cost.

ghost use Rattle.std.specs.Prelude.{◌≡◌, ℕ, ◌+◌, ◌*◌, ◌<◌, ◌≤◌, ◌↔◌, length, IsTrue, MatchOption, All};
ghost use Rattle.hls_check_tables.specs.Tables.{IsTable};
ghost use Rattle.hls_check_tables.specs.Plans.{plan_cost, HasEnds};
ghost use Rattle.hls_check.specs.Faults.{HasSteps, IsForwardStep, IsFirstBadPair};

use hls_check_tables::CertificateTable;

pub fn has_ends(table: &CertificateTable, plan: &[usize]) -> bool
    requires { 0 < length plan.now }
    ensures { IsTrue result ↔ HasEnds table.now plan.now }
{
    let last = table.len() - 1;
    plan[0] == 0 && plan[plan.len() - 1] == last
}

fn is_forward_step(table: &CertificateTable, p: usize, q: usize) -> bool
    ensures { IsTrue result ↔ IsForwardStep table.now p q }
{
    p < q && table.is_allowed(p, q)
}

/// The first pair of a plan that isn't increasing or isn't an allowed step.
pub fn first_bad_pair(table: &CertificateTable, plan: &[usize]) -> Option<(usize, usize)>
    ensures { MatchOption result (HasSteps table.now plan.now) (λ pair. IsFirstBadPair table.now plan.now pair.0 pair.1) }
{
    for k in 1..plan.len() {
        let p = plan[k - 1];
        let q = plan[k];
        if !is_forward_step(table, p, q) {
            return Some((p, q));
        }
    }
    None
}

/// The cost of a plan, in microseconds.
pub fn plan_cost(table: &CertificateTable, plan: &[usize]) -> u64
    requires valid { IsTable table.now }
    requires some { 0 < length plan.now }
    requires in_range { All (λ p. p < length table.now.places) plan.now }
    requires steps { HasSteps table.now plan.now }
    ensures { result ≡ plan_cost table.now plan.now }
{
    let mut total = 0;
    for k in 1..plan.len() {
        total += table.cost(plan[k - 1], plan[k]);
    }
    total
}
