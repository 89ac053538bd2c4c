//! Finds the places that steps from one place lead to. By the order of the table they are contiguous.
//!
//! Only pairs that aren't steps are counted here: a step is counted when its price is offered, so no pair is counted twice.
ghost use Rattle.std.specs.Prelude.{◌≡◌, ℕ, ◌+◌, ◌-◌, ◌/◌, ◌^◌, ◌<◌, ◌≤◌, length, IfNone, MatchOption};
ghost use Rattle.hls_check_tables.specs.Tables.{IsTable};
ghost use Rattle.hls_check_tables.specs.Orders.{IsRowEnd, IsOrderly};
ghost use Rattle.hls_check_tables.specs.Steps.{Allowed};
ghost use Rattle.hls_plan.specs.Spans.{IsSpan, IsFirstStep, IsNoStep, HasPairLooks, HasRowLooks};

use hls_check_tables::PlaceTable;
use hls_time::Ticks;

/// The first place after place `p` that a step from it leads to. The search stops at the first place that is too far away in rendition 0 or
/// after a gap.
fn first_step(table: &PlaceTable, p: usize, ticks: &mut Ticks) -> Option<usize>
    requires in_range { p < length table.now.places }
    requires room { ticks.old < 2 ^ 62 + 2 ^ 61 }
    ensures found { MatchOption result (IsNoStep table.now p) (IsFirstStep table.now p) }
    ensures rises { ticks.old ≤ ticks.new }
    ensures pairs { MatchOption result (ticks.new + p + 1 ≤ ticks.old + length table.now.places) (λ q. ticks.new + p + 1 ≤ ticks.old + q) }
    ensures row { IfNone result ((end : ℕ) → p < end → end < length table.now.places → IsRowEnd table.now p end → ticks.new + p ≤ ticks.old + end) }
{
    let count = table.len();
    for q in p + 1..count {
        if table.is_allowed(p, q) {
            return Some(q);
        }
        ticks.tick();
        if table.is_row_end(p, q) {
            return None;
        }
    }
    None
}

/// The next place to examine, given one that a step leads to: further away by an eighth of the distance.
#[inline(always)]
fn lookahead_end(p: usize, last: usize) -> usize
    requires forward { p < last }
    requires small { last < 2 ^ 32 }
    ensures { result ≡ last + 1 + (last - p) / 8 }
{
    last + 1 + (last - p) / 8
}

/// Jumps ahead in growing distances while a step leads there. Returns the last place found, and a later place such that no step leads to it
/// or beyond.
fn look_ahead(table: &PlaceTable, p: usize, first: usize, ticks: &mut Ticks) -> (usize, usize)
    requires forward { p < first }
    requires step { Allowed table.now p first }
    requires room { ticks.old < 2 ^ 62 + 2 ^ 61 }
    ensures allowed { Allowed table.now p result.0 }
    ensures not_before { first ≤ result.0 }
    ensures before { (result.0 < result.1) × (result.1 ≤ length table.now.places) }
    ensures none { (j : ℕ) → result.1 ≤ j → Allowed table.now p j → ⊥ }
    ensures near { result.1 ≤ result.0 + 1 + (result.0 - p) / 8 }
    ensures looked { (ticks.old ≤ ticks.new) × (ticks.new ≤ ticks.old + 1) × (ticks.new + result.1 ≤ ticks.old + length table.now.places) }
{
    let count = table.len();
    let mut last = first;
    let mut far = lookahead_end(p, last);
    while far < count {
        if !table.is_allowed(p, far) {
            ticks.tick();
            return (last, far);
        }
        last = far;
        far = lookahead_end(p, last);
    }
    (last, count)
}

/// The last place that a step from place `p` leads to, given that one leads to place `low`, and none to place `high` or a later one.
fn last_allowed_between(
    table: &PlaceTable,
    p: usize,
    low: usize,
    high: usize,
    ticks: &mut Ticks,
) -> usize
    requires valid { IsTable table.now }
    requires orderly { IsOrderly table.now }
    requires step { Allowed table.now p low }
    requires before { (low < high) × (high ≤ length table.now.places) }
    requires none { (j : ℕ) → high ≤ j → Allowed table.now p j → ⊥ }
    requires room { ticks.old < 2 ^ 62 + 2 ^ 61 + 2 ^ 60 }
    ensures allowed { Allowed table.now p result }
    ensures not_before { low ≤ result }
    ensures last { (j : ℕ) → result < j → Allowed table.now p j → ⊥ }
    ensures looked { (ticks.old ≤ ticks.new) × (ticks.new + result + 1 ≤ ticks.old + high) }
{
    let mut last = low;
    let mut end = high;
    while last + 1 < end {
        let middle = last + (end - last) / 2;
        if table.is_allowed(p, middle) {
            last = middle;
        } else {
            ticks.tick();
            end = middle;
        }
    }
    last
}

/// The range of the places that steps from place `p` lead to: from the first, and below the second. Examines each place up to the first of
/// them; to find the last, it examines relatively fewer the further they extend.
pub fn find_reachable_range(
    table: &PlaceTable,
    p: usize,
    ticks: &mut Ticks,
) -> Option<(usize, usize)>
    requires valid { IsTable table.now }
    requires orderly { IsOrderly table.now }
    requires in_range { p < length table.now.places }
    requires room { ticks.old < 2 ^ 62 + 2 ^ 60 }
    ensures found { MatchOption result (IsNoStep table.now p) (λ f. IsSpan table.now p f.0 f.1) }
    ensures rises { ticks.old ≤ ticks.new }
    ensures pairs { HasPairLooks table.now p result ticks.old ticks.new }
    ensures row { HasRowLooks table.now p result ticks.old ticks.new }
{
    let Some(first) = first_step(table, p, ticks) else {
        return None;
    };
    let (low, high) = look_ahead(table, p, first, ticks);
    let last = last_allowed_between(table, p, low, high, ticks);
    Some((first, last + 1))
}
