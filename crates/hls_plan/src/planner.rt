//! The planner.

ghost use Rattle.std.specs.Prelude.{◌≡◌, ℕ, ◌+◌, ◌-◌, ◌*◌, ◌/◌, ◌^◌, ◌<◌, ◌≤◌, length, map, is_some, IfOk, Option, Some, true};
ghost use Rattle.hls_check_tables.specs.Tables.{IsTable};
ghost use Rattle.hls_check_tables.specs.Orders.{IsOrderly};
ghost use Rattle.hls_check_tables.specs.Plans.{IsPlan, plan_cost};
ghost use Rattle.hls_check_tables.specs.Certificates.{price_at, IsGood};
ghost use Rattle.hls_plan.specs.Planned.{IsBest, HasExactPrices, HasClaimForm, certificate_of};
ghost use Rattle.hls_plan.specs.PairCounts.{pair_count, EndsWithin};
ghost use Rattle.hls_plan.specs.Pricing.{IsPricing, IsPlannerResult};

use crate::planned::Planned;
use crate::price_table::{PriceTable, price_of, price_places};
use hls_check_tables::PlaceTable;
use hls_time::Ticks;
use std::alloc::{AllocError, Global};

/// Traces the plan back from the last place by the origins.
fn trace_plan(
    alloc: Global,
    table: &PlaceTable,
    prices: &[Option<u64>],
    origins: &[usize],
) -> Result<Vec<usize>, AllocError>
    requires pricing { IsPricing table.now (length table.now.places) 0 prices.now origins.now }
    requires reached { is_some (price_at prices.now (length table.now.places - 1)) ≡ true }
    ensures { IfOk result (λ plan. IsPlan table.now plan.items × (price_at prices.now (length table.now.places - 1) ≡ Some (plan_cost table.now plan.items))) }
{
    let mut at = table.len() - 1;
    let mut path = Vec::new(alloc);
    path.push(at)?;
    while at != 0 {
        at = origins[at];
        path.push(at)?;
    }
    path.as_mut_slice().reverse();
    Ok(path)
}

/// The set of places that have a price.
fn closed_set(alloc: Global, prices: &[Option<u64>]) -> Result<Vec<bool>, AllocError>
    ensures { IfOk result (λ closed. closed.items ≡ map is_some prices.now) }
{
    prices.iter().map(|price| price.is_some()).collect(alloc)
}

fn find_plan(alloc: Global, table: &PlaceTable, ticks: &mut Ticks) -> Result<Planned, AllocError>
    requires { ticks.old < 2 ^ 62 }
    ensures valid { IsTable table.now }
    ensures orderly { IsOrderly table.now }
    ensures found { IfOk result (IsPlannerResult table.now) }
    ensures rises { ticks.old ≤ ticks.new }
    ensures pairs { ticks.new ≤ ticks.old + pair_count (length table.now.places) }
    ensures rows { (reach : ℕ) → EndsWithin table.now reach → ticks.new ≤ ticks.old + length table.now.places * (reach + reach / 8) }
{
    let PriceTable { prices, origins } = price_places(alloc, table, ticks)?;
    let last = table.len() - 1;
    if price_of(prices.as_slice(), last).is_some() {
        let plan = trace_plan(alloc, table, prices.as_slice(), origins.as_slice())?;
        return Ok(Planned::Cut { plan, prices });
    }
    let closed = closed_set(alloc, prices.as_slice())?;
    Ok(Planned::NoCut { closed })
}

/// Returns an optimal plan with the least cost of each place, or, if there is no plan, the set of the places that can be reached. `ticks`
/// is incremented for each pair of places that is examined.
///
/// The places that can be reached from one place by a step are contiguous. So the search examines the pairs of a place with later ones up
/// to the first that a step leads to, then jumps ahead in growing distances to find the last, and then offers a price to each place
/// between. A pair that is examined again for its price is counted once. If each row of pairs ends within `reach` places, as with places a
/// second apart and a target of 6 s (`reach` is 7), the count for each place is at most `reach` plus an eighth. In any table it is at most
/// one for each pair.
pub fn plan_counted(
    alloc: Global,
    table: &PlaceTable,
    ticks: &mut Ticks,
) -> Result<Planned, AllocError>
    requires { ticks.old < 2 ^ 62 }
    ensures good { IfOk result (λ planned. IsGood (certificate_of table.now planned)) }
    ensures best { IfOk result (IsBest table.now) }
    ensures exact { IfOk result (HasExactPrices table.now) }
    ensures shown { IfOk result (HasClaimForm table.now) }
    ensures rises { ticks.old ≤ ticks.new }
    ensures pairs { ticks.new ≤ ticks.old + pair_count (length table.now.places) }
    ensures rows { (reach : ℕ) → EndsWithin table.now reach → ticks.new ≤ ticks.old + length table.now.places * (reach + reach / 8) }
{
    find_plan(alloc, table, ticks)
}

/// The same as `plan_counted`, with a counter of its own.
pub fn plan(alloc: Global, table: &PlaceTable) -> Result<Planned, AllocError>
    ensures good { IfOk result (λ planned. IsGood (certificate_of table.now planned)) }
    ensures best { IfOk result (IsBest table.now) }
    ensures exact { IfOk result (HasExactPrices table.now) }
    ensures shown { IfOk result (HasClaimForm table.now) }
{
    plan_counted(alloc, table, &mut Ticks::new())
}
