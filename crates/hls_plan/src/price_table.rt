//! The least cost of each place, computed place by place.

ghost use Rattle.std.specs.Prelude.{◌≡◌, ℕ, ◌+◌, ◌-◌, ◌*◌, ◌/◌, ◌^◌, ◌<◌, ◌≤◌, length, slice_set, IfOk, IsTrue, Option, Some, if◌then◌else◌};
ghost use Rattle.hls_check_tables.specs.Tables.{IsTable};
ghost use Rattle.hls_check_tables.specs.Certificates.{price_at};
ghost use Rattle.hls_check_tables.specs.Orders.{IsRowEnd, IsOrderly};
ghost use Rattle.hls_plan.specs.PairCounts.{pair_count, EndsWithin};
ghost use Rattle.hls_plan.specs.Pricing.{is_lower_price, IsPricing};

use crate::reach::find_reachable_range;
use hls_check_tables::PlaceTable;
use hls_time::Ticks;
use std::alloc::{AllocError, Global};

/// The price of each place, and for a place with a price the place from which it was reached.
#[derive(Drop)]
pub struct PriceTable {
    pub prices: Vec<Option<u64>>,
    pub origins: Vec<usize>,
}

/// The price of place `p`, if it has one.
#[inline(always)]
pub fn price_of(prices: &[Option<u64>], p: usize) -> Option<u64>
    requires { p < length prices.now }
    ensures { result ≡ price_at prices.now p }
{
    prices[p]
}

#[inline(always)]
fn is_lower_price(price: u64, found: Option<u64>) -> bool
    ensures { result ≡ is_lower_price price found }
{
    match found {
        None => true,
        Some(found) => price < found,
    }
}

/// Sets the price of place `q`, which is lower than the one found so far, and the place that it is reached from.
#[inline(always)]
fn lower_price(prices: &mut [Option<u64>], origins: &mut [usize], p: usize, q: usize, price: u64)
    requires price_in { q < length prices.old }
    requires origin_in { q < length origins.old }
    ensures price { prices.new ≡ (if is_lower_price price (price_at prices.old q) then slice_set prices.old q (Some price) else prices.old) }
    ensures origin { origins.new ≡ (if is_lower_price price (price_at prices.old q) then slice_set origins.old q p else origins.old) }
{
    if is_lower_price(price, price_of(prices, q)) {
        prices[q] = Some(price);
        origins[q] = p;
    }
}

/// Offers the price of place `p` plus the step's cost to each place that a step from it leads to.
fn relax_row(
    table: &PlaceTable,
    prices: &mut [Option<u64>],
    origins: &mut [usize],
    p: usize,
    ticks: &mut Ticks,
)
    requires valid { IsTable table.now }
    requires orderly { IsOrderly table.now }
    requires in_range { p < length table.now.places }
    requires priced { IsPricing table.now p 0 prices.old origins.old }
    requires room { ticks.old < 2 ^ 62 + 2 ^ 30 }
    ensures priced { IsPricing table.now (p + 1) 0 prices.new origins.new }
    ensures rises { ticks.old ≤ ticks.new }
    ensures pairs { ticks.new + p + 1 ≤ ticks.old + length table.now.places }
    ensures row { (end : ℕ) → p < end → end < length table.now.places → IsRowEnd table.now p end → ticks.new + p ≤ ticks.old + end + (end - p) / 8 }
{
    let Some(price) = price_of(prices, p) else {
        return;
    };
    let Some((first, end)) = find_reachable_range(table, p, ticks) else {
        return;
    };
    for q in first..end {
        ticks.tick();
        lower_price(prices, origins, p, q, price + table.cost(p, q));
    }
}

/// Examines the rows of all places in order.
fn relax_rows(
    table: &PlaceTable,
    prices: &mut [Option<u64>],
    origins: &mut [usize],
    ticks: &mut Ticks,
)
    requires priced { IsPricing table.now 0 0 prices.old origins.old }
    requires room { ticks.old < 2 ^ 62 }
    ensures priced { IsPricing table.now (length table.now.places) 0 prices.new origins.new }
    ensures rises { ticks.old ≤ ticks.new }
    ensures pairs { ticks.new ≤ ticks.old + pair_count (length table.now.places) }
    ensures rows { (reach : ℕ) → EndsWithin table.now reach → ticks.new ≤ ticks.old + length table.now.places * (reach + reach / 8) }
{
    let count = table.len();
    for p in 0..count {
        relax_row(table, prices, origins, p, ticks);
    }
}

/// The least cost of each place that can be reached from the first.
pub fn price_places(
    alloc: Global,
    table: &PlaceTable,
    ticks: &mut Ticks,
) -> Result<PriceTable, AllocError>
    requires { ticks.old < 2 ^ 62 }
    ensures valid { IsTable table.now }
    ensures orderly { IsOrderly table.now }
    ensures priced { IfOk result (λ pricing. IsPricing table.now (length table.now.places) 0 pricing.prices.items pricing.origins.items) }
    ensures rises { ticks.old ≤ ticks.new }
    ensures pairs { ticks.new ≤ ticks.old + pair_count (length table.now.places) }
    ensures rows { (reach : ℕ) → EndsWithin table.now reach → ticks.new ≤ ticks.old + length table.now.places * (reach + reach / 8) }
{
    let count = table.len();
    let mut prices = vec![in alloc; None; count]?;
    let mut origins = vec![in alloc; 0; count]?;
    prices[0] = Some(0);
    relax_rows(table, prices.as_mut_slice(), origins.as_mut_slice(), ticks);
    Ok(PriceTable { prices, origins })
}
