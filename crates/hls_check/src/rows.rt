//! Finds the first step that doesn't respect the prices. A row of a table is the steps from one place. The rows are examined in blocks:
//! each place is compared with all rows of a block before the next place is.

ghost use Rattle.std.specs.Prelude.{◌≡◌, ℕ, ◌+◌, ◌*◌, ◌<◌, ◌≤◌, ◌↔◌, length, IsTrue, MatchOption, Some};
ghost use Rattle.std.specs.Bool.{MatchBool};
ghost use Rattle.hls_check_tables.specs.Tables.{IsTable};
ghost use Rattle.hls_check_tables.specs.Certificates.{KeepsPrice, claim_data};
ghost use Rattle.hls_check.specs.Rows.{claimed_prices, StepKeepsPrices, ColumnKeepsPrices, IsFirstOfColumn, IsLowerBound, IsBelowBound, IsFirstOfRowsOrNone, IsFirstBrokenOrNone};

use crate::prices::price_of;
use crate::steps::is_step;
use hls_check_tables::{CertificateTable, Claim};
use std::ops::Range;

/// The number of rows in a block. Their places should stay in the processor's first-level cache.
pub const BLOCK_ROWS: usize = 32;

/// Whether a step of this cost, from a place with price `from` to one with price `to`, respects the prices.
#[inline(always)]
fn keeps_price(cost: u64, from: u64, to: Option<u64>) -> bool
    ensures { IsTrue result ↔ KeepsPrice cost (Some from) to }
{
    match to {
        None => false,
        Some(to) => to <= from.saturating_add(cost),
    }
}

/// Whether the step from place `p` to place `q` doesn't respect the prices.
#[inline(always)]
fn is_broken_step(
    table: &CertificateTable,
    claim: &Claim,
    p: usize,
    q: usize,
    row: &mut usize,
    column: &mut usize,
) -> bool
    requires valid { IsTable table.now }
    requires forward { p < q }
    requires in_range { q < length table.now.places }
    requires one_each { length (claimed_prices (claim_data claim.now)) ≡ length table.now.places }
    ensures { MatchBool result (StepKeepsPrices table.now (claim_data claim.now) p q → ⊥) (StepKeepsPrices table.now (claim_data claim.now) p q) }
{
    let Some(price) = price_of(claim, p) else {
        return false;
    };
    // The prices are compared first: that takes two numbers, whereas a step takes five for each rendition.
    if keeps_price(table.cost_between(p, q), price, price_of(claim, q)) {
        return false;
    }
    is_step(table, p, q, row, column)
}

/// The first place in `first..end` from which the step to place `q` doesn't respect the prices.
#[inline(always)]
fn first_broken_in_column(
    table: &CertificateTable,
    claim: &Claim,
    first: usize,
    end: usize,
    q: usize,
    rows: &mut [usize; BLOCK_ROWS],
) -> Option<usize>
    requires valid { IsTable table.now }
    requires forward { end ≤ q }
    requires in_block { end ≤ first + 32 }
    requires in_range { q < length table.now.places }
    requires one_each { length (claimed_prices (claim_data claim.now)) ≡ length table.now.places }
    ensures { MatchOption result (ColumnKeepsPrices table.now (claim_data claim.now) first end q) (IsFirstOfColumn table.now (claim_data claim.now) first end q) }
{
    let mut column = 0;
    for p in first..end {
        if is_broken_step(table, claim, p, q, &mut rows[p - first], &mut column) {
            return Some(p);
        }
    }
    None
}

/// A lower bound of some rows: no place with a price has a lower price, and none starts later.
#[derive(Clone, Copy)]
struct LowerBound {
    price: u64,
    start: u64,
}

fn lower_bound_of(table: &CertificateTable, claim: &Claim, first: usize, end: usize) -> LowerBound
    requires valid { IsTable table.now }
    requires in_range { end ≤ length table.now.places }
    requires one_each { length (claimed_prices (claim_data claim.now)) ≡ length table.now.places }
    ensures { IsLowerBound table.now (claim_data claim.now) first end result.price result.start }
{
    let mut lower_bound = LowerBound {
        price: u64::MAX,
        start: 0,
    };
    for p in first..end {
        if let Some(price) = price_of(claim, p) {
            lower_bound.price = lower_bound.price.min(price);
            lower_bound.start = lower_bound.start.max(table.place(p).get(0).start);
        }
    }
    lower_bound
}

/// Whether the price of place `q` is so low that the steps to it from all of these rows respect the prices.
#[inline(always)]
fn is_below_bound(
    table: &CertificateTable,
    claim: &Claim,
    lower_bound: LowerBound,
    q: usize,
) -> bool
    requires valid { IsTable table.now }
    requires in_range { q < length table.now.places }
    requires one_each { length (claimed_prices (claim_data claim.now)) ≡ length table.now.places }
    ensures { IsTrue result → IsBelowBound table.now (claim_data claim.now) lower_bound.price lower_bound.start q }
{
    let Some(price) = price_of(claim, q) else {
        return false;
    };
    let least = lower_bound.start.saturating_add(table.preferred());
    price
        <= lower_bound
            .price
            .saturating_add(table.place(q).get(0).prev_end.saturating_sub(least))
}

/// The first of these places, to which the lower bound applies, from which the step to place `q` doesn't respect the prices.
#[inline(always)]
fn column_fault(
    table: &CertificateTable,
    claim: &Claim,
    lower_bound: LowerBound,
    places: Range<usize>,
    q: usize,
    rows: &mut [usize; BLOCK_ROWS],
) -> Option<usize>
    requires valid { IsTable table.now }
    requires in_block { places.end ≤ places.start + 32 }
    requires in_range { q < length table.now.places }
    requires one_each { length (claimed_prices (claim_data claim.now)) ≡ length table.now.places }
    requires lower_bound { IsLowerBound table.now (claim_data claim.now) places.start places.end lower_bound.price lower_bound.start }
    ensures { MatchOption result (ColumnKeepsPrices table.now (claim_data claim.now) places.start places.end q)
        (IsFirstOfColumn table.now (claim_data claim.now) places.start places.end q) }
{
    if is_below_bound(table, claim, lower_bound, q) {
        return None;
    }
    first_broken_in_column(table, claim, places.start, places.end.min(q), q, rows)
}

/// The first step from a block of places that doesn't respect the prices. After one is found, only the rows before it are examined further.
pub fn first_broken_in_block(
    table: &CertificateTable,
    claim: &Claim,
    first: usize,
) -> Option<(usize, usize)>
    requires in_range { first < length table.now.places }
    requires one_each { length (claimed_prices (claim_data claim.now)) ≡ length table.now.places }
    ensures { IsFirstOfRowsOrNone table.now (claim_data claim.now) first (first + 32) result }
{
    let count = table.len();
    let mut end = count.min(first + BLOCK_ROWS);
    let lower_bound = lower_bound_of(table, claim, first, end);
    let mut rows = [0; BLOCK_ROWS];
    let mut found = None;
    for q in first + 1..count {
        let Some(p) = column_fault(table, claim, lower_bound, first..end, q, &mut rows) else {
            continue;
        };
        end = p;
        found = Some((p, q));
    }
    found
}

/// The first step that doesn't respect the prices: the one with the least first place, and of these the one with the least second place.
pub fn first_broken_step(table: &CertificateTable, claim: &Claim) -> Option<(usize, usize)>
    requires { length (claimed_prices (claim_data claim.now)) ≡ length table.now.places }
    ensures { IsFirstBrokenOrNone table.now (claim_data claim.now) result }
{
    let mut first = 0;
    while first < table.len() {
        if let Some(step) = first_broken_in_block(table, claim, first) {
            return Some(step);
        }
        first += BLOCK_ROWS;
    }
    None
}
