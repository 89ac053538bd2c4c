//! Tables of common places, in order.

ghost use Rattle.std.specs.Prelude.{◌≡◌, ℕ, ◌-◌, ◌<◌, ◌≤◌, ◌↔◌, length, IsTrue, MatchOption};
ghost use Rattle.hls_time.specs.Times.{Fits};
ghost use Rattle.hls_check_tables.specs.Tables.{IsTable, place_at};
ghost use Rattle.hls_check_tables.specs.Orders.{IsOrderly, IsPastGap, IsRowEnd};
ghost use Rattle.hls_check_tables.specs.Steps.{Allowed, cost, cost_limit};

use crate::certificate_table::CertificateTable;
use crate::goal::Goal;
use crate::orders::{first_unsorted, is_rising_throughout};
use crate::spot::Spot;
use crate::spots::Spots;
use hls_time::fits;
use std::marker::Model;

/// A table of common places in order: in rendition 0 the starts increase; in every rendition `fragment`, `prev_end` and `run_in` don't
/// decrease, `prev_end` is at most `start`, and `run_in` at most `run_out`.
#[derive(Drop)]
pub struct PlaceTable {
    table: CertificateTable,
}

impl Model for PlaceTable {
    ghost use Rattle.hls_check_tables.specs.Tables.{Table};
    ghost use Rattle.hls_check_tables.specs.Orders.{IsOrderly};

    ghost Value = { Table };

    ghost view = { λ t. t.table };

    ghost invariant = { λ t. IsOrderly t.table };
}

fn is_orderly(table: &CertificateTable) -> bool
    ensures { IsTrue result ↔ IsOrderly table.now }
{
    if let Some(_) = first_unsorted(table) {
        return false;
    }
    is_rising_throughout(table)
}

#[inline(always)]
fn is_too_long(target: u64, from: Spot, to: Spot) -> bool
    ensures { IsTrue result ↔ ¬ Fits (to.prev_end - from.start) target }
{
    !fits(to.prev_end.saturating_sub(from.start), target)
}

#[inline(always)]
fn is_past_gap(from: &Spots, to: &Spots) -> bool
    requires { length to.now ≡ length from.now }
    ensures { IsTrue result ↔ IsPastGap from.now to.now }
{
    for r in 0..from.len() {
        if to.get(r).run_in > from.get(r).run_out {
            return true;
        }
    }
    false
}

impl PlaceTable {
    pub fn new(table: CertificateTable) -> PlaceTable
        requires { IsOrderly table }
        ensures { result ≡ table }
    {
        PlaceTable { table }
    }

    /// Returns the table, or `None` if its places aren't in order.
    pub fn try_new(table: CertificateTable) -> Option<PlaceTable>
        ensures { MatchOption result (¬ IsOrderly table) (λ t. IsOrderly t × (t ≡ table)) }
    {
        if !is_orderly(&table) {
            return None;
        }
        Some(PlaceTable::new(table))
    }

    #[inline(always)]
    pub fn table(&self) -> &CertificateTable
        ensures table { result.now ≡ self.now }
        ensures orderly { IsOrderly self.now }
    {
        &self.table
    }

    pub fn into_table(self) -> CertificateTable
        ensures { result ≡ self }
    {
        self.table
    }

    /// The goal of its plans.
    #[inline(always)]
    pub fn goal(&self) -> Goal
        ensures { result ≡ self.now.goal }
    {
        self.table().goal()
    }

    /// The maximum length of a segment, in seconds.
    #[inline(always)]
    pub fn target(&self) -> u64
        ensures { result ≡ self.now.goal.target }
    {
        self.table().goal().target
    }

    #[inline(always)]
    pub fn rendition_count(&self) -> usize
        ensures { result ≡ self.now.renditions }
    {
        self.table().rendition_count()
    }

    /// The number of places.
    #[inline(always)]
    pub fn len(&self) -> usize
        ensures len { result ≡ length self.now.places }
        ensures valid { IsTable self.now }
        ensures orderly { IsOrderly self.now }
    {
        self.table().len()
    }

    #[inline(always)]
    pub fn places(&self) -> &[Spots]
        ensures { result.now ≡ self.now.places }
    {
        self.table().places()
    }

    #[inline(always)]
    pub fn place(&self, p: usize) -> &Spots
        requires { p < length self.now.places }
        ensures { result.now ≡ place_at self.now.places p }
    {
        self.table().place(p)
    }

    /// Whether the step from place `p` to place `q` is allowed. False if one of them doesn't exist.
    #[inline(always)]
    pub fn is_allowed(&self, p: usize, q: usize) -> bool
        ensures { IsTrue result ↔ Allowed self.now p q }
    {
        self.table().is_allowed(p, q)
    }

    /// The cost of an allowed step, in microseconds.
    #[inline(always)]
    pub fn cost(&self, p: usize, q: usize) -> u64
        requires { Allowed self.now p q }
        ensures cost { result ≡ cost self.now p q }
        ensures bound { result ≤ cost_limit }
    {
        self.table().cost(p, q)
    }

    /// Whether the order alone excludes every step from place `p` to place `q` and to later ones: `q` is too far away in rendition 0, or
    /// after a gap in some rendition.
    #[inline(always)]
    pub fn is_row_end(&self, p: usize, q: usize) -> bool
        requires from_in { p < length self.now.places }
        requires to_in { q < length self.now.places }
        ensures exact { IsTrue result ↔ IsRowEnd self.now p q }
        ensures none_after { IsTrue result → (j : ℕ) → q ≤ j → Allowed self.now p j → ⊥ }
    {
        let _ = self.len(); // the proof needs that the table is well formed and in order
        let from = self.place(p);
        let to = self.place(q);
        if is_too_long(self.target(), from.get(0), to.get(0)) {
            return true;
        }
        is_past_gap(from, to)
    }
}
