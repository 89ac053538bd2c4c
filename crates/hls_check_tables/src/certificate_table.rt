//! The tables of certificates, and their limits.

ghost use Rattle.std.specs.Prelude.{◌≡◌, ◌<◌, ◌≤◌, ◌↔◌, length, IsTrue, MatchOption, IfOk, All};
ghost use Rattle.hls_check_tables.specs.Tables.{IsSpotInRange, IsPlaceOf, IsTable, place_at, table_of};
ghost use Rattle.hls_check_tables.specs.Steps.{Allowed, cost, cost_limit};

use crate::allowed::{pair_allowed, pair_cost};
use crate::goal::{Goal, is_goal};
use crate::spot::Spot;
use crate::spots::Spots;
use std::alloc::{AllocError, Global};
use std::marker::Model;

/// The table of a certificate: 2 to 16384 places of 1 to 16 renditions, each number below 2^53, in any order, and a goal within its ranges.
#[derive(Drop)]
pub struct CertificateTable {
    goal: Goal,
    renditions: usize,
    places: Vec<Spots>,
}

impl Model for CertificateTable {
    ghost use Rattle.hls_check_tables.specs.Tables.{Table, IsTable, table_of};

    ghost Value = { Table };

    ghost view = { λ t. table_of t.goal t.renditions t.places.items };

    ghost invariant = { λ t. IsTable (table_of t.goal t.renditions t.places.items) };
}

/// The maximum number of renditions of a table, and of a channel.
pub const RENDITION_LIMIT: usize = 16;

/// The maximum number of places of a table, and so of a programme.
pub const PLACE_LIMIT: usize = 16384;

const SPOT_LIMIT: u64 = 1 << 53;

fn is_spot_in_range(spot: &Spot) -> bool
    ensures { IsTrue result ↔ IsSpotInRange spot.now }
{
    spot.fragment < SPOT_LIMIT
        && spot.prev_end < SPOT_LIMIT
        && spot.start < SPOT_LIMIT
        && spot.run_in < SPOT_LIMIT
        && spot.run_out < SPOT_LIMIT
}

fn is_place_of(renditions: usize, place: &Spots) -> bool
    ensures { IsTrue result ↔ IsPlaceOf renditions place.now }
{
    place.len() == renditions && place.as_slice().iter().all(|spot| is_spot_in_range(spot))
}

fn are_places_of(renditions: usize, places: &[Spots]) -> bool
    ensures { IsTrue result ↔ All (IsPlaceOf renditions) places.now }
{
    places.iter().all(|place| is_place_of(renditions, place))
}

fn is_table(goal: Goal, renditions: usize, places: &[Spots]) -> bool
    ensures { IsTrue result ↔ IsTable (table_of goal renditions places.now) }
{
    is_goal(goal)
        && 1 <= renditions
        && renditions <= RENDITION_LIMIT
        && 2 <= places.len()
        && places.len() <= PLACE_LIMIT
        && are_places_of(renditions, places)
}

impl CertificateTable {
    pub fn new(goal: Goal, renditions: usize, places: Vec<Spots>) -> CertificateTable
        requires { IsTable (table_of goal renditions places.items) }
        ensures { result ≡ table_of goal renditions places.items }
    {
        CertificateTable {
            goal,
            renditions,
            places,
        }
    }

    /// Returns the table, or `None` if a value is out of its range.
    pub fn try_new(goal: Goal, renditions: usize, places: Vec<Spots>) -> Option<CertificateTable>
        ensures { let t = table_of goal renditions places.items in MatchOption result (¬ IsTable t) (λ table. IsTable t × (table ≡ t)) }
    {
        if !is_table(goal, renditions, places.as_slice()) {
            return None;
        }
        Some(CertificateTable::new(goal, renditions, places))
    }

    /// The goal of its plans.
    #[inline(always)]
    pub fn goal(&self) -> Goal
        ensures { result ≡ self.now.goal }
    {
        self.goal
    }

    /// The preferred length of a segment, in microseconds.
    #[inline(always)]
    pub fn preferred(&self) -> u64
        ensures { result ≡ self.now.goal.preferred }
    {
        self.goal.preferred
    }

    #[inline(always)]
    pub fn rendition_count(&self) -> usize
        ensures { result ≡ self.now.renditions }
    {
        self.renditions
    }

    /// The number of places.
    #[inline(always)]
    pub fn len(&self) -> usize
        ensures len { result ≡ length self.now.places }
        ensures valid { IsTable self.now }
    {
        self.places.len()
    }

    #[inline(always)]
    pub fn places(&self) -> &[Spots]
        ensures { result.now ≡ self.now.places }
    {
        self.places.as_slice()
    }

    #[inline(always)]
    pub fn place(&self, p: usize) -> &Spots
        requires { p < length self.now.places }
        ensures { result.now ≡ place_at self.now.places p }
    {
        &self.places[p]
    }

    /// Whether the step from place `p` to place `q` is allowed. False if one of them doesn't exist.
    #[inline(always)]
    pub fn is_allowed(&self, p: usize, q: usize) -> bool
        ensures { IsTrue result ↔ Allowed self.now p q }
    {
        p < self.len()
            && q < self.len()
            && pair_allowed(self.goal.target, self.place(p), self.place(q))
    }

    /// The cost that the step from place `p` to place `q` has if it is allowed, in microseconds.
    #[inline(always)]
    pub fn cost_between(&self, p: usize, q: usize) -> u64
        requires from_in { p < length self.now.places }
        requires to_in { q < length self.now.places }
        ensures { result ≡ cost self.now p q }
    {
        let _ = self.len(); // the proof needs that the table is well formed
        pair_cost(self.goal(), self.place(p), self.place(q))
    }

    /// The cost of an allowed step, in microseconds.
    #[inline(always)]
    pub fn cost(&self, p: usize, q: usize) -> u64
        requires { Allowed self.now p q }
        ensures cost { result ≡ cost self.now p q }
        ensures bound { result ≤ cost_limit }
    {
        let _ = self.len(); // the proof needs that the table is well formed
        self.cost_between(p, q)
    }

    /// A copy that shares each place's spots with the original.
    pub fn copy_table(&self, alloc: Global) -> Result<CertificateTable, AllocError>
        ensures { IfOk result (λ copy. copy ≡ self.now) }
    {
        let mut places = Vec::with_capacity(alloc, self.len())?;
        for place in self.places() {
            places.push(place.share()?)?;
        }
        Ok(CertificateTable::new(self.goal(), self.rendition_count(), places))
    }
}
