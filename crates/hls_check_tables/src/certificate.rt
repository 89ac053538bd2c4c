//! Certificates and their claims.

ghost use Rattle.std.specs.Prelude.{◌≡◌, ◌<◌, ◌↔◌, length, IsTrue, MatchOption, All};
ghost use Rattle.hls_check_tables.specs.Certificates.{CertificateData, claim_data, IsPriceInRange, IsCutForm, IsForm, IsCertificate};

use crate::certificate_table::CertificateTable;
use std::marker::Model;

/// The claim of a certificate about its table. Places are numbered from 0; prices and costs are in microseconds.
#[derive(Drop)]
pub enum Claim {
    /// This plan is optimal and has this cost. `prices` has one entry for each place: the least cost at which it can be reached, or None.
    Cut {
        cost: u64,
        plan: Vec<usize>,
        prices: Vec<Option<u64>>,
    },

    /// No plan exists. `closed` has one entry for each place: whether it can be reached.
    NoCut {
        closed: Vec<bool>,
    },
}

/// A table and a claim about it that can be written as text: the plan isn't empty and consists of places of the table, and each number is
/// below 2^53. The claim may be false; a checker decides that.
#[derive(Drop)]
pub struct Certificate {
    table: CertificateTable,
    claim: Claim,
}

impl Model for Certificate {
    ghost use Rattle.std.specs.Prelude.{length};
    ghost use Rattle.hls_check_tables.specs.Certificates.{CertificateData, claim_data, IsForm};

    ghost Value = { CertificateData };

    ghost view = { λ c. record { table = c.table; shown = claim_data c.claim } };

    ghost invariant = { λ c. IsForm (length c.table.places) (claim_data c.claim) };
}

const NUMBER_LIMIT: u64 = 1 << 53;

fn is_plan_in_range(count: usize, plan: &[usize]) -> bool
    ensures { IsTrue result ↔ All (λ p. p < count) plan.now }
{
    plan.iter().all(|p| *p < count)
}

fn is_price_in_range(price: &Option<u64>) -> bool
    ensures { IsTrue result ↔ IsPriceInRange price.now }
{
    match price {
        None => true,
        Some(price) => *price < NUMBER_LIMIT,
    }
}

fn are_prices_in_range(prices: &[Option<u64>]) -> bool
    ensures { IsTrue result ↔ All IsPriceInRange prices.now }
{
    prices.iter().all(|price| is_price_in_range(price))
}

fn is_cut_form(count: usize, cost: u64, plan: &[usize], prices: &[Option<u64>]) -> bool
    ensures { IsTrue result ↔ IsCutForm count cost plan.now prices.now }
{
    cost < NUMBER_LIMIT
        && !plan.is_empty()
        && is_plan_in_range(count, plan)
        && prices.len() == count
        && are_prices_in_range(prices)
}

fn is_form(count: usize, claim: &Claim) -> bool
    ensures { IsTrue result ↔ IsForm count (claim_data claim.now) }
{
    match claim {
        Claim::Cut { cost, plan, prices } => {
            is_cut_form(count, *cost, plan.as_slice(), prices.as_slice())
        }
        Claim::NoCut { closed } => closed.len() == count,
    }
}

impl Certificate {
    pub fn new(table: CertificateTable, claim: Claim) -> Certificate
        requires { IsForm (length table.places) (claim_data claim) }
        ensures { result ≡ record { table = table; shown = claim_data claim } }
    {
        Certificate { table, claim }
    }

    /// Returns the certificate, or `None` if the claim doesn't fit the table or a number is out of range.
    pub fn try_new(table: CertificateTable, claim: Claim) -> Option<Certificate>
        ensures { MatchOption result (¬ IsForm (length table.places) (claim_data claim)) (λ c. IsCertificate c × (c.table ≡ table) × (c.shown ≡ claim_data claim)) }
    {
        if !is_form(table.len(), &claim) {
            return None;
        }
        Some(Certificate::new(table, claim))
    }

    #[inline(always)]
    pub fn table(&self) -> &CertificateTable
        ensures table { result.now ≡ self.now.table }
        ensures form { IsCertificate self.now }
    {
        let _ = self.table.len(); // the proof needs that the table is well formed
        &self.table
    }

    #[inline(always)]
    pub fn claim(&self) -> &Claim
        ensures { claim_data result.now ≡ self.now.shown }
    {
        &self.claim
    }
}
