//! The checker: the tests in their order, with either search for a broken step. The program calls only `check_rows`; `check` differs from
//! it in the search.

ghost use Rattle.std.specs.Prelude.{◌≡◌, ℕ, ◌↔◌, length, IsTrue, IsOk, MatchOption, Err};
ghost use Rattle.hls_check_tables.specs.Tables.{IsTable};
ghost use Rattle.hls_check_tables.specs.Certificates.{IsCertificate, IsCutForm, IsGood, HasEqualCosts, CutClaim, NoneClaim, claim_data};
ghost use Rattle.hls_check_tables.specs.Orders.{IsSorted};
ghost use Rattle.hls_check.specs.Faults.{HasSteps};
ghost use Rattle.hls_check.specs.CheckResults.{CutCheckResult, NoneCheckResult, CheckResultOver, IsCheckResult};
ghost use Rattle.hls_check.specs.Rows.{claimed_prices, StepKeepsPrices, IsFirstBrokenOrNone, HasNoEarlyFault};

use crate::parallel::first_broken_step_in_parallel;
use crate::plans::{first_bad_pair, has_ends, plan_cost};
use crate::prices::{has_price, is_closed};
use crate::rows::first_broken_step;
use hls_check_tables::{CertFault, Certificate, CertificateTable, Claim, Verdict, first_unsorted};
use std::alloc::Global;
use std::thread::Threads;

fn has_equal_costs(
    table: &CertificateTable,
    total: u64,
    plan: &[usize],
    prices: &[Option<u64>],
) -> bool
    requires form { IsCutForm (length table.now.places) total plan.now prices.now }
    requires steps { HasSteps table.now plan.now }
    ensures { IsTrue result ↔ HasEqualCosts table.now total plan.now prices.now }
{
    let last = table.len() - 1;
    plan_cost(table, plan) == total && has_price(prices, last, total)
}

/// The first fault of a cut that isn't about the prices after a step.
#[tactic(auto, using(crate::proofs::PlanLists::plan_from_parts))]
fn find_early_cut_fault(
    table: &CertificateTable,
    total: u64,
    plan: &[usize],
    prices: &[Option<u64>],
) -> Option<CertFault>
    requires valid { IsTable table.now }
    requires form { IsCutForm (length table.now.places) total plan.now prices.now }
    requires sorted { IsSorted table.now }
    ensures { MatchOption result (HasNoEarlyFault table.now (CutClaim total plan.now prices.now)) (λ fault. CutCheckResult table.now total plan.now prices.now (Err fault)) }
{
    if !has_ends(table, plan) {
        return Some(CertFault::PlanEnds);
    }
    if let Some((p, q)) = first_bad_pair(table, plan) {
        return Some(CertFault::PlanStep { p, q });
    }
    if !has_equal_costs(table, total, plan, prices) {
        return Some(CertFault::PlanCost);
    }
    if !has_price(prices, 0, 0) {
        return Some(CertFault::PriceStart);
    }
    None
}

/// The first fault of a closed set that isn't about a step that leaves it.
fn find_early_none_fault(table: &CertificateTable, closed: &[bool]) -> Option<CertFault>
    requires valid { IsTable table.now }
    requires each { length closed.now ≡ length table.now.places }
    requires sorted { IsSorted table.now }
    ensures { MatchOption result (HasNoEarlyFault table.now (NoneClaim closed.now)) (λ fault. NoneCheckResult table.now closed.now (Err fault)) }
{
    if !is_closed(closed, 0) {
        return Some(CertFault::PriceStart);
    }
    None
}

/// The first fault that isn't about a step.
fn find_early_fault(certificate: &Certificate) -> Option<CertFault>
    ensures fault { MatchOption result (HasNoEarlyFault certificate.now.table certificate.now.shown) (λ fault. IsCheckResult certificate.now (Err fault)) }
    ensures form { IsCertificate certificate.now }
{
    let table = certificate.table();
    if let Some(place) = first_unsorted(table) {
        return Some(CertFault::TableNotSorted { place });
    }
    match certificate.claim() {
        Claim::Cut { cost, plan, prices } => {
            find_early_cut_fault(table, *cost, plan.as_slice(), prices.as_slice())
        }
        Claim::NoCut { closed } => find_early_none_fault(table, closed.as_slice()),
    }
}

/// The result for a closed set that no step leaves.
fn decide_none(table: &CertificateTable, closed: &[bool]) -> Result<Verdict, CertFault>
    requires each { length closed.now ≡ length table.now.places }
    requires open { HasNoEarlyFault table.now (NoneClaim closed.now) }
    requires keeps { (p q : ℕ) → StepKeepsPrices table.now (NoneClaim closed.now) p q }
    ensures { NoneCheckResult table.now closed.now result }
{
    if is_closed(closed, table.len() - 1) {
        return Err(CertFault::EndReached);
    }
    Ok(Verdict::NoCut)
}

/// The result if the earlier tests pass, given the first step that doesn't respect the prices.
fn decide_verdict(
    table: &CertificateTable,
    claim: &Claim,
    broken: Option<(usize, usize)>,
) -> Result<Verdict, CertFault>
    requires each { length (claimed_prices (claim_data claim.now)) ≡ length table.now.places }
    requires open { HasNoEarlyFault table.now (claim_data claim.now) }
    requires found { IsFirstBrokenOrNone table.now (claim_data claim.now) broken }
    ensures { CheckResultOver table.now (claim_data claim.now) result }
{
    if let Some((p, q)) = broken {
        return Err(CertFault::PriceStep { p, q });
    }
    match claim {
        Claim::Cut { cost, .. } => Ok(Verdict::Cut { cost: *cost }),
        Claim::NoCut { closed } => decide_none(table, closed.as_slice()),
    }
}

fn check_sequentially(certificate: &Certificate) -> Result<Verdict, CertFault>
    ensures answer { IsCheckResult certificate.now result }
    ensures form { IsCertificate certificate.now }
{
    if let Some(fault) = find_early_fault(certificate) {
        return Err(fault);
    }
    let (table, claim) = (certificate.table(), certificate.claim());
    decide_verdict(table, claim, first_broken_step(table, claim))
}

/// Checks a certificate. Returns what it proves: a cut with its cost in microseconds, or no cut. Doesn't allocate.
///
/// # Errors
/// The first fault, in the order of `CertFault`. Of several broken steps it is the one with the least first place, and of these the one
/// with the least second place.
///
/// At most each pair of places is examined once, up to the block of rows with the fault. If a place's price is at most what every row of a
/// block allows, its pairs with that block are skipped.
pub fn check(certificate: &Certificate) -> Result<Verdict, CertFault>
    ensures answer { IsCheckResult certificate.now result }
    ensures good { IsOk result ↔ IsGood certificate.now }
{
    check_sequentially(certificate)
}

fn check_in_parallel(
    rt: &(impl Threads + Sync),
    certificate: &Certificate,
) -> Result<Verdict, CertFault>
    ensures answer { IsCheckResult certificate.now result }
    ensures form { IsCertificate certificate.now }
{
    if let Some(fault) = find_early_fault(certificate) {
        return Err(fault);
    }
    let (table, claim) = (certificate.table(), certificate.claim());
    decide_verdict(
        table,
        claim,
        first_broken_step_in_parallel(rt, table, claim),
    )
}

/// Returns the same result as `check`, with the same fault. Blocks of rows are examined in parallel, by one thread for each processor, or
/// by the calling thread if no thread can be created. Doesn't allocate.
pub fn check_rows(
    rt: &(impl Threads + Sync),
    _alloc: Global,
    certificate: &Certificate,
) -> Result<Verdict, CertFault>
    ensures answer { IsCheckResult certificate.now result }
    ensures good { IsOk result ↔ IsGood certificate.now }
{
    check_in_parallel(rt, certificate)
}
