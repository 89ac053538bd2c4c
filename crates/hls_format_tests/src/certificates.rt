//! Tables of places, plans and certificates. There are five places at 0, 3, 6, 7 and 11 s, whose least plan was computed manually,
//! and two places too far apart for a plan.

use hls_check::{check, check_rows, read, write};
use hls_check_tables::{
    CertFault, Certificate, CertificateTable, CostRule, Goal, PlaceTable, Spot, Spots, Verdict,
};
use hls_fakes::CallOutcome;
use hls_plan::{Planned, plan, plan_counted};
use hls_time::Ticks;
use std::alloc::Global;

/// The times of the five places, in seconds.
pub const TIMES: [u64; 5] = [0, 3, 6, 7, 11];

/// The times of the two places, in seconds.
pub const FAR: [u64; 2] = [0, 7];

const PLAN: [usize; 4] = [0, 1, 3, 4];

const PRICES: [Option<u64>; 5] = [
    Some(0),
    Some(1_000_000),
    Some(2_000_000),
    Some(1_000_000),
    Some(1_000_000),
];

fn text() -> &'static [u8] {
    b"HLS-CUT-CERTIFICATE 1\ntarget 6\npreferred 4000000\nrenditions 1\nplaces 5\n0 0 0 0 0\n1 3000000 3000000 0 0\n2 6000000 6000000 0 0\n3 7000000 7000000 0 0\n4 11000000 11000000 0 0\ncut 1000000\nplan 0 1 3 4\nprice 0 0\nprice 1 1000000\nprice 2 2000000\nprice 3 1000000\nprice 4 1000000\nend\n"
}

/// The goal for the segments.
const GOAL: Goal = Goal {
    target: 6,
    preferred: 4_000_000,
    rule: CostRule::Deviation,
};

/// Returns the spot of a place by its number and its time.
fn spot(number: usize, seconds: u64) -> Spot {
    let start = seconds.saturating_mul(1_000_000);
    Spot {
        fragment: number as u64,
        prev_end: start,
        start,
        run_in: 0,
        run_out: 0,
    }
}

/// Makes a table of places at these times; `None` if an allocation failed.
pub fn table(alloc: Global, times: &[u64]) -> Option<PlaceTable> {
    let mut places = Vec::new(alloc);
    for (number, seconds) in times.iter().enumerate() {
        let spots = vec![in alloc; spot(number, *seconds)].ok()?;
        places.push(Spots::new(alloc, spots).ok()?).ok()?;
    }
    PlaceTable::try_new(CertificateTable::try_new(GOAL, 1, places)?)
}

fn table_with_retry(alloc: Global, times: &[u64]) -> Option<PlaceTable> {
    match table(alloc, times) {
        Some(table) => Some(table),
        None => table(alloc, times),
    }
}

fn is_place(spots: &Spots, number: usize, seconds: u64) -> bool {
    match spots.as_slice() {
        [only] => *only == spot(number, seconds),
        _ => false,
    }
}

fn are_places(places: &[Spots], times: &[u64]) -> bool {
    if places.len() != times.len() {
        return false;
    }
    for number in 0..times.len() {
        if !is_place(&places[number], number, times[number]) {
            return false;
        }
    }
    true
}

/// Whether it is the table of these times.
fn is_table(table: &CertificateTable, times: &[u64]) -> bool {
    table.goal() == GOAL && table.rendition_count() == 1 && are_places(table.places(), times)
}

fn is_five(table: &CertificateTable) -> bool {
    is_table(table, &TIMES)
}

fn is_least(planned: &Planned) -> bool {
    match planned {
        Planned::Cut { plan, prices } => {
            plan.as_slice() == PLAN.as_slice() && prices.as_slice() == PRICES.as_slice()
        }
        Planned::NoCut { .. } => false,
    }
}

fn is_none(planned: &Planned) -> bool {
    match planned {
        Planned::Cut { .. } => false,
        Planned::NoCut { closed } => closed.as_slice() == [true, false].as_slice(),
    }
}

fn is_cut(verdict: Result<Verdict, CertFault>) -> bool {
    verdict == Ok(Verdict::Cut { cost: 1_000_000 })
}

/// Whether it is the certificate of the text.
fn is_read(certificate: &Certificate) -> bool {
    is_five(certificate.table()) && is_cut(check(certificate))
}

pub fn outcome_of_copied(alloc: Global, table: &PlaceTable) -> CallOutcome {
    let outcome = match table.table().copy_table(alloc) {
        Ok(copy) => CallOutcome::from_answer(is_five(&copy)),
        Err(_) => CallOutcome::OutOfMemory,
    };
    outcome.require_unchanged(is_five(table.table()))
}

pub fn outcome_of_planned(alloc: Global, table: &PlaceTable) -> CallOutcome {
    let outcome = match plan(alloc, table) {
        Ok(planned) => CallOutcome::from_answer(is_least(&planned)),
        Err(_) => CallOutcome::OutOfMemory,
    };
    outcome.require_unchanged(is_five(table.table()))
}

pub fn outcome_of_counted(alloc: Global, table: &PlaceTable) -> CallOutcome {
    let mut ticks = Ticks::new();
    let outcome = match plan_counted(alloc, table, &mut ticks) {
        Ok(planned) => CallOutcome::from_answer(is_least(&planned)),
        Err(_) => CallOutcome::OutOfMemory,
    };
    outcome
        .require_unchanged(ticks.count() <= 10)
        .require_unchanged(is_five(table.table()))
}

#[test]
fn out_of_memory_then_copies_tables_again(rt: HostRuntime) {
    let alloc = rt.alloc();
    let table = table_with_retry(alloc, &TIMES).expect(&rt, "a table");
    assert!(rt;
        outcome_of_copied(alloc, &table).is_consistent_with(outcome_of_copied(alloc, &table))
    );
}

#[test]
fn out_of_memory_then_plans_again(rt: HostRuntime) {
    let alloc = rt.alloc();
    let table = table_with_retry(alloc, &TIMES).expect(&rt, "a table");
    assert!(rt;
        outcome_of_planned(alloc, &table).is_consistent_with(outcome_of_planned(alloc, &table))
    );
    assert!(rt;
        outcome_of_counted(alloc, &table).is_consistent_with(outcome_of_counted(alloc, &table))
    );
}

/// The outcome for the two places, between which there is no plan.
pub fn outcome_of_far_plan(alloc: Global, table: &PlaceTable) -> CallOutcome {
    let outcome = match plan(alloc, table) {
        Ok(planned) => CallOutcome::from_answer(is_none(&planned)),
        Err(_) => CallOutcome::OutOfMemory,
    };
    outcome.require_unchanged(is_table(table.table(), &FAR))
}

#[test]
fn out_of_memory_is_no_closed_set(rt: HostRuntime) {
    let alloc = rt.alloc();
    let table = table_with_retry(alloc, &FAR).expect(&rt, "a table");
    let first = outcome_of_far_plan(alloc, &table);
    assert!(rt; first.is_consistent_with(outcome_of_far_plan(alloc, &table)));
}

/// The outcome of reading the text: the certificate.
pub fn outcome_of_text(alloc: Global) -> CallOutcome {
    match read(alloc, text()) {
        Ok(certificate) => CallOutcome::from_answer(is_read(&certificate)),
        Err(CertFault::Memory) => CallOutcome::OutOfMemory,
        Err(_) => CallOutcome::Wrong,
    }
}

/// The text without the end of its last line.
fn wrong_text() -> &'static [u8] {
    text().strip_suffix(b"\n").unwrap_or(b"")
}

/// The outcome of reading the text with an invalid last line, which needs no allocation.
pub fn outcome_of_wrong_text(alloc: Global) -> CallOutcome {
    match read(alloc, wrong_text()) {
        Err(CertFault::Form { line }) => CallOutcome::from_answer(line == 18),
        _ => CallOutcome::Wrong,
    }
}

/// The outcome of writing the certificate, which stays unchanged.
pub fn outcome_of_written(alloc: Global, certificate: &Certificate) -> CallOutcome {
    let outcome = match write(alloc, certificate) {
        Ok(written) => CallOutcome::from_answer(written.as_slice() == text()),
        Err(_) => CallOutcome::OutOfMemory,
    };
    outcome.require_unchanged(is_read(certificate))
}

pub fn certificate(alloc: Global) -> Option<Certificate> {
    read(alloc, text()).ok()
}

fn certificate_with_retry(alloc: Global) -> Option<Certificate> {
    match certificate(alloc) {
        Some(certificate) => Some(certificate),
        None => certificate(alloc),
    }
}

#[test]
fn out_of_memory_then_reads_certificates_again(rt: HostRuntime) {
    let alloc = rt.alloc();
    assert!(rt; outcome_of_text(alloc).is_consistent_with(outcome_of_text(alloc)));
    assert!(rt; outcome_of_wrong_text(alloc).is_right());
}

#[test]
fn out_of_memory_then_writes_certificates_again(rt: HostRuntime) {
    let alloc = rt.alloc();
    let certificate = certificate_with_retry(alloc).expect(&rt, "a certificate");
    let first = outcome_of_written(alloc, &certificate);
    assert!(rt; first.is_consistent_with(outcome_of_written(alloc, &certificate)));
}

// It allocates only the threads; without them it continues in this one.
#[test]
fn out_of_memory_checks_all_the_same(rt: HostRuntime) {
    let alloc = rt.alloc();
    let certificate = certificate_with_retry(alloc).expect(&rt, "a certificate");
    assert!(rt; is_cut(check_rows(&rt, alloc, &certificate)));
}
