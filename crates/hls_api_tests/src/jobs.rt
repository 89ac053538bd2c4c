//! Jobs under a lock, and answers that are kept.

use hls_catchup::{CostRule, Job, JobAnswer, Request};
use hls_core::snapshot::Snapshot;
use hls_fakes::CallOutcome;
use hls_jobs::{JobTable, Jobs, answer_request, work_loop};
use hls_sample_channels::{SECOND, THREE_UNITS, end_channel_with_retry};
use std::alloc::Global;
use std::sync::{Arc, Wait};

/// A request for all three units.
pub const REQUEST: Request = Request {
    start_us: 0,
    stop_us: 12 * SECOND,
    preferred: 4 * SECOND,
    rule: CostRule::Deviation,
};

fn is_answered(answered: &JobAnswer) -> bool {
    answered.snapshot().version() == 5 && answered.request() == REQUEST && answered.result().is_ok()
}

/// The outcome of sharing an answer.
pub fn outcome_of_share(answered: &JobAnswer) -> CallOutcome {
    let outcome = match answered.share() {
        Ok(again) => CallOutcome::from_answer(is_answered(&again)),
        Err(_) => CallOutcome::OutOfMemory,
    };
    outcome.require_unchanged(is_answered(answered))
}

/// The outcome of answering a request to the channel, and sharing the answer.
pub fn outcome_of_request(alloc: Global, state: &Arc<Snapshot>) -> CallOutcome {
    let Ok(share) = Arc::try_clone(state) else {
        return CallOutcome::OutOfMemory;
    };
    let outcome = match answer_request(alloc, share, REQUEST) {
        Ok(answered) => outcome_of_share(&answered),
        Err(_) => CallOutcome::OutOfMemory,
    };
    outcome.require_unchanged(state.version() == 5)
}

pub fn outcome_of_table(alloc: Global) -> CallOutcome {
    match JobTable::new(alloc) {
        Ok(jobs) => CallOutcome::from_answer(jobs.len() == 0),
        Err(_) => CallOutcome::OutOfMemory,
    }
}

#[test]
fn out_of_memory_is_no_answer(rt: HostRuntime) {
    let alloc = rt.alloc();
    let state = end_channel_with_retry(alloc, &THREE_UNITS).expect(&rt, "a channel");
    let first = outcome_of_request(alloc, &state);
    assert!(rt; first.is_consistent_with(outcome_of_request(alloc, &state)));
    assert!(rt; outcome_of_table(alloc).is_consistent_with(outcome_of_table(alloc)));
}

/// Whether it is the only job, and gone once it is removed.
fn is_only_job<T: Wait>(rt: &T, jobs: &Jobs, id: u64) -> bool {
    jobs.len(rt) == 1 && jobs.remove(rt, id) == Ok(()) && jobs.len(rt) == 0
}

/// The outcome of the job with the next id in a loop, which is gone once it is removed.
pub fn outcome_of_loop<T: Wait>(
    rt: &T,
    alloc: Global,
    jobs: &Jobs,
    state: &Arc<Snapshot>,
    id: u64,
) -> CallOutcome {
    let Ok(share) = Arc::try_clone(state) else {
        return CallOutcome::OutOfMemory;
    };
    if jobs.add(rt, share, REQUEST) != Ok(id) {
        return CallOutcome::Wrong;
    }
    work_loop(rt, alloc, jobs, &());
    let outcome = match jobs.get(rt, id) {
        Ok(Job::Finished(answered)) => CallOutcome::from_answer(is_answered(&answered)),
        Ok(Job::Failed) => CallOutcome::from_refusal(state.version() == 5),
        _ => CallOutcome::Wrong,
    };
    outcome.require_unchanged(is_only_job(rt, jobs, id))
}

/// A job table, also if the first attempt to allocate it fails.
pub fn jobs_with_retry(alloc: Global) -> Option<Jobs> {
    match Jobs::new(alloc) {
        Ok(jobs) => Some(jobs),
        Err(_) => Jobs::new(alloc).ok(),
    }
}

#[test]
fn out_of_memory_fails_a_job_and_works_the_next_off(rt: HostRuntime) {
    let alloc = rt.alloc();
    let state = end_channel_with_retry(alloc, &THREE_UNITS).expect(&rt, "a channel");
    let jobs = jobs_with_retry(alloc).expect(&rt, "jobs");
    jobs.close(&rt);
    let first = outcome_of_loop(&rt, alloc, &jobs, &state, 1);
    assert!(rt; first.is_consistent_with(outcome_of_loop(&rt, alloc, &jobs, &state, 2)));
}
