//! Allocation failures: an answer leaves the snapshot unchanged, only the job fails, and the same request again is answered.

use crate::requests::{record_units, request};
use hls_catchup::{CatchFault, Job, Reply, answer, reply_total};
use hls_core::snapshot::Snapshot;
use hls_jobs::{JobTable, run_job};
use hls_sample_channels::SECOND;
use std::alloc::Global;
use std::sync::Arc;

/// Records two units, and retries once if an allocation failed.
fn two_units(alloc: Global) -> Option<Arc<Snapshot>> {
    match record_units(alloc, None, &[(0, 4), (4, 8)]) {
        Ok(snapshot) => Some(snapshot),
        Err(_) => record_units(alloc, None, &[(0, 4), (4, 8)]).ok(),
    }
}

/// Whether the reply has the first unit after the init section.
fn is_whole(reply: &Reply) -> bool {
    reply_total(reply, 0) == Some(1600) && reply.snapshot().version() == 3
}

#[test]
fn out_of_memory_changes_no_answer(rt: HostRuntime) {
    let alloc = rt.alloc();
    let snapshot = two_units(alloc).expect(&rt, "a snapshot with two units");
    let asked = request(0, 4 * SECOND);
    let reply = match answer(alloc, &snapshot, asked) {
        Err(CatchFault::Memory) => answer(alloc, &snapshot, asked),
        first => first,
    };
    assert!(rt; reply.is_ok_and(|reply| is_whole(&reply)));
}

/// Adds a job and runs it, and returns its state.
fn run_one_job(alloc: Global, jobs: &mut JobTable, snapshot: &Arc<Snapshot>) -> Option<Job> {
    let id = jobs
        .add(Arc::try_clone(snapshot).ok()?, request(0, 4 * SECOND))
        .ok()?;
    let work = jobs.take_work()?;
    jobs.finish(run_job(alloc, work)).ok()?;
    jobs.get(id).ok()
}

fn is_answered(job: &Option<Job>) -> bool {
    match job {
        Some(Job::Finished(answered)) => answered.result().is_ok(),
        _ => false,
    }
}

#[test]
fn out_of_memory_fails_one_job_alone(rt: HostRuntime) {
    let alloc = rt.alloc();
    let snapshot = two_units(alloc).expect(&rt, "a snapshot with two units");
    let mut jobs = match JobTable::new(alloc) {
        Ok(jobs) => jobs,
        Err(_) => JobTable::new(alloc).expect(&rt, "a table"),
    };
    let first = run_one_job(alloc, &mut jobs, &snapshot);
    assert!(rt; is_answered(&first) || matches!(first, Some(Job::Failed)));
    assert!(rt; is_answered(&first) || is_answered(&run_one_job(alloc, &mut jobs, &snapshot)));
}
