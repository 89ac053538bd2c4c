//! The loop that runs jobs, and plans programmes.

ghost use Rattle.std.specs.Prelude.{◌≡◌, true};

use crate::job_run::run_job;
use crate::plans::PlanWork;
use crate::programme_texts::run_plan;
use crate::shared::{Jobs, NextWork};
use hls_catchup::Work;
use std::alloc::Global;
use std::sync::Wait;

/// Decides before each job, outside the lock, whether a work loop continues, and is notified after each.
pub trait Gate {
    /// Whether the loop may run the job of this id. If not, the loop ends, and the job stays running.
    fn enter(&self, id: u64) -> bool;

    /// Returns the moment at which a job ends, in milliseconds of the monotonic clock: its life begins then.
    fn now_ms(&self) -> u64;

    /// Notes that the job of this id has ended: the table holds its outcome, unless it was removed.
    fn leave(&self, id: u64);

    /// Notes that a programme was planned: the table has its texts, if they could be made.
    fn note_planned(&self);
}

/// No gate: the loop runs every job.
impl Gate for () {
    fn enter(&self, _id: u64) -> bool
        ensures { result ≡ true }
    {
        true
    }

    fn now_ms(&self) -> u64 {
        0
    }

    fn leave(&self, _id: u64) {}

    fn note_planned(&self) {}
}

/// Runs a job and finishes it in the table, if the gate lets it. Returns whether it does.
fn run_next_job<R: Wait, G: Gate>(
    rt: &R,
    alloc: Global,
    jobs: &Jobs,
    gate: &G,
    work: Work,
) -> bool {
    let id = work.id;
    if !gate.enter(id) {
        return false;
    }
    let finished = run_job(alloc, work);
    let _ = jobs.finish(rt, finished, gate.now_ms());
    gate.leave(id);
    true
}

/// Plans a programme, and ends its plan in the table.
fn run_next_plan<R: Wait, G: Gate>(rt: &R, alloc: Global, jobs: &Jobs, gate: &G, work: PlanWork) {
    let request = work.request;
    jobs.finish_plan(rt, request, run_plan(alloc, work));
    gate.note_planned();
}

/// Runs one job after another: takes the one that was added first, asks the gate, runs the job, finishes it in the table, and
/// notifies the gate. Plans a programme if one waits and no job does. Waits while there is no work, and returns once the jobs are closed
/// and nothing waits, or the gate refuses.
///
/// Any number of loops may run concurrently: the lock is released while a job runs or a programme is planned.
pub fn work_loop<R: Wait, G: Gate>(rt: &R, alloc: Global, jobs: &Jobs, gate: &G) {
    for _ in rt.forever() {
        match jobs.wait_work(rt) {
            Some(NextWork::Job(work)) => {
                if !run_next_job(rt, alloc, jobs, gate, work) {
                    return;
                }
            }
            Some(NextWork::Plan(work)) => run_next_plan(rt, alloc, jobs, gate, work),
            None => return,
        }
    }
}
