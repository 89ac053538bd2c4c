//! Runs a job to its end.

ghost use Rattle.std.specs.Prelude.{◌≡◌, IfOk};
ghost use Rattle.hls_catchup.specs.Jobs.Finished.{IsResultOf};

use hls_catchup::{CatchFault, Finished, JobAnswer, Request, Work, answer};
use hls_core::snapshot::Snapshot;
use std::alloc::{AllocError, Global};
use std::sync::Arc;

/// Answers a request from one snapshot. An allocation failure is the only error.
pub fn answer_request(
    alloc: Global,
    snapshot: Arc<Snapshot>,
    request: Request,
) -> Result<JobAnswer, AllocError>
    ensures { IfOk result (λ a. (a.state ≡ snapshot.value) × (a.request ≡ request)) }
{
    match answer(alloc, &snapshot, request) {
        Ok(reply) => JobAnswer::from_reply(alloc, reply),
        Err(CatchFault::Memory) => Err(AllocError),
        Err(fault) => Ok(JobAnswer::from_fault(snapshot, request, fault)),
    }
}

/// Runs a job: answers its request from its own snapshot, or runs out of memory. Never waits.
pub fn run_job(alloc: Global, work: Work) -> Finished
    ensures { IsResultOf work result }
{
    let Work {
        id,
        snapshot,
        request,
    } = work;
    let version = snapshot.version();
    let answer = answer_request(alloc, snapshot, request);
    Finished::new(id, version, request, answer)
}
