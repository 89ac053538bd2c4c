//! The status line of a job.

ghost use Rattle.std.specs.Prelude.{◌≡◌, IfOk, option_map};
ghost use Rattle.std.specs.String.{string_bytes};
ghost use Rattle.hls_catchup.specs.Jobs.JobLine.{job_line, answer_line, reply_line, served_version};

use crate::files::certificate_of;
use hls_catchup::{Job, JobAnswer, Reply};
use hls_check_tables::Claim;
use hls_core::snapshot::Snapshot;
use std::alloc::{AllocError, Global};

/// Writes the status of a job as one line that ends in LF: `waiting`, `running`, or its result with the version of its
/// snapshot: `cut 0 version 11`, `none version 11`, `refused NotYet version 11`. `None` if it ran out of memory.
pub fn write_job_line(alloc: Global, job: &Job) -> Result<Option<String>, AllocError>
    ensures { IfOk result (λ line. option_map string_bytes line ≡ job_line job.now) }
{
    match job {
        Job::Waiting => Ok(Some(format!(in alloc; "waiting\n")?)),
        Job::Running => Ok(Some(format!(in alloc; "running\n")?)),
        Job::Finished(answered) => Ok(Some(write_answer_line(alloc, answered)?)),
        Job::Failed => Ok(None),
    }
}

/// Returns the version of a snapshot as clients see it: the number of log entries, those that precede this process included.
pub fn served_version(snapshot: &Snapshot) -> u64
    ensures { result ≡ served_version snapshot.now }
{
    snapshot.config().base().version() + snapshot.version()
}

fn write_answer_line(alloc: Global, answered: &JobAnswer) -> Result<String, AllocError>
    ensures { IfOk result (λ line. string_bytes line ≡ answer_line answered.now) }
{
    let version = served_version(answered.snapshot());
    match answered.result() {
        Ok(reply) => write_reply_line(alloc, reply, version),
        Err(fault) => {
            let name = fault.name();
            Ok(format!(in alloc; "refused {name} version {version}\n")?)
        }
    }
}

fn write_reply_line(alloc: Global, reply: &Reply, version: u64) -> Result<String, AllocError>
    ensures { IfOk result (λ line. string_bytes line ≡ reply_line reply.now version) }
{
    match certificate_of(reply.cut_result()).claim() {
        Claim::Cut { cost, .. } => Ok(format!(in alloc; "cut {cost} version {version}\n")?),
        Claim::NoCut { .. } => Ok(format!(in alloc; "none version {version}\n")?),
    }
}
