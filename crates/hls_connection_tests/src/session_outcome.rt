//! The outcome of a session in which one allocation may be refused.

ghost use Rattle.std.specs.Prelude.{◌<◌, ◌^◌, IfOk, length};

use hls_catchup::{Job, JobFault};
use hls_http::SessionEnd;
use std::alloc::{AllocError, Global};

/// The fixed out-of-memory reply. (A constant would be part of the proof of each function that names it, byte by byte.)
fn out_of_memory_reply() -> &'static [u8] {
    b"HTTP/1.1 503 Service Unavailable\r\nContent-Type: text/plain\r\nContent-Length: 15\r\nConnection: close\r\n\r\nrefused Memory\n"
}

/// The outcome of sessions.
#[derive(Clone, Copy, PartialEq)]
pub enum SessionOutcome {
    /// As without an allocation failure.
    Right,
    /// Out of memory: the fixed reply was the last one, or the session or the job couldn't be allocated.
    OutOfMemory,
    /// Neither.
    Wrong,
}

impl SessionOutcome {
    /// The outcome of this and what follows: since only one allocation is refused, memory runs out at most once.
    pub fn and(self, then: SessionOutcome) -> SessionOutcome {
        match (self, then) {
            (SessionOutcome::Right, _) => then,
            (SessionOutcome::OutOfMemory, SessionOutcome::Right) => SessionOutcome::OutOfMemory,
            _ => SessionOutcome::Wrong,
        }
    }
}

/// The outcome of a session that ended with this instead of a reply.
fn outcome_at_mismatch(rest: &[u8], end: SessionEnd) -> SessionOutcome {
    if rest == out_of_memory_reply() && end == SessionEnd::Refused {
        SessionOutcome::OutOfMemory
    } else {
        SessionOutcome::Wrong
    }
}

/// The outcome of a session that should have these replies. If out of memory, complete replies are followed by the fixed one, and the
/// session ends.
pub fn judge_session(out: &[u8], end: SessionEnd, replies: &[&[u8]]) -> SessionOutcome {
    let mut rest = out;
    for reply in replies {
        match rest.strip_prefix(reply) {
            Some(following) => rest = following,
            None => return outcome_at_mismatch(rest, end),
        }
    }
    if rest.is_empty() && end == SessionEnd::Closed {
        SessionOutcome::Right
    } else {
        SessionOutcome::Wrong
    }
}

/// The state of a job after it ran.
#[derive(Clone, Copy)]
pub enum JobRunOutcome {
    Finished,
    /// Out of memory.
    Failed,
    Wrong,
}

/// Returns the state of this job.
pub fn job_run_outcome(job: &Result<Job, JobFault>) -> JobRunOutcome {
    match job {
        Ok(Job::Finished(_)) => JobRunOutcome::Finished,
        Ok(Job::Failed) => JobRunOutcome::Failed,
        _ => JobRunOutcome::Wrong,
    }
}

/// The reply to `/status` of a channel with this number of the script's events: its places and live segments.
pub fn status_reply(alloc: Global, version: u64, jobs: usize) -> Result<Vec<u8>, AllocError>
    ensures { IfOk result (λ bytes. length bytes.items < 2 ^ 64) }
{
    let (places, segments) = match version {
        0 | 1 => (0, 0),
        2 => (1, 0),
        3 => (2, 1),
        4 => (3, 2),
        _ => (4, 3),
    };
    let status = format!(in alloc;
        "HTTP/1.1 200 OK\r\nContent-Type: text/plain\r\nContent-Length: 47\r\n\r\nversion {version}\nplaces {places}\nsegments {segments}\nremoved 0\njobs {jobs}\n"
    )?;
    Ok(status.into_bytes())
}
