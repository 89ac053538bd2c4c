//! A job: its state in the table, the work that a planner takes, and what is reported of it.

use crate::jobs::answer::JobAnswer;
use crate::request::Request;
use hls_core::snapshot::Snapshot;
use std::sync::Arc;

/// The state of a job, with what is needed to continue it.
#[derive(Drop)]
pub enum JobState {
    /// Nobody has taken it. The snapshot is the one that was looked at when the job was added.
    Waiting {
        snapshot: Arc<Snapshot>,
        request: Request,
    },
    /// It was taken, with its snapshot; `version` is the number of that snapshot's log entries.
    Running {
        version: u64,
        request: Request,
    },
    /// It has an answer.
    Finished(JobAnswer),
    /// Out of memory.
    Failed,
}

/// A job with its id.
#[derive(Drop)]
pub struct JobRow {
    pub id: u64,
    pub state: JobState,
}

/// A job to run: its id, and the request with the snapshot that answers it.
#[derive(Drop)]
pub struct Work {
    pub id: u64,
    pub snapshot: Arc<Snapshot>,
    pub request: Request,
}

/// The reported state of a job.
#[derive(Drop)]
pub enum Job {
    /// It hasn't been started.
    Waiting,
    /// It is running.
    Running,
    /// It has an answer, shared with the table.
    Finished(JobAnswer),
    /// It ran out of memory.
    Failed,
}
