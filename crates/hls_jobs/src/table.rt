//! The job table.

ghost use Rattle.std.specs.Prelude.{◌≡◌, [], IfOk, IfErr, length, max, min};
ghost use Rattle.hls_catchup.specs.Jobs.Tables.{IsJobTable, empty_table, id_limit};
ghost use Rattle.hls_catchup.specs.Jobs.Changes.{Adds, Takes, Finishes, Gets, Removes};
ghost use Rattle.hls_jobs.specs.Model.{without_returned};
ghost use Rattle.hls_jobs.specs.LastUses.{RemovesUnused};
ghost use Rattle.hls_jobs.specs.Rows.{HasWaiting};

use crate::last_uses::{JobAge, LastUse, find_unused_row};
use crate::rows::{
    find_row, find_waiting_row, is_running_for, push_row, report_job, set_state, start_job,
    state_of_answer,
};
use hls_catchup::{Finished, Job, JobFault, JobRow, JobState, Request, Work};
use hls_core::snapshot::Snapshot;
use std::alloc::{AllocError, Global};
use std::marker::Model;
use std::sync::Arc;

/// The most jobs at once, in any state.
pub(crate) const JOB_LIMIT: usize = 64;

/// The number after the last id.
const ID_LIMIT: u64 = 1 << 53;

/// Why a call is refused, with the argument that it was given: a caller that holds a lock drops it after the lock.
#[derive(Drop)]
pub struct JobError<T> {
    pub fault: JobFault,
    pub returned: T,
}

/// Jobs by their ids, which count from 1 to 2^53 - 1 and are never reused.
///
/// A contract sees the next id, and the jobs in the order of their ids. Each finished one has the right answer for the snapshot and
/// the request that it holds.
#[derive(Drop)]
pub struct JobTable {
    next: u64,
    rows: Vec<JobRow>,
}

impl Model for JobTable {
    ghost use Rattle.hls_catchup.specs.Jobs.Tables.{JobTableData};

    ghost Value = { JobTableData };

    ghost use Rattle.hls_jobs.specs.Model.{model_of, IsSoundTable};

    ghost view = { model_of };

    ghost invariant = { IsSoundTable };
}

impl JobTable {
    /// Creates an empty table, with room for 64 jobs.
    pub fn new(alloc: Global) -> Result<JobTable, AllocError>
        ensures { IfOk result (λ t. t ≡ empty_table) }
    {
        Ok(JobTable {
            next: 1,
            rows: Vec::with_capacity(alloc, JOB_LIMIT)?,
        })
    }

    /// Creates an empty table whose ids count from the given one: at least 1, and at most 2^53, where it takes no job.
    pub fn starting_at(alloc: Global, first: u64) -> Result<JobTable, AllocError>
        ensures { IfOk result (λ t. (t.rows ≡ []) × (t.next ≡ max 1 (min first id_limit))) }
    {
        Ok(JobTable {
            next: first.clamp(1, ID_LIMIT),
            rows: Vec::with_capacity(alloc, JOB_LIMIT)?,
        })
    }

    /// Returns the number of jobs, in any state.
    pub fn len(&self) -> usize
        ensures value { result ≡ length self.now.rows }
        ensures valid { IsJobTable self.now }
    {
        self.rows.len()
    }

    /// Adds a waiting job, and returns its id. `TableFull` is the only fault. Doesn't allocate.
    pub fn add(&mut self, snapshot: Arc<Snapshot>, request: Request) -> Result<u64, JobFault>
        ensures adds { Adds self.old snapshot request result self.new }
        ensures valid { IsJobTable self.old }
    {
        match self.try_add(snapshot, request) {
            Ok(id) => Ok(id),
            Err(refused) => Err(refused.fault),
        }
    }

    /// Adds a job, or returns its snapshot, which can take long to drop.
    pub(crate) fn try_add(
        &mut self,
        snapshot: Arc<Snapshot>,
        request: Request,
    ) -> Result<u64, JobError<Arc<Snapshot>>>
        ensures adds { Adds self.old snapshot request (without_returned result) self.new }
        ensures returned { IfErr result (λ refused. refused.returned ≡ snapshot) }
        ensures valid { IsJobTable self.old }
    {
        let id = self.next;
        if self.rows.len() >= JOB_LIMIT || id >= ID_LIMIT {
            return Err(JobError {
                fault: JobFault::TableFull,
                returned: snapshot,
            });
        }
        let state = JobState::Waiting { snapshot, request };
        push_row(&mut self.rows, JobRow { id, state });
        self.next = id + 1;
        Ok(id)
    }

    /// Whether a job waits.
    pub(crate) fn has_work(&self) -> bool
        ensures { HasWaiting self.now.rows result }
    {
        find_waiting_row(&self.rows).is_some()
    }

    /// Takes the waiting job that was added first. It runs from then on, until it is finished or removed. Doesn't allocate.
    pub fn take_work(&mut self) -> Option<Work>
        ensures takes { Takes self.old result self.new }
        ensures valid { IsJobTable self.old }
    {
        let at = find_waiting_row(&self.rows)?;
        Some(start_job(&mut self.rows, at))
    }

    /// Finishes a running job, for the version and the request for which it runs. `UnknownJob` comes before `Stray`; both leave the
    /// table unchanged. Doesn't allocate.
    pub fn finish(&mut self, finished: Finished) -> Result<(), JobFault>
        ensures finishes { Finishes self.old finished result self.new }
        ensures valid { IsJobTable self.old }
    {
        match self.try_finish(finished) {
            Ok(()) => Ok(()),
            Err(refused) => Err(refused.fault),
        }
    }

    /// Finishes a job, or returns its result, which can take long to drop.
    pub(crate) fn try_finish(&mut self, finished: Finished) -> Result<(), JobError<Finished>>
        ensures finishes { Finishes self.old finished (without_returned result) self.new }
        ensures returned { IfErr result (λ refused. refused.returned ≡ finished) }
        ensures valid { IsJobTable self.old }
    {
        let Some(at) = find_row(&self.rows, finished.id()) else {
            return Err(JobError {
                fault: JobFault::UnknownJob,
                returned: finished,
            });
        };
        if !is_running_for(&self.rows[at].state, finished.version(), finished.request()) {
            return Err(JobError {
                fault: JobFault::Stray,
                returned: finished,
            });
        }
        set_state(&mut self.rows, at, state_of_answer(finished.into_answer()));
        Ok(())
    }

    /// Returns the state of a job. An answer is shared with the table; `Memory` if it can't be.
    pub fn get(&self, id: u64) -> Result<Job, JobFault>
        ensures gets { Gets self.now id result }
        ensures valid { IsJobTable self.now }
    {
        let Some(at) = find_row(&self.rows, id) else {
            return Err(JobFault::UnknownJob);
        };
        match report_job(&self.rows[at].state) {
            Ok(job) => Ok(job),
            Err(_) => Err(JobFault::Memory),
        }
    }

    /// Removes a job, in any state, and frees its place. `UnknownJob` is the only fault. Doesn't allocate.
    pub fn remove(&mut self, id: u64) -> Result<(), JobFault>
        ensures removes { Removes self.old id result self.new }
        ensures valid { IsJobTable self.old }
    {
        match self.try_remove(id) {
            Ok(_) => Ok(()),
            Err(fault) => Err(fault),
        }
    }

    /// Removes a job and returns it, since it can take long to drop.
    pub(crate) fn try_remove(&mut self, id: u64) -> Result<JobRow, JobFault>
        ensures removes { Removes self.old id result self.new }
        ensures valid { IsJobTable self.old }
    {
        let Some(at) = find_row(&self.rows, id) else {
            return Err(JobFault::UnknownJob);
        };
        Ok(self.rows.remove(at))
    }

    /// Removes the first job that has ended and wasn't used for long enough, and returns it, since it can take long to drop.
    pub fn remove_unused(&mut self, uses: &[LastUse], age: JobAge) -> Option<JobRow>
        ensures removes { RemovesUnused self.old uses.now age result self.new }
        ensures valid { IsJobTable self.old }
    {
        let at = find_unused_row(&self.rows, uses, age)?;
        Some(self.rows.remove(at))
    }
}
