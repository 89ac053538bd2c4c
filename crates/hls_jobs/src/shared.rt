//! The job table and the plans of programmes, protected by a lock, with a condition variable on which planners wait for work.

ghost use Rattle.std.specs.Prelude.{◌≡◌, All, IfOk, IfSome, None, true, false};
ghost use Rattle.hls_catchup.specs.Jobs.Changes.{Finishes, Gets, Removes};
ghost use Rattle.hls_catchup.specs.Jobs.Tables.{IsJobTable};
ghost use Rattle.hls_jobs.specs.LastUses.{RemovesUnused};
ghost use Rattle.hls_jobs.specs.Model.{without_returned};
ghost use Rattle.hls_jobs.specs.Plans.{HasAddedPlan, HasFoundPlan, HasPlannedFrom, is_waiting_plan, job_in};
ghost use Rattle.hls_jobs.specs.Rows.{HasWaiting};
ghost use Rattle.hls_catchup.specs.Jobs.States.{IsRightJob};
ghost use Rattle.hls_catchup.specs.Jobs.Shared.{HasAdded, HasCounted, HasFinished, HasGot, HasRemoved, HasTaken};

use crate::last_uses::{JobAge, LastUse, note_use, remove_use};
use crate::plans::{FoundPlan, PlanTable, PlanWork};
use crate::programme_texts::ProgrammeTexts;
use crate::table::{JOB_LIMIT, JobError, JobTable};
use hls_catchup::{Finished, Job, JobFault, JobRow, Request, Work};
use hls_core::snapshot::Snapshot;
use std::alloc::{AllocError, Global};
use std::sync::atomic::{AtomicU64, Ordering};
use std::sync::{Arc, Condvar, Mutex, Wait};

/// What a loop does next.
#[derive(Drop)]
pub(crate) enum NextWork {
    /// Runs a job.
    Job(Work),
    /// Plans a programme.
    Plan(PlanWork),
}

/// The time between two removals of unused jobs, in milliseconds.
const SWEEP_MS: u64 = 1000;

/// What the lock protects.
#[derive(Drop)]
struct JobsInner {
    table: JobTable,
    /// When each job was used last.
    uses: Vec<LastUse>,
    plans: PlanTable,
    closed: bool,
}

impl JobsInner {
    /// Closes the table: a loop that finds no waiting job then ends.
    fn close(&mut self)
        ensures closed { self.new.closed ≡ true }
        ensures table { self.new.table ≡ self.old.table }
    {
        self.closed = true;
    }

    /// Returns the state of a job, which is used then.
    fn get(&mut self, id: u64, now_ms: u64) -> Result<Job, JobFault>
        ensures gets { Gets self.old.table id result }
        ensures valid { IsJobTable self.old.table }
        ensures table { self.new.table ≡ self.old.table }
    {
        let job = self.table.get(id)?;
        let _ = note_use(&mut self.uses, id, now_ms);
        Ok(job)
    }

    /// Removes a job.
    fn remove(&mut self, id: u64) -> Result<JobRow, JobFault>
        ensures removes { Removes self.old.table id result self.new.table }
        ensures valid { IsJobTable self.old.table }
    {
        remove_use(&mut self.uses, id);
        self.table.try_remove(id)
    }

    /// Finishes a job, whose life begins then.
    fn finish(&mut self, finished: Finished, now_ms: u64) -> Result<(), JobError<Finished>>
        ensures finishes { Finishes self.old.table finished (without_returned result) self.new.table }
        ensures valid { IsJobTable self.old.table }
    {
        let id = finished.id();
        self.table.try_finish(finished)?;
        let _ = note_use(&mut self.uses, id, now_ms);
        Ok(())
    }

    /// Removes a job that has ended and wasn't used for long enough.
    fn remove_unused(&mut self, age: JobAge) -> Option<JobRow>
        ensures removes { RemovesUnused self.old.table self.old.uses.items age result self.new.table }
    {
        let row = self.table.remove_unused(&self.uses, age)?;
        remove_use(&mut self.uses, row.id);
        Some(row)
    }

    /// Whether a loop has to wait: no job and no plan waits, and the table isn't closed.
    fn lacks_work(&self) -> bool
        ensures jobs { result ≡ true → (self.now.closed ≡ false) × HasWaiting self.now.table.rows false }
        ensures plans { result ≡ true → All (λ row. is_waiting_plan row ≡ false) self.now.plans.plans.items }
    {
        !self.closed && !self.table.has_work() && !self.plans.has_work()
    }

    /// Takes the job that was added first, or if none waits the plan that was.
    fn take_next(&mut self) -> Option<NextWork>
        ensures { HasTaken (job_in result) }
    {
        match self.table.take_work() {
            Some(work) => Some(NextWork::Job(work)),
            None => self.take_plan(),
        }
    }

    /// Takes the plan that was added first, if one waits.
    fn take_plan(&mut self) -> Option<NextWork>
        ensures { job_in result ≡ None }
    {
        match self.plans.take_work() {
            Some(work) => Some(NextWork::Plan(work)),
            None => None,
        }
    }
}

/// A job table, and plans of programmes, that threads share. Each call holds the lock only while it works on the table: nothing is planned, written or dropped
/// under it, except texts of programmes that weren't used for longest, and a plan that is evicted. A guard lives to the end of its statement, so what a call returns is dropped after it.
#[derive(Drop)]
pub struct Jobs {
    inner: Mutex<JobsInner>,
    available: Condvar,
    /// The latest moment that was noted, in milliseconds of the monotonic clock.
    now_ms: AtomicU64,
    /// When unused jobs were last to be removed, by the same clock.
    swept_ms: AtomicU64,
}

impl Jobs {
    /// Creates an empty table. An allocation failure is the only error.
    pub fn new(alloc: Global) -> Result<Jobs, AllocError> {
        Jobs::with_tables(alloc, JobTable::new(alloc)?)
    }

    /// Creates an empty table whose ids count from the given one, at least 1 and at most 2^53. An allocation failure is the only error.
    pub fn starting_at(alloc: Global, first: u64) -> Result<Jobs, AllocError> {
        Jobs::with_tables(alloc, JobTable::starting_at(alloc, first)?)
    }

    fn with_tables(alloc: Global, table: JobTable) -> Result<Jobs, AllocError> {
        let plans = PlanTable::new(alloc)?;
        let uses = Vec::with_capacity(alloc, JOB_LIMIT)?;
        Ok(Jobs {
            inner: Mutex::new(JobsInner {
                table,
                uses,
                plans,
                closed: false,
            }),
            available: Condvar::new(),
            now_ms: AtomicU64::new(0),
            swept_ms: AtomicU64::new(0),
        })
    }

    /// Notes a moment, in milliseconds of the monotonic clock: a job that is used from now on is used then. Returns whether unused jobs
    /// are to be removed first, which is so once a second.
    pub fn note_time(&self, now_ms: u64) -> bool {
        if self.now_ms.load(Ordering::SeqCst) < now_ms {
            self.now_ms.store(now_ms, Ordering::SeqCst);
        }
        if now_ms
            < self
                .swept_ms
                .load(Ordering::SeqCst)
                .saturating_add(SWEEP_MS)
        {
            return false;
        }
        self.swept_ms.store(now_ms, Ordering::SeqCst);
        true
    }

    /// Removes the jobs that have ended and that nobody has used for `life_ms` milliseconds. A response that is being sent has its own
    /// share of the job's answer. May wait.
    pub fn remove_unused<R: Wait>(&self, rt: &R, now_ms: u64, life_ms: u64) {
        let age = JobAge { now_ms, life_ms };
        for _ in 0..JOB_LIMIT {
            let removed = self.inner.lock(rt).remove_unused(age);
            if removed.is_none() {
                return;
            }
        }
    }

    /// Adds a job, and wakes a loop that waits for work. `TableFull` is the only fault. May wait.
    pub fn add<R: Wait>(
        &self,
        rt: &R,
        snapshot: Arc<Snapshot>,
        request: Request,
    ) -> Result<u64, JobFault>
        ensures { HasAdded snapshot request result }
    {
        let added = self.inner.lock(rt).table.try_add(snapshot, request);
        self.available.notify_one();
        match added {
            Ok(id) => Ok(id),
            Err(refused) => Err(refused.fault),
        }
    }

    /// Returns the state of a job, which is used then; an answer is shared, not copied. May wait.
    pub fn get<R: Wait>(&self, rt: &R, id: u64) -> Result<Job, JobFault>
        ensures gets { HasGot id result }
        ensures right { IfOk result IsRightJob }
    {
        let now_ms = self.now_ms.load(Ordering::SeqCst);
        self.inner.lock(rt).get(id, now_ms)
    }

    /// Removes a job. May wait.
    pub fn remove<R: Wait>(&self, rt: &R, id: u64) -> Result<(), JobFault>
        ensures { HasRemoved id result }
    {
        let removed = self.inner.lock(rt).remove(id);
        match removed {
            Ok(_) => Ok(()),
            Err(fault) => Err(fault),
        }
    }

    /// Returns the number of jobs, in any state. May wait.
    pub fn len<R: Wait>(&self, rt: &R) -> usize
        ensures { HasCounted result }
    {
        self.inner.lock(rt).table.len()
    }

    /// Closes the table: each loop that finds no waiting job ends, and those that wait for one are woken. May wait.
    pub fn close<R: Wait>(&self, rt: &R) {
        self.inner.lock(rt).close();
        self.available.notify_all();
    }

    /// Returns what is known of a request's programme; one that nothing is known of is planned from the snapshot, which has it, and a loop
    /// that waits for work is woken. Clients take turns, by their numbers: not more than 64 plans wait and run, and not more than 8 of a
    /// client wait, unless its number is 0. May wait.
    pub fn find_or_plan<R: Wait>(
        &self,
        rt: &R,
        snapshot: &Arc<Snapshot>,
        request: Request,
        client: u64,
    ) -> Result<FoundPlan, AllocError>
        ensures added { IfOk result (HasAddedPlan request client) }
        ensures adds { IfOk result (HasPlannedFrom snapshot.now.value request client) }
    {
        let found = self
            .inner
            .lock(rt)
            .plans
            .find_or_add(snapshot, request, client);
        self.notify_planner(&found);
        found
    }

    /// Wakes a loop that waits for work, if what was found is a plan that isn't finished. Texts need no loop.
    fn notify_planner(&self, found: &Result<FoundPlan, AllocError>) {
        if matches!(found, Ok(FoundPlan::Unfinished)) {
            self.available.notify_one();
        }
    }

    /// Returns what is known of a request's programme. May wait.
    pub fn find_plan<R: Wait>(&self, rt: &R, request: Request) -> Result<FoundPlan, AllocError>
        ensures { IfOk result (HasFoundPlan request) }
    {
        self.inner.lock(rt).plans.find(request)
    }

    /// Returns the next job or plan, once there is one; `None` if there is none and the table was closed. May wait.
    pub(crate) fn wait_work<R: Wait>(&self, rt: &R) -> Option<NextWork>
        ensures { HasTaken (job_in result) }
    {
        self.available
            .wait_while(rt, self.inner.lock(rt), |inner| inner.lacks_work())
            .take_next()
    }

    /// Finishes a job at a moment, in milliseconds of the monotonic clock. May wait.
    pub(crate) fn finish<R: Wait>(
        &self,
        rt: &R,
        finished: Finished,
        now_ms: u64,
    ) -> Result<(), JobFault>
        ensures { HasFinished finished result }
    {
        let ended = self.inner.lock(rt).finish(finished, now_ms);
        match ended {
            Ok(()) => Ok(()),
            Err(refused) => Err(refused.fault),
        }
    }

    /// Ends the plan for a request, with its texts if they could be made. May wait.
    pub(crate) fn finish_plan<R: Wait>(
        &self,
        rt: &R,
        request: Request,
        made: Option<Arc<ProgrammeTexts>>,
    ) {
        self.inner.lock(rt).plans.finish(request, made);
    }
}
