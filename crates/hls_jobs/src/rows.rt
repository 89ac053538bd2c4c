//! The rows of a table: finds jobs among them, and changes their states.

ghost use Rattle.std.specs.Prelude.{◌≡◌, ◌<◌, ◌≤◌, ◌∷◌, [], ◌++◌, length, true, false, IfOk, OnErr};
ghost use Rattle.std.specs.Vec.{vec_capacity};
ghost use Rattle.hls_catchup.specs.Jobs.States.{is_waiting, IsRunningFor, reported_job, state_of_answer, IsFinished};
ghost use Rattle.hls_jobs.specs.Rows.{IsRowFound, IsFirstWaiting, WaitsAt, Starts, Sets, waiting_row, running_row};

use hls_catchup::{Job, JobAnswer, JobRow, JobState, Request, Work};
use std::alloc::AllocError;
use std::mem;

/// Returns the index of the job with an id among the rows.
pub fn find_row(rows: &[JobRow], id: u64) -> Option<usize>
    ensures { IsRowFound rows.now id result }
{
    rows.iter().position(|row| row.id == id)
}

/// Returns the index of the first waiting job.
pub fn find_waiting_row(rows: &[JobRow]) -> Option<usize>
    ensures { IsFirstWaiting rows.now result }
{
    rows.iter().position(|row| is_waiting(&row.state))
}

/// Appends a row; there is room.
pub fn push_row(rows: &mut Vec<JobRow>, row: JobRow)
    requires { length rows.old.items < vec_capacity rows.old }
    ensures items { rows.new.items ≡ rows.old.items ++ row ∷ [] }
    ensures room { vec_capacity rows.old ≤ vec_capacity rows.new }
{
    let Ok(()) = rows.push(row) else {
        unreachable!()
    };
}

/// Sets the state of the job at an index.
pub fn set_state(rows: &mut Vec<JobRow>, at: usize, state: JobState)
    requires { at < length rows.old.items }
    ensures sets { Sets rows.old.items at state rows.new.items }
    ensures room { vec_capacity rows.old ≤ vec_capacity rows.new }
{
    rows[at].state = state;
}

/// Starts the waiting job at an index: its snapshot moves into the work.
pub fn start_job(rows: &mut Vec<JobRow>, at: usize) -> Work
    requires { WaitsAt rows.old.items at }
    ensures begins { Starts rows.old.items at result rows.new.items }
    ensures room { vec_capacity rows.old ≤ vec_capacity rows.new }
{
    let row = &mut rows[at];
    start_row(row)
}

fn start_row(row: &mut JobRow) -> Work
    requires { is_waiting row.old.state ≡ true }
    ensures waited { row.old ≡ waiting_row result }
    ensures runs { row.new ≡ running_row result }
{
    match mem::replace(&mut row.state, JobState::Failed) {
        JobState::Waiting { snapshot, request } => {
            let version = snapshot.version();
            row.state = JobState::Running { version, request };
            Work {
                id: row.id,
                snapshot,
                request,
            }
        }
        _ => unreachable!(),
    }
}

/// Returns the state of a job that ended with this answer.
pub fn state_of_answer(answer: Result<JobAnswer, AllocError>) -> JobState
    ensures { result ≡ state_of_answer answer }
{
    match answer {
        Ok(answer) => JobState::Finished(answer),
        Err(_) => JobState::Failed,
    }
}

pub fn is_waiting(state: &JobState) -> bool
    ensures { result ≡ is_waiting state.now }
{
    matches!(state, JobState::Waiting { .. })
}

/// Whether the job runs for this version and this request.
pub fn is_running_for(state: &JobState, version: u64, request: Request) -> bool
    ensures yes { result ≡ true → IsRunningFor version request state.now }
    ensures no { result ≡ false → ¬ IsRunningFor version request state.now }
{
    match state {
        JobState::Running {
            version: own,
            request: asked,
        } => *own == version && *asked == request,
        _ => false,
    }
}

/// Returns the reported state of the job: an answer is shared, not copied.
pub fn report_job(state: &JobState) -> Result<Job, AllocError>
    ensures ok { IfOk result (λ job. job ≡ reported_job state.now) }
    ensures err { OnErr result (IsFinished state.now) }
{
    match state {
        JobState::Waiting { .. } => Ok(Job::Waiting),
        JobState::Running { .. } => Ok(Job::Running),
        JobState::Finished(answered) => Ok(Job::Finished(answered.share()?)),
        JobState::Failed => Ok(Job::Failed),
    }
}
