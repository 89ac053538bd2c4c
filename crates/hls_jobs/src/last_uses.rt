//! When each job was used last.

ghost use Rattle.std.specs.Prelude.{◌≡◌, IfOk, OnErr, OnOk};
ghost use Rattle.hls_catchup.specs.Jobs.States.{IsFinished};
ghost use Rattle.hls_jobs.specs.LastUses.{IsUseFound, IsUnusedFound, has_ended, is_old, is_unused, last_use, with_use, without_use};

use hls_catchup::{JobRow, JobState};
use std::alloc::AllocError;

/// The last use of a job.
#[derive(Clone, Copy, Drop)]
pub struct LastUse {
    pub id: u64,
    /// The moment, in milliseconds of the monotonic clock.
    pub used_ms: u64,
}

/// A moment, and for how long a job that is removed then wasn't used, in milliseconds.
#[derive(Clone, Copy, Drop)]
pub struct JobAge {
    pub now_ms: u64,
    pub life_ms: u64,
}

/// Returns the index of the last use of a job.
fn find_use(uses: &[LastUse], id: u64) -> Option<usize>
    ensures { IsUseFound uses.now id result }
{
    uses.iter().position(|found| found.id == id)
}

/// Notes that a job was used at a moment, in milliseconds.
#[tactic(auto, using(crate::proofs::Uses::set_first, crate::proofs::Uses::first_use))]
pub fn note_use(uses: &mut Vec<LastUse>, id: u64, used_ms: u64) -> Result<(), AllocError>
    ensures ok { OnOk result (uses.new.items ≡ with_use id used_ms uses.old.items) }
    ensures err { OnErr result (uses.new.items ≡ uses.old.items) }
{
    match find_use(uses, id) {
        Some(at) => {
            uses[at] = LastUse { id, used_ms };
            Ok(())
        }
        None => match uses.push(LastUse { id, used_ms }) {
            Ok(()) => Ok(()),
            Err(_) => Err(AllocError),
        },
    }
}

/// Forgets a job.
#[tactic(auto, using(crate::proofs::Uses::removed_first, crate::proofs::Uses::kept_uses))]
pub fn remove_use(uses: &mut Vec<LastUse>, id: u64)
    ensures { uses.new.items ≡ without_use id uses.old.items }
{
    if let Some(at) = find_use(uses, id) {
        uses.remove(at);
    }
}

/// Returns when a job was used last, if that was noted.
fn last_use(uses: &[LastUse], id: u64) -> Option<u64>
    ensures { result ≡ last_use id uses.now }
{
    for found in uses {
        if found.id == id {
            return Some(found.used_ms);
        }
    }
    None
}

/// Whether a job has ended.
fn has_ended(state: &JobState) -> bool
    ensures { result ≡ has_ended state.now }
{
    matches!(state, JobState::Finished(_) | JobState::Failed)
}

/// Whether a use was so long ago that a job may be removed.
fn is_old(used: Option<u64>, age: JobAge) -> bool
    ensures { result ≡ is_old used age }
{
    match used {
        None => false,
        Some(used_ms) => used_ms <= age.now_ms && age.life_ms <= age.now_ms - used_ms,
    }
}

/// Whether a job has ended and wasn't used for long enough.
fn is_unused(uses: &[LastUse], age: JobAge, row: &JobRow) -> bool
    ensures { result ≡ is_unused uses.now age row.now }
{
    has_ended(&row.state) && is_old(last_use(uses, row.id), age)
}

/// Returns the index of the first job that has ended and wasn't used for long enough.
pub fn find_unused_row(rows: &[JobRow], uses: &[LastUse], age: JobAge) -> Option<usize>
    ensures { IsUnusedFound rows.now uses.now age result }
{
    rows.iter().position(|row| is_unused(uses, age, row))
}
