//! A channel for sessions in which any one allocation is refused, and the script that is sent to it. Each reply is the one without
//! the failure, or the fixed out-of-memory reply, which ends the session, or those of a job that ran out of memory; what was accepted
//! before stays, another session continues, and the script sent again ends as without the failure.
//!
//! `ensures { result ≡ result }` states nothing: with a contract, a helper's body isn't checked again at each call.

ghost use Rattle.std.specs.Prelude.{◌≡◌};

use crate::script::{
    EVENTS, FILE_NAMES, GONE, JobFiles, delete, encoder, encoder_replies, get_file, get_files,
};
use crate::session_outcome::{JobRunOutcome, SessionOutcome, judge_session, status_reply};
use hls_core::snapshot::Snapshot;
use hls_fakes::PageWriter;
use hls_http::{Session, SessionEnd};
use std::alloc::Global;

/// What a channel holds: its number of events, and of bytes of its rendition.
#[derive(Clone, Copy)]
pub struct Holdings {
    version: u64,
    total: u64,
}

impl Holdings {
    pub fn from_snapshot(state: &Snapshot) -> Holdings {
        let total = match state.recording(0) {
            Some(recording) => recording.total(),
            None => 0,
        };
        Holdings {
            version: state.version(),
            total,
        }
    }

    /// Whether it holds exactly what its version implies: an init section and units, and no further byte.
    fn is_consistent(self) -> bool {
        match self.version {
            0 => self.total == 0,
            1 => self.total == 600,
            2 => self.total == 1600,
            3 => self.total == 2600,
            _ => self.total == 3600,
        }
    }
}

/// A channel, with what its sessions need.
pub trait TestOrigin {
    /// Returns the allocator.
    fn alloc(&self) -> Global;

    /// Serves a session to its end.
    fn serve(&mut self, session: &mut Session<&[u8], PageWriter>) -> SessionEnd;

    /// Serves later sessions through another handle, if there is one.
    fn swap_handles(&mut self);

    /// Returns what the channel holds; `None` if an allocation failed.
    fn holdings(&mut self) -> Option<Holdings>;

    /// Returns the number of jobs.
    fn job_count(&self) -> usize;

    /// Runs all waiting jobs.
    fn run_jobs(&mut self);

    /// Returns the state of the job with an id after it ran.
    fn job_outcome(&self, id: u32) -> JobRunOutcome;
}

/// Runs a session that should have these replies.
fn run_session<O: TestOrigin>(origin: &mut O, text: &[u8], replies: &[&[u8]]) -> SessionOutcome
    ensures { result ≡ result }
{
    let Ok(mut session) = Session::new(origin.alloc(), text, PageWriter::new()) else {
        return SessionOutcome::OutOfMemory;
    };
    let end = origin.serve(&mut session);
    let page = session.writer.into_inner();
    judge_session(page.as_bytes(), end, replies)
}

/// Sends the request that removes a job.
fn delete_job<O: TestOrigin>(origin: &mut O, id: u32) -> Option<SessionOutcome>
    ensures { result ≡ result }
{
    let text = delete(origin.alloc(), id).ok()?;
    Some(run_session(origin, &text, &[GONE]))
}

/// Checks that a job that ran out of memory is answered so at its line and each of its files, and is removed like any other.
fn check_failed_job<O: TestOrigin>(origin: &mut O, id: u32) -> Option<SessionOutcome> {
    for file in FILE_NAMES {
        let text = get_file(origin.alloc(), id, file).ok()?;
        if run_session(origin, &text, &[GONE]) != SessionOutcome::OutOfMemory {
            return Some(SessionOutcome::Wrong);
        }
    }
    let gone = delete_job(origin, id)?;
    Some(SessionOutcome::OutOfMemory.and(gone))
}

/// Checks that a job that has an answer has its line and its files, and is removed.
fn check_finished_job<O: TestOrigin>(
    origin: &mut O,
    id: u32,
    files: &JobFiles,
) -> Option<SessionOutcome> {
    let text = get_files(origin.alloc(), id).ok()?;
    let went = run_session(origin, &text, &files.replies());
    if went != SessionOutcome::Right {
        return Some(went);
    }
    delete_job(origin, id)
}

/// Runs the job with an id, checks it, and removes it.
fn check_job<O: TestOrigin>(origin: &mut O, id: u32, files: &JobFiles) -> Option<SessionOutcome> {
    origin.run_jobs();
    match origin.job_outcome(id) {
        JobRunOutcome::Finished => check_finished_job(origin, id, files),
        JobRunOutcome::Failed => check_failed_job(origin, id),
        JobRunOutcome::Wrong => Some(SessionOutcome::Wrong),
    }
}

/// Runs a session that asks for the channel's status.
fn check_status<O: TestOrigin>(origin: &mut O) -> Option<SessionOutcome> {
    let version = origin.holdings()?.version;
    let status = status_reply(origin.alloc(), version, origin.job_count()).ok()?;
    let request = b"GET /status HTTP/1.1\r\nHost: a\r\n\r\n";
    Some(run_session(origin, request, &[&status]))
}

/// Sends the encoder's part of the script. Returns the outcome, and whether a job was added, which should have this id.
fn put_all<O: TestOrigin>(origin: &mut O, id: u32) -> Option<(SessionOutcome, bool)> {
    let text = encoder(origin.alloc()).ok()?;
    let replies = encoder_replies(origin.holdings()?.version, id as usize);
    let before = origin.job_count();
    let went = run_session(origin, &text, &replies);
    Some((went, origin.job_count() > before))
}

/// Sends the script to the channel, whose next job has this id, until memory runs out, and asks for the channel's status in another
/// session. Returns the outcome, and whether a job was added; `None` if the texts for it couldn't be allocated.
fn send_once<O: TestOrigin>(
    origin: &mut O,
    id: u32,
    files: &JobFiles,
) -> Option<(SessionOutcome, bool)>
    ensures { result ≡ result }
{
    let (mut went, is_added) = put_all(origin, id)?;
    if went == SessionOutcome::Right {
        went = check_job(origin, id, files)?;
    }
    origin.swap_handles();
    Some((went.and(check_status(origin)?), is_added))
}

/// Sends the script twice to a new channel. Returns the outcome, and whether the channel holds what it should after each time; `None`
/// if a text couldn't be allocated.
pub fn send_twice<O: TestOrigin>(origin: &mut O) -> Option<(SessionOutcome, bool)> {
    let files = JobFiles::new(origin.alloc()).ok()?;
    let (first, is_added) = send_once(origin, 1, &files)?;
    let is_kept = origin.holdings()?.is_consistent();
    let id = if is_added { 2 } else { 1 };
    let (second, _) = send_once(origin, id, &files)?;
    let seen = origin.holdings()?;
    let is_whole = seen.is_consistent() && seen.version == EVENTS;
    Some((first.and(second), is_kept && is_whole))
}
