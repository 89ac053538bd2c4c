//! The script through a turn and a table of jobs, on one thread, with any one allocation refused: the turn's state is back in its
//! place, since a session of another pass continues.
//!
//! `ensures { result ≡ result }` states nothing: with a contract, a helper's body isn't checked again at each call.

ghost use Rattle.std.specs.Prelude.{◌≡◌};

use crate::channels::first_snapshot;
use crate::session_outcome::{JobRunOutcome, SessionOutcome, job_run_outcome};
use crate::test_origin::{Holdings, TestOrigin, send_twice};
use hls_connection::channel_handle::{ChannelHandle, serve_session};
use hls_connection::keeper::Keeper;
use hls_connection::shared_channel::SharedChannel;
use hls_fakes::PageWriter;
use hls_http::{Session, SessionEnd};
use hls_jobs::{Gate, Jobs, work_loop};
use hls_mend::EncoderSigns;
use hls_metrics::Measurements;
use hls_turn::Turn;
use std::alloc::Global;
use std::mem::swap;
use std::sync::Wait;

/// A gate that admits every job.
#[derive(Drop)]
struct OpenGate;

impl Gate for OpenGate {
    fn enter(&self, _id: u64) -> bool {
        true
    }

    fn now_ms(&self) -> u64 {
        0
    }

    fn leave(&self, _id: u64) {}

    fn note_planned(&self) {}
}

/// Two handles of one channel; one of them serves.
#[derive(Drop)]
struct HandlePair<'a, T: Wait> {
    here: ChannelHandle<'a, T>,
    other: ChannelHandle<'a, T>,
}

impl<'a, T: Wait> TestOrigin for HandlePair<'a, T> {
    fn alloc(&self) -> Global {
        self.here.alloc
    }

    fn serve(&mut self, session: &mut Session<&[u8], PageWriter>) -> SessionEnd {
        serve_session(session, &mut self.here)
    }

    fn swap_handles(&mut self) {
        swap(&mut self.here, &mut self.other);
    }

    fn holdings(&mut self) -> Option<Holdings> {
        let state = self.here.look().ok()?;
        Some(Holdings::from_snapshot(&state))
    }

    fn job_count(&self) -> usize {
        self.here.job_count()
    }

    fn run_jobs(&mut self) {
        work_loop(
            self.here.rt,
            self.here.alloc,
            self.here.channel.jobs,
            &OpenGate,
        );
    }

    fn job_outcome(&self, id: u32) -> JobRunOutcome {
        job_run_outcome(&self.here.get_job(u64::from(id)))
    }
}

/// Sends the script to a new turn through one handle, and then through the other.
fn sent_to<T: Wait>(rt: &T, alloc: Global, jobs: &Jobs) -> Option<(SessionOutcome, bool)> {
    let Ok((turn, mut passes)) = Turn::new(rt, alloc, first_snapshot(alloc, None)?, 2) else {
        return None;
    };
    let Ok(measurements) = Measurements::new(alloc) else {
        return None;
    };
    let signs = EncoderSigns::new();
    let channel = SharedChannel {
        turn: &turn,
        jobs,
        measurements: &measurements,
        signs: &signs,
        wait_ms: 5000,
        plan_wait_ms: 10_000,
    };
    let Some(second) = passes.pop() else {
        return None;
    };
    let Some(first) = passes.pop() else {
        return None;
    };
    let mut pair = HandlePair {
        here: ChannelHandle::new(rt, alloc, &channel, first),
        other: ChannelHandle::new(rt, alloc, &channel, second),
    };
    send_twice(&mut pair)
}

/// Does the same with a new table of jobs; `None` if the turn, the jobs or a text couldn't be allocated.
fn send_by_handles<T: Wait>(rt: &T, alloc: Global) -> Option<(SessionOutcome, bool)>
    ensures { result ≡ result }
{
    let jobs = Jobs::new(alloc).ok()?;
    // so that the loop of jobs ends once none waits
    jobs.close(rt);
    sent_to(rt, alloc, &jobs)
}

#[test]
fn out_of_memory_holds_no_turn(rt: HostRuntime) {
    let alloc = rt.alloc();
    let (went, is_whole) = match send_by_handles(&rt, alloc) {
        Some(both) => both,
        None => send_by_handles(&rt, alloc).expect(&rt, "a channel"),
    };
    assert!(rt; went != SessionOutcome::Wrong);
    assert!(rt; is_whole);
}
