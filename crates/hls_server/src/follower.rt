//! The thread that writes the states of a channel to its journal.

ghost use Rattle.std.specs.Prelude.{◌≡◌};

use crate::durability::Durability;
use hls_core::snapshot::Snapshot;
use hls_event_loop::WorkerLoads;
use hls_housekeeper::ServerStatus;
use hls_metrics::Measurements;
use hls_metrics::measurements::store;
use hls_time::monotonic_ms;
use hls_turn::{Pass, Turn};
use std::alloc::Global;
use std::sync::{Arc, Wait};
use std::thread;
use std::time::{Clock, Duration};

/// How long the follower waits for a call, in milliseconds. Slides and trims don't call it, so it also looks by itself.
const LONGEST_WAIT_MS: u64 = 1000;

/// How long the follower sleeps after a round that wrote several events, in microseconds, so that the next one has more. Otherwise an
/// encoder that sends without a pause wakes it for each unit or two, and each round has calls of its own.
const GATHER_US: u64 = 500;

/// The events of a round that takes long enough for others to arrive meanwhile.
const LONG_ROUND: u64 = 16;

/// The retry interval after a fault that passes, in milliseconds.
const RETRY_MS: u64 = 250;

/// How many attempts in a row fail before the channel continues without its journal: nothing is sent meanwhile.
const MOST_FAILURES: u64 = 5;

/// Why nothing was written. The journal reports the cause itself.
#[derive(Clone, Copy, Drop)]
pub enum FollowFault {
    /// It may pass: out of memory, or no room on the disk.
    Retry,
    /// Nothing more can be written.
    Lost,
}

/// Writes the states of a channel to its journal, in order. Its calls may block on a disk.
pub trait StateFollower {
    /// Writes what a state has and the journal hasn't. Returns how many versions are durable, as far as the journal's settings ask.
    fn follow(&mut self, snapshot: &Snapshot) -> Result<u64, FollowFault>;

    /// Syncs what was written.
    fn sync(&mut self) -> Result<(), FollowFault>;

    /// Marks the journal as incomplete, since the channel continues without it.
    fn abandon(&mut self);

    /// Whether the server is to end after this state, so that the channel begins a new log.
    fn wants_end(&mut self, snapshot: &Snapshot) -> bool;

    /// The server has ended: closes the journal, if it isn't abandoned. The snapshot is the last state.
    fn close(&mut self, snapshot: Arc<Snapshot>);
}

/// A follower that writes nothing: each state that it was given counts as durable.
#[derive(Drop)]
pub struct NoFollower;

impl StateFollower for NoFollower {
    fn follow(&mut self, snapshot: &Snapshot) -> Result<u64, FollowFault> {
        Ok(snapshot.version())
    }

    fn sync(&mut self) -> Result<(), FollowFault> {
        Ok(())
    }

    fn abandon(&mut self) {}

    fn wants_end(&mut self, _snapshot: &Snapshot) -> bool {
        false
    }

    fn close(&mut self, _snapshot: Arc<Snapshot>) {}
}

/// What the follower works with.
#[derive(Clone, Copy)]
pub(crate) struct FollowerContext<'a> {
    pub alloc: Global,
    pub turn: &'a Turn,
    pub durability: &'a Durability,
    pub worker_loads: &'a WorkerLoads,
    pub measurements: &'a Measurements,
    /// How often it is synced, in milliseconds, if it is by time.
    pub sync_interval_ms: Option<u64>,
    /// Whether encoders are refused once the journal is lost.
    pub refuses_if_lost: bool,
}

impl<'a> FollowerContext<'a> {
    /// Writes a state, and releases what waited for it.
    fn follow<F: StateFollower>(
        &self,
        follower: &mut F,
        round: u64,
        snapshot: &Snapshot,
    ) -> Result<(), FollowFault> {
        let version = snapshot.version();
        self.measure_lag(version, self.durability.read().version);
        let durable = follower.follow(snapshot)?;
        self.measure_lag(version, durable);
        self.durability.end_round(round, durable);
        self.worker_loads.wake_waiting();
        Ok(())
    }

    /// Stores how many of the versions aren't durable.
    fn measure_lag(&self, version: u64, durable: u64) {
        store(
            &self.measurements.journal_lag,
            version.saturating_sub(durable),
        );
    }

    /// Sleeps if a round has written several events and wasn't long, given the version up to which the journal was durable before it.
    fn gather<R: Clock>(&self, rt: &R, before: u64) {
        let written = self.durability.read().version.saturating_sub(before);
        if 1 < written && written < LONG_ROUND {
            thread::sleep(rt, Duration::from_micros(GATHER_US));
        }
    }

    /// Stores when the journal was synced last: by time, or with what was written last.
    fn note_synced<R: Clock>(&self, rt: &R, synced_ms: u64) {
        let synced_ms = match self.sync_interval_ms {
            Some(_) => synced_ms,
            None => monotonic_ms(rt),
        };
        store(&self.measurements.journal_synced_ms, synced_ms);
    }

    /// Looks at the state and writes it, or closes the journal with it. Returns when the journal was synced last; `None` once it is
    /// closed.
    fn run_round<R: Wait + Clock, F: StateFollower>(
        &self,
        rt: &R,
        follower: &mut F,
        pass: &mut Pass,
        synced_ms: u64,
        is_closed: bool,
    ) -> Result<Option<u64>, FollowFault>
        requires { pass.old.turn ≡ self.now.turn.now }
        ensures { pass.new.turn ≡ self.now.turn.now }
    {
        let round = self.durability.begin_round();
        let Ok(snapshot) = self.turn.look(rt, self.alloc, pass) else {
            return Err(FollowFault::Retry);
        };
        if is_closed {
            follower.close(snapshot);
            return Ok(None);
        }
        self.follow(follower, round, &snapshot)?;
        if follower.wants_end(&snapshot) && !self.worker_loads.is_ending() {
            // what is synced while requests are served isn't waited for afterwards
            follower.sync()?;
            let now = monotonic_ms(rt);
            self.worker_loads.end(now);
            return Ok(Some(now));
        }
        let now = monotonic_ms(rt);
        Ok(Some(sync_when_due(follower, self.sync_interval_ms, synced_ms, now)?))
    }

    /// Continues without a journal: nothing is held back any more, and encoders are refused if that is asked for.
    fn abandon<F: StateFollower>(&self, follower: &mut F) {
        if self.refuses_if_lost {
            self.turn.refuse_encoders();
        }
        follower.abandon();
        store(&self.measurements.journal_lost, 1);
        self.durability.give_up();
        self.worker_loads.wake_waiting();
    }
}

/// Waits until the server has ended, and gives the last state to a follower that is abandoned. May wait.
fn await_end<R: Wait + Clock, F: StateFollower, H: ServerStatus>(
    rt: &R,
    context: FollowerContext<'_>,
    follower: &mut F,
    status: &H,
    pass: &mut Pass,
)
    requires { pass.old.turn ≡ context.turn.now }
{
    for _ in rt.forever() {
        if status.is_closed() {
            if let Ok(snapshot) = context.turn.look(rt, context.alloc, pass) {
                follower.close(snapshot);
                return;
            }
        }
        context.durability.wait_called(rt, LONGEST_WAIT_MS);
    }
}

/// Syncs the journal if that is due. Returns when it was synced last.
fn sync_when_due<F: StateFollower>(
    follower: &mut F,
    sync_interval_ms: Option<u64>,
    synced_ms: u64,
    now: u64,
) -> Result<u64, FollowFault> {
    match sync_interval_ms {
        Some(interval_ms) if synced_ms.saturating_add(interval_ms) <= now => {
            follower.sync()?;
            Ok(now)
        }
        _ => Ok(synced_ms),
    }
}

/// Whether the channel continues without its journal after this number of failures in a row, the last of which is this one.
fn is_final(fault: FollowFault, failures: u64) -> bool {
    matches!(fault, FollowFault::Lost) || failures >= MOST_FAILURES
}

/// Writes the states of a channel to its journal until the server has closed, or until the journal is lost. May wait.
pub(crate) fn run_follower<R: Wait + Clock, F: StateFollower, H: ServerStatus>(
    rt: &R,
    context: FollowerContext<'_>,
    follower: &mut F,
    status: &H,
    pass: &mut Pass,
)
    requires { pass.old.turn ≡ context.turn.now }
{
    let interval_ms = context.sync_interval_ms.unwrap_or(LONGEST_WAIT_MS);
    let mut synced_ms = monotonic_ms(rt);
    let mut failures: u64 = 0;
    for _ in rt.forever() {
        context
            .durability
            .wait_called(rt, interval_ms.min(LONGEST_WAIT_MS));
        let is_closed = status.is_closed();
        let before = context.durability.read().version;
        context.durability.note_work(Some(monotonic_ms(rt)));
        let round = context.run_round(rt, follower, pass, synced_ms, is_closed);
        context.durability.note_work(None);
        match round {
            Ok(Some(at)) => {
                synced_ms = at;
                context.note_synced(rt, at);
                context.gather(rt, before);
                failures = 0;
            }
            Ok(None) => return,
            Err(fault) => {
                failures = failures.saturating_add(1);
                if is_final(fault, failures) {
                    context.abandon(follower);
                    return await_end(rt, context, follower, status, pass);
                }
                let _ = thread::sleep(rt, Duration::from_millis(RETRY_MS));
                context.durability.call(rt);
            }
        }
    }
}
