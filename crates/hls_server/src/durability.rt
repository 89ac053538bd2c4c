//! How far the states of a channel are durable, as the follower of its journal publishes it; and what wakes the follower.

ghost use Rattle.std.specs.Prelude.{◌≤◌};

use std::sync::atomic::{AtomicBool, AtomicU64, Ordering};
use std::sync::{Condvar, Mutex, Wait};
use std::time::{Clock, Duration};

/// The version, and the round of the follower, up to which the journal was durable when it was read. Only `Durability::read` makes one.
#[derive(Clone, Copy, Drop)]
pub struct DurablePoint {
    pub(crate) version: u64,
    pub(crate) round: u64,
}

/// How far a channel's journal is durable. Without a journal every state counts as durable.
///
/// In a round the follower looks at the state and writes what is new. A round looks at a state with all events that were submitted before
/// it began.
#[derive(Drop)]
pub struct Durability {
    version: AtomicU64,
    /// How many rounds have begun.
    begun: AtomicU64,
    /// The last round that has ended, as have all before it.
    ended: AtomicU64,
    /// Since when the follower is at work, in milliseconds of the monotonic clock; 0 while it waits.
    busy_since_ms: AtomicU64,
    /// Whether the follower was called since it last began to look.
    is_called: AtomicBool,
    /// Whether a call waits to be noticed by the follower, which sleeps on `called`.
    call: Mutex<bool>,
    called: Condvar,
}

impl Durability {
    /// The durability of a journal that has the first `version` versions; without a journal, of all.
    pub fn new(version: Option<u64>) -> Durability {
        let (version, ended) = match version {
            Some(version) => (version, 0),
            None => (u64::MAX, u64::MAX),
        };
        Durability {
            version: AtomicU64::new(version),
            begun: AtomicU64::new(0),
            ended: AtomicU64::new(ended),
            busy_since_ms: AtomicU64::new(0),
            is_called: AtomicBool::new(false),
            call: Mutex::new(false),
            called: Condvar::new(),
        }
    }

    /// Returns how far the journal is durable now.
    pub fn read(&self) -> DurablePoint {
        DurablePoint {
            version: self.version.load(Ordering::SeqCst),
            round: self.ended.load(Ordering::SeqCst),
        }
    }

    /// Returns the number of a round that hasn't begun; it is at least 1.
    pub fn next_round(&self) -> u64
        ensures { 1 ≤ result }
    {
        self.begun.load(Ordering::SeqCst).saturating_add(1)
    }

    /// Calls the follower, unless it was called already. May wait.
    pub fn call<R: Wait>(&self, rt: &R) {
        if !self.is_called.swap(true, Ordering::SeqCst) {
            *self.call.lock(rt) = true;
            self.called.notify_all();
        }
    }

    /// Waits until the follower is called, at most for the given number of milliseconds.
    pub fn wait_called<R: Wait + Clock>(&self, rt: &R, most_ms: u64) {
        let most = Duration::from_millis(most_ms);
        let (mut has_call, _) = self
            .called
            .wait_timeout_while(rt, self.call.lock(rt), most, |has_call| !*has_call);
        *has_call = false;
    }

    /// Notes that the follower is at work from a moment of the monotonic clock on, in milliseconds, or waits from now on.
    pub fn note_work(&self, since_ms: Option<u64>) {
        let since_ms = since_ms.map_or(0, |since_ms| since_ms.max(1));
        self.busy_since_ms.store(since_ms, Ordering::SeqCst);
    }

    /// Returns for how long the follower has been at work, in milliseconds; 0 while it waits.
    pub fn busy_ms(&self, now_ms: u64) -> u64 {
        match self.busy_since_ms.load(Ordering::SeqCst) {
            0 => 0,
            since_ms => now_ms.saturating_sub(since_ms),
        }
    }

    /// Begins a round, and returns its number. Calls from now on are for the next one.
    pub fn begin_round(&self) -> u64 {
        self.is_called.store(false, Ordering::SeqCst);
        self.begun.fetch_add(1, Ordering::SeqCst).saturating_add(1)
    }

    /// Publishes what a round made durable: the first `version` versions.
    pub fn end_round(&self, round: u64, version: u64) {
        self.version.store(version, Ordering::SeqCst);
        self.ended.store(round, Ordering::SeqCst);
    }

    /// Makes every state count as durable, since nothing more is written.
    pub fn give_up(&self) {
        self.end_round(u64::MAX, u64::MAX);
    }
}
