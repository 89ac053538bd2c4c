//! What the workers of one listener know of each other, and how other threads wake them.

use crate::waker::{WakeReason, WakeReasons, WorkerWaker};
use crate::yielding::is_crowded;
use mio::{Poll, Token};
use std::alloc::Global;
use std::io;
use std::sync::atomic::{AtomicBool, AtomicU64, Ordering};

/// How many connections above its share a worker may hold before it lets the others accept first.
const SLACK: u64 = 4;

/// The rank of a worker that hasn't searched yet, before all others: it may have any connection.
pub(crate) const UNKNOWN_RANK: u64 = 0;

/// The rank of a worker without a connection to evict.
pub(crate) const NO_RANK: u64 = u64::MAX;

/// What the others know of one worker.
#[derive(Drop)]
struct WorkerLoad {
    /// Wakes it.
    waker: WorkerWaker,
    /// Whether it accepts connections.
    open: AtomicBool,
    /// How many it holds.
    open_connections: AtomicU64,
    /// The rank of the connection that it would evict first, as it found last.
    rank: AtomicU64,
    /// How many of its connections are in the middle of a body, as it counted last.
    bodies: AtomicU64,
    /// Whether a connection of its may wait for a change.
    waits: AtomicBool,
}

impl WorkerLoad {
    /// The load of a worker that hasn't started.
    fn new() -> io::Result<WorkerLoad> {
        Ok(WorkerLoad {
            waker: WorkerWaker::new()?,
            open: AtomicBool::new(false),
            open_connections: AtomicU64::new(0),
            rank: AtomicU64::new(NO_RANK),
            bodies: AtomicU64::new(0),
            waits: AtomicBool::new(false),
        })
    }

    /// How many connections it holds; the maximum if it accepts none.
    fn load(&self) -> u64 {
        if self.open.load(Ordering::SeqCst) {
            self.open_connections.load(Ordering::SeqCst)
        } else {
            u64::MAX
        }
    }
}

/// The loads of one listener's workers, by which they share new connections.
#[derive(Drop)]
pub struct WorkerLoads {
    loads: Vec<WorkerLoad>,
    /// How many workers have started.
    joined: AtomicU64,
    /// The connections of all workers.
    open_connections: AtomicU64,
    /// How many workers may have waiting connections.
    waiting_workers: AtomicU64,
    /// The most connections of all workers.
    most: u64,
    /// How many connections each worker accepts before it ends.
    pub(crate) connections: u64,
    /// Since when the workers are to end, in milliseconds; the maximum unless they are.
    ending_since_ms: AtomicU64,
}

impl WorkerLoads {
    /// The loads of `workers` workers, at least one, that hold at most `most` connections together, at least one. Each accepts
    /// `connections` before it ends. Fails if it is out of memory, or if the process may open no more files.
    pub fn new(
        alloc: Global,
        workers: u64,
        most: u64,
        connections: u64,
    ) -> io::Result<WorkerLoads> {
        let mut loads = Vec::new(alloc);
        for _ in 0..workers.max(1) {
            loads.push(WorkerLoad::new()?)?;
        }
        Ok(WorkerLoads {
            loads,
            joined: AtomicU64::new(0),
            open_connections: AtomicU64::new(0),
            waiting_workers: AtomicU64::new(0),
            most: most.max(1),
            connections,
            ending_since_ms: AtomicU64::new(u64::MAX),
        })
    }

    /// Registers a worker, which is woken from now on. Returns its index.
    pub(crate) fn join(&self, poll: &Poll, token: Token) -> io::Result<usize> {
        let index = self.joined.fetch_add(1, Ordering::SeqCst) as usize;
        if let Some(worker_load) = self.loads.get(index) {
            worker_load.waker.register(poll, token)?;
            worker_load.rank.store(UNKNOWN_RANK, Ordering::SeqCst);
            worker_load.open.store(true, Ordering::SeqCst);
        }
        Ok(index)
    }

    /// A worker stops accepting. Another accepts the connections that were reported to it.
    pub(crate) fn leave_listener(&self, index: usize) {
        if let Some(worker_load) = self.loads.get(index) {
            worker_load.open.store(false, Ordering::SeqCst);
        }
        self.publish_rank(index, NO_RANK);
        self.wake_worker(self.find_least_loaded(index));
    }

    /// Has a worker look for a new connection.
    pub(crate) fn wake_worker(&self, index: Option<usize>) {
        let Some(index) = index else {
            return;
        };
        if let Some(worker_load) = self.loads.get(index) {
            worker_load.waker.wake(WakeReason::Connection);
        }
    }

    /// Takes the reasons for which a worker was woken.
    pub(crate) fn take_reasons(&self, index: usize) -> WakeReasons {
        match self.loads.get(index) {
            Some(worker_load) => worker_load.waker.take_reasons(),
            None => WakeReasons {
                connection: false,
                change: false,
            },
        }
    }

    /// Notes whether a worker's connections may wait. Returns whether that is new. A connection that begins to wait must check its
    /// condition again if it is: a change before was reported to other workers only.
    pub(crate) fn note_waits(&self, index: usize, waits: bool) -> bool {
        let Some(worker_load) = self.loads.get(index) else {
            return false;
        };
        if worker_load.waits.swap(waits, Ordering::SeqCst) == waits {
            return false;
        }
        if waits {
            self.waiting_workers.fetch_add(1, Ordering::SeqCst);
        } else {
            self.waiting_workers.fetch_sub(1, Ordering::SeqCst);
        }
        true
    }

    /// Gives each waiting connection a turn, since what it waits for may have happened. Publish the change first. Any thread may
    /// call this. It costs one load while nothing waits, and a write for each worker with waiting connections.
    pub fn wake_waiting(&self) {
        if self.waiting_workers.load(Ordering::SeqCst) == 0 {
            return;
        }
        for worker_load in &self.loads {
            if worker_load.waits.load(Ordering::SeqCst) {
                worker_load.waker.wake(WakeReason::Change);
            }
        }
    }

    /// Has the workers end from this moment of the monotonic clock on: they accept no more connections, close one once it has no request
    /// or, after 40 ms, is between two parts of an endless one, and the others after a quarter of a second. Each connection gets turns until
    /// then. Any thread may call this.
    pub fn end(&self, now_ms: u64) {
        if self.ending_since_ms().is_none() {
            self.ending_since_ms.store(now_ms, Ordering::SeqCst);
        }
        for worker_load in &self.loads {
            worker_load.waker.wake(WakeReason::Connection);
        }
        self.wake_waiting();
    }

    /// Whether the workers are to end.
    pub fn is_ending(&self) -> bool {
        self.ending_since_ms().is_some()
    }

    /// Since when the workers are to end, if they are.
    pub(crate) fn ending_since_ms(&self) -> Option<u64> {
        match self.ending_since_ms.load(Ordering::SeqCst) {
            u64::MAX => None,
            since_ms => Some(since_ms),
        }
    }

    /// The other worker that accepts and holds the fewest connections.
    pub(crate) fn find_least_loaded(&self, index: usize) -> Option<usize> {
        let (mut found, mut least) = (None, u64::MAX);
        for (other, worker_load) in self.loads.iter().enumerate() {
            let load = worker_load.load();
            if other != index && load < least {
                (found, least) = (Some(other), load);
            }
        }
        found
    }

    /// A worker opened a connection, and holds the given number now.
    pub(crate) fn count_opened(&self, index: usize, open_connections: usize) {
        self.open_connections.fetch_add(1, Ordering::SeqCst);
        self.set_count(index, open_connections);
    }

    /// A worker closed a connection, and holds the given number now.
    pub(crate) fn count_closed(&self, index: usize, open_connections: usize) {
        self.open_connections.fetch_sub(1, Ordering::SeqCst);
        self.set_count(index, open_connections);
    }

    /// Notes how many connections a worker holds.
    fn set_count(&self, index: usize, open_connections: usize) {
        if let Some(worker_load) = self.loads.get(index) {
            worker_load
                .open_connections
                .store(open_connections as u64, Ordering::SeqCst);
        }
    }

    /// Returns how many connections all workers hold.
    pub fn connection_count(&self) -> u64 {
        self.open_connections.load(Ordering::SeqCst)
    }

    /// Whether all places are in use. Workers that ask at once may each accept one more, and keep a file each for that.
    pub(crate) fn is_full(&self) -> bool {
        self.open_connections.load(Ordering::SeqCst) >= self.most
    }

    /// Whether a worker with this number of connections has clearly more than its share.
    pub(crate) fn has_more(&self, open_connections: usize) -> bool {
        let (all, workers) = (
            self.open_connections.load(Ordering::SeqCst),
            self.loads.len() as u64,
        );
        open_connections as u64 > (all / workers.max(1)).saturating_add(SLACK)
    }

    /// Notes the rank of the connection that a worker would evict first.
    pub(crate) fn publish_rank(&self, index: usize, rank: u64) {
        if let Some(worker_load) = self.loads.get(index) {
            worker_load.rank.store(rank, Ordering::SeqCst);
        }
    }

    /// Notes how many of a worker's connections are in the middle of a body.
    pub(crate) fn publish_bodies(&self, index: usize, bodies: u64) {
        if let Some(worker_load) = self.loads.get(index) {
            worker_load.bodies.store(bodies, Ordering::SeqCst);
        }
    }

    /// Whether bodies take more than nine tenths of the places, as the workers counted last.
    pub(crate) fn is_crowded(&self) -> bool {
        let mut bodies: u64 = 0;
        for worker_load in &self.loads {
            bodies = bodies.saturating_add(worker_load.bodies.load(Ordering::SeqCst));
        }
        is_crowded(bodies, self.most)
    }

    /// The other worker whose connection is to be evicted first, by the ranks noted last; none if this worker's own is first.
    pub(crate) fn find_first_to_yield(&self, index: usize) -> Option<usize> {
        let own = match self.loads.get(index) {
            Some(worker_load) => worker_load.rank.load(Ordering::SeqCst),
            None => NO_RANK,
        };
        let (mut found, mut least) = (None, own);
        for (other, worker_load) in self.loads.iter().enumerate() {
            let other_rank = worker_load.rank.load(Ordering::SeqCst);
            if other_rank < least {
                (found, least) = (Some(other), other_rank);
            }
        }
        found
    }
}
