//! How a worker accepts connections, and shares them with the others.

ghost use Rattle.std.specs.Prelude.{◌≡◌, IfNone, IfSome, Some};
ghost use Rattle.slab.specs.Slab.{Updates};
ghost use Rattle.hls_event_loop.specs.Validity.{AllValid};
ghost use Rattle.hls_event_loop.specs.Yielding.{yield_rank};

use super::Worker;
use crate::activity::{Activity, ConnectionStage};
use crate::backlog::Backlog;
use crate::handler::Handler;
use crate::slot::Slot;
use crate::worker_loads::{NO_RANK, UNKNOWN_RANK};
use crate::yielding::{choose_yielding, is_in_body};
use mio::Token;
use mio::net::TcpStream;
use slab::Slab;
use std::io::ErrorKind;
use std::net::SocketAddr;

/// The most connections accepted in a round. Some of those that are open end in the meantime.
const MOST_ACCEPTS: usize = 8;

/// How long a worker with more than its share lets the others accept first, in milliseconds.
const DEFER_TO_OTHERS_MS: u64 = 2;

/// How long a worker lets another evict a connection first, in milliseconds.
const DEFER_TO_FIRST_MS: u64 = 5;

/// How long a worker pauses after a failed accept, or if no connection can be evicted, in milliseconds.
const ACCEPT_PAUSE_MS: u64 = 10;

/// A search for a connection to evict adds a millisecond of pause for this many connections.
const SCANNED_PER_MS: u64 = 256;

/// Bodies with this many bytes or more have one rank. It is less than the rank of an idle connection.
const MOST_RANKED_BYTES: u64 = 1023;

/// The order of eviction, least first: the body with the fewest bytes, the longest idle, then the youngest head.
fn yield_rank(activity: Activity) -> u64
    ensures { result ≡ yield_rank activity }
{
    match activity.stage {
        ConnectionStage::Idle => activity.moved_ms.saturating_add(MOST_RANKED_BYTES + 2),
        ConnectionStage::Head => u64::MAX - activity.since_ms,
        _ => activity.bytes.min(MOST_RANKED_BYTES) + 1,
    }
}

/// Makes room for one more connection if there is none. It grows by an eighth instead of doubling, since slots are all that an idle
/// connection costs.
fn make_room<V: Drop>(slots: &mut Slab<Slot<V>>)
    ensures { slots.new ≡ record slots.old { capacity = slots.new.capacity } }
{
    let open_connections = slots.len();
    if open_connections == slots.capacity() {
        let _ = slots.reserve_exact(open_connections / 8 + 16);
    }
}

/// Inserts a connection. Returns its key; none if it is out of memory.
fn insert_slot<V: Drop>(slots: &mut Slab<Slot<V>>, slot: Slot<V>) -> Option<usize>
    ensures holds { IfSome result (λ key. Updates slots.old slots.new key (Some slot)) }
    ensures full { IfNone result (slots.new ≡ record slots.old { capacity = slots.new.capacity }) }
{
    make_room(slots);
    slots.insert(slot).ok()
}

impl<'a, H: Handler + Drop> Worker<'a, H> {
    /// A connection arrived at the listener. The kernel may have reported it to this worker only.
    pub(super) fn handle_listener(&mut self)
        ensures handler { self.new.handler ≡ self.old.handler }
        ensures slots { self.new.slots ≡ self.old.slots }
    {
        match self.backlog {
            Backlog::Empty => self.backlog = Backlog::Maybe,
            Backlog::Others(_) => self
                .worker_loads
                .wake_worker(self.worker_loads.find_least_loaded(self.index)),
            Backlog::First(_) => self
                .worker_loads
                .wake_worker(self.worker_loads.find_first_to_yield(self.index)),
            _ => {}
        }
    }

    /// Inserts a new connection. Returns its key; none if it is out of memory.
    fn insert_connection(&mut self, stream: TcpStream, peer: SocketAddr) -> Option<usize>
        requires valid { AllValid H.valid self.old.handler self.old.slots }
        ensures valid { AllValid H.valid self.new.handler self.new.slots }
    {
        let slot = Slot::new(self.handler.open(), stream, peer, self.now);
        let key = insert_slot(&mut self.slots, slot)?;
        self.worker_loads.count_opened(self.index, self.slots.len());
        self.reserve_turns();
        Some(key)
    }

    /// Makes room to note that each connection has more to do, so that none is given up for want of it.
    fn reserve_turns(&mut self)
        ensures handler { self.new.handler ≡ self.old.handler }
        ensures slots { self.new.slots ≡ self.old.slots }
    {
        let turns = self.slots.len();
        let _ = self.ready.reserve(turns);
        let _ = self.room.reserve(turns);
    }

    /// Has the kernel report a connection's readiness. Returns false if it refuses.
    fn register(&mut self, key: usize) -> bool
        requires valid { AllValid H.valid self.old.handler self.old.slots }
        ensures valid { AllValid H.valid self.new.handler self.new.slots }
    {
        match self.slots.get_mut(key) {
            Some(slot) => slot.join(&self.poll, Token(key)),
            None => false,
        }
    }

    /// Opens a new connection, and gives it a turn.
    fn admit(&mut self, stream: TcpStream, peer: SocketAddr)
        requires valid { AllValid H.valid self.old.handler self.old.slots }
        ensures valid { AllValid H.valid self.new.handler self.new.slots }
    {
        let Some(key) = self.insert_connection(stream, peer) else {
            return;
        };
        if self.register(key) {
            self.run_and_reschedule(key);
        } else {
            self.close(key);
        }
    }

    /// Publishes how many of its connections are in the middle of a body.
    fn publish_bodies(&self) {
        let mut bodies: u64 = 0;
        for (_, slot) in self.slots.iter() {
            if is_in_body(slot.activity) {
                bodies = bodies.saturating_add(1);
            }
        }
        self.worker_loads.publish_bodies(self.index, bodies);
    }

    /// Which of its connections it would evict first.
    fn find_yielding(&self) -> Option<(usize, Activity)> {
        self.publish_bodies();
        let crowded = self.worker_loads.is_crowded();
        let mut found: Option<(usize, Activity)> = None;
        for (key, slot) in self.slots.iter() {
            found = choose_yielding(found, key, slot.activity, crowded);
        }
        found
    }

    /// Publishes the rank of the connection that it would evict first.
    fn publish_rank(&self) {
        let first = match self.find_yielding() {
            Some((_, activity)) => yield_rank(activity),
            None => NO_RANK,
        };
        self.worker_loads.publish_rank(self.index, first);
    }

    /// Pauses accepting for the given number of milliseconds.
    fn pause_accepting(&mut self, time: u64)
        ensures handler { self.new.handler ≡ self.old.handler }
        ensures slots { self.new.slots ≡ self.old.slots }
    {
        self.backlog = Backlog::Later(self.now.saturating_add(time));
    }

    /// Stops accepting for good once it has accepted its number of connections.
    pub(super) fn stop_accepting(&mut self)
        ensures handler { self.new.handler ≡ self.old.handler }
        ensures slots { self.new.slots ≡ self.old.slots }
    {
        if self.accepts_left > 0 || self.backlog == Backlog::Stopped {
            return;
        }
        self.backlog = Backlog::Stopped;
        let _ = self.poll.registry().deregister(&mut self.listener);
        self.worker_loads.leave_listener(self.index);
    }

    /// Accepts the next connection, if any, and evicts the given one for it.
    fn accept(&mut self, yielding: Option<usize>)
        requires valid { AllValid H.valid self.old.handler self.old.slots }
        ensures valid { AllValid H.valid self.new.handler self.new.slots }
    {
        match self.listener.accept() {
            Ok((stream, peer)) => {
                self.accepts_left = self.accepts_left.saturating_sub(1);
                if let Some(key) = yielding {
                    self.abandon_connection(key);
                }
                self.admit(stream, peer);
            }
            Err(error) => match error.kind() {
                ErrorKind::WouldBlock => self.backlog = Backlog::Empty,
                ErrorKind::Interrupted => {}
                _ => {
                    self.accepts_left = self.accepts_left.saturating_sub(1);
                    self.handler.note_failed_accept(error);
                    self.pause_accepting(ACCEPT_PAUSE_MS);
                }
            },
        }
    }

    /// Lets the others accept first for a while, if any accepts, and wakes one of them for the first connection of a round. Returns
    /// whether it does.
    fn defer_to_others(&mut self, is_first: bool) -> bool
        ensures handler { self.new.handler ≡ self.old.handler }
        ensures slots { self.new.slots ≡ self.old.slots }
    {
        let other = self.worker_loads.find_least_loaded(self.index);
        if other.is_none() {
            return false;
        }
        self.backlog = Backlog::Others(self.now.saturating_add(DEFER_TO_OTHERS_MS));
        if is_first {
            self.worker_loads.wake_worker(other);
        }
        true
    }

    /// Whether the next connection is to be accepted now. A worker with more than its share lets the others accept first for a while,
    /// or until it has no more than its share.
    fn is_next(&mut self, is_first: bool) -> bool
        ensures handler { self.new.handler ≡ self.old.handler }
        ensures slots { self.new.slots ≡ self.old.slots }
    {
        let has_more = self.worker_loads.has_more(self.slots.len());
        if !self.backlog.is_due(self.now, has_more) {
            return false;
        }
        if has_more && self.backlog == Backlog::Maybe && self.defer_to_others(is_first) {
            return false;
        }
        self.backlog = Backlog::Maybe;
        true
    }

    /// Without a connection of its own to evict, wakes the worker that would evict first, if any, and pauses accepting: longer than
    /// after a failed accept, since searching many connections takes time.
    fn wake_yielding_worker(&mut self)
        ensures handler { self.new.handler ≡ self.old.handler }
        ensures slots { self.new.slots ≡ self.old.slots }
    {
        let scan_ms = self.slots.len() as u64 / SCANNED_PER_MS;
        self.worker_loads.publish_rank(self.index, NO_RANK);
        self.worker_loads
            .wake_worker(self.worker_loads.find_first_to_yield(self.index));
        self.pause_accepting(scan_ms.saturating_add(ACCEPT_PAUSE_MS));
    }

    /// Lets another worker evict first for a while, if one of its connections goes before all of this worker's. Returns whether it
    /// does.
    fn defer_to_first(&mut self) -> bool
        ensures handler { self.new.handler ≡ self.old.handler }
        ensures slots { self.new.slots ≡ self.old.slots }
    {
        let first = self.worker_loads.find_first_to_yield(self.index);
        if first.is_none() {
            return false;
        }
        self.backlog = Backlog::First(self.now.saturating_add(DEFER_TO_FIRST_MS));
        self.worker_loads.wake_worker(first);
        true
    }

    /// Accepts a connection when all places are in use. The longest idle connection of all workers is evicted for it, or the youngest
    /// head; before these, while bodies take more than nine tenths of the places, the body with the fewest bytes. If that is
    /// another worker's, this one defers for a while, and then evicts its own. It pauses if none can be evicted.
    fn accept_full(&mut self, waited: bool)
        requires valid { AllValid H.valid self.old.handler self.old.slots }
        ensures valid { AllValid H.valid self.new.handler self.new.slots }
    {
        let Some((key, activity)) = self.find_yielding() else {
            return self.wake_yielding_worker();
        };
        self.worker_loads
            .publish_rank(self.index, yield_rank(activity));
        if !waited && self.defer_to_first() {
            return;
        }
        self.accept(Some(key));
        self.publish_rank();
    }

    /// Accepts some of the queued connections. They stay queued while all places are in use and none can be evicted.
    pub(super) fn accept_some(&mut self)
        requires valid { AllValid H.valid self.old.handler self.old.slots }
        ensures valid { AllValid H.valid self.new.handler self.new.slots }
    {
        for count in 0..MOST_ACCEPTS {
            let waited = self.backlog.has_waited();
            if self.accepts_left == 0 || !self.is_next(count == 0) {
                return;
            }
            if self.worker_loads.is_full() {
                self.accept_full(waited);
            } else {
                self.accept(None);
            }
        }
    }

    /// Publishes its rank when all places are in use, and how many bodies it receives. Until then the rank is unknown.
    pub(super) fn renew_rank(&self) {
        if self.backlog == Backlog::Stopped {
            return;
        }
        if self.worker_loads.is_full() {
            self.publish_rank();
        } else {
            self.publish_bodies();
            self.worker_loads.publish_rank(self.index, UNKNOWN_RANK);
        }
    }
}
