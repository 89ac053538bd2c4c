//! A worker: many connections on one thread.

ghost use Rattle.std.specs.Prelude.{◌≡◌, ◌+◌, ◌≤◌, IfOk, IsTrue};
ghost use Rattle.hls_event_loop.specs.{Validity.AllValid, WaitQueue.IsWoken};

use crate::backlog::Backlog;
use crate::handler::Handler;
use crate::slot::{RunOutcome, Slot, run_connection};
use crate::wait_queue::{WaitEntry, WaitQueue};
use crate::waker::{WakeReasons, register_listener};
use crate::worker_io::WorkerIo;
use crate::worker_loads::WorkerLoads;
use hls_time::monotonic_ms;
use mio::event::Event;
use mio::net::TcpListener;
use mio::{Events, Poll, Token};
use slab::Slab;
use std::alloc::Global;
use std::sync::Wait;
use std::time::{Clock, Duration};
use std::{io, mem};

mod accepting;
mod ending;

/// The listener's token.
const LISTENER_TOKEN: Token = Token(usize::MAX);

/// The waker's token.
const WAKER_TOKEN: Token = Token(usize::MAX - 1);

/// The most waiting connections that get a turn in a round, so that a change that concerns thousands doesn't delay the others.
const MOST_WOKEN: usize = 64;

/// The longest time between two checks of the timeouts, in milliseconds.
const LONGEST_TICK_MS: u64 = 1000;

/// The shortest time between two checks of the timeouts, in milliseconds.
const SHORTEST_TICK_MS: u64 = 100;

/// How often a worker that is to end looks at its connections, in milliseconds.
const ENDING_TICK_MS: u64 = 20;

/// Registers a worker at its listener. Returns its index.
fn join_listener(
    poll: &Poll,
    listener: &mut TcpListener,
    worker_loads: &WorkerLoads,
) -> io::Result<usize> {
    register_listener(poll, listener, LISTENER_TOKEN)?;
    worker_loads.join(poll, WAKER_TOKEN)
}

/// A worker: its connections, by the keys under which the kernel reports them.
#[derive(Drop)]
struct Worker<'a, H: Handler> {
    alloc: Global,
    poll: Poll,
    listener: TcpListener,
    worker_loads: &'a WorkerLoads,
    /// Its index among the workers of the listener.
    index: usize,
    handler: H,
    /// The idle timeout, at most 3600 seconds.
    idle_timeout_s: u64,
    slots: Slab<Slot<H::Connection>>,
    /// Connections that have more to do.
    ready: Vec<usize>,
    /// Empty: room for those that have more to do after their turn in this round.
    room: Vec<usize>,
    /// Connections that wait for a change.
    wait_queue: WaitQueue,
    backlog: Backlog,
    /// How many connections it still accepts.
    accepts_left: u64,
    /// The time of this round, in milliseconds.
    now: u64,
    /// When the timeouts were checked last.
    swept_ms: u64,
    /// How often they are.
    tick_ms: u64,
    /// Whether the process was suspended since the last round.
    was_suspended: bool,
    ghost patient: { idle_timeout_s ≤ 3600 },
}

impl<'a, H: Handler + Drop> Worker<'a, H> {
    /// A worker without a connection.
    fn new(
        alloc: Global,
        poll: Poll,
        listener: TcpListener,
        worker_loads: &'a WorkerLoads,
        handler: H,
        idle_timeout_s: u64,
    ) -> io::Result<Worker<'a, H>>
        ensures valid { IfOk result (λ worker. AllValid H.valid worker.handler worker.slots) }
    {
        let mut listener = listener;
        let idle_timeout_s = idle_timeout_s.min(3600);
        let index = join_listener(&poll, &mut listener, worker_loads)?;
        Ok(Worker {
            alloc,
            poll,
            listener,
            worker_loads,
            index,
            handler,
            idle_timeout_s,
            slots: Slab::new(alloc),
            ready: Vec::new(alloc),
            room: Vec::new(alloc),
            wait_queue: WaitQueue::new(alloc),
            backlog: Backlog::Maybe,
            accepts_left: worker_loads.connections,
            now: 0,
            swept_ms: 0,
            tick_ms: (idle_timeout_s * 125).clamp(SHORTEST_TICK_MS, LONGEST_TICK_MS),
            was_suspended: false,
        })
    }

    /// Closes a connection.
    fn close(&mut self, key: usize)
        requires valid { AllValid H.valid self.old.handler self.old.slots }
        ensures valid { AllValid H.valid self.new.handler self.new.slots }
    {
        if self.slots.try_remove(key).is_some() {
            self.worker_loads.count_closed(self.index, self.slots.len());
        }
    }

    /// Gives a connection up. One that had its last response is only closed.
    fn abandon_connection(&mut self, key: usize)
        requires valid { AllValid H.valid self.old.handler self.old.slots }
        ensures valid { AllValid H.valid self.new.handler self.new.slots }
    {
        match self.slots.get(key) {
            Some(slot) if !slot.lingers => {
                self.handler.abandon(&slot.connection, slot.peer);
            }
            _ => {}
        }
        self.close(key);
    }

    /// Gives a connection a turn, unless it is parked.
    fn run_once(&mut self, key: usize) -> RunOutcome
        requires valid { AllValid H.valid self.old.handler self.old.slots }
        ensures valid { AllValid H.valid self.new.handler self.new.slots }
    {
        match self.slots.get_mut(key) {
            Some(slot) if slot.ticket.is_none() => {
                run_connection(slot, &mut self.handler, self.now)
            }
            _ => RunOutcome::Blocked,
        }
    }

    /// Parks a connection. If the worker had none parked, another thread may have changed something without waking it, so the
    /// connection gets another turn.
    fn park(&mut self, key: usize)
        requires valid { AllValid H.valid self.old.handler self.old.slots }
        ensures valid { AllValid H.valid self.new.handler self.new.slots }
    {
        let Ok(ticket) = self.wait_queue.push(key) else {
            return self.abandon_connection(key);
        };
        if let Some(slot) = self.slots.get_mut(key) {
            slot.ticket = Some(ticket);
        }
        if self.worker_loads.note_waits(self.index, true) {
            self.wait_queue.wake();
        }
    }

    /// Gives a connection a turn, and arranges the next one.
    fn run_and_reschedule(&mut self, key: usize)
        requires valid { AllValid H.valid self.old.handler self.old.slots }
        ensures valid { AllValid H.valid self.new.handler self.new.slots }
    {
        match self.run_once(key) {
            RunOutcome::Blocked => {}
            RunOutcome::Ready => {
                if self.ready.push(key).is_err() {
                    self.abandon_connection(key);
                }
            }
            RunOutcome::Waiting => self.park(key),
            RunOutcome::Closed => self.close(key),
        }
    }

    /// Another thread woke this worker.
    fn handle_wakeup(&mut self, reasons: WakeReasons)
        ensures handler { self.new.handler ≡ self.old.handler }
        ensures slots { self.new.slots ≡ self.old.slots }
        ensures woken { IsTrue reasons.change → IsWoken self.new.wait_queue }
    {
        if reasons.change {
            self.wait_queue.wake();
        }
        if !reasons.connection {
            return;
        }
        match self.backlog {
            Backlog::Empty | Backlog::Others(_) | Backlog::First(_) => {
                self.backlog = Backlog::Maybe;
            }
            _ => {}
        }
    }

    /// Handles an event that the kernel reports.
    fn handle_event(&mut self, event: &Event)
        requires valid { AllValid H.valid self.old.handler self.old.slots }
        ensures valid { AllValid H.valid self.new.handler self.new.slots }
    {
        match event.token() {
            LISTENER_TOKEN => return self.handle_listener(),
            WAKER_TOKEN => {
                return self.handle_wakeup(self.worker_loads.take_reasons(self.index));
            }
            _ => {}
        }
        let key = event.token().0;
        if let Some(slot) = self.slots.get_mut(key) {
            slot.update(event);
        }
        self.run_and_reschedule(key);
    }

    /// Continues a connection that had more to do.
    fn resume_connection(&mut self, key: usize)
        requires valid { AllValid H.valid self.old.handler self.old.slots }
        ensures valid { AllValid H.valid self.new.handler self.new.slots }
    {
        if let Some(slot) = self.slots.get_mut(key) {
            slot.queued = false;
        }
        self.run_and_reschedule(key);
    }

    /// Continues the connections that have more to do.
    fn resume_ready(&mut self)
        requires valid { AllValid H.valid self.old.handler self.old.slots }
        ensures valid { AllValid H.valid self.new.handler self.new.slots }
    {
        let room = mem::replace(&mut self.room, Vec::new(self.alloc));
        let mut keys = mem::replace(&mut self.ready, room);
        for key in &keys {
            self.resume_connection(*key);
        }
        keys.clear();
        self.room = keys;
    }

    /// Continues a woken connection, unless the entry is of an earlier connection with its key.
    fn resume_waiting(&mut self, entry: WaitEntry)
        requires valid { AllValid H.valid self.old.handler self.old.slots }
        ensures valid { AllValid H.valid self.new.handler self.new.slots }
    {
        let is_current = match self.slots.get_mut(entry.key) {
            Some(slot) => slot.unpark(entry.ticket),
            None => false,
        };
        if is_current {
            self.run_and_reschedule(entry.key);
        }
    }

    /// Continues woken connections, the longest waiting first.
    fn resume_woken(&mut self)
        requires valid { AllValid H.valid self.old.handler self.old.slots }
        ensures valid { AllValid H.valid self.new.handler self.new.slots }
    {
        for _ in 0..MOST_WOKEN {
            let Some(entry) = self.wait_queue.pop_woken() else {
                return;
            };
            self.resume_waiting(entry);
        }
    }

    /// Whether a connection is too slow, as far as the worker knows.
    fn is_late(&mut self, key: usize) -> bool
        requires valid { AllValid H.valid self.old.handler self.old.slots }
        ensures valid { AllValid H.valid self.new.handler self.new.slots }
    {
        match self.slots.get_mut(key) {
            Some(slot) => slot.is_late(self.idle_timeout_s, self.now, self.was_suspended),
            None => false,
        }
    }

    /// Gives a slow connection up. It gets a turn before: its bytes may have arrived while the process was suspended.
    fn check_timeout(&mut self, key: usize)
        requires valid { AllValid H.valid self.old.handler self.old.slots }
        ensures valid { AllValid H.valid self.new.handler self.new.slots }
    {
        if !self.is_late(key) {
            return;
        }
        self.run_and_reschedule(key);
        if self.is_late(key) {
            self.abandon_connection(key);
        }
    }

    /// Wakes the waiting connections, whose deadlines the handler checks.
    fn wake_for_deadlines(&mut self)
        ensures handler { self.new.handler ≡ self.old.handler }
        ensures slots { self.new.slots ≡ self.old.slots }
        ensures woken { IsWoken self.new.wait_queue }
    {
        if self.wait_queue.is_empty() {
            self.worker_loads.note_waits(self.index, false);
        }
        self.wait_queue.wake();
    }

    /// At each tick, gives slow connections up, and wakes the waiting ones.
    fn check_timeouts(&mut self)
        requires valid { AllValid H.valid self.old.handler self.old.slots }
        ensures valid { AllValid H.valid self.new.handler self.new.slots }
        ensures woken { self.old.swept_ms + self.old.tick_ms ≤ self.old.now → IsWoken self.new.wait_queue }
    {
        if self.now < self.swept_ms.saturating_add(self.tick_ms) {
            return;
        }
        self.swept_ms = self.now;
        for key in 0..self.slots.capacity() {
            self.check_timeout(key);
        }
        self.renew_rank();
        self.wake_for_deadlines();
    }

    /// How long to wait for events.
    fn poll_timeout(&self) -> Option<Duration> {
        if !self.ready.is_empty() || self.wait_queue.has_woken() {
            return Some(Duration::from_millis(0));
        }
        if self.worker_loads.is_ending() {
            return Some(Duration::from_millis(ENDING_TICK_MS));
        }
        if self.accepts_left > 0
            && let Some(time) = self.backlog.time_left(self.now)
        {
            return Some(Duration::from_millis(time.min(self.time_to_tick())));
        }
        if self.slots.is_empty() {
            return None;
        }
        Some(Duration::from_millis(self.time_to_tick()))
    }

    /// The milliseconds until the next tick is due.
    fn time_to_tick(&self) -> u64 {
        self.swept_ms
            .saturating_add(self.tick_ms)
            .saturating_sub(self.now)
    }

    /// Begins a round. The last one began at most a tick and a second before, even on a busy machine, unless there was no connection
    /// or the process was suspended. After a suspension, times from before it say nothing about the connections.
    fn begin_round(&mut self, now: u64)
        ensures handler { self.new.handler ≡ self.old.handler }
        ensures slots { self.new.slots ≡ self.old.slots }
    {
        let late = self
            .now
            .saturating_add(self.tick_ms)
            .saturating_add(LONGEST_TICK_MS);
        self.was_suspended = now >= late;
        self.now = now;
    }

    /// Runs a round: events, connections with more to do, woken connections, new connections, and timeouts.
    fn run_round(&mut self, events: &Events)
        requires valid { AllValid H.valid self.old.handler self.old.slots }
        ensures valid { AllValid H.valid self.new.handler self.new.slots }
    {
        for event in events {
            self.handle_event(event);
        }
        self.resume_ready();
        self.resume_woken();
        self.end_connections();
        self.accept_some();
        self.stop_accepting();
        self.check_timeouts();
    }

    /// Whether it has served its number of connections.
    fn is_done(&self) -> bool {
        self.accepts_left == 0 && self.slots.is_empty()
    }

    /// Serves until it has served its number of connections. May wait.
    fn serve<R: Wait + Clock>(&mut self, rt: &R, events: Events) -> io::Result<()>
        requires valid { AllValid H.valid self.old.handler self.old.slots }
        ensures valid { AllValid H.valid self.new.handler self.new.slots }
    {
        let mut events = events;
        for _ in rt.forever() {
            if self.is_done() {
                return Ok(());
            }
            let pause = self.poll_timeout();
            self.poll.poll(&mut events, pause)?;
            self.begin_round(monotonic_ms(rt));
            self.run_round(&events);
        }
        unreachable!()
    }
}

/// Serves connections concurrently on this thread, until it has served the number that `worker_loads` sets. The idle timeout is at most
/// 3600 seconds. May wait.
pub fn run_worker<H: Handler + Drop, R: Wait + Clock>(
    rt: &R,
    alloc: Global,
    io: WorkerIo,
    worker_loads: &WorkerLoads,
    handler: H,
    idle_timeout_s: u64,
) -> io::Result<()> {
    let WorkerIo {
        poll,
        listener,
        events,
    } = io;
    let mut worker = Worker::new(alloc, poll, listener, worker_loads, handler, idle_timeout_s)?;
    let served = worker.serve(rt, events);
    worker_loads.leave_listener(worker.index);
    served
}
