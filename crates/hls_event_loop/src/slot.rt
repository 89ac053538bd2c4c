//! A connection of a worker, from accept to close.

ghost use Rattle.std.specs.Prelude.{◌≡◌, ◌≢◌, ◌≤◌, ◌↔◌, IsTrue, None, Some};
ghost use Rattle.hls_event_loop.specs.{Validity.StaysValid, Traffic.Traffic};

use crate::activity::{Activity, ConnectionStage};
use crate::handler::{ConnectionEnd, Handler};
use crate::socket::{Readiness, Socket, SocketReader, SocketStop, SocketWriter};
use crate::step::{ActivityWatch, MOST_STEPS, StepOutcome, run_until_blocked};
use mio::event::Event;
use mio::net::TcpStream;
use mio::{Interest, Poll, Token};
use std::io::Read;
use std::net::{Shutdown, SocketAddr};

/// What a worker does with a connection after a turn.
#[derive(Clone, Copy, PartialEq, Eq, Drop)]
pub(crate) enum RunOutcome {
    /// It continues once its socket is ready.
    Blocked,
    /// It continues after the turns of the others.
    Ready,
    /// It is parked, and continues once it is woken.
    Waiting,
    /// It is closed.
    Closed,
}

/// A connection with its socket.
#[derive(Drop)]
pub(crate) struct Slot<V> {
    stream: TcpStream,
    pub readiness: Readiness,
    pub peer: SocketAddr,
    pub activity: Activity,
    pub connection: V,
    /// Whether its last response was sent, so that further input is discarded.
    pub lingers: bool,
    /// Whether it is queued for the next round.
    pub queued: bool,
    /// Its ticket of the wait queue, while it is parked.
    pub ticket: Option<u64>,
    /// Whether its socket failed, or both sides were closed. A waiting connection then has nobody to answer.
    pub is_gone: bool,
}

impl<V> Slot<V> {
    /// A connection that was just accepted.
    pub fn new(connection: V, stream: TcpStream, peer: SocketAddr, now: u64) -> Slot<V>
        ensures { result.connection ≡ connection }
    {
        Slot {
            stream,
            readiness: Readiness::unknown(),
            peer,
            activity: Activity::start(ConnectionStage::Idle, now),
            connection,
            lingers: false,
            queued: false,
            ticket: None,
            is_gone: false,
        }
    }

    /// Has the kernel report the socket's readiness. Returns false if it refuses.
    pub fn join(&mut self, poll: &Poll, token: Token) -> bool
        ensures { self.new.connection ≡ self.old.connection }
    {
        let both = Interest::READABLE | Interest::WRITABLE;
        poll.registry()
            .register(&mut self.stream, token, both)
            .is_ok()
    }

    /// Notes what the kernel reports of the socket. A broken connection doesn't stay parked.
    pub fn update(&mut self, event: &Event)
        ensures { self.new.connection ≡ self.old.connection }
    {
        self.readiness.update(event);
        if event.is_error() || (event.is_read_closed() && event.is_write_closed()) {
            self.is_gone = true;
            self.ticket = None;
        }
    }

    /// Ends a connection's wait if it holds this ticket. Returns whether it does.
    pub fn unpark(&mut self, ticket: u64) -> bool
        ensures connection { self.new.connection ≡ self.old.connection }
        ensures own { IsTrue result ↔ (self.old.ticket ≡ Some ticket) }
        ensures unparked { IsTrue result → self.new.ticket ≡ None }
    {
        if self.ticket != Some(ticket) {
            return false;
        }
        self.ticket = None;
        true
    }

    /// Whether it is too slow, as far as the worker knows: then its socket is to be tried again. If it isn't, its byte count is reset
    /// when due. After a suspension its stage starts again.
    pub fn is_late(&mut self, idle_timeout_s: u64, now: u64, was_suspended: bool) -> bool
        requires { idle_timeout_s ≤ 3600 }
        ensures { self.new.connection ≡ self.old.connection }
    {
        if was_suspended {
            self.activity = Activity::start(self.activity.stage, now);
            return false;
        }
        if self.activity.is_timed_out(idle_timeout_s, now) {
            self.readiness.try_again();
            return true;
        }
        self.activity = self.activity.restart_count(idle_timeout_s, now);
        false
    }

    /// The outcome of its turn; `Ready` only if it isn't queued yet.
    fn schedule(&mut self, outcome: RunOutcome) -> RunOutcome
        ensures connection { self.new.connection ≡ self.old.connection }
        ensures parks { result ≡ RunOutcome.Waiting → outcome ≡ RunOutcome.Waiting }
    {
        if outcome != RunOutcome::Ready {
            return outcome;
        }
        if self.queued {
            return RunOutcome::Blocked;
        }
        self.queued = true;
        RunOutcome::Ready
    }

    /// Ends a connection that ended by itself.
    fn finish(&mut self, end: ConnectionEnd, now: u64) -> RunOutcome
        ensures connection { self.new.connection ≡ self.old.connection }
        ensures closed { end ≡ ConnectionEnd.Closed → result ≡ RunOutcome.Closed }
        ensures runs { result ≢ RunOutcome.Waiting }
    {
        if end == ConnectionEnd::Closed
            || self.readiness.is_at_end
            || self.stream.shutdown(Shutdown::Write).is_err()
        {
            return RunOutcome::Closed;
        }
        self.lingers = true;
        self.activity = Activity::start(ConnectionStage::Lingering, now);
        self.linger(now)
    }

    /// Discards input after the last response.
    fn linger(&mut self, now: u64) -> RunOutcome
        ensures connection { self.new.connection ≡ self.old.connection }
        ensures runs { result ≢ RunOutcome.Waiting }
    {
        let mut socket = Socket::new(&self.stream, &self.stream, self.readiness);
        let outcome = discard_rest(&mut socket.input, &mut self.activity, now);
        self.readiness = socket.readiness();
        outcome
    }
}

/// Discards a reader's input.
fn discard_rest<R: Read>(
    input: &mut SocketReader<R>,
    activity: &mut Activity,
    now: u64,
) -> RunOutcome
    ensures { result ≢ RunOutcome.Waiting }
{
    for _ in 0..MOST_STEPS {
        if !input.readable {
            return RunOutcome::Blocked;
        }
        match input.discard_some() {
            Ok(0) => return RunOutcome::Closed,
            Ok(count) => *activity = activity.with_bytes(count as u64, now),
            Err(SocketStop::Lost) => return RunOutcome::Closed,
            Err(_) => {}
        }
    }
    RunOutcome::Ready
}

/// Ends a connection that is out of memory, after telling it so.
fn end_out_of_memory<H: Handler>(
    slot: &mut Slot<H::Connection>,
    handler: &H,
    now: u64,
) -> RunOutcome
    ensures connection { slot.new.connection ≡ slot.old.connection }
    ensures runs { result ≢ RunOutcome.Waiting }
{
    let mut output = SocketWriter {
        writer: &slot.stream,
        writable: true,
    };
    let _ = output.send(handler.out_of_memory_text());
    handler.abandon(&slot.connection, slot.peer);
    slot.finish(ConnectionEnd::Responded, now)
}

/// Runs a connection over its socket. Returns the outcome of the last step.
fn run<H: Handler>(slot: &mut Slot<H::Connection>, handler: &mut H, now: u64) -> StepOutcome
    requires valid { H.valid handler.old slot.old.connection }
    ensures becomes { (traffic : Traffic) × H.becomes handler.old slot.old.connection traffic handler.new slot.new.connection }
    ensures valid { H.valid handler.new slot.new.connection }
    ensures others { StaysValid H.valid handler.old handler.new }
    ensures parks { result ≡ StepOutcome.Wait → H.waits slot.new.connection }
{
    let mut socket = Socket::new(&slot.stream, &slot.stream, slot.readiness);
    let mut watch = ActivityWatch {
        peer: slot.peer,
        activity: slot.activity,
        now,
    };
    let step = run_until_blocked(&mut slot.connection, handler, &mut socket, &mut watch);
    slot.readiness = socket.readiness();
    slot.activity = watch.activity;
    step
}

/// Runs a connection over its socket, or discards its input once its last response was sent.
fn serve<H: Handler>(slot: &mut Slot<H::Connection>, handler: &mut H, now: u64) -> RunOutcome
    requires valid { H.valid handler.old slot.old.connection }
    ensures becomes { (traffic : Traffic) × H.becomes handler.old slot.old.connection traffic handler.new slot.new.connection }
    ensures valid { H.valid handler.new slot.new.connection }
    ensures others { StaysValid H.valid handler.old handler.new }
    ensures parks { result ≡ RunOutcome.Waiting → H.waits slot.new.connection }
{
    if slot.lingers {
        return slot.linger(now);
    }
    match run(slot, handler, now) {
        StepOutcome::Progress(_) | StepOutcome::Yield => RunOutcome::Ready,
        StepOutcome::Blocked => RunOutcome::Blocked,
        StepOutcome::Wait if !slot.is_gone => RunOutcome::Waiting,
        StepOutcome::End(end) => slot.finish(end, now),
        StepOutcome::OutOfMemory => end_out_of_memory(slot, handler, now),
        StepOutcome::Lost | StepOutcome::Wait => {
            handler.abandon(&slot.connection, slot.peer);
            RunOutcome::Closed
        }
    }
}

/// Gives a connection a turn. Returns what the worker does with it next.
pub(crate) fn run_connection<H: Handler>(
    slot: &mut Slot<H::Connection>,
    handler: &mut H,
    now: u64,
) -> RunOutcome
    requires valid { H.valid handler.old slot.old.connection }
    ensures becomes { (traffic : Traffic) × H.becomes handler.old slot.old.connection traffic handler.new slot.new.connection }
    ensures valid { H.valid handler.new slot.new.connection }
    ensures others { StaysValid H.valid handler.old handler.new }
    ensures parks { result ≡ RunOutcome.Waiting → H.waits slot.new.connection }
{
    let outcome = serve(slot, handler, now);
    slot.schedule(outcome)
}
