//! A connection's turn, over any reader and writer.

ghost use Rattle.std.specs.Prelude.{◌≡◌, length, IfSome};
ghost use Rattle.hls_event_loop.specs.{Steps.{IsJustified, IsOfIo}, Validity.StaysValid, Traffic.ServesOver};

use crate::activity::Activity;
use crate::handler::{ConnectionEnd, Handler};
use crate::socket::{Socket, SocketStop, stop_of};
use std::io::{Read, Write};
use std::net::SocketAddr;

/// The most steps of a connection's turn.
pub(crate) const MOST_STEPS: usize = 64;

/// The most bytes of a connection's turn, rounded up by a step.
const MOST_MOVED: usize = 1_048_576;

/// The outcome of a step.
#[derive(Clone, Copy, Drop)]
pub(crate) enum StepOutcome {
    /// It moved this number of bytes, and there may be more to do.
    Progress(usize),
    /// The others of the worker have their turns first.
    Yield,
    /// The socket isn't ready.
    Blocked,
    /// The response waits for a change of the channel.
    Wait,
    /// The connection ended by itself.
    End(ConnectionEnd),
    /// Out of memory for the bytes to read.
    OutOfMemory,
    /// The socket failed.
    Lost,
}

impl StepOutcome {
    /// The outcome of a call that moved nothing.
    fn from_stop(stop: SocketStop) -> StepOutcome
        ensures { IsOfIo result }
    {
        match stop {
            SocketStop::Lost => StepOutcome::Lost,
            SocketStop::Memory => StepOutcome::OutOfMemory,
            _ => StepOutcome::Progress(0),
        }
    }
}

/// A connection's peer and activity, and the time in milliseconds.
#[derive(Clone, Copy, Drop)]
pub(crate) struct ActivityWatch {
    pub peer: SocketAddr,
    pub activity: Activity,
    pub now: u64,
}

impl ActivityWatch {
    /// Counts moved bytes.
    fn count(&mut self, bytes: usize) {
        if bytes > 0 {
            self.activity = self.activity.with_bytes(bytes as u64, self.now);
        }
    }
}

/// Writes the next bytes.
fn write<H: Handler, R: Read, W: Write>(
    connection: &mut H::Connection,
    handler: &H,
    socket: &mut Socket<R, W>,
) -> StepOutcome
    ensures moves { (h : H) → ServesOver R.remaining W.contents H.becomes h connection.old socket.old h connection.new socket.new }
    ensures valid { (h : H) → H.valid h connection.old → H.valid h connection.new }
    ensures ends { IsOfIo result }
{
    if !socket.output.writable {
        return StepOutcome::Blocked;
    }
    match socket.output.send(handler.output(connection)) {
        Ok(count) => {
            handler.mark_sent(connection, count);
            StepOutcome::Progress(count)
        }
        Err(stop) => StepOutcome::from_stop(stop),
    }
}

/// Reads once.
fn read<H: Handler, R: Read, W: Write>(
    connection: &mut H::Connection,
    handler: &H,
    socket: &mut Socket<R, W>,
) -> StepOutcome
    requires may { H.may_read connection.old }
    requires awake { H.waits connection.old → ⊥ }
    ensures moves { (h : H) → ServesOver R.remaining W.contents H.becomes h connection.old socket.old h connection.new socket.new }
    ensures valid { (h : H) → H.valid h connection.old → H.valid h connection.new }
    ensures ends { IsOfIo result }
{
    if !socket.input.readable {
        return StepOutcome::Blocked;
    }
    match handler.read(connection, &mut socket.input) {
        Ok(count) => StepOutcome::Progress(count),
        Err(error) => StepOutcome::from_stop(stop_of(&error)),
    }
}

/// Takes a step: writes, runs the handler, or reads.
fn choose_step<H: Handler, R: Read, W: Write>(
    connection: &mut H::Connection,
    handler: &mut H,
    socket: &mut Socket<R, W>,
    peer: SocketAddr,
) -> StepOutcome
    requires valid { H.valid handler.old connection.old }
    ensures moves { ServesOver R.remaining W.contents H.becomes handler.old connection.old socket.old handler.new connection.new socket.new }
    ensures valid { H.valid handler.new connection.new }
    ensures others { StaysValid H.valid handler.old handler.new }
    ensures ends { IsJustified result (H.own_end connection.new) (H.pending connection.new) (H.waits connection.new) }
    ensures over { IfSome (H.own_end connection.old) (λ end. length (H.pending connection.old) ≡ 0 → result ≡ StepOutcome.End end) }
{
    if handler.wants_write(connection) {
        return write(connection, handler, socket);
    }
    if let Some(end) = handler.end(connection) {
        return StepOutcome::End(end);
    }
    if handler.advance(connection, peer, socket.input.hung_up) {
        return StepOutcome::Yield;
    }
    if handler.is_waiting(connection) {
        return StepOutcome::Wait;
    }
    if !handler.wants_read(connection) {
        return StepOutcome::Progress(0);
    }
    read(connection, handler, socket)
}

/// Takes a step, and updates the activity.
fn take_step<H: Handler, R: Read, W: Write>(
    connection: &mut H::Connection,
    handler: &mut H,
    socket: &mut Socket<R, W>,
    watch: &mut ActivityWatch,
) -> StepOutcome
    requires valid { H.valid handler.old connection.old }
    ensures moves { ServesOver R.remaining W.contents H.becomes handler.old connection.old socket.old handler.new connection.new socket.new }
    ensures valid { H.valid handler.new connection.new }
    ensures others { StaysValid H.valid handler.old handler.new }
    ensures ends { IsJustified result (H.own_end connection.new) (H.pending connection.new) (H.waits connection.new) }
    ensures has_stage { H.has_stage connection.new watch.new.activity.stage }
{
    let step = choose_step(connection, handler, socket, watch.peer);
    if let StepOutcome::Progress(bytes) = step {
        watch.count(bytes);
    }
    watch.activity = watch.activity.enter(handler.stage(connection), watch.now);
    step
}

/// Takes steps until one makes no progress, or the turn is used up. Returns the outcome of the last step.
pub(crate) fn run_until_blocked<H: Handler, R: Read, W: Write>(
    connection: &mut H::Connection,
    handler: &mut H,
    socket: &mut Socket<R, W>,
    watch: &mut ActivityWatch,
) -> StepOutcome
    requires valid { H.valid handler.old connection.old }
    ensures moves { ServesOver R.remaining W.contents H.becomes handler.old connection.old socket.old handler.new connection.new socket.new }
    ensures valid { H.valid handler.new connection.new }
    ensures others { StaysValid H.valid handler.old handler.new }
    ensures ends { IsJustified result (H.own_end connection.new) (H.pending connection.new) (H.waits connection.new) }
{
    let mut moved: usize = 0;
    for _ in 0..MOST_STEPS {
        let step = take_step(connection, handler, socket, watch);
        let StepOutcome::Progress(bytes) = step else {
            return step;
        };
        moved = moved.saturating_add(bytes);
        if moved >= MOST_MOVED {
            return StepOutcome::Yield;
        }
    }
    StepOutcome::Yield
}
