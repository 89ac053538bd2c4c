//! A connection as a value, which makes no system call and waits only for its keeper.

ghost use Rattle.std.specs.Prelude.{◌≡◌, ◌≤◌, ◌<◌, ◌↔◌, ◌⊎◌, length, IsTrue, IsFalse, IfOk, IfSome, IfNone, OnOk, OnErr};
ghost use Rattle.bytes.specs.Unread.{IsChunkOf};
ghost use Rattle.hls_api.specs.{Acts.{Knowledge, ActsExtend}, ActLinks.IsLaterKnowledge, Sessions.IsNotOver};
ghost use Rattle.hls_api.specs.ConnectionStates.{IsServed, Over};
ghost use Rattle.hls_connection.specs.Histories.{HasRead, FailsToRead, StaysQuiet, after_sent, new_history};
ghost use Rattle.hls_connection.specs.{Traces.HasNothing, Traces.IsActive, Traces.IsIdle, Traces.trace_after_send, Traces.trace_at, Traces.trace_of, Traces.IsConsistentTrace, NeedsMore.NeedsMore};

use crate::events::{IngestReport, Observer, SessionEvent, report_some};
use crate::keeper::Keeper;
use crate::machine::{ConnectionMachine, ConnectionNotes};
use crate::state::ConnectionState;
use hls_api::route::ServedChannel;
use hls_event_loop::ConnectionStage;
use hls_http::{InputBuffer, SessionEnd};
use hls_mend_laws::settings::MendSettings;
use std::alloc::{AllocError, Global};
use std::io::Read;
use std::{io, mem};

/// The most unread bytes.
const MOST_UNREAD: usize = 65536;

/// The channel of a connection whose memory was taken.
const NO_CHANNEL: ServedChannel = ServedChannel {
    renditions: 0,
    mending: None,
    shown_us: None,
};

/// Where a connection's memory is.
#[derive(Drop)]
pub(crate) enum ConnectionMemory {
    /// It has none: it is between two requests, nothing is unread, and nothing waits to be sent.
    Idle {
        channel: ServedChannel,
        notes: ConnectionNotes,
    },
    /// It is on the heap.
    Active(Box<ActiveConnection>),
}

/// A busy connection, with its input.
#[derive(Drop)]
pub(crate) struct ActiveConnection {
    pub input: InputBuffer,
    pub machine: ConnectionMachine,
}

impl ActiveConnection {
    /// Whether there is nothing to do.
    fn is_idle(&self) -> bool
        ensures { IsTrue result → IsIdle self.now }
    {
        if self.machine.ended || !self.machine.output.is_empty() {
            return false;
        }
        match self.machine.state {
            ConnectionState::Head => self.input.unread().is_empty(),
            _ => false,
        }
    }

    /// What an idle one leaves. It isn't moved: a function clears the places of all values that it moves.
    fn take_idle(&mut self) -> ConnectionMemory
        requires { IsIdle self.old }
        ensures { trace_of result ≡ trace_at self.old.machine self.old.input.unread }
    {
        ConnectionMemory::Idle {
            channel: self.machine.channel,
            notes: mem::replace(&mut self.machine.notes, ConnectionNotes::new()),
        }
    }

    /// Releases the input's buffer between two requests, or while a response waits, if nothing is unread.
    fn release_input(&mut self)
        ensures { trace_at self.new.machine self.new.input.unread ≡ trace_at self.old.machine self.old.input.unread }
    {
        match self.machine.state {
            ConnectionState::Head | ConnectionState::Wait(_) => self.input.release(),
            _ => {}
        }
    }

    /// Becomes idle: its input and its machine are dropped.
    fn into_idle(self) -> ConnectionMemory
        requires { IsIdle self }
        ensures { trace_of result ≡ trace_at self.machine self.input.unread }
    {
        let machine = self.machine;
        ConnectionMemory::Idle {
            channel: machine.channel,
            notes: machine.notes,
        }
    }
}

impl ConnectionMemory {
    /// That of a new connection: none.
    fn new(channel: ServedChannel) -> ConnectionMemory
        ensures { HasNothing result channel }
    {
        let notes = ConnectionNotes::new();
        ConnectionMemory::Idle { channel, notes }
    }

    /// Allocates the memory if there is none. After an error nothing has changed.
    fn allocate(&mut self, alloc: Global) -> Result<(), AllocError>
        ensures trace { trace_of self.new ≡ trace_of self.old }
        ensures active { OnOk result (IsActive self.new) }
    {
        let (channel, notes) = match mem::replace(self, ConnectionMemory::new(NO_CHANNEL)) {
            ConnectionMemory::Idle { channel, notes } => (channel, notes),
            active => {
                *self = active;
                return Ok(());
            }
        };
        let input = InputBuffer::empty(alloc);
        let machine = ConnectionMachine::new(channel, notes);
        match Box::new(alloc, ActiveConnection { input, machine }) {
            Ok(active) => {
                *self = ConnectionMemory::Active(active);
                Ok(())
            }
            Err(failed) => {
                *self = failed.value.into_idle();
                Err(AllocError)
            }
        }
    }

    /// Releases the memory if there is nothing to do, and the input's buffer between two requests, or while a response waits, if nothing
    /// is unread.
    fn release(&mut self)
        ensures { trace_of self.new ≡ trace_of self.old }
    {
        let ConnectionMemory::Active(active) = self else {
            return;
        };
        if !active.is_idle() {
            return active.release_input();
        }
        let idle = active.take_idle();
        *self = idle;
    }

    /// The first `count` of the bytes that wait were sent.
    fn mark_sent(&mut self, count: usize)
        requires { count ≤ length (trace_of self.old).past.pending }
        ensures { trace_of self.new ≡ trace_after_send (trace_of self.old) count }
    {
        if let ConnectionMemory::Active(active) = self {
            active.machine.mark_sent(count);
        }
    }
}

/// One connection. Read into it while it `wants_read`, call `advance` after each read and once its `output` is sent, and send that while
/// it `wants_write`. After its `end` only the waiting bytes are still to be sent.
///
/// It borrows the keeper of its channel at each `advance`; the same keeper may serve others between. While it is idle it holds no
/// memory but its own 48 bytes, and nothing of what it sent.
#[derive(Drop)]
pub struct Connection {
    alloc: Global,
    memory: ConnectionMemory,
    ghost holds: { ∥ IsConsistentTrace (trace_of memory) ∥₁ },
}

impl Connection {
    ghost use Rattle.hls_connection.specs.Connections.{AnswersWait, IsBetweenParts, IsStatus, IsIdleOrBlocked, KeeperSuits, Waits, WantsRead, deadline, read_failure_event, history, channel_of, stage, steps_left};
    ghost use Rattle.hls_connection.specs.Waits.{IsAhead, IsDeadline};

    /// A new connection to the keeper's channel. `mending` says how units are mended, if they are. `shown_us` is how many microseconds live
    /// playlists by paths show; without it they show all that the line keeps. Doesn't allocate.
    pub fn new<K: Keeper>(
        keeper: &K,
        mending: Option<MendSettings>,
        shown_us: Option<u64>,
    ) -> Connection
        ensures history { history result ≡ new_history }
        ensures suits { KeeperSuits (K.known keeper.now) result }
        ensures mending { (channel_of result).mending ≡ mending }
        ensures shown { (channel_of result).shown_us ≡ shown_us }
    {
        let channel = ServedChannel {
            renditions: keeper.rendition_count(),
            mending,
            shown_us,
        };
        Connection {
            alloc: keeper.alloc(),
            memory: ConnectionMemory::new(channel),
        }
    }

    /// Reads once; 0 bytes are the input's end. After an error, as `WouldBlock` or `OutOfMemory`, nothing has changed.
    pub fn read_from<R: Read>(&mut self, reader: &mut R) -> io::Result<usize>
        requires wants { WantsRead self.old }
        ensures ok { IfOk result (HasRead (history self.old) (history self.new) (R.remaining reader.old) (R.remaining reader.new)) }
        ensures err { OnErr result (FailsToRead (history self.old) (history self.new) (R.remaining reader.old) (R.remaining reader.new)) }
        ensures stage { stage self.new ≡ stage self.old }
        ensures channel { channel_of self.new ≡ channel_of self.old }
        ensures suits { (known : Knowledge) → KeeperSuits known self.old → KeeperSuits known self.new }
    {
        self.memory.allocate(self.alloc)?;
        let ConnectionMemory::Active(active) = &mut self.memory else {
            unreachable!();
        };
        let active = &mut **active;
        let read = active.machine.read_from(&mut active.input, reader);
        // after a successful read, the input's end included, there is something to do
        if read.is_err() {
            self.memory.release();
        }
        read
    }

    /// Answers what was received, until there are bytes to send, more input is needed, a response waits, or the connection has ended. It
    /// pauses after 1024 steps, before an encoder's body, and after each part of a response that is made in parts. Returns whether there may
    /// be more to do after the others' turns.
    ///
    /// `now` is in milliseconds of a monotonic clock. Without it no response waits: each that would is answered at once.
    pub fn advance<K: Keeper, O: Observer>(
        &mut self,
        keeper: &mut K,
        now: Option<u64>,
        observer: &O,
    ) -> bool
        requires suits { KeeperSuits (K.known keeper.old) self.old }
        ensures suits { KeeperSuits (K.known keeper.new) self.new }
        ensures later { IsLaterKnowledge (K.known keeper.old) (K.known keeper.new) }
        ensures acts { ActsExtend K.other_actors (K.known keeper.old) (history self.old).acts (K.known keeper.new) (history self.new).acts }
        ensures idle_or_blocked { IsFalse result → IsIdleOrBlocked self.new ⊎ Waits self.new }
        ensures timely { IsFalse result → Waits self.new → IsAhead now (deadline self.new) }
        ensures deadline { IsDeadline now (deadline self.old) (deadline self.new) }
        ensures answers { Waits self.old → AnswersWait now self.old self.new }
        ensures progress { IsTrue result → steps_left self.new < steps_left self.old }
        ensures quiet { StaysQuiet (history self.old) (history self.new) }
        ensures channel { channel_of self.new ≡ channel_of self.old }
    {
        let ConnectionMemory::Active(active) = &mut self.memory else {
            return false;
        };
        let active = &mut **active;
        let more = active
            .machine
            .advance(&mut active.input, keeper, now, observer);
        self.memory.release();
        more
    }

    /// The next bytes to send; empty only if there are none.
    pub fn output(&self) -> &[u8]
        ensures { IsChunkOf result.now (history self.now).pending }
    {
        match &self.memory {
            ConnectionMemory::Active(active) => active.machine.output.chunk(),
            ConnectionMemory::Idle { .. } => b"",
        }
    }

    /// The first `count` of the bytes that wait were sent.
    pub fn mark_sent(&mut self, count: usize)
        requires { count ≤ length (history self.old).pending }
        ensures history { history self.new ≡ after_sent (history self.old) count }
        ensures stage { stage self.new ≡ stage self.old }
        ensures channel { channel_of self.new ≡ channel_of self.old }
        ensures suits { (known : Knowledge) → KeeperSuits known self.old → KeeperSuits known self.new }
    {
        self.memory.mark_sent(count);
    }

    /// Whether something waits to be sent.
    pub fn wants_write(&self) -> bool
        ensures { IsTrue result ↔ (0 < length (history self.now).pending) }
    {
        !self.output().is_empty()
    }

    /// Whether more is to be read.
    pub fn wants_read(&self) -> bool
        ensures { IsTrue result ↔ WantsRead self.now }
    {
        let ConnectionMemory::Active(active) = &self.memory else {
            return true;
        };
        let machine = &active.machine;
        if machine.ended || !machine.output.is_empty() || machine.end().is_some() {
            return false;
        }
        if machine.holds_response() {
            return false;
        }
        active.input.unread().len() < MOST_UNREAD
    }

    /// Whether a response waits: nothing is to be read or sent before `advance` answers it.
    pub fn is_waiting(&self) -> bool
        ensures { IsTrue result ↔ Waits self.now }
    {
        match &self.memory {
            ConnectionMemory::Active(active) => active.machine.is_waiting(),
            ConnectionMemory::Idle { .. } => false,
        }
    }

    /// How the connection ended by itself, if it did. There may still be bytes to send.
    pub fn end(&self) -> Option<SessionEnd>
        ensures over { IfSome result (λ end. stage self.now ≡ Over end) }
        ensures continues { IfNone result (IsNotOver (stage self.now)) }
    {
        match &self.memory {
            ConnectionMemory::Active(active) => active.machine.end(),
            ConnectionMemory::Idle { .. } => None,
        }
    }

    /// What was ingested so far of the encoder's body that is received now, if one is.
    pub fn ingest_progress(&self) -> Option<IngestReport> {
        let ConnectionMemory::Active(active) = &self.memory else {
            return None;
        };
        let ConnectionState::Receive(receiving) = &active.machine.state else {
            return None;
        };
        match receiving.ingest_event(Ok(())) {
            Some(SessionEvent::Ingested(report)) => Some(report),
            _ => None,
        }
    }

    /// What the connection waits for, or does.
    pub fn status(&self) -> ConnectionStage
        ensures { IsStatus result self.now }
    {
        let ConnectionMemory::Active(active) = &self.memory else {
            return ConnectionStage::Idle;
        };
        let machine = &active.machine;
        if !machine.output.is_empty() {
            return ConnectionStage::Responding;
        }
        match &machine.state {
            ConnectionState::Head if active.input.unread().is_empty() => ConnectionStage::Idle,
            ConnectionState::Head => ConnectionStage::Head,
            ConnectionState::Receive(receiving) => receiving.status(),
            ConnectionState::Wait(_) => ConnectionStage::Waiting,
            ConnectionState::Write(_) => ConnectionStage::Writing,
            ConnectionState::Ended(_) => ConnectionStage::Lingering,
        }
    }

    /// Whether it receives an encoder's body in chunks, all that was received of it was taken, and nothing of its next part is there.
    pub fn is_between_parts(&self) -> bool
        ensures { IsTrue result ↔ IsBetweenParts self.now }
    {
        let ConnectionMemory::Active(active) = &self.memory else {
            return false;
        };
        if !active.machine.output.is_empty() || !active.input.unread().is_empty() {
            return false;
        }
        match &active.machine.state {
            ConnectionState::Receive(receiving) => receiving.is_between_parts(),
            _ => false,
        }
    }

    /// The event for a failed read, if an encoder's body is being received: no more of it comes.
    pub fn read_failure_event(&self) -> Option<SessionEvent>
        ensures { result ≡ read_failure_event self.now }
    {
        match &self.memory {
            ConnectionMemory::Active(active) => active.machine.read_failure_event(),
            ConnectionMemory::Idle { .. } => None,
        }
    }

    /// Reports that event.
    pub fn report_read_failure<O: Observer>(&self, observer: &O) {
        report_some(observer, self.read_failure_event());
    }

    /// A law: what was received is answered in order, and the bytes that were sent or wait are the responses.
    pub fn responses_are_in_order(&self)
        ensures { ∥ IsServed (channel_of self.now) (stage self.now) (history self.now) ∥₁ }
    {}

    /// A law: a connection that is idle or blocked, isn't over and has nothing to send needs more of its stream, which hasn't ended.
    pub fn needs_more(&self)
        requires idle_or_blocked { IsIdleOrBlocked self.now }
        requires nothing { length (history self.now).pending ≡ 0 }
        requires continues { IsNotOver (stage self.now) }
        ensures unended { IsFalse (history self.now).ended }
        ensures needs { ∥ NeedsMore (channel_of self.now) (stage self.now) (history self.now) ∥₁ }
    {}
}
