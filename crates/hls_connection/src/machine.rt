//! The state machine of a connection: its state, the bytes that wait to be sent, and notes for proofs.

ghost use Rattle.std.specs.Prelude.{◌≡◌, ◌⊎◌, ◌<◌, ◌≤◌, ◌↔◌, ℕ, List, [], ◌++◌, length, IfNone, IfSome, IfOk, IsTrue, IsFalse, OnErr, Option, false, true};
ghost use Rattle.hls_api.specs.{Acts.Knowledge, OtherActors.OtherActors};
ghost use Rattle.hls_connection.specs.Traces.{Advances, IsConsistentTrace, KeepsWaits, IsFresh, IsSuitedTo, TraceIsIdleOrBlocked, TraceWaits, WantsMore, history_of, idle_machine, trace_after_read, trace_after_send, trace_after_step, trace_at, trace_steps_left};
ghost use Rattle.hls_connection.specs.{Histories.{HasRead, FailsToRead}, States.{IsNotOverIn, is_receiving, read_failure_event_in}, Waits.waits_in};
ghost use Rattle.hls_connection.specs.declared.state.ConnectionState.TheVariants as states;

use crate::act_log::ActLog;
use crate::events::{Observer, SessionEvent};
use crate::keeper::Keeper;
use crate::receive::BodyProgress;
use crate::state::{ConnectionState, Transition};
use crate::steps::{cut_body_short, end_body, end_large_body, step_state};
use crate::wait::step_waiting;
use hls_api::ResponseBody;
use hls_api::ingest::IngestStop;
use hls_api::route::ServedChannel;
use hls_http::{BodyEnd, InputBuffer, SessionEnd};
use hls_io::SendBuffer;
use http_server::Log;
use std::alloc::Global;
use std::io::Read;
use std::{io, mem};

/// The most steps before other connections have their turn. A step that makes a part of a response is the last one of its turn.
const MOST_STEPS: u32 = 1024;

/// Notes for proofs alone, which take no memory.
#[derive(Drop)]
pub(crate) struct ConnectionNotes {
    /// The keeper's acts for each request that is over.
    pub acts: Log<ActLog, ()>,
    /// After each read what was unread then, and how much of it had been unread before.
    pub reads: Log<InputBuffer, usize>,
    /// Before each piece that was sent what waited then, and how much of it was sent.
    pub writes: Log<SendBuffer<ResponseBody>, usize>,
}

/// A connection without its input.
#[derive(Drop)]
pub(crate) struct ConnectionMachine {
    pub channel: ServedChannel,
    pub state: ConnectionState,
    pub output: SendBuffer<ResponseBody>,
    /// Whether the input's end was read.
    pub ended: bool,
    pub notes: ConnectionNotes,
}

/// Replaces a value; the old one is dropped here alone.
fn replace_value<T: Drop>(place: &mut T, other: T)
    ensures { place.new ≡ other }
{
    *place = other;
}

/// Drops an output that was sent to its end.
fn clear_sent(output: &mut SendBuffer<ResponseBody>)
    ensures { output.new ≡ output.old }
{
    if output.is_empty() {
        output.replace(SendBuffer::new());
    }
}

impl ConnectionNotes {
    /// Those of a new connection.
    pub fn new() -> ConnectionNotes
        ensures { IsFresh result }
    {
        ConnectionNotes {
            acts: Log::new(),
            reads: Log::new(),
            writes: Log::new(),
        }
    }
}

impl ConnectionMachine {
    /// A connection to a channel, between two requests.
    pub fn new(channel: ServedChannel, notes: ConnectionNotes) -> ConnectionMachine
        ensures { result ≡ idle_machine channel notes }
    {
        ConnectionMachine {
            channel,
            state: ConnectionState::Head,
            output: SendBuffer::new(),
            ended: false,
            notes,
        }
    }

    /// Notes what was read after the first `before` unread bytes, and whether it was the input's end.
    pub fn note_read(&mut self, input: &InputBuffer, before: usize, ended: bool)
        ensures { (unread more : List ℕ) → before ≡ length unread → input.now.unread ≡ unread ++ more
            → trace_at self.new input.now.unread ≡ trace_after_read (trace_at self.old unread) more ended }
    {
        self.notes.reads = self.notes.reads.and(input, &before);
        self.ended = ended;
    }

    /// Reads once; 0 bytes are the input's end. After an error nothing has changed.
    pub fn read_from<R: Read>(
        &mut self,
        input: &mut InputBuffer,
        reader: &mut R,
    ) -> io::Result<usize>
        requires wants { WantsMore (trace_at self.old input.old.unread) }
        ensures ok { IfOk result (HasRead (history_of (trace_at self.old input.old.unread))
            (history_of (trace_at self.new input.new.unread)) (R.remaining reader.old) (R.remaining reader.new)) }
        ensures err { OnErr result (FailsToRead (history_of (trace_at self.old input.old.unread))
            (history_of (trace_at self.new input.new.unread)) (R.remaining reader.old) (R.remaining reader.new)) }
        ensures holds { IsConsistentTrace (trace_at self.old input.old.unread) → IsConsistentTrace (trace_at self.new input.new.unread) }
        ensures state { self.new.state ≡ self.old.state }
        ensures channel { self.new.channel ≡ self.old.channel }
        ensures suits { (known : Knowledge) → IsSuitedTo known (trace_at self.old input.old.unread) → IsSuitedTo known (trace_at self.new input.new.unread) }
    {
        let before = input.unread().len();
        input.reserve()?;
        let count = input.read_some(reader)?;
        self.note_read(input, before, count == 0);
        Ok(count)
    }

    /// Makes a transition. Returns whether there may be more to do at once.
    fn apply(&mut self, step: Transition) -> bool
        ensures trace { (unread : List ℕ) → trace_at self.new unread ≡ trace_after_step (trace_at self.old unread) step }
        ensures more { result ≡ step.more }
    {
        self.notes.acts = self.notes.acts.and(&step.acts, &());
        replace_value(&mut self.state, step.state);
        replace_value(&mut self.output, step.output);
        step.more
    }

    /// Whether it is between two requests, and nothing of the next one was read.
    fn awaits_head(&self, input: &InputBuffer) -> bool
        ensures { result ≡ true → (self.now.state ≡ states.Head) × (self.now.ended ≡ false) × (input.now.unread ≡ []) }
    {
        if self.ended {
            return false;
        }
        match self.state {
            ConnectionState::Head => input.unread().is_empty(),
            _ => false,
        }
    }

    /// Whether it receives a body.
    fn is_receiving(&self) -> bool
        ensures { result ≡ is_receiving self.now.state }
    {
        matches!(self.state, ConnectionState::Receive(_))
    }

    /// Whether it receives an encoder's body.
    fn is_ingesting(&self) -> bool {
        match &self.state {
            ConnectionState::Receive(receiving) => receiving.is_encoders(),
            _ => false,
        }
    }

    /// Receives some of a body, where nothing waits to be sent. Returns whether there may be more to do at once.
    fn step_body<K: Keeper, O: Observer>(
        &mut self,
        input: &mut InputBuffer,
        keeper: &mut K,
        now: Option<u64>,
        observer: &O,
    ) -> bool
        requires suits { IsSuitedTo (K.known keeper.old) (trace_at self.old input.old.unread) }
        requires empty { length self.old.output ≡ 0 }
        requires receives { is_receiving self.old.state ≡ true }
        ensures advances { Advances K.other_actors (K.known keeper.old) (trace_at self.old input.old.unread)
            (K.known keeper.new) (trace_at self.new input.new.unread) }
        ensures room { input.new.room ≡ input.old.room }
        ensures idle_or_blocked { IsFalse result → TraceIsIdleOrBlocked (trace_at self.new input.new.unread) ⊎ TraceWaits (trace_at self.new input.new.unread) }
        ensures lowers { IsTrue result → trace_steps_left (trace_at self.new input.new.unread) < trace_steps_left (trace_at self.old input.old.unread) }
        ensures waits { KeepsWaits now (trace_at self.old input.old.unread) (trace_at self.new input.new.unread) result }
    {
        let alloc = keeper.alloc();
        // a body is received in place: moving it out and back would cost more than most of its steps do
        if let ConnectionState::Receive(receiving) = &mut self.state {
            match receiving.receive_some(input, keeper) {
                BodyProgress::More => return true,
                BodyProgress::Wait if !self.ended => return false,
                BodyProgress::Wait => {
                    let step = cut_body_short(receiving, observer);
                    return self.apply(step);
                }
                BodyProgress::TooLarge => {
                    let step = end_large_body(alloc, receiving, observer);
                    return self.apply(step);
                }
                BodyProgress::Done(end) => {
                    let step = end_body(receiving, end, keeper, now, observer);
                    return self.apply(step);
                }
            }
        }
        unreachable!()
    }

    /// Answers a request whose response waits, where nothing waits to be sent. Returns whether there may be more to do at once.
    fn step_wait<K: Keeper, O: Observer>(
        &mut self,
        input: &InputBuffer,
        keeper: &K,
        now: Option<u64>,
        observer: &O,
    ) -> bool
        requires suits { IsSuitedTo (K.known keeper.now) (trace_at self.old input.now.unread) }
        requires empty { length self.old.output ≡ 0 }
        requires waits { waits_in self.old.state ≡ true }
        ensures advances { Advances K.other_actors (K.known keeper.now) (trace_at self.old input.now.unread)
            (K.known keeper.now) (trace_at self.new input.now.unread) }
        ensures idle_or_blocked { IsFalse result → TraceIsIdleOrBlocked (trace_at self.new input.now.unread) ⊎ TraceWaits (trace_at self.new input.now.unread) }
        ensures lowers { IsTrue result → trace_steps_left (trace_at self.new input.now.unread) < trace_steps_left (trace_at self.old input.now.unread) }
        ensures waits { KeepsWaits now (trace_at self.old input.now.unread) (trace_at self.new input.now.unread) result }
    {
        if let ConnectionState::Wait(waiting) = &mut self.state {
            let Some(step) = step_waiting(waiting, now, keeper, observer) else {
                return false;
            };
            return self.apply(step);
        }
        unreachable!()
    }

    /// Makes one step from a state in which no body is received and no response waits, where nothing waits to be sent. Returns whether
    /// there may be more to do at once.
    fn step_other<O: Observer>(
        &mut self,
        input: &mut InputBuffer,
        alloc: Global,
        observer: &O,
    ) -> bool
        requires empty { length self.old.output ≡ 0 }
        requires receives { is_receiving self.old.state ≡ false }
        requires waits { waits_in self.old.state ≡ false }
        ensures advances { (m : OtherActors) (known : Knowledge) → IsSuitedTo known (trace_at self.old input.old.unread) → Advances m known (trace_at self.old input.old.unread) known (trace_at self.new input.new.unread) }
        ensures room { input.new.room ≡ input.old.room }
        ensures idle_or_blocked { IsFalse result → TraceIsIdleOrBlocked (trace_at self.new input.new.unread) ⊎ TraceWaits (trace_at self.new input.new.unread) }
        ensures lowers { IsTrue result → trace_steps_left (trace_at self.new input.new.unread) < trace_steps_left (trace_at self.old input.old.unread) }
        ensures waits { (now : Option ℕ) → KeepsWaits now (trace_at self.old input.old.unread) (trace_at self.new input.new.unread) result }
    {
        let state = mem::replace(&mut self.state, ConnectionState::Head);
        let step = step_state(state, self.channel, input, self.ended, alloc, observer);
        self.apply(step)
    }

    /// Makes one step if nothing waits to be sent. Returns whether there may be more to do at once.
    ///
    /// Each kind of step has a function of its own: a function clears the places for all its values when it is called, and a state has
    /// half a kilobyte.
    fn step<K: Keeper, O: Observer>(
        &mut self,
        input: &mut InputBuffer,
        keeper: &mut K,
        now: Option<u64>,
        observer: &O,
    ) -> bool
        requires suits { IsSuitedTo (K.known keeper.old) (trace_at self.old input.old.unread) }
        ensures advances { Advances K.other_actors (K.known keeper.old) (trace_at self.old input.old.unread)
            (K.known keeper.new) (trace_at self.new input.new.unread) }
        ensures room { input.new.room ≡ input.old.room }
        ensures idle_or_blocked { IsFalse result → TraceIsIdleOrBlocked (trace_at self.new input.new.unread) ⊎ TraceWaits (trace_at self.new input.new.unread) }
        ensures lowers { IsTrue result → trace_steps_left (trace_at self.new input.new.unread) < trace_steps_left (trace_at self.old input.old.unread) }
        ensures waits { KeepsWaits now (trace_at self.old input.old.unread) (trace_at self.new input.new.unread) result }
    {
        if !self.output.is_empty() {
            return false;
        }
        if self.awaits_head(input) {
            return false;
        }
        if self.is_receiving() {
            return self.step_body(input, keeper, now, observer);
        }
        if self.holds_response() {
            return self.step_wait(&*input, &*keeper, now, observer);
        }
        self.step_other(input, keeper.alloc(), observer)
    }

    /// Makes steps until it is idle or blocked, its response waits, an encoder's body begins, or other connections have their turn. Returns
    /// whether there may be more to do at once. Without a time no response waits.
    pub fn advance<K: Keeper, O: Observer>(
        &mut self,
        input: &mut InputBuffer,
        keeper: &mut K,
        now: Option<u64>,
        observer: &O,
    ) -> bool
        requires suits { IsSuitedTo (K.known keeper.old) (trace_at self.old input.old.unread) }
        ensures advances { Advances K.other_actors (K.known keeper.old) (trace_at self.old input.old.unread)
            (K.known keeper.new) (trace_at self.new input.new.unread) }
        ensures idle_or_blocked { IsFalse result → TraceIsIdleOrBlocked (trace_at self.new input.new.unread) ⊎ TraceWaits (trace_at self.new input.new.unread) }
        ensures lowers { IsTrue result → trace_steps_left (trace_at self.new input.new.unread) < trace_steps_left (trace_at self.old input.old.unread) }
        ensures waits { KeepsWaits now (trace_at self.old input.old.unread) (trace_at self.new input.new.unread) result }
        ensures room { input.new.room ≡ input.old.room }
    {
        if self.holds_response() {
            return self.step(input, keeper, now, observer);
        }
        for _ in 0..MOST_STEPS {
            let was_receiving = self.is_receiving();
            let more = self.step(input, keeper, now, observer);
            let begins = !was_receiving && self.is_ingesting();
            if !more || begins || matches!(self.state, ConnectionState::Write(_)) {
                return more;
            }
        }
        true
    }

    /// The first `count` of the bytes that wait were sent. Once all were, nothing of them is held.
    pub fn mark_sent(&mut self, count: usize)
        requires { count ≤ length self.old.output }
        ensures { (unread : List ℕ) → trace_at self.new unread ≡ trace_after_send (trace_at self.old unread) count }
    {
        self.notes.writes = self.notes.writes.and(&self.output, &count);
        self.output.advance(count);
        clear_sent(&mut self.output);
    }

    /// Whether its response waits, or will wait once all is sent.
    pub fn holds_response(&self) -> bool
        ensures { result ≡ waits_in self.now.state }
    {
        matches!(self.state, ConnectionState::Wait(_))
    }

    /// Whether its response waits, and nothing waits to be sent.
    pub fn is_waiting(&self) -> bool
        ensures { IsTrue result ↔ ((length self.now.output ≡ 0) × IsTrue (waits_in self.now.state)) }
    {
        self.output.is_empty() && self.holds_response()
    }

    /// How the connection ended by itself, if it did.
    pub fn end(&self) -> Option<SessionEnd>
        ensures over { IfSome result (λ end. self.now.state ≡ states.Ended end) }
        ensures continues { IfNone result (IsNotOverIn self.now.state) }
    {
        match self.state {
            ConnectionState::Ended(end) => Some(end),
            _ => None,
        }
    }

    /// The event for a failed read, if an encoder's body is being received: no more of it comes.
    pub fn read_failure_event(&self) -> Option<SessionEvent>
        ensures { result ≡ read_failure_event_in self.now.state }
    {
        match &self.state {
            ConnectionState::Receive(receiving) => {
                receiving.ingest_event(Err(IngestStop::Stopped(BodyEnd::ReadFailed)))
            }
            _ => None,
        }
    }
}
