//! The handler of a worker's connections.

ghost use Rattle.std.specs.Prelude.{◌≡◌, ◌⊎◌, ◌≤◌, ◌<◌, ◌↔◌, ℕ, List, Option, length, take, drop, IfOk, IsFalse, IsTrue, OnErr};
ghost use Rattle.std.specs.Io.KnownBytes.{Consumes, IsAtEnd, Keeps};
ghost use Rattle.hls_event_loop.specs.Traffic.{Traffic, followed_by, no_traffic, received_bytes, sent_bytes};
ghost use Rattle.hls_event_loop.specs.declared.{handler.ConnectionEnd.ConnectionEnd, activity.ConnectionStage.ConnectionStage};

use crate::activity::ConnectionStage;
use std::io::{self, Read};
use std::net::SocketAddr;

/// How a connection ended by itself.
#[derive(Clone, Copy, PartialEq, Eq, Drop)]
pub enum ConnectionEnd {
    /// The peer ended its side, or gets no further response.
    Closed,
    /// By a response, while the peer may still send. Its input is discarded for a while, since closing a socket with unread bytes
    /// can destroy the response in transit (RFC 9112 9.6).
    Responded,
}

/// Serves the connections of a worker. A connection is a value, and borrows the handler for each of its turns.
pub trait Handler {
    /// A connection. It makes no system calls.
    type Connection: Drop;

    /// The handler suits the connection. This holds whenever the connection has a turn.
    ghost valid: { Self → Self.Connection → Type 0 };

    /// How handler and connection may change while these bytes are received and sent.
    ghost becomes: { Self → Self.Connection → Traffic → Self → Self.Connection → Type 0 };

    /// The connection is new: nothing was received.
    ghost is_new: { Self.Connection → Type 0 };

    /// The bytes to send.
    ghost pending: { Self.Connection → List ℕ };

    /// More may be read.
    ghost may_read: { Self.Connection → Type 0 };

    /// Nothing is left to do before the next write or read, or before the wait ends.
    ghost needs_io: { Self.Connection → Type 0 };

    /// The most steps before that.
    ghost max_steps: { Self.Connection → ℕ };

    /// The connection's response waits for a change of the channel, or for a deadline; or its body is held.
    ghost waits: { Self.Connection → Type 0 };

    /// How the connection ended by itself, if it did.
    ghost own_end: { Self.Connection → Option ConnectionEnd };

    /// The connection is at this stage, which decides its timeouts.
    ghost has_stage: { Self.Connection → ConnectionStage → Type 0 };

    /// The connection is between two parts of a request without an end of its own.
    ghost between_parts: { Self.Connection → Type 0 };

    /// The response to an allocation failure.
    ghost out_of_memory_reply: { List ℕ };

    /// A new connection.
    fn open(&self) -> Self::Connection
        ensures is_new { is_new result }
        ensures valid { valid self.now result };

    /// Handles what was read from a peer, or continues a response. Returns whether there may be more to do at once, after the
    /// worker's other connections had their turns. A waiting connection checks its condition and its deadline here. `has_hung_up` says
    /// whether the peer is known to have ended its side; what it sent before may still be unread.
    fn advance(
        &mut self,
        connection: &mut Self::Connection,
        peer: SocketAddr,
        has_hung_up: bool,
    ) -> bool
        requires valid { valid self.old connection.old }
        ensures becomes { becomes self.old connection.old no_traffic self.new connection.new }
        ensures needs_io { IsFalse result → needs_io connection.new }
        ensures progress { IsTrue result → max_steps connection.new < max_steps connection.old }
        ensures valid { valid self.new connection.new }
        ensures others { (other : Self.Connection) → valid self.old other → valid self.new other };

    /// Reads once. No bytes mean the end of input.
    fn read<R: Read>(&self, connection: &mut Self::Connection, reader: &mut R) -> io::Result<usize>
        requires { may_read connection.old }
        ensures ok { IfOk result (λ count. (bytes : List ℕ) × (length bytes ≡ count) × Consumes (R.remaining reader.old) (R.remaining reader.new) bytes
            × (count ≡ 0 → IsAtEnd (R.remaining reader.new)) × ((handler : Self) → becomes handler connection.old (received_bytes bytes) handler connection.new)) }
        ensures err { OnErr result (Keeps (R.remaining reader.old) (R.remaining reader.new)
            × ((handler : Self) → becomes handler connection.old no_traffic handler connection.new)) }
        ensures valid { (handler : Self) → valid handler connection.old → valid handler connection.new };

    /// The next bytes to send; empty only if there are none.
    fn output<'v>(&self, connection: &'v Self::Connection) -> &'v [u8]
        ensures fits { length result.now ≤ length (pending connection.now) }
        ensures first { take (length result.now) (pending connection.now) ≡ result.now }
        ensures some { 0 < length (pending connection.now) → 0 < length result.now };

    /// Notes that the given number of bytes was sent.
    fn mark_sent(&self, connection: &mut Self::Connection, count: usize)
        requires { count ≤ length (pending connection.old) }
        ensures becomes { (handler : Self) → becomes handler connection.old (sent_bytes (take count (pending connection.old))) handler connection.new }
        ensures rest { pending connection.new ≡ drop count (pending connection.old) }
        ensures valid { (handler : Self) → valid handler connection.old → valid handler connection.new };

    /// Whether there are bytes to send.
    fn wants_write(&self, connection: &Self::Connection) -> bool
        ensures { IsTrue result ↔ (0 < length (pending connection.now)) };

    /// Whether to read more.
    fn wants_read(&self, connection: &Self::Connection) -> bool
        ensures { IsTrue result ↔ may_read connection.now };

    /// Whether its response waits. The connection is then parked: it isn't read from, and gets its next turn after
    /// `WorkerLoads::wake_waiting`, or within a tick (0.1 to 1 s), so `advance` also checks deadlines.
    fn is_waiting(&self, connection: &Self::Connection) -> bool
        ensures waits { IsTrue result ↔ waits connection.now }
        ensures sent { IsTrue result → length (pending connection.now) ≡ 0 }
        ensures unread { IsTrue result → may_read connection.now → ⊥ };

    /// How the connection ended by itself, if it did. There may still be bytes to send.
    fn end(&self, connection: &Self::Connection) -> Option<ConnectionEnd>
        ensures { result ≡ own_end connection.now };

    /// The connection's stage.
    fn stage(&self, connection: &Self::Connection) -> ConnectionStage
        ensures stage { has_stage connection.now result }
        ensures waiting { waits connection.now → (result ≡ ConnectionStage.Waiting) ⊎ (result ≡ ConnectionStage.Held) };

    /// Whether it is between two parts of a request without an end of its own, and nothing of the next one was received. A worker that is
    /// to end closes it then.
    fn is_between_parts(&self, connection: &Self::Connection) -> bool
        ensures { IsTrue result ↔ between_parts connection.now };

    /// The text sent to a connection that ends because a read failed to allocate.
    fn out_of_memory_text(&self) -> &'static [u8]
        ensures { result.now ≡ out_of_memory_reply };

    /// Notes that a connection was lost or given up.
    fn abandon(&self, connection: &Self::Connection, peer: SocketAddr);

    /// Notes a failed accept.
    fn note_failed_accept(&self, error: io::Error);

    /// A connection may stay unchanged.
    ghost unchanged: { (handler : Self) (connection : Self.Connection) → becomes handler connection no_traffic handler connection };

    /// Two turns in a row are one turn.
    ghost composed: { (a b c : Self) (u v w : Self.Connection) (s t : Traffic) → becomes a u s b v → becomes b v t c w
        → becomes a u (followed_by s t) c w };
}
