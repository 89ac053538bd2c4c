//! A handler that echoes what it receives, and holds some responses back.

ghost use Rattle.std.specs.Prelude.{◌≡◌, ◌≤◌, ◌<◌, ◌∷◌, [], length, if◌then◌else◌, Some, None, IsFalse, IsTrue};
ghost use Rattle.hls_connection_tests.specs.Echoes.{Echoes, echo_composed, echo_unchanged, to_send};
ghost use Rattle.hls_event_loop.specs.declared.handler.ConnectionEnd.TheVariants as ends;
ghost use Rattle.hls_event_loop.specs.declared.activity.ConnectionStage.TheVariants as stages;

use hls_event_loop::{ConnectionEnd, ConnectionStage, Handler};
use std::alloc::Global;
use std::io::{self, ErrorKind, Read};
use std::net::SocketAddr;
use std::sync::atomic::{AtomicBool, AtomicU64, Ordering};

/// A byte after which there is no memory.
pub const TOO_MUCH: u8 = 255;

/// A byte that is echoed once the gate is open.
pub const HELD: u8 = 254;

/// A byte that is echoed once the gate is open, or after a few turns.
pub const HELD_BRIEFLY: u8 = 253;

/// What the clients and the handler share.
#[derive(Drop)]
pub struct EchoGate {
    pub open: AtomicBool,
    /// How many bytes were read.
    pub read: AtomicU64,
    /// How many held bytes were read.
    pub held: AtomicU64,
    /// How many connections were given up.
    pub abandoned: AtomicU64,
}

impl EchoGate {
    /// A closed gate.
    pub fn new() -> EchoGate {
        EchoGate {
            open: AtomicBool::new(false),
            read: AtomicU64::new(0),
            held: AtomicU64::new(0),
            abandoned: AtomicU64::new(0),
        }
    }

    /// Counts a byte that was read. Returns for how many turns its echo is held.
    fn count(&self, byte: u8) -> u64 {
        self.read.fetch_add(1, Ordering::SeqCst);
        let turns = match byte {
            HELD => u64::MAX,
            HELD_BRIEFLY => 4,
            _ => return 0,
        };
        self.held.fetch_add(1, Ordering::SeqCst);
        turns
    }
}

/// A connection that echoes what it receives.
#[derive(Drop)]
pub struct EchoConnection {
    unsent: Vec<u8>,
    /// Whether these bytes are held.
    held: bool,
    /// For how many turns they are held at most.
    turns: u64,
    ended: bool,
    /// Whether there is no memory for what it still sends.
    is_out_of_memory: bool,
    /// How often the handler had acted when this connection last borrowed it.
    acts_seen: u64,
}

/// Echoes what its connections send, and counts how often it acts.
#[derive(Drop)]
pub struct EchoHandler<'a> {
    pub alloc: Global,
    pub acts: u64,
    pub gate: &'a EchoGate,
}

impl<'a> Handler for EchoHandler<'a> {
    type Connection = EchoConnection;

    ghost valid = { λ echo_handler echo. echo.acts_seen ≤ echo_handler.acts };

    ghost becomes = { λ a before traffic b now. Echoes before.unsent.items before.ended traffic now.unsent.items now.ended };

    ghost is_new = { λ echo. echo.unsent.items ≡ [] };

    ghost pending = { λ echo. to_send echo.held echo.unsent.items };

    ghost may_read = { λ echo. IsFalse echo.ended × IsFalse echo.held };

    ghost needs_io = { λ echo. Unit {0} };

    ghost max_steps = { λ echo. 0 };

    ghost waits = { λ echo. IsTrue echo.held };

    ghost own_end = { λ echo. if echo.ended then Some ends.Closed else None };

    ghost has_stage = { λ echo stage. (length echo.unsent.items ≡ 0 → IsFalse echo.held → stage ≡ stages.Idle)
        × (0 < length echo.unsent.items → IsFalse echo.held → stage ≡ stages.Responding) };

    ghost between_parts = { λ echo. ⊥ };

    ghost out_of_memory_reply = { 110 ∷ 111 ∷ 110 ∷ 101 ∷ [] };

    fn open(&self) -> EchoConnection {
        EchoConnection {
            unsent: Vec::new(self.alloc),
            held: false,
            turns: 0,
            ended: false,
            is_out_of_memory: false,
            acts_seen: 0,
        }
    }

    fn advance(
        &mut self,
        connection: &mut EchoConnection,
        _peer: SocketAddr,
        _has_hung_up: bool,
    ) -> bool {
        if self.acts < u64::MAX {
            self.acts += 1;
        }
        connection.acts_seen = self.acts;
        connection.turns = connection.turns.saturating_sub(1);
        if connection.turns == 0 || self.gate.open.load(Ordering::SeqCst) {
            connection.held = false;
        }
        false
    }

    fn read<R: Read>(&self, connection: &mut EchoConnection, reader: &mut R) -> io::Result<usize> {
        if connection.is_out_of_memory {
            return Err(io::Error::from(ErrorKind::OutOfMemory));
        }
        connection.unsent.reserve(1)?;
        let mut bytes = [0; 1];
        let count = reader.read(&mut bytes)?;
        connection.ended = count == 0;
        if count > 0 {
            connection.is_out_of_memory = bytes[0] == TOO_MUCH;
            connection.turns = self.gate.count(bytes[0]);
            connection.held = connection.turns > 0;
            connection.unsent.push_reserved(bytes[0]);
        }
        Ok(count)
    }

    fn output<'v>(&self, connection: &'v EchoConnection) -> &'v [u8] {
        if connection.held {
            return &[];
        }
        connection.unsent.as_slice()
    }

    fn mark_sent(&self, connection: &mut EchoConnection, count: usize) {
        if !connection.held {
            connection.unsent.drain(..count);
        }
    }

    fn wants_write(&self, connection: &EchoConnection) -> bool {
        !connection.held && !connection.unsent.is_empty()
    }

    fn wants_read(&self, connection: &EchoConnection) -> bool {
        !connection.ended && !connection.held
    }

    fn is_waiting(&self, connection: &EchoConnection) -> bool {
        connection.held
    }

    fn end(&self, connection: &EchoConnection) -> Option<ConnectionEnd> {
        if connection.ended {
            Some(ConnectionEnd::Closed)
        } else {
            None
        }
    }

    fn stage(&self, connection: &EchoConnection) -> ConnectionStage {
        if connection.held {
            ConnectionStage::Waiting
        } else if connection.unsent.is_empty() {
            ConnectionStage::Idle
        } else {
            ConnectionStage::Responding
        }
    }

    fn is_between_parts(&self, _connection: &EchoConnection) -> bool {
        false
    }

    fn out_of_memory_text(&self) -> &'static [u8] {
        b"none"
    }

    fn abandon(&self, _connection: &EchoConnection, _peer: SocketAddr) {
        self.gate.abandoned.fetch_add(1, Ordering::SeqCst);
    }

    fn note_failed_accept(&self, _error: io::Error) {}

    ghost unchanged = { λ echo_handler echo. echo_unchanged echo.unsent.items echo.ended };

    ghost composed = { λ a b c u v w s t first second. echo_composed u.unsent.items v.unsent.items w.unsent.items u.ended v.ended w.ended s t first second };
}
