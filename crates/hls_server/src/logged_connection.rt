//! A connection, and what is logged of its request once the response was taken.

ghost use Rattle.std.specs.Prelude.{◌≡◌};
ghost use Rattle.hls_connection.specs.Connections.{history};
ghost use Rattle.hls_server.specs.SendGates.{holds_back};

use crate::log_lines::AccessLine;
use crate::send_gate::SendGate;
use hls_connection::connection::Connection;
use hls_housekeeper::log_line;
use hls_rates::BodyShare;
use std::io::Eprint;

/// A request that is logged once its response was taken.
#[derive(Clone, Copy, Drop)]
pub struct AccessRecord {
    /// When its head was complete, in milliseconds of the clock.
    pub since_ms: u64,
    /// How it is answered, if it is yet, and how many bytes of the response were taken.
    pub access_line: Option<AccessLine>,
}

/// A connection, its request if requests are logged, and what holds its bytes back.
#[derive(Drop)]
pub struct LoggedConnection {
    pub connection: Connection,
    pub access: Option<Box<AccessRecord>>,
    pub gate: SendGate,
    /// Its share of a rendition's lane.
    pub share: BodyShare,
}

impl LoggedConnection {
    /// Whether it has bytes to send that are held back, or has none and isn't read.
    pub fn is_held(&self) -> bool
        ensures { result ≡ holds_back self.now.gate (history self.now.connection).pending }
    {
        if self.gate.is_paused {
            return true;
        }
        if self.connection.wants_write() {
            self.gate.is_closed()
        } else {
            self.gate.is_behind()
        }
    }
}

impl AccessRecord {
    /// Counts bytes that the client took. Those before a response aren't part of it.
    pub fn count_sent(&mut self, count: usize) {
        if let Some(access_line) = &mut self.access_line {
            access_line.bytes = access_line.bytes.saturating_add(count as u64);
        }
    }

    /// Logs a request that was answered, and whether its whole response was taken.
    pub fn log<E: Eprint>(&self, rt: &E, now: u64, whole: bool) {
        if let Some(access_line) = self.access_line {
            let milliseconds = now.saturating_sub(self.since_ms);
            let line = AccessLine {
                milliseconds,
                whole,
                ..access_line
            };
            log_line(rt, line);
        }
    }
}
