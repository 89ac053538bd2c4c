//! What holds the bytes of a connection back until their state is durable.

ghost use Rattle.std.specs.Prelude.{◌≡◌, ◌⊎◌, IsFalse};
ghost use Rattle.hls_server.specs.SendGates.{Covers, held_stage, is_behind, is_closed};

use crate::durability::{Durability, DurablePoint};
use hls_connection::channel_handle::ChannelHandle;
use hls_event_loop::ConnectionStage;
use std::sync::Wait;

/// How far a journal must be durable before bytes are sent.
#[derive(Clone, Copy, Drop)]
pub struct NeededPoint {
    /// The last known version that the worker's pass had seen when they were made.
    pub version: u64,
    /// The round that must have ended if they may show a later state than that version; else 0.
    pub round: u64,
    /// Whether nothing must be durable, since the response shows no media: a report for operators, or a refusal.
    pub is_exempt: bool,
}

impl NeededPoint {
    /// How far the journal must be durable before the bytes that were made by a handle until now may be sent. Nothing must be for an
    /// exempt response.
    pub fn of_handle<T: Wait>(
        handle: &ChannelHandle<'_, T>,
        durability: &Durability,
        is_exempt: bool,
    ) -> NeededPoint
        ensures covers { Covers handle.now.pass.known.seen result }
        ensures exempt { result.is_exempt ≡ is_exempt }
        ensures version { IsFalse is_exempt → result.version ≡ handle.now.seen }
    {
        let (version, round) = if is_exempt {
            (0, 0)
        } else {
            let seen = handle.take_seen();
            let round = if seen.is_covering {
                0
            } else {
                durability.next_round()
            };
            (seen.version, round)
        };
        NeededPoint {
            version,
            round,
            is_exempt,
        }
    }
}

/// How many versions the journal may be behind before encoders' bodies aren't read: what isn't written is held in memory.
pub const MOST_LAG: u64 = 1024;

/// What holds the bytes of a connection back, and an encoder's body.
#[derive(Clone, Copy, Drop)]
pub struct SendGate {
    pub needed: NeededPoint,
    /// How far the journal was durable when it was read last for this connection.
    pub durable: DurablePoint,
    /// Whether an encoder's body is received.
    pub is_receiving: bool,
    /// Whether nothing is sent or read for a while, since an encoder's body is above its rates or waits for a place.
    pub is_paused: bool,
}

impl SendGate {
    /// The gate of a connection for which no bytes were made.
    pub fn new(durable: DurablePoint) -> SendGate {
        SendGate {
            needed: NeededPoint {
                version: 0,
                round: 0,
                is_exempt: false,
            },
            durable,
            is_receiving: false,
            is_paused: false,
        }
    }

    /// Whether it holds bytes back.
    pub fn is_closed(&self) -> bool
        ensures { result ≡ is_closed self.now }
    {
        self.durable.version < self.needed.version || self.durable.round < self.needed.round
    }

    /// Whether an encoder's body isn't read, since the journal is far behind.
    pub fn is_behind(&self) -> bool
        ensures { result ≡ is_behind self.now }
    {
        self.is_receiving && MOST_LAG < self.needed.version.saturating_sub(self.durable.version)
    }

    /// The stage of a connection that is held: within a body, or with a response that waits.
    pub fn held_stage(&self) -> ConnectionStage
        ensures stage { result ≡ held_stage self.now }
        ensures waits { (result ≡ ConnectionStage.Waiting) ⊎ (result ≡ ConnectionStage.Held) }
    {
        if self.is_paused || self.is_receiving {
            ConnectionStage::Held
        } else {
            ConnectionStage::Waiting
        }
    }
}
