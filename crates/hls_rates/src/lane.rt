//! A rendition's lane: how much of its rates is taken, which bodies wait, and which one is next.

ghost use Rattle.std.specs.Prelude.{◌≡◌, false, replicate};
ghost use Rattle.hls_rates.specs.Lanes.{AsksTurn, HoldsBody, TakesTurn, lane_left, lane_with, pause_end, share_waiting};
ghost use Rattle.hls_rates.specs.{Seats.{SeatsChecked, share_with, wakes}, Shares.share_after_turn};

use crate::lane_limits::LaneLimits;
use crate::meter::Meter;
use crate::places::Places;
use crate::share::{BodyShare, BodyTurn};
use crate::turn_queue::TurnQueue;

/// How much longer than necessary bodies aren't read, in milliseconds, so that they aren't held again after each read.
const REST_MS: u64 = 2000;

/// What was taken of a rendition's rates, the bodies that wait, and the places of incomplete units.
#[derive(Clone, Copy, Debug, PartialEq, Eq, Drop)]
pub struct Lane {
    pub units: Meter,
    pub bytes: Meter,
    /// Until when no body is read, in milliseconds.
    pub until_ms: u64,
    pub queue: TurnQueue,
    pub places: Places,
}

/// Returns until when no body is read, if nothing more may be taken for `pause_ms`. A pause that isn't over lasts no longer than necessary, so
/// that bodies that begin meanwhile don't prolong it.
fn pause_end(until_ms: u64, now_ms: u64, pause_ms: u64) -> u64
    ensures { result ≡ pause_end until_ms now_ms pause_ms }
{
    let end_ms = now_ms.saturating_add(pause_ms);
    if now_ms < until_ms {
        return until_ms.max(end_ms);
    }
    if pause_ms == 0 {
        return 0;
    }
    end_ms.saturating_add(REST_MS)
}

impl Lane {
    /// A lane before anything is taken.
    pub fn new() -> Lane
        ensures { result ≡ record { units = record { owed = 0; paid_ms = 0 }; bytes = record { owed = 0; paid_ms = 0 }; until_ms = 0; queue = record { issued = 0; next = 0; asked_ms = 0; held_ms = 0 }; places = record { small = replicate 16 (record { holder = 0; since_ms = 0 }); large = record { holder = 0; since_ms = 0 }; last_ticket = 0; is_wanted = false } } }
    {
        Lane {
            units: Meter::new(0),
            bytes: Meter::new(0),
            until_ms: 0,
            queue: TurnQueue::new(),
            places: Places::new(),
        }
    }

    /// Takes what a turn received of a body. While too many bytes of the rendition are kept, each turn is followed by a rest.
    fn take(&mut self, limits: LaneLimits, turn: BodyTurn, bytes: u64, is_full: bool)
        ensures takes { TakesTurn limits turn bytes is_full self.old self.new }
        ensures places { self.new.places ≡ self.old.places }
    {
        let units = self.units.at(limits.units, turn.now_ms);
        self.units = units.take(turn.parts).within(limits.units);
        let received = self.bytes.at(limits.bytes, turn.now_ms);
        self.bytes = received.take(bytes).within(limits.bytes);
        let unit_pause_ms = self.units.pause_ms(limits.units);
        let byte_pause_ms = self.bytes.pause_ms(limits.bytes);
        let rest_ms = if is_full { 1 } else { 0 };
        let pause_ms = unit_pause_ms.max(byte_pause_ms).max(rest_ms);
        self.until_ms = pause_end(self.until_ms, turn.now_ms, pause_ms);
    }

    /// Takes what a turn received of a body, and gives it the place that it needs. Returns whether a body that waits may take one now.
    pub fn take_turn(
        &mut self,
        limits: LaneLimits,
        share: &mut BodyShare,
        turn: BodyTurn,
        is_full: bool,
    ) -> bool
        ensures takes { TakesTurn limits turn share.old.received is_full self.old self.new }
        ensures seats { SeatsChecked limits.patience_ms turn.now_ms self.old.places (share_after_turn turn share.old) self.new.places share.new result }
    {
        let bytes = share.count_turn(turn);
        self.take(limits, turn, bytes, is_full);
        self.places.seat(share, limits.patience_ms, turn.now_ms)
    }

    /// Whether a body waits for its turn.
    fn holds_turn(&mut self, share: &mut BodyShare, now_ms: u64) -> bool
        ensures asks { AsksTurn now_ms self.old share.old self.new share.new result }
        ensures lane { self.new ≡ lane_with self.new.queue self.old.places self.old }
    {
        let is_paused = now_ms < self.until_ms;
        share.number = self.queue.ask(share.number, is_paused, now_ms);
        share.number != 0
    }

    /// Whether a body waits before it is read, for a place or for its turn; and whether another one that waits may take a place now. One that
    /// waits for a place takes it if it may.
    pub fn holds(&mut self, limits: LaneLimits, share: &mut BodyShare, now_ms: u64) -> (bool, bool)
        ensures { HoldsBody limits.patience_ms now_ms self.old share.old self.new share.new result.0 result.1 }
    {
        let is_wanted = share.needs_place && self.places.seat(share, limits.patience_ms, now_ms);
        if share.needs_place {
            return (true, is_wanted);
        }
        (self.holds_turn(share, now_ms), is_wanted)
    }

    /// Frees what a body has that is over, or whose connection is lost: its turn and its place. Returns whether a body that waits may take
    /// the place now.
    pub fn leave(&mut self, share: &mut BodyShare, now_ms: u64) -> bool
        ensures lane { self.new ≡ lane_left now_ms share.old self.old }
        ensures share { share.new ≡ share_waiting 0 (share_with 0 share.old) }
        ensures woken { result ≡ wakes share.old.ticket self.old.places }
    {
        self.queue.leave(share.number);
        share.number = 0;
        let is_wanted = self.places.leave(share.ticket, now_ms);
        share.ticket = 0;
        is_wanted
    }
}
