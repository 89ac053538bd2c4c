//! Whose turn is next among the bodies that wait for a rendition's rates.

ghost use Rattle.std.specs.Prelude.{◌≡◌};
ghost use Rattle.hls_rates.specs.Turns.{answer_of, has_waiting, is_next, may_go, queue_after, queue_held, queue_with, queue_without};

/// How long the body whose turn is next may be silent before another one goes, in milliseconds. Each asks once a second.
const SILENT_MS: u64 = 2500;

/// Bodies that wait have numbers, in the order in which they began to wait. Each asks again and again; the lowest number that asked since
/// the last turn is next, and no body that comes later passes those that wait. So a body whose connection is lost holds nobody up, and none
/// is forgotten that asks.
#[derive(Clone, Copy, Debug, PartialEq, Eq, Drop)]
pub struct TurnQueue {
    /// The number issued last.
    pub issued: u64,
    /// The number whose turn is next; 0 if none has asked since the last turn.
    pub next: u64,
    /// When that body asked last, in milliseconds.
    pub asked_ms: u64,
    /// When a body was held last, in milliseconds, except one that came while others waited.
    pub held_ms: u64,
}

impl TurnQueue {
    /// A queue in which nobody waits.
    pub fn new() -> TurnQueue
        ensures { result ≡ record { issued = 0; next = 0; asked_ms = 0; held_ms = 0 } }
    {
        TurnQueue {
            issued: 0,
            next: 0,
            asked_ms: 0,
            held_ms: 0,
        }
    }

    /// Whether bodies wait that ask.
    fn has_waiting(&self, now_ms: u64) -> bool
        ensures { result ≡ has_waiting now_ms self.now }
    {
        self.issued > 0 && now_ms.saturating_sub(self.held_ms) < SILENT_MS
    }

    /// Whether a body that waits by this number may have the next turn: it is its turn, or that of none, or that of one that asks no longer.
    fn is_next(&self, number: u64, now_ms: u64) -> bool
        ensures { result ≡ is_next number now_ms self.now }
    {
        self.next == 0 || self.next == number || now_ms.saturating_sub(self.asked_ms) >= SILENT_MS
    }

    /// Whether a body may go if there is no pause: one that comes, if none waits.
    fn may_go(&self, number: u64, now_ms: u64) -> bool
        ensures { result ≡ may_go number now_ms self.now }
    {
        if number == 0 {
            !self.has_waiting(now_ms)
        } else {
            self.is_next(number, now_ms)
        }
    }

    /// The queue after a body is held. One that only comes while others wait doesn't hold those that come after it.
    fn held(self, number: u64, is_paused: bool, now_ms: u64) -> TurnQueue
        ensures { result ≡ queue_held number is_paused now_ms self }
    {
        if is_paused || number != 0 {
            TurnQueue {
                held_ms: now_ms,
                ..self
            }
        } else {
            self
        }
    }

    /// The queue after a body with this number waits on.
    fn with(self, number: u64, now_ms: u64) -> TurnQueue
        ensures { result ≡ queue_with number now_ms self }
    {
        if self.is_next(number, now_ms) || number < self.next {
            TurnQueue {
                next: number,
                asked_ms: now_ms,
                ..self
            }
        } else {
            self
        }
    }

    /// A body asks for a turn: one with this number, or one that doesn't wait yet, with 0. Returns the number by which it waits; 0 if it has
    /// its turn now, in which case those that wait ask anew.
    pub fn ask(&mut self, number: u64, is_paused: bool, now_ms: u64) -> u64
        ensures queue { self.new ≡ queue_after number is_paused now_ms self.old }
        ensures answer { result ≡ answer_of number is_paused now_ms self.old }
    {
        if !is_paused && self.may_go(number, now_ms) {
            self.next = 0;
            return 0;
        }
        *self = self.held(number, is_paused, now_ms);
        if number != 0 {
            *self = self.with(number, now_ms);
            return number;
        }
        self.issued = self.issued.saturating_add(1);
        *self = self.with(self.issued, now_ms);
        self.issued
    }

    /// A body waits no longer: its connection is lost, or its body is over.
    pub fn leave(&mut self, number: u64)
        ensures { self.new ≡ queue_without number self.old }
    {
        if self.next == number {
            self.next = 0;
        }
    }
}
