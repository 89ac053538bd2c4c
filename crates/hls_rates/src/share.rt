//! A connection's share of a lane: what was received of its body, and what the body waits for.

ghost use Rattle.std.specs.Prelude.{◌≡◌, false};
ghost use Rattle.hls_rates.specs.Shares.{share_after_read, share_after_turn, share_gone};

/// Bodies whose clients have hung up wait by numbers from this one on: after all others, in the order in which they came.
const LAST: u64 = 1 << 63;

/// What a turn received of an encoder's body.
#[derive(Clone, Copy, Debug, PartialEq, Eq, Drop)]
pub struct BodyTurn {
    pub rendition: usize,
    /// How many of its parts were completed.
    pub parts: u64,
    /// Whether more of it is expected.
    pub is_open: bool,
    pub now_ms: u64,
}

/// A connection's share of a lane.
#[derive(Clone, Copy, Debug, PartialEq, Eq, Drop)]
pub struct BodyShare {
    /// The rendition of its last body.
    pub rendition: usize,
    /// The bytes received since its last turn.
    pub received: u64,
    /// The bytes received of its incomplete unit.
    pub incomplete: u64,
    /// The ticket by which it has a place; 0 if it has none.
    pub ticket: u64,
    /// Whether it lost a place, and hasn't completed a unit since.
    pub was_slow: bool,
    /// Whether it waits for a place.
    pub needs_place: bool,
    /// The number by which it waits for a turn; 0 if it doesn't.
    pub number: u64,
}

impl BodyShare {
    /// The share of a connection that had no body.
    pub fn new() -> BodyShare
        ensures { result ≡ record { rendition = 0; received = 0; incomplete = 0; ticket = 0; was_slow = false; needs_place = false; number = 0 } }
    {
        BodyShare {
            rendition: 0,
            received: 0,
            incomplete: 0,
            ticket: 0,
            was_slow: false,
            needs_place: false,
            number: 0,
        }
    }

    /// Counts bytes that were read.
    pub fn count_read(&mut self, bytes: u64)
        ensures { self.new ≡ share_after_read bytes self.old }
    {
        self.received = self.received.saturating_add(bytes);
    }

    /// Has it wait after the bodies whose clients are still there, since its own has hung up. A place that it waits for it takes only if
    /// nobody else wants it.
    pub fn go_last(&mut self)
        ensures { self.new ≡ share_gone self.old }
    {
        if self.number > 0 && self.number < LAST {
            self.number += LAST;
        }
        self.was_slow = self.was_slow || self.needs_place;
    }

    /// Counts what a turn received of its body. Returns how many bytes that were.
    pub fn count_turn(&mut self, turn: BodyTurn) -> u64
        ensures share { self.new ≡ share_after_turn turn self.old }
        ensures bytes { result ≡ self.old.received }
    {
        let bytes = self.received;
        self.rendition = turn.rendition;
        self.received = 0;
        if turn.parts > 0 || !turn.is_open {
            self.incomplete = 0;
            self.was_slow = false;
        } else {
            self.incomplete = self.incomplete.saturating_add(bytes);
        }
        bytes
    }
}
