//! Places for units that are received but incomplete.

ghost use Rattle.std.specs.Prelude.{◌≡◌};
ghost use Rattle.hls_rates.specs.Places.{may_take_place, place_left_by, size_of_unit};

/// The bytes above which an incomplete unit needs a place.
const SMALL: u64 = 65_536;

/// The bytes above which an incomplete unit is large.
const LARGE: u64 = 1_048_576;

/// How large an incomplete unit is.
#[derive(Clone, Copy, Debug, PartialEq, Eq, Drop)]
pub enum UnitSize {
    /// At most 64 KiB: it needs no place.
    Tiny,
    /// At most 1 MiB.
    Small,
    /// More than 1 MiB.
    Large,
}

/// Returns how large an incomplete unit is, by the bytes received of it.
pub fn unit_size(bytes: u64) -> UnitSize
    ensures { result ≡ size_of_unit bytes }
{
    if bytes <= SMALL {
        UnitSize::Tiny
    } else if bytes <= LARGE {
        UnitSize::Small
    } else {
        UnitSize::Large
    }
}

/// A place for an incomplete unit, which one body has at a time. Tickets name bodies, and begin at 1.
#[derive(Clone, Copy, Debug, PartialEq, Eq, Drop)]
pub struct Place {
    /// The ticket of the body that has it; 0 while it is free.
    pub holder: u64,
    /// Since when that is so, in milliseconds.
    pub since_ms: u64,
}

impl Place {
    /// A free place.
    pub fn new() -> Place
        ensures { result ≡ record { holder = 0; since_ms = 0 } }
    {
        Place {
            holder: 0,
            since_ms: 0,
        }
    }

    /// Whether another body may take it: a free one at once, and one that its holder has had for the patience. A body that lost a place in
    /// that way was slow, and takes only one that has been free for the patience.
    pub fn may_be_taken(self, was_slow: bool, patience_ms: u64, now: u64) -> bool
        ensures { result ≡ may_take_place was_slow patience_ms now self }
    {
        let is_free = self.holder == 0;
        let is_old = now.saturating_sub(self.since_ms) >= patience_ms;
        if was_slow {
            is_free && is_old
        } else {
            is_free || is_old
        }
    }

    /// The place once a body takes it.
    pub fn taken_by(self, ticket: u64, now: u64) -> Place
        ensures { result ≡ record { holder = ticket; since_ms = now } }
    {
        Place {
            holder: ticket,
            since_ms: now,
        }
    }

    /// The place once a body leaves it: free, if that body has it.
    pub fn left_by(self, ticket: u64, now: u64) -> Place
        ensures { result ≡ place_left_by ticket now self }
    {
        if self.holder == ticket {
            self.taken_by(0, now)
        } else {
            self
        }
    }
}
