//! The places of a rendition: which bodies have one, which may take one, and whether one that waits is woken.

ghost use Rattle.std.specs.Prelude.{◌≡◌, All, MatchOption, false, true, map, replicate};
ghost use Rattle.std.specs.List.{list_any};
ghost use Rattle.hls_rates.specs.Places.{may_take_place, place_left_by, size_of_unit};
ghost use Rattle.hls_rates.specs.Seats.{IsFoundAt, IsFreeAt, IsTakenAt, SeatsBody, SeatsChecked, SeatsLarge, SeatsSmall, SeatsTiny, checked_share, has_place, is_free_for, is_holder, places_left, wakes};

use crate::place::{Place, UnitSize, unit_size};
use crate::share::BodyShare;

/// How many incomplete units of a rendition may be small, 1 MiB each.
const SMALL_PLACES: usize = 16;

/// The places of a rendition.
#[derive(Clone, Copy, Debug, PartialEq, Eq, Drop)]
pub struct Places {
    pub small: [Place; SMALL_PLACES],
    pub large: Place,
    /// The ticket issued last.
    pub last_ticket: u64,
    /// Whether a body waits for a place.
    pub is_wanted: bool,
}

/// Whether one of the places is that of this ticket.
fn has_holder(places: &[Place], ticket: u64) -> bool
    ensures { result ≡ list_any (is_holder ticket) places.now }
{
    places.iter().any(|place| place.holder == ticket)
}

/// Returns the first place that is free and may be taken.
fn find_free(places: &[Place], was_slow: bool, patience_ms: u64, now_ms: u64) -> Option<usize>
    ensures { MatchOption result (All (λ p. is_free_for was_slow patience_ms now_ms p ≡ false) places.now) (IsFreeAt was_slow patience_ms now_ms places.now) }
{
    places.iter().position(|place| {
        place.holder == 0 && place.may_be_taken(was_slow, patience_ms, now_ms)
    })
}

/// Returns the first place that may be taken.
fn find_taken(places: &[Place], was_slow: bool, patience_ms: u64, now_ms: u64) -> Option<usize>
    ensures { MatchOption result (All (λ p. may_take_place was_slow patience_ms now_ms p ≡ false) places.now) (IsTakenAt was_slow patience_ms now_ms places.now) }
{
    places
        .iter()
        .position(|place| place.may_be_taken(was_slow, patience_ms, now_ms))
}

/// Returns a place that may be taken, a free one if there is any.
fn find_place(places: &[Place], was_slow: bool, patience_ms: u64, now_ms: u64) -> Option<usize>
    ensures { MatchOption result (All (λ p. may_take_place was_slow patience_ms now_ms p ≡ false) places.now) (IsFoundAt was_slow patience_ms now_ms places.now) }
{
    if let Some(index) = find_free(places, was_slow, patience_ms, now_ms) {
        return Some(index);
    }
    find_taken(places, was_slow, patience_ms, now_ms)
}

/// Returns the places after the body with this ticket left them.
#[tactic(auto, using(crate::proofs::LeftPlaces::left_done))]
fn left_places(places: [Place; SMALL_PLACES], ticket: u64, now_ms: u64) -> [Place; SMALL_PLACES]
    ensures { result ≡ map (place_left_by ticket now_ms) places }
{
    let mut left = places;
    for index in 0..SMALL_PLACES {
        left[index] = places[index].left_by(ticket, now_ms);
    }
    left
}

impl Places {
    /// Places that are all free.
    pub fn new() -> Places
        ensures { result ≡ record { small = replicate 16 (record { holder = 0; since_ms = 0 }); large = record { holder = 0; since_ms = 0 }; last_ticket = 0; is_wanted = false } }
    {
        Places {
            small: [Place::new(); SMALL_PLACES],
            large: Place::new(),
            last_ticket: 0,
            is_wanted: false,
        }
    }

    /// Whether the body with this ticket has a place.
    fn has(&self, ticket: u64) -> bool
        ensures { result ≡ has_place ticket self.now }
    {
        self.large.holder == ticket || has_holder(&self.small, ticket)
    }

    /// Frees the places of the body with this ticket. Returns whether another one may wait for them.
    pub fn leave(&mut self, ticket: u64, now_ms: u64) -> bool
        ensures left { self.new ≡ places_left ticket now_ms self.old }
        ensures woken { result ≡ wakes ticket self.old }
    {
        if ticket == 0 {
            return false;
        }
        self.large = self.large.left_by(ticket, now_ms);
        self.small = left_places(self.small, ticket, now_ms);
        let is_wanted = self.is_wanted;
        self.is_wanted = false;
        is_wanted
    }

    /// Gives a body that has none a small place, if one may be taken. Returns whether it has one.
    fn seat_small(&mut self, share: &mut BodyShare, patience_ms: u64, now_ms: u64) -> bool
        ensures { SeatsSmall patience_ms now_ms self.old share.old self.new share.new result false }
    {
        if share.ticket != 0 {
            return true;
        }
        let Some(index) = find_place(&self.small, share.was_slow, patience_ms, now_ms) else {
            return false;
        };
        let ticket = self.last_ticket.wrapping_add(1).max(1);
        self.last_ticket = ticket;
        self.small[index] = self.small[index].taken_by(ticket, now_ms);
        share.ticket = ticket;
        true
    }

    /// Frees the places of a body whose unit needs none. Returns whether another one may wait for them.
    fn seat_tiny(&mut self, share: &mut BodyShare, now_ms: u64) -> bool
        ensures { SeatsTiny now_ms self.old share.old self.new share.new true result }
    {
        let is_wanted = self.leave(share.ticket, now_ms);
        share.ticket = 0;
        is_wanted
    }

    /// Gives a body the large place, unless another one has it for now. It leaves the small one that it had: returns whether it has the
    /// large one, and whether a body may wait for the small one.
    fn seat_large(&mut self, share: &mut BodyShare, patience_ms: u64, now_ms: u64) -> (bool, bool)
        ensures { SeatsLarge patience_ms now_ms self.old share.old self.new share.new result.0 result.1 }
    {
        if share.ticket != 0 && self.large.holder == share.ticket {
            return (true, false);
        }
        if !self.large.may_be_taken(share.was_slow, patience_ms, now_ms) {
            return (false, false);
        }
        let is_left_wanted = self.leave(share.ticket, now_ms);
        let ticket = self.last_ticket.wrapping_add(1).max(1);
        self.last_ticket = ticket;
        self.large = self.large.taken_by(ticket, now_ms);
        share.ticket = ticket;
        (true, is_left_wanted)
    }

    /// Notes that a body lost its place to another one, if it did.
    fn check_place(&self, share: &mut BodyShare)
        ensures { share.new ≡ checked_share self.now share.old }
    {
        if share.ticket != 0 && !self.has(share.ticket) {
            share.ticket = 0;
            share.was_slow = true;
        }
    }

    /// Gives a body the place that its incomplete unit needs, and frees those that it no longer needs. Returns whether it has what it needs,
    /// and whether a body that waits may take a place now.
    fn seat_checked(&mut self, share: &mut BodyShare, patience_ms: u64, now_ms: u64) -> (bool, bool)
        ensures { SeatsBody (size_of_unit share.old.incomplete) patience_ms now_ms self.old share.old self.new share.new result.0 result.1 }
    {
        match unit_size(share.incomplete) {
            UnitSize::Tiny => (true, self.seat_tiny(share, now_ms)),
            UnitSize::Small => (self.seat_small(share, patience_ms, now_ms), false),
            UnitSize::Large => self.seat_large(share, patience_ms, now_ms),
        }
    }

    /// Gives a body the place that its incomplete unit needs, and frees those that it no longer needs. Returns whether a body that waits may
    /// take a place now.
    pub fn seat(&mut self, share: &mut BodyShare, patience_ms: u64, now_ms: u64) -> bool
        ensures { SeatsChecked patience_ms now_ms self.old share.old self.new share.new result }
    {
        self.check_place(share);
        let (is_seated, is_wanted) = self.seat_checked(share, patience_ms, now_ms);
        share.needs_place = !is_seated;
        self.is_wanted = self.is_wanted || !is_seated;
        is_wanted
    }
}
