//! The track numbers of an init section, kept on the stack.

ghost use Rattle.std.specs.Prelude.{◌≡◌, ℕ, ◌+◌, ◌<◌, ◌≤◌, ◌==◌, List, [], ◌∷◌, ◌++◌, length, take};
ghost use Rattle.std.specs.List.{list_any};

use std::marker::Model;

/// More than the number of `trak` boxes that fit in an init section of 1048576 bytes: each has at least 84 bytes.
pub const ROOM: usize = 16384;

/// Track numbers, in order of arrival. Contracts see their list.
#[derive(Drop)]
pub struct TrackIds {
    numbers: [u32; ROOM],
    count: usize,
}

impl Model for TrackIds {
    ghost Value = { List ℕ };

    ghost view = { λ s. take s.count s.numbers };

    ghost invariant = { λ s. s.count ≤ 16384 };
}

impl TrackIds {
    pub fn new() -> TrackIds
        ensures { result ≡ [] }
    {
        TrackIds {
            numbers: [0; ROOM],
            count: 0,
        }
    }

    pub fn len(&self) -> usize
        ensures { result ≡ length self.now }
    {
        self.count
    }

    /// Whether a number is among them.
    pub fn contains(&self, id: u32) -> bool
        ensures { result ≡ list_any (λ (m : ℕ). m == id) self.now }
    {
        is_among(&self.numbers[..self.count], id)
    }

    /// Adds a number.
    pub fn push(&mut self, id: u32)
        requires { length self.old < ROOM }
        ensures { self.new ≡ self.old ++ id ∷ [] }
    {
        self.numbers[self.count] = id;
        self.count += 1;
    }
}

fn is_among(numbers: &[u32], id: u32) -> bool
    ensures { result ≡ list_any (λ (m : ℕ). m == id) numbers.now }
{
    for number in numbers {
        if *number == id {
            return true;
        }
    }
    false
}
