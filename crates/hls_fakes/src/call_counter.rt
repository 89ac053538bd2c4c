//! Counts calls.

/// Counts calls. The call with one given number, from 1, fails; none does if the number is [`NEVER`](crate::NEVER).
#[derive(Drop)]
pub(crate) struct CallCounter {
    /// The number of calls so far.
    pub count: usize,
    fails_at: usize,
}

impl CallCounter {
    /// A counter without calls.
    pub fn failing_at(fails_at: usize) -> CallCounter {
        CallCounter { count: 0, fails_at }
    }

    /// Counts a call. Returns whether it fails.
    pub fn count_call(&mut self) -> bool {
        self.count = self.count.wrapping_add(1);
        self.count == self.fails_at
    }

    /// Whether the number of the last call is even.
    pub fn is_even(&self) -> bool {
        self.count % 2 == 0
    }
}
