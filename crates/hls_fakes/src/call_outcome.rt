//! Outcomes of calls in which any one allocation may fail.

/// The outcome of a call.
#[derive(Clone, Copy, Drop)]
pub enum CallOutcome {
    /// The result that the call has with enough memory.
    Right,
    /// An allocation failed, in the call or for its arguments; the values that the call borrowed are unchanged.
    OutOfMemory,
    /// Anything else.
    Wrong,
}

impl CallOutcome {
    /// The outcome of a call that returned a result, given whether it is the right one.
    pub fn from_answer(is_right: bool) -> CallOutcome {
        if is_right {
            CallOutcome::Right
        } else {
            CallOutcome::Wrong
        }
    }

    /// The outcome of a call in which an allocation failed, given whether the values that it borrowed are unchanged.
    pub fn from_refusal(unchanged: bool) -> CallOutcome {
        if unchanged {
            CallOutcome::OutOfMemory
        } else {
            CallOutcome::Wrong
        }
    }

    /// The same outcome, or `Wrong` if the values that the call borrowed have changed.
    pub fn require_unchanged(self, unchanged: bool) -> CallOutcome {
        if unchanged { self } else { CallOutcome::Wrong }
    }

    /// Whether it is the result with enough memory.
    pub fn is_right(self) -> bool {
        matches!(self, CallOutcome::Right)
    }

    /// Whether the outcomes of a call and of its repetition are consistent: one allocation fails, so at most one of them is an allocation
    /// failure, and the other is the right result.
    pub fn is_consistent_with(self, again: CallOutcome) -> bool {
        match self {
            CallOutcome::Right => !matches!(again, CallOutcome::Wrong),
            CallOutcome::OutOfMemory => again.is_right(),
            CallOutcome::Wrong => false,
        }
    }
}
