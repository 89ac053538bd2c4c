//! What a good certificate proves.

/// What a good certificate proves.
#[derive(Clone, Copy, Debug, PartialEq, Eq)]
pub enum Verdict {
    /// An optimal plan, and its cost in microseconds.
    Cut { cost: u64 },

    /// No plan exists.
    NoCut,
}
