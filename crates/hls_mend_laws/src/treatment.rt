//! What becomes of a unit.

/// When a unit starts and for how long it lasts, in ticks.
#[derive(Clone, Copy)]
pub struct UnitSpan {
    pub start: u64,
    pub duration: u64,
    /// The duration of its first sample.
    pub first: u32,
    /// Whether its leading samples may be cut: whether it is audio.
    pub may_be_cut: bool,
}

/// What becomes of a unit.
#[derive(Clone, Copy, Debug, PartialEq, Eq)]
pub enum Treatment {
    /// It is recorded as it was sent.
    Keep,
    /// It is written again to start at the rendition's end, with the same end.
    Retime,
    /// Fillers are recorded up to its start, and then the unit as it was sent.
    Fill,
    /// The gap before it is too long to be filled: it is recorded as it was sent, after a discontinuity.
    Jump,
    /// Its leading samples are cut, and the rest of it is treated as a unit of its own.
    Cut,
    /// It isn't recorded.
    Drop,
}
