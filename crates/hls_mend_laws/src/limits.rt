//! How far mending goes.

/// How far a unit's start may be moved, and the longest gap that is filled, in ticks of its rendition.
#[derive(Clone, Copy)]
pub struct MendLimits {
    /// The greatest distance by which a start is moved.
    pub snap: u64,
    /// The longest gap that is filled.
    pub fill: u64,
}
