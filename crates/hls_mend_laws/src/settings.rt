//! How far units are mended.

/// How far the units of a channel are mended, in microseconds.
#[derive(Clone, Copy, Debug, PartialEq, Eq, Drop)]
pub struct MendSettings {
    /// The greatest distance by which the start of a unit is moved.
    pub snap_us: u32,
    /// The longest gap that is filled.
    pub fill_us: u32,
}
