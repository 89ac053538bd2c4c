//! The lines of a base.

/// What a line of a base gives.
#[derive(Clone, Copy, Debug, PartialEq, Eq, Drop)]
pub enum BaseLine {
    /// `run TEXT`: the run's name, 1 to 16 letters and digits.
    Run,
    /// `segments N`: the number of segments that precede.
    Segments,
    /// `marks N`: the number of their marks, at most that of the segments.
    Marks,
    /// `marked yes` or `marked no`: whether the first segment of the process has a mark.
    Marked,
    /// `version N`: the number of log entries that precede.
    Version,
    /// `bytes NAME N`: the bytes of a rendition's units that precede. The rendition by its number.
    Bytes(usize),
}
