//! The parameters of the live line.

/// The parameters by which the live line is cut.
#[derive(Clone, Copy)]
pub struct LineGoal {
    /// The target duration of a playlist (RFC 8216 section 4.3.3.1), in seconds.
    pub target: u64,

    /// The length in rendition 0, in microseconds, from which a segment is long enough.
    pub preferred: u64,
}
