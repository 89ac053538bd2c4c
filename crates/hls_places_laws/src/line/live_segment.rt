//! A segment of the live line.

use crate::place::Place;

/// A segment of the live line, in every rendition at once.
#[derive(Drop)]
pub struct LiveSegment {
    /// Where it begins.
    pub from: Place,

    /// Where it ends.
    pub to: Place,

    /// Whether a mark, which is a discontinuity, precedes it (EXT-X-DISCONTINUITY, RFC 8216 section 4.3.2.3).
    pub mark: bool,
}
