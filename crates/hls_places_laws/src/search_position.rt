//! The progress of a search for common places in one rendition.

/// The progress of the search for common places in one rendition.
#[derive(Clone, Copy)]
pub struct SearchPosition {
    /// The number of the next fragment to look at.
    pub at: u64,

    /// The number of gaps up to the start of the fragment before that one.
    pub runs: u64,
}
