//! A spot is a segment boundary in one rendition.

/// A segment boundary in one rendition: the start of a fragment, or the end of the last one.
#[derive(Clone, Copy, PartialEq, Eq)]
pub struct Spot {
    /// The number of the fragment that begins here, from 0. At the end, the number of fragments.
    pub fragment: u64,

    /// The end of the fragment before this one, in microseconds. For the first fragment its own start.
    pub prev_end: u64,

    /// The start of the fragment, in microseconds.
    pub start: u64,

    /// The number of gaps up to the start of the fragment before this one.
    pub run_in: u64,

    /// The number of gaps up to the start of this fragment.
    pub run_out: u64,
}
