//! The effect of the next box of a stream on the part in progress.

use crate::fault::BoxFault;

/// The effect of the next box.
#[derive(Clone, Copy)]
pub enum BoxEffect {
    /// Its header or its content isn't complete yet.
    Incomplete,
    /// Its header has a fault.
    Fault(BoxFault),
    /// Its `size` bytes join the part in progress. `has_moof` says whether the part then has a `moof`.
    Continues { has_moof: bool, size: usize },
    /// Its `size` bytes end the part: an init section if its type `kind` is `moov`, otherwise a unit.
    Ends { kind: u32, size: usize },
}
