//! The lengths in each rendition of the segments up to one, and the number of their marks.
ghost use Rattle.std.specs.Prelude.{◌≡◌, ℕ, ◌+◌, ◌^◌, ◌<◌, length, slice_index, IfOk};
ghost use Rattle.hls_places_laws.specs.Line.Lengths.{length_in};
ghost use Rattle.hls_live.specs.PrefixSums.{AreExtendedLengths};

use crate::place_fit::length_between;
use hls_places_laws::LiveSegment;
use std::alloc::{AllocError, Global};

#[derive(Drop)]
pub struct PrefixSums {
    /// One length for each rendition, in microseconds.
    pub lengths: Vec<u64>,

    /// Marks are counted from the very first segment.
    pub marks: u64,
}

/// The length in rendition `r`, or 0 if there is none.
fn length_at(lengths: &[u64], r: usize) -> u64
    ensures { result ≡ slice_index lengths.now r }
{
    if r < lengths.len() { lengths[r] } else { 0 }
}

/// The lengths so far plus those of one more segment in each rendition; none is 0.
pub fn extend_lengths(
    alloc: Global,
    before: &[u64],
    segment: &LiveSegment,
) -> Result<Vec<u64>, AllocError>
    requires small { (r : ℕ) → slice_index before.now r + length_in r segment.now < 2 ^ 64 }
    ensures { IfOk result (λ lengths. AreExtendedLengths before.now segment.now lengths.items) }
{
    let renditions = segment.from.spots.len();
    let mut lengths = Vec::with_capacity(alloc, renditions)?;
    for r in 0..renditions {
        lengths.push(length_at(before, r) + length_between(&segment.from, &segment.to, r))?;
    }
    Ok(lengths)
}
