//! The kept segments of the live line, and the sums at each.
ghost use Rattle.std.specs.Prelude.{◌≡◌, ℕ, ◌+◌, ◌-◌, ◌^◌, ◌<◌, ◌≤◌, if◌then◌else◌, length, slice_index, slice_get, IfOk, Some};
ghost use Rattle.std.specs.Option.{option_copied};
ghost use Rattle.hls_blocks.specs.Numbered.{next_of, no_items, list_limit};
ghost use Rattle.hls_places_laws.specs.Line.Lengths.{length_in};
ghost use Rattle.hls_live.specs.PrefixSums.{last_of, lengths_of, marks_of, IsNextSums, IsSumsAfter};
ghost use Rattle.hls_live.specs.KeptSegments.{AreAligned, HasDroppedSegments, HasPushedSegment};
ghost use Rattle.hls_check_tables.specs.Steps.{cost_limit};

use crate::prefix_sums::{PrefixSums, extend_lengths};
use hls_blocks::Shared;
use hls_places_laws::LiveSegment;
use std::alloc::{AllocError, Global};

/// The kept segments, and for each the sums of the segments up to it.
#[derive(Drop)]
pub struct KeptSegments {
    pub segments: Shared<LiveSegment>,
    pub sums: Shared<PrefixSums>,

    /// The number of removed segments that have a mark.
    pub breaks: u64,
}

impl KeptSegments {
    /// No segments; the first one will have number 0. Doesn't allocate.
    pub fn empty(alloc: Global) -> KeptSegments
        ensures { result ≡ record { segments = no_items; sums = no_items; breaks = 0 } }
    {
        KeptSegments {
            segments: Shared::empty(alloc),
            sums: Shared::empty(alloc),
            breaks: 0,
        }
    }

    /// The number of the first segment.
    pub fn first(&self) -> u64
        ensures value { result ≡ self.now.segments.first }
        ensures bound { result ≤ list_limit }
    {
        self.segments.first()
    }

    /// The number of the next segment.
    pub fn next(&self) -> u64
        ensures value { result ≡ next_of self.now.segments }
        ensures bound { result ≤ list_limit }
    {
        self.segments.next()
    }

    /// The number of segments.
    pub fn count(&self) -> u64
        ensures value { result ≡ length self.now.segments.items }
        ensures bound { result ≤ list_limit }
    {
        self.next() - self.first()
    }

    /// Another handle to the same segments.
    pub fn share(&self, alloc: Global) -> Result<KeptSegments, AllocError>
        ensures { IfOk result (λ kept. kept ≡ self.now) }
    {
        Ok(KeptSegments {
            segments: self.segments.share(alloc)?,
            sums: self.sums.share(alloc)?,
            breaks: self.breaks,
        })
    }

    /// The sums at segment `n`.
    pub fn sums_at(&self, n: u64) -> &PrefixSums
        requires aligned { AreAligned self.now }
        requires low { self.now.segments.first ≤ n }
        requires high { n < next_of self.now.segments }
        ensures { slice_get self.now.sums.items (n - self.now.segments.first) ≡ Some result.now }
    {
        let Some(found) = self.sums.get(n) else {
            unreachable!()
        };
        found
    }

    /// The segments after the first `n`.
    pub fn drop_segments(&self, alloc: Global, n: u64) -> Result<KeptSegments, AllocError>
        requires aligned { AreAligned self.now }
        requires some { 0 < n }
        requires within { n ≤ length self.now.segments.items }
        ensures { IfOk result (HasDroppedSegments n self.now) }
    {
        let first = self.next() - (self.count() - n);
        let breaks = self.sums_at(first - 1).marks;
        Ok(KeptSegments {
            segments: self.segments.dropped_front(alloc, first)?,
            sums: self.sums.dropped_front(alloc, first)?,
            breaks,
        })
    }

    /// The segments with one appended.
    pub fn push_segment(
        &self,
        alloc: Global,
        segment: LiveSegment,
    ) -> Result<KeptSegments, AllocError>
        requires aligned { AreAligned self.now }
        requires room { next_of self.now.segments < list_limit }
        requires few { marks_of self.now.breaks (last_of self.now.sums.items) ≤ list_limit }
        requires past { (r : ℕ) → slice_index (lengths_of (last_of self.now.sums.items)) r ≤ 2 ^ 60 }
        requires short { (r : ℕ) → length_in r segment ≤ cost_limit }
        ensures { IfOk result (HasPushedSegment segment self.now) }
    {
        let sums = self.next_sums(alloc, &segment)?;
        Ok(KeptSegments {
            segments: self.segments.pushed(alloc, segment)?,
            sums: self.sums.pushed(alloc, sums)?,
            breaks: self.breaks,
        })
    }

    /// The sums at the last segment, if there is one.
    fn last(&self) -> Option<&PrefixSums>
        requires { AreAligned self.now }
        ensures { option_copied result ≡ last_of self.now.sums.items }
    {
        if self.count() == 0 {
            return None;
        }
        Some(self.sums_at(self.next() - 1))
    }

    /// The sums at a segment that follows these.
    fn next_sums(&self, alloc: Global, segment: &LiveSegment) -> Result<PrefixSums, AllocError>
        requires aligned { AreAligned self.now }
        requires few { marks_of self.now.breaks (last_of self.now.sums.items) ≤ list_limit }
        requires past { (r : ℕ) → slice_index (lengths_of (last_of self.now.sums.items)) r ≤ 2 ^ 60 }
        requires short { (r : ℕ) → length_in r segment.now ≤ cost_limit }
        ensures { IfOk result (IsSumsAfter self.now.breaks self.now.sums.items segment.now) }
    {
        match self.last() {
            Some(last) => sums_with(alloc, last.lengths.as_slice(), last.marks, segment),
            None => sums_with(alloc, &[], self.breaks, segment),
        }
    }
}

/// The sums with one more segment.
fn sums_with(
    alloc: Global,
    lengths: &[u64],
    marks: u64,
    segment: &LiveSegment,
) -> Result<PrefixSums, AllocError>
    requires few { marks ≤ list_limit }
    requires past { (r : ℕ) → slice_index lengths.now r ≤ 2 ^ 60 }
    requires short { (r : ℕ) → length_in r segment.now ≤ cost_limit }
    ensures { IfOk result (IsNextSums lengths.now marks segment.now) }
{
    Ok(PrefixSums {
        lengths: extend_lengths(alloc, lengths, segment)?,
        marks: add_discontinuity(marks, segment.mark),
    })
}

/// The number of marks with one more segment.
fn add_discontinuity(marks: u64, mark: bool) -> u64
    requires { marks ≤ list_limit }
    ensures { result ≡ marks + (if mark then 1 else 0) }
{
    if mark { marks + 1 } else { marks }
}
