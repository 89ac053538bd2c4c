//! The live line as a persistent value: each call that changes it returns a new one and leaves the old one unchanged.
ghost use Rattle.std.specs.Prelude.{◌≡◌, ◌↔◌, ◌+◌, ◌<◌, ◌≤◌, true, [], length, IfOk, IsTrue, Some, None};
ghost use Rattle.std.specs.Option.{option_copied};
ghost use Rattle.hls_blocks.specs.Numbered.{list_limit};
ghost use Rattle.hls_places_laws.specs.declared.place.Place.{Place};
ghost use Rattle.hls_places_laws.specs.Line.Steps.{is_allowed};
ghost use Rattle.hls_places_laws.specs.Line.Cuts.{segment_to};
ghost use Rattle.hls_places_laws.specs.Line.Progress.{progress_with, has_earlier};
ghost use Rattle.hls_places_laws.specs.Line.Lengths.{remaining_length, is_long, renditions_of};
ghost use Rattle.hls_places_laws.specs.Line.Live.{fresh, front_of, has_ended, live_after, advance_result, without_front, slide_result, may_slide};
ghost use Rattle.hls_places_laws.specs.Line.Results.{IsResultOrMemory};
ghost use Rattle.hls_places_laws.specs.Line.Upkeep.{LineLeaves, IsMostSlide};
ghost use Rattle.hls_live.specs.Model.{AreKept};
ghost use Rattle.hls_live.specs.Advances.{advance_once, with_closed, with_kept, with_progress};
ghost use Rattle.hls_check_tables.specs.Tables.{target_limit};

use crate::kept_segments::KeptSegments;
use crate::place_fit::{PlaceFit, classify_place, is_at_gap, is_too_far};
use hls_blocks::Shared;
use hls_places_laws::{LineFault, LineGoal, LiveSegment, Place, SegmentStart};
use std::alloc::{AllocError, Global};
use std::marker::Model;

/// The live line: the sequence of closed segments. The live playlists show its last segments. The value has the kept segments and the start
/// of the next one.
///
/// Segments are numbered from the very first one and keep their numbers when earlier ones are removed. Each is stored with the lengths and
/// the number of marks of the segments up to it, so that no call examines all of them.
#[derive(Drop)]
pub struct LiveLine {
    line_goal: LineGoal,
    kept: KeptSegments,
    segment_start: Option<SegmentStart>,
    best: Option<Place>,
}

impl Model for LiveLine {
    ghost use Rattle.hls_places_laws.specs.Line.Live.{Live};

    ghost Value = { Live };

    ghost use Rattle.hls_live.specs.Model.{model_of, IsSoundLine};

    ghost view = { model_of };

    ghost invariant = { IsSoundLine };
}

impl LiveLine {
    /// A line without places. `target` is in seconds, at most 3600; `preferred` is in microseconds. Doesn't allocate.
    pub fn fresh(alloc: Global, target: u64, preferred: u64) -> LiveLine
        requires { target ≤ target_limit }
        ensures { result ≡ fresh (record { target = target; preferred = preferred }) }
    {
        LiveLine {
            line_goal: LineGoal { target, preferred },
            kept: KeptSegments::empty(alloc),
            segment_start: None,
            best: None,
        }
    }

    /// The kept segments, numbered from the very first one.
    pub fn segments(&self) -> &Shared<LiveSegment>
        ensures { result.now ≡ record { first = self.now.removed; items = self.now.progress.line.segments } }
    {
        &self.kept.segments
    }

    /// The number of segments that were removed: the media sequence number (RFC 8216 section 4.3.3.2).
    pub fn removed(&self) -> u64
        ensures { result ≡ self.now.removed }
    {
        self.kept.first()
    }

    /// The number of removed segments with a mark: the discontinuity sequence number (RFC 8216 section 4.3.3.3).
    pub fn removed_breaks(&self) -> u64
        ensures { result ≡ self.now.breaks }
    {
        self.kept.breaks
    }

    /// Where the line begins: at the first kept segment, or else at the open place.
    pub fn front(&self) -> Option<&Place>
        ensures { option_copied result ≡ front_of self.now }
    {
        if let Some(segment) = self.kept.segments.get(self.kept.first()) {
            return Some(&segment.from);
        }
        match &self.segment_start {
            Some(open) => Some(&open.place),
            None => None,
        }
    }

    /// Whether the closing place was added.
    pub fn ended(&self) -> bool
        ensures { result ≡ has_ended self.now }
    {
        match &self.segment_start {
            Some(open) => open.place.closing,
            None => false,
        }
    }

    /// Another handle to the same line.
    pub fn share(&self, alloc: Global) -> Result<LiveLine, AllocError>
        ensures { IfOk result (λ line. line ≡ self.now) }
    {
        self.with_kept(self.kept.share(alloc)?)
    }

    /// The line after one more place.
    ///
    /// # Errors
    /// `Ended` if the closing place was already added, then `Memory`.
    pub fn advanced(&self, alloc: Global, place: &Place) -> Result<LiveLine, LineFault>
        requires some { 0 < length place.now.spots }
        requires room { self.now.removed + length self.now.progress.line.segments + 1 < list_limit }
        ensures { IsResultOrMemory (advance_result self.now place.now) result }
    {
        if self.ended() {
            return Err(LineFault::Ended);
        }
        Ok(self.with_place(alloc, place)?)
    }

    /// The line after one more place, without the test for the closing place.
    pub fn with_place(&self, alloc: Global, place: &Place) -> Result<LiveLine, AllocError>
        requires some { 0 < length place.now.spots }
        requires room { self.now.removed + length self.now.progress.line.segments + 1 < list_limit }
        ensures { IfOk result (λ line. line ≡ live_after self.now place.now) }
    {
        let Some(start) = &self.segment_start else {
            return self.with_place_or_restart(alloc, place);
        };
        let Some(best) = &self.best else {
            return self.with_place_or_restart(alloc, place);
        };
        if !is_too_far(self.line_goal, &start.place, place) {
            return self.with_place_or_restart(alloc, place);
        }
        self.close_segment(alloc, start, best)?
            .with_place_or_restart(alloc, place)
    }

    /// The first fault of a slide by `n` segments: `TooMany` if `n` is 0 or greater than the number of kept segments; `TooShort` if the
    /// line hasn't ended and less than three target durations would remain in some rendition.
    pub fn check_slide(&self, n: u64) -> Result<(), LineFault>
        ensures { result ≡ may_slide self.now n }
    {
        if n == 0 || self.count() < n {
            return Err(LineFault::TooMany);
        }
        if self.ended() || self.is_long(n) {
            return Ok(());
        }
        Err(LineFault::TooShort)
    }

    /// The line without its first `n` segments.
    ///
    /// # Errors
    /// Those of `check_slide`, then `Memory`.
    pub fn slide(&self, alloc: Global, n: u64) -> Result<LiveLine, LineFault>
        ensures { IsResultOrMemory (slide_result self.now n) result }
    {
        self.check_slide(n)?;
        Ok(self.drop_segments(alloc, n)?)
    }

    /// The greatest number of segments that can be removed so that three target durations remain in each rendition and `window`
    /// microseconds in rendition 0; 0 if none can. Doesn't allocate, and examines few segments.
    pub fn max_slide(&self, window: u64) -> u64
        ensures { IsMostSlide self.now window result }
    {
        let mut low = 0;
        let mut high = self.count() + 1;
        while high - low > 1 {
            let middle = low + (high - low) / 2;
            if self.leaves_window(window, middle) {
                low = middle;
            } else {
                high = middle;
            }
        }
        low
    }

    fn count(&self) -> u64
        ensures value { result ≡ length self.now.progress.line.segments }
        ensures bound { result ≤ list_limit }
    {
        self.kept.count()
    }

    /// Whether `window` microseconds in rendition 0, and three target durations in each, remain without the first `n` segments.
    fn leaves_window(&self, window: u64, n: u64) -> bool
        requires some { 0 < n }
        requires within { n ≤ length self.now.progress.line.segments }
        ensures { IsTrue result ↔ LineLeaves self.now window n }
    {
        if self.remaining_us(0, n) < window {
            return false;
        }
        self.is_long(n)
    }

    /// Whether three target durations remain in each rendition without the first `n` segments.
    fn is_long(&self, n: u64) -> bool
        requires some { 0 < n }
        requires within { n ≤ length self.now.progress.line.segments }
        ensures { result ≡ is_long self.now.line_goal (renditions_of self.now.progress.line.segment_start) self.now.progress.line.segments n }
    {
        let least = 3 * self.line_goal.target * 1_000_000;
        for r in 0..self.rendition_count() {
            if self.remaining_us(r, n) < least {
                return false;
            }
        }
        true
    }

    fn rendition_count(&self) -> usize
        ensures { result ≡ renditions_of self.now.progress.line.segment_start }
    {
        match &self.segment_start {
            Some(start) => start.place.spots.len(),
            None => 0,
        }
    }

    /// The length of rendition `r` without the first `n` segments, in microseconds.
    fn remaining_us(&self, r: usize, n: u64) -> u64
        requires some { 0 < n }
        requires within { n ≤ length self.now.progress.line.segments }
        requires there { 0 < r → r < renditions_of self.now.progress.line.segment_start }
        ensures { result ≡ remaining_length r self.now.progress.line.segments n }
    {
        let last = self.kept.sums_at(self.kept.next() - 1);
        let past = self.kept.sums_at(self.kept.first() + (n - 1));
        last.lengths[r] - past.lengths[r]
    }

    fn drop_segments(&self, alloc: Global, n: u64) -> Result<LiveLine, AllocError>
        requires some { 0 < n }
        requires within { n ≤ length self.now.progress.line.segments }
        ensures { IfOk result (λ line. line ≡ without_front n self.now) }
    {
        self.with_kept(self.kept.drop_segments(alloc, n)?)
    }

    /// The line with other segments; the open place and the best one stay.
    fn with_kept(&self, kept: KeptSegments) -> Result<LiveLine, AllocError>
        requires kept { AreKept (renditions_of self.now.progress.line.segment_start) kept }
        requires no_segment { self.now.progress.line.segment_start ≡ None → kept.segments.items ≡ [] }
        ensures { IfOk result (λ line. line ≡ with_kept self.now kept) }
    {
        Ok(LiveLine {
            line_goal: self.line_goal,
            kept,
            segment_start: share_start(&self.segment_start)?,
            best: share_place(&self.best)?,
        })
    }

    /// The line after one more place, which restarts it if it is out of reach.
    fn with_place_or_restart(&self, alloc: Global, place: &Place) -> Result<LiveLine, AllocError>
        requires some { 0 < length place.now.spots }
        requires room { self.now.removed + length self.now.progress.line.segments < list_limit }
        ensures { IfOk result (λ line. line ≡ with_progress self.now (advance_once self.now place.now)) }
    {
        let Some(start) = &self.segment_start else {
            return self.with_start(alloc, make_start(place, false)?, None);
        };
        match classify_place(self.line_goal, &start.place, place) {
            PlaceFit::Skipped => self.share(alloc),
            PlaceFit::TooFar => self.with_start(alloc, make_start(place, true)?, None),
            PlaceFit::Reachable => self.with_start(alloc, start.share()?, Some(place.share()?)),
            PlaceFit::LongEnough => self.close_segment(alloc, start, place),
        }
    }

    /// The line with the same segments, and another open place and best place.
    fn with_start(
        &self,
        alloc: Global,
        start: SegmentStart,
        best: Option<Place>,
    ) -> Result<LiveLine, AllocError>
        requires some { 0 < length start.place.spots }
        requires same { 0 < length self.now.progress.line.segments → length start.place.spots ≡ renditions_of self.now.progress.line.segment_start }
        requires best { (b : Place) → best ≡ Some b → is_allowed self.now.line_goal start.place b ≡ true }
        ensures { IfOk result (λ line. line ≡ with_progress self.now (progress_with self.now.progress.line.segments start best)) }
    {
        Ok(LiveLine {
            line_goal: self.line_goal,
            kept: self.kept.share(alloc)?,
            segment_start: Some(start),
            best,
        })
    }

    /// Whether the segment that begins at an open place has a mark: a segment precedes it, and there is a discontinuity.
    fn is_marked(&self, start: &SegmentStart) -> bool
        ensures { result ≡ (segment_to (has_earlier self.now.removed self.now.progress.line.segments) start.now start.now.place).mark }
    {
        if self.kept.next() == 0 {
            return false;
        }
        start.restarted || is_at_gap(&start.place)
    }

    /// The line with its open segment closed at a place, where the next one begins.
    fn close_segment(
        &self,
        alloc: Global,
        start: &SegmentStart,
        to: &Place,
    ) -> Result<LiveLine, AllocError>
        requires room { self.now.removed + length self.now.progress.line.segments < list_limit }
        requires start { self.now.progress.line.segment_start ≡ Some start.now }
        requires reached { is_allowed self.now.line_goal start.now.place to.now ≡ true }
        ensures { IfOk result (λ line. line ≡ with_closed self.now start.now to.now) }
    {
        let segment = segment_between(&start.place, to, self.is_marked(start))?;
        Ok(LiveLine {
            line_goal: self.line_goal,
            kept: self.kept.push_segment(alloc, segment)?,
            segment_start: Some(make_start(to, false)?),
            best: None,
        })
    }
}

fn segment_between(from: &Place, to: &Place, mark: bool) -> Result<LiveSegment, AllocError>
    ensures { IfOk result (λ segment. segment ≡ record { from = from.now; to = to.now; mark = mark }) }
{
    Ok(LiveSegment {
        from: from.share()?,
        to: to.share()?,
        mark,
    })
}

fn make_start(place: &Place, restarted: bool) -> Result<SegmentStart, AllocError>
    ensures { IfOk result (λ start. start ≡ record { place = place.now; restarted = restarted }) }
{
    Ok(SegmentStart {
        place: place.share()?,
        restarted,
    })
}

fn share_start(start: &Option<SegmentStart>) -> Result<Option<SegmentStart>, AllocError>
    ensures { IfOk result (λ same. same ≡ start.now) }
{
    match start {
        Some(start) => Ok(Some(start.share()?)),
        None => Ok(None),
    }
}

fn share_place(place: &Option<Place>) -> Result<Option<Place>, AllocError>
    ensures { IfOk result (λ same. same ≡ place.now) }
{
    match place {
        Some(place) => Ok(Some(place.share()?)),
        None => Ok(None),
    }
}
