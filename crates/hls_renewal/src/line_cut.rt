//! The cut of a channel's live line at which a new log begins.

ghost use Rattle.std.specs.Prelude.{◌≡◌, ◌<◌, IfOk, Some, length, slice_get};
ghost use Rattle.hls_places_laws.specs.Line.Live.{live_of, segments_of};
ghost use Rattle.hls_core_laws.specs.IsState.{IsState};
ghost use Rattle.hls_core_laws.specs.Line.{line_goal_of};
ghost use Rattle.hls_core_laws.specs.Places.{places, floors};
ghost use Rattle.hls_playlists_laws.specs.JoinedLists.{is_first_marked};
ghost use Rattle.hls_renewal.specs.Cuts.{may_begin_at, front_cut, first_cut};

use hls_core::floors::{floors_of, rendition_count};
use hls_core::snapshot::Snapshot;
use hls_live::{LiveLine, LiveSegment};
use hls_places::{Place, is_kept};
use std::alloc::{AllocError, Global};

/// A cut of a channel's live line, and what precedes it since the channel's base.
#[derive(Drop)]
pub struct LineCut {
    /// The number of segments.
    pub segments: u64,
    /// The number of their marks.
    pub marks: u64,
    /// Whether the segment that begins at the cut has a mark.
    pub marked: bool,
    pub place: Place,
}

/// Returns the first cut of the live line with no trimmed unit after it, at the front of the line or before. `None` if there is none:
/// the line has no place yet, or it has ended and no segment is left.
pub(crate) fn find_cut(alloc: Global, snapshot: &Snapshot) -> Result<Option<LineCut>, AllocError>
    ensures cut { IfOk result (λ cut. cut ≡ first_cut snapshot.now) }
    ensures valid { IsState snapshot.now }
{
    let removed = snapshot.line().removed();
    let whole = rebuild_line(alloc, snapshot)?;
    let floors = floors_of(snapshot);
    let floors = &floors[..rendition_count(snapshot)];
    let mut marks: u64 = 0;
    for n in 0..removed {
        let segment = get_segment(&whole, n);
        if may_begin_at(&segment.from, floors) {
            return Ok(Some(make_cut(n, marks, segment.mark, &segment.from)?));
        }
        marks += u64::from(segment.mark);
    }
    find_front_cut(snapshot, floors)
}

/// Returns the live line with the segments that were removed.
fn rebuild_line(alloc: Global, snapshot: &Snapshot) -> Result<LiveLine, AllocError>
    ensures { IfOk result (λ whole. whole ≡ live_of (line_goal_of snapshot.now.config) (places snapshot.now) 0) }
{
    let config = snapshot.config();
    let mut whole = LiveLine::fresh(alloc, config.target(), config.preferred());
    for n in 0..count_places(snapshot) {
        whole = whole.with_place(alloc, get_place(snapshot, n))?;
    }
    Ok(whole)
}

fn count_places(snapshot: &Snapshot) -> u64
    ensures value { result ≡ length (places snapshot.now) }
    ensures valid { IsState snapshot.now }
{
    snapshot.places().next()
}

/// Returns a common place that the channel has.
fn get_place(snapshot: &Snapshot, n: u64) -> &Place
    requires { n < length (places snapshot.now) }
    ensures { slice_get (places snapshot.now) n ≡ Some result.now }
{
    let Some(place) = snapshot.places().get(n) else {
        unreachable!()
    };
    place
}

/// Returns a segment of a line that has it.
fn get_segment(line: &LiveLine, n: u64) -> &LiveSegment
    requires first { line.now.removed ≡ 0 }
    requires within { n < length (segments_of line.now) }
    ensures { slice_get (segments_of line.now) n ≡ Some result.now }
{
    let Some(segment) = line.segments().get(n) else {
        unreachable!()
    };
    segment
}

/// Returns the cut at the front of the live line, if no unit after it is trimmed.
fn find_front_cut(snapshot: &Snapshot, above: &[u64]) -> Result<Option<LineCut>, AllocError>
    requires { above.now ≡ floors snapshot.now }
    ensures { IfOk result (λ cut. cut ≡ front_cut snapshot.now) }
{
    let line = snapshot.line();
    let Some(place) = line.front() else {
        return Ok(None);
    };
    if !may_begin_at(place, above) {
        return Ok(None);
    }
    Ok(Some(make_cut(
        line.removed(),
        line.removed_breaks(),
        is_front_marked(line),
        place,
    )?))
}

/// Whether a log may begin at a place: more may follow it, and no unit from there on is trimmed.
fn may_begin_at(place: &Place, floors: &[u64]) -> bool
    ensures { result ≡ may_begin_at floors.now place.now }
{
    !place.closing && is_kept(place, floors)
}

/// Whether the first kept segment of a line has a mark.
fn is_front_marked(line: &LiveLine) -> bool
    ensures { result ≡ is_first_marked (segments_of line.now) }
{
    match line.segments().get(line.removed()) {
        Some(segment) => segment.mark,
        None => false,
    }
}

fn make_cut(segments: u64, marks: u64, marked: bool, place: &Place) -> Result<LineCut, AllocError>
    ensures { IfOk result (λ cut. cut ≡ record { segments = segments; marks = marks; marked = marked; place = place.now }) }
{
    Ok(LineCut {
        segments,
        marks,
        marked,
        place: place.share()?,
    })
}
