//! Where a time is in the live line, and the playlist that starts there and only grows.

ghost use Rattle.std.specs.Prelude.{◌≡◌, ◌≤◌, length};
ghost use Rattle.hls_places_laws.specs.Order.{time_of};
ghost use Rattle.hls_places_laws.specs.Line.Live.{front_of, segments_of};
ghost use Rattle.hls_core_laws.specs.Line.{line};
ghost use Rattle.hls_playlists.specs.StartTimes as spec;

use crate::segment_iterator::{first_number, iter_segments_from, next_segment};
use hls_core::snapshot::Snapshot;
use hls_live::LiveLine;
use hls_places_laws::Place;

/// Where a time is in a live line.
#[derive(Clone, Copy, Debug, PartialEq, Eq, Drop)]
pub enum StartTime {
    /// In a kept segment; this is the number of kept segments before it.
    Kept(u64),
    /// Before the kept segments, after others were removed.
    Removed,
    /// Before the first segment.
    Before,
    /// No segment at the time is known yet: the segment after it isn't closed, or the line ended before it.
    After,
}

/// Returns the time of a place: its start in rendition 0, in microseconds.
fn time_of(place: &Place) -> u64
    ensures { result ≡ time_of place.now }
{
    place.spots.get_or_zero(0).start
}

/// Returns how many of the first segments start at a time or before it. Looks at the segments of the live window up to that time.
#[tactic(auto, using(crate::proofs::StartCounts::started_stops, crate::proofs::StartCounts::started_more, crate::proofs::StartCounts::started_all))]
fn count_started(line: &LiveLine, us: u64) -> u64
    ensures value { result ≡ spec.count_started us (segments_of line.now) }
    ensures few { result ≤ length (segments_of line.now) }
{
    let _ = first_number(line); // the proof needs that the segments' numbers fit
    let mut walk = iter_segments_from(line, 0);
    let mut count = 0;
    while let Some(segment) = next_segment(&mut walk) {
        if time_of(&segment.from) > us {
            return count;
        }
        count += 1;
    }
    count
}

/// Whether the last segment ends after a time.
fn ends_after(line: &LiveLine, us: u64) -> bool
    ensures { result ≡ spec.ends_after us (segments_of line.now) }
{
    let segments = line.segments();
    if segments.next() == segments.first() {
        return false;
    }
    match segments.get(segments.next() - 1) {
        Some(last) => us < time_of(&last.to),
        None => false,
    }
}

/// Whether the last of the segments that started is the one at the time: another one follows, or the line ended after the time.
fn is_known(line: &LiveLine, us: u64, count: u64) -> bool
    ensures { result ≡ spec.is_known us line.now count }
{
    let segments = line.segments();
    if count < segments.next() - segments.first() {
        return true;
    }
    line.ended() && ends_after(line, us)
}

/// Whether the line begins at a time or before it.
fn is_begun_by(line: &LiveLine, us: u64) -> bool
    ensures { result ≡ spec.is_begun_by us (front_of line.now) }
{
    match line.front() {
        Some(front) => time_of(front) <= us,
        None => false,
    }
}

/// Returns where a time, in microseconds, is in the live line of a snapshot.
pub fn find_start(snapshot: &Snapshot, us: u64) -> StartTime
    ensures value { result ≡ spec.start_in us (line snapshot.now) }
    ensures within { spec.IsWithin result (length (segments_of (line snapshot.now))) }
{
    let line = snapshot.line();
    let count = count_started(line, us);
    if count > 0 {
        if is_known(line, us, count) {
            return StartTime::Kept(count - 1);
        }
        return StartTime::After;
    }
    if line.removed() > 0 {
        return StartTime::Removed;
    }
    if is_begun_by(line, us) {
        return StartTime::After;
    }
    StartTime::Before
}
