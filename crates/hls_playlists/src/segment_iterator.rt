//! Iterators over the segments of a live line. All iterations of this crate call these, so the generic iterator of lists is called only
//! here.

ghost use Rattle.std.specs.Prelude.{◌≡◌, ◌+◌, ◌<◌, ◌≤◌, ◌^◌, drop, length};
ghost use Rattle.std.specs.Map.Iter.{TakesFirst, deref};
ghost use Rattle.hls_places_laws.specs.Line.Live.{segments_of};

use hls_blocks::Iter;
use hls_live::{LiveLine, LiveSegment};

/// Iterates over the segments after the first `n`.
pub fn iter_segments_from(line: &LiveLine, n: u64) -> Iter<'_, LiveSegment>
    requires { n ≤ length (segments_of line.now) }
    ensures { result ≡ drop n (segments_of line.now) }
{
    let segments = line.segments();
    let _ = segments.next(); // the proof needs that the segments' numbers fit
    segments.iter_from(segments.first() + n)
}

/// Returns the number of the first segment.
pub fn first_number(line: &LiveLine) -> u64
    ensures value { result ≡ line.now.removed }
    ensures fits { result + length (segments_of line.now) < 2 ^ 64 }
{
    let segments = line.segments();
    let _ = segments.next(); // the proof needs that the segments' numbers fit
    segments.first()
}

/// Returns the next segment of an iteration.
pub fn next_segment<'a>(walk: &mut Iter<'a, LiveSegment>) -> Option<&'a LiveSegment>
    ensures { TakesFirst deref walk.old result walk.new }
{
    walk.next()
}
