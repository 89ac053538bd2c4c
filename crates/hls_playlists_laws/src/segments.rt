//! Laws of the segments of a plan. Each function has no body: its contract is the law.

ghost use Rattle.hls_playlists_laws.specs.SegmentLaws.{SegmentsTileTheUnits, SegmentsAreGood, SegmentsAreDated, SegmentsAreUndated};

/// Whatever plan a table is cut by, the bytes of the segments, joined, are exactly the units of the programme, each once.
pub fn segments_tile_the_units()
    ensures { SegmentsTileTheUnits }
{}

/// The segments of a table's plan fit the target duration, and they can be written.
pub fn segments_are_good()
    ensures { SegmentsAreGood }
{}

/// If there is an epoch, the date of each segment of a plan (RFC 8216 section 4.3.2.6) is the instant of its start, rounded down to
/// whole milliseconds.
pub fn segments_are_dated()
    ensures { SegmentsAreDated }
{}

/// Without an epoch, no segment has a date.
pub fn segments_are_undated()
    ensures { SegmentsAreUndated }
{}
