//! The segments of a plan in one rendition.

ghost use Rattle.std.specs.Prelude.{◌≡◌, ◌+◌, ◌<◌, ◌≤◌, ◌^◌, length, All, IfOk};
ghost use Rattle.hls_check_tables.specs.Tables.{spot_in, place_at};
ghost use Rattle.hls_core_laws.specs.Config.{IsEpoch};
ghost use Rattle.hls_playlists_laws.specs.JobResource.{bytes_between};
ghost use Rattle.hls_playlists_laws.specs.Segments.{is_break, date_at, segment_between, plan_segments};
ghost use Rattle.hls_playlists_laws.specs.JobPlaylists.{job_layout};
ghost use Rattle.hls_playlists.specs.MediaUris.{HasRange};

use bytes::ByteStr;
use hls_check_tables::{PlaceTable, Spots};
use hls_m3u8::{ByteRange, MediaSegment};
use hls_record::Recording;
use std::alloc::{AllocError, Global};

/// Returns the number of bytes of the units from number `from` to the one before `to`; 0 if `to` isn't above `from`.
#[tactic(auto, using(crate::proofs::Offsets::bytes_are_offsets))]
pub fn bytes_between(recording: &Recording, from: u64, to: u64) -> u64
    ensures value { result ≡ bytes_between recording.now.facts from to }
    ensures bound { result ≤ 2 ^ 40 }
{
    recording.offset(to).saturating_sub(recording.offset(from))
}

/// Whether there is a gap just before the place in some rendition.
pub fn is_break(place: &Spots) -> bool
    ensures { result ≡ is_break place.now }
{
    place
        .as_slice()
        .iter()
        .any(|spot| spot.run_in != spot.run_out)
}

/// Returns the instant of a time, rounded down to whole milliseconds; `None` without an epoch, which is the instant of time 0. Instants
/// are in microseconds since 1970-01-01T00:00:00Z, times in microseconds.
fn date_at(epoch: Option<i64>, us: u64) -> Option<i64>
    requires epoch { IsEpoch epoch }
    requires time { us < 2 ^ 53 }
    ensures { result ≡ date_at epoch us }
{
    let moment = epoch? + us as i64;
    Some(moment.div_euclid(1000) * 1000)
}

/// Makes the segment from one place to another in a rendition, with the date of its start (RFC 8216 section 4.3.2.6) if there is an
/// epoch, and its range of a resource that has the recording's init section and then the units from number `first` on.
pub fn segment_between(
    recording: &Recording,
    epoch: Option<i64>,
    rendition: usize,
    uri: ByteStr,
    first: u64,
    mark: bool,
    from: &Spots,
    to: &Spots,
) -> MediaSegment
    requires epoch { IsEpoch epoch }
    requires start { (spot_in from.now rendition).start < 2 ^ 53 }
    ensures value { result ≡ segment_between (job_layout epoch recording.now rendition uri first) mark from.now to.now }
    ensures range { HasRange result.range }
{
    let from = from.get_or_zero(rendition);
    let to = to.get_or_zero(rendition);
    let range = ByteRange {
        length: bytes_between(recording, from.fragment, to.fragment),
        offset: recording.offset(0) + bytes_between(recording, first, from.fragment),
    };
    MediaSegment {
        mark,
        date: date_at(epoch, from.start),
        us: to.prev_end.saturating_sub(from.start),
        range: Some(range),
        uri,
    }
}

/// Makes the segments of a plan in a rendition, one per step: their ranges are in a resource that has the recording's init section
/// and then the units from number `first` on, and their dates are from the epoch, if there is one.
#[tactic(auto, using(crate::proofs::Places::start_small))]
pub fn make_plan_segments(
    alloc: Global,
    recording: &Recording,
    epoch: Option<i64>,
    rendition: usize,
    uri: &ByteStr,
    first: u64,
    table: &PlaceTable,
    plan: &[usize],
) -> Result<Vec<MediaSegment>, AllocError>
    requires epoch { IsEpoch epoch }
    requires plan { All (λ p. p < length table.now.places) plan.now }
    ensures { IfOk result (λ v. v.items ≡ plan_segments (job_layout epoch recording.now rendition uri.now first) table.now.places plan.now) }
{
    let _ = table.len(); // the proof needs that the table is well formed
    let mut segments = Vec::new(alloc);
    let Some((start, rest)) = plan.split_first() else {
        return Ok(segments);
    };
    let mut from = *start;
    let mut mark = false;
    for to in rest {
        let start = table.place(from);
        let end = table.place(*to);
        segments.push(segment_between(
            recording,
            epoch,
            rendition,
            uri.clone()?,
            first,
            mark,
            start,
            end,
        ))?;
        from = *to;
        mark = is_break(end);
    }
    Ok(segments)
}
