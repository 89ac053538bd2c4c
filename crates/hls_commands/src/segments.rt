//! The segments from each place to the next.

ghost use Rattle.std.specs.Prelude.{◌≡◌, All, IfOk};
ghost use Rattle.hls_check_tables.specs.Tables.{IsPlaceOf};
ghost use Rattle.hls_places_laws.specs.Order.{spots_of};
ghost use Rattle.hls_core_laws.specs.Config.{IsEpoch};
ghost use Rattle.hls_commands.specs.Each.{consecutive_segments};

use crate::iterators::iter_places;
use bytes::ByteStr;
use hls_blocks::Shared;
use hls_catchup::next_place;
use hls_m3u8::MediaSegment;
use hls_places::Place;
use hls_playlists::{is_break, segment_between};
use hls_record::Recording;
use std::alloc::{AllocError, Global};

/// Makes the segments from each place to the next. Each except the first has a mark if there is a gap just before its start (RFC 8216
/// section 4.3.2.3).
pub fn make_consecutive_segments(
    alloc: Global,
    recording: &Recording,
    epoch: Option<i64>,
    uri: &ByteStr,
    places: &Shared<Place>,
) -> Result<Vec<MediaSegment>, AllocError>
    requires epoch { IsEpoch epoch }
    requires first { places.now.first ≡ 0 }
    requires single { All (IsPlaceOf 1) (spots_of places.now.items) }
    ensures { IfOk result (λ v. v.items ≡ consecutive_segments epoch recording.now uri.now (spots_of places.now.items)) }
{
    let mut segments = Vec::new(alloc);
    let mut walk = iter_places(places);
    let Some(first) = next_place(&mut walk) else {
        return Ok(segments);
    };
    let mut from = first;
    let mut mark = false;
    while let Some(to) = next_place(&mut walk) {
        segments.push(segment_between(
            recording,
            epoch,
            0,
            uri.clone()?,
            0,
            mark,
            &from.spots,
            &to.spots,
        ))?;
        from = to;
        mark = is_break(&to.spots);
    }
    Ok(segments)
}
