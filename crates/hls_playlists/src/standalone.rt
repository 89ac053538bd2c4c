//! Calls that no program makes, for uses of this crate alone: a live playlist as a value. It is built from what the program runs: the
//! segments of `LivePlaylistWriter`.

ghost use Rattle.std.specs.Prelude.{◌≡◌, IfOk, ◌<◌, ◌^◌, map, All};
ghost use Rattle.std.specs.Option.{option_map};
ghost use Rattle.hls_check_tables.specs.Tables.{spot_in};
ghost use Rattle.hls_places_laws.specs.Line.Live.{segments_of};
ghost use Rattle.hls_m3u8.specs.Playlist.{playlist_of};
ghost use Rattle.hls_core_laws.specs.Config.{IsEpoch};
ghost use Rattle.hls_core_laws.specs.IsState.{IsState};
ghost use Rattle.hls_playlists_laws.specs.Live.{live_media_segment, live_list_of};
ghost use Rattle.hls_playlists_laws.specs.JobPlaylists.{job_layout};

use crate::live_writer::{find_listed_recording, make_live_playlist, make_media_segment};
use crate::resource_uri::resource_uri;
use crate::segment_iterator::{iter_segments_from, next_segment};
use bytes::ByteStr;
use hls_core::snapshot::Snapshot;
use hls_live::LiveLine;
use hls_m3u8::{MediaPlaylist, MediaSegment};
use hls_record::Recording;
use std::alloc::{AllocError, Global};

/// Returns the live playlist of a rendition (RFC 8216 section 6.2.2): the segments that the live line keeps, with ranges in the
/// rendition's recording, and how many segments and marks left its front. `None` before a segment was closed, and if the channel has no
/// such rendition. A returned playlist can be written.
pub fn live_playlist(
    alloc: Global,
    snapshot: &Snapshot,
    rendition: usize,
) -> Result<Option<MediaPlaylist>, AllocError>
    ensures list { IfOk result (λ found. option_map playlist_of found ≡ live_list_of snapshot.now rendition) }
    ensures valid { IsState snapshot.now }
{
    let Some(recording) = find_listed_recording(snapshot, rendition) else {
        return Ok(None);
    };
    let uri = resource_uri(alloc, "/media/", rendition)?;
    let epoch = snapshot.config().epoch();
    let segments = make_live_segments(alloc, recording, epoch, rendition, &uri, snapshot.line())?;
    Ok(Some(make_live_playlist(snapshot, recording, uri, segments)))
}

/// Makes the kept segments of the live line in one rendition, with ranges in its recording.
fn make_live_segments(
    alloc: Global,
    recording: &Recording,
    epoch: Option<i64>,
    rendition: usize,
    uri: &ByteStr,
    line: &LiveLine,
) -> Result<Vec<MediaSegment>, AllocError>
    requires epoch { IsEpoch epoch }
    requires starts { All (λ s. (spot_in s.from.spots rendition).start < 2 ^ 53) (segments_of line.now) }
    ensures { IfOk result (λ v. v.items ≡ map (live_media_segment (job_layout epoch recording.now rendition uri.now 0)) (segments_of line.now)) }
{
    let mut list = Vec::new(alloc);
    let mut walk = iter_segments_from(line, 0);
    while let Some(segment) = next_segment(&mut walk) {
        list.push(make_media_segment(recording, epoch, rendition, uri, segment)?)?;
    }
    Ok(list)
}
