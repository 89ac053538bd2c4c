//! The playlists of an answer.

ghost use Rattle.std.specs.Prelude.{◌≡◌, ◌<◌, length, map, All, IfOk};
ghost use Rattle.hls_record.specs.IsRecorded.{IsRecorded};
ghost use Rattle.hls_core_laws.specs.Config.{IsEpoch};
ghost use Rattle.hls_m3u8.specs.Playlist.{playlist_of};
ghost use Rattle.hls_playlists_laws.specs.JobPlaylists.{job_list, job_lists};

use crate::resource_uri::resource_uri;
use crate::segments::make_plan_segments;
use hls_check_tables::PlaceTable;
use hls_m3u8::MediaPlaylist;
use hls_record::Recording;
use std::alloc::{AllocError, Global};

/// Makes the VOD playlist of one rendition, with the plan's steps as its segments (RFC 8216 4.3.3.5).
#[tactic(auto, using(crate::proofs::Places::place_long))]
fn make_job_list(
    alloc: Global,
    recording: &Recording,
    epoch: Option<i64>,
    rendition: usize,
    table: &PlaceTable,
    plan: &[usize],
) -> Result<MediaPlaylist, AllocError>
    requires epoch { IsEpoch epoch }
    requires rendition { rendition < table.now.renditions }
    requires plan { All (λ p. p < length table.now.places) plan.now }
    ensures list { IfOk result (λ list. playlist_of list ≡ job_list epoch recording.now rendition table.now plan.now) }
    ensures valid { IsRecorded recording.now }
{
    let _ = recording.count(); // the proof needs that the recording is well formed
    let _ = table.len(); // the proof needs that the table is well formed
    let uri = resource_uri(alloc, "", rendition)?;
    let first = table.place(0).get(rendition).fragment;
    let segments = make_plan_segments(
        alloc, recording, epoch, rendition, &uri, first, table, plan,
    )?;
    let init_length = recording.init_section_bytes().len() as u64;
    Ok(MediaPlaylist::vod(table.target(), uri, init_length, segments))
}

/// Makes one playlist for each rendition, in order.
pub fn make_job_lists(
    alloc: Global,
    recordings: &[&Recording],
    epoch: Option<i64>,
    table: &PlaceTable,
    plan: &[usize],
) -> Result<Vec<MediaPlaylist>, AllocError>
    requires epoch { IsEpoch epoch }
    requires renditions { length recordings.now ≡ table.now.renditions }
    requires plan { All (λ p. p < length table.now.places) plan.now }
    ensures lists { IfOk result (λ lists. map playlist_of lists.items ≡ job_lists epoch 0 (map (λ r. r.now) recordings.now) table.now plan.now) }
    ensures valid { IfOk result (λ lists. All (λ r. IsRecorded r.now) recordings.now) }
{
    let mut lists = Vec::new(alloc);
    for (rendition, recording) in recordings.iter().enumerate() {
        lists.push(make_job_list(alloc, recording, epoch, rendition, table, plan)?)?;
    }
    Ok(lists)
}
