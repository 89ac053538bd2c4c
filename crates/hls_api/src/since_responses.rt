//! Responses with the playlists that start at a time and only grow.

ghost use Rattle.std.specs.Prelude.{◌≡◌, IfOk, length};
ghost use Rattle.hls_core_laws.specs.Line.{line};
ghost use Rattle.hls_places_laws.specs.Line.Live.{segments_of};
ghost use Rattle.hls_playlists.specs.StartTimes.{IsWithin, start_in};
ghost use Rattle.hls_api.specs.SinceLists as spec;

use crate::catchup_query::TimePoint;
use crate::job_responses::query_response;
use crate::playlist_responses::{optional_playlist_response, playlist_response};
use crate::programme_responses::has_begun_by;
use crate::query::resolve_time;
use crate::response::Response;
use crate::response_content::ResponseContent;
use crate::route::SinceFile;
use crate::text_responses::{fault_response, refusal_response};
use hls_catchup::CatchFault;
use hls_core::snapshot::Snapshot;
use hls_http::fault::HttpFault;
use hls_http::response_parts::{CachePolicy, Status};
use hls_m3u8::PlaylistKind;
use hls_players_master::players_master;
use hls_playlists::{LivePlaylistWriter, MediaUris, StartTime, find_start};
use std::alloc::{AllocError, Global};
use std::sync::Arc;

/// A rendition's live playlist without its first `left_out` segments, as one that only grows.
fn since_list_response(
    alloc: Global,
    snapshot: Arc<Snapshot>,
    left_out: u64,
    rendition: usize,
) -> Result<Response, AllocError>
    requires { IsWithin (StartTime.Kept left_out) (length (segments_of (line snapshot.value))) }
    ensures { IfOk result (λ a. a ≡ spec.since_file_answer (StartTime.Kept left_out) snapshot.value (SinceFile.List rendition)) }
{
    let text = LivePlaylistWriter::new_shortened(
        alloc,
        snapshot,
        rendition,
        MediaUris::PathsAbove,
        left_out,
        Some(PlaylistKind::Event),
    )?;
    match text {
        Some(text) => Ok(playlist_response(ResponseContent::from_playlist(alloc, text)?)),
        None => fault_response(alloc, HttpFault::NotFound),
    }
}

/// A file of the playlists without the first `left_out` segments.
fn since_file_response(
    alloc: Global,
    snapshot: Arc<Snapshot>,
    left_out: u64,
    file: SinceFile,
) -> Result<Response, AllocError>
    requires { IsWithin (StartTime.Kept left_out) (length (segments_of (line snapshot.value))) }
    ensures { IfOk result (λ a. a ≡ spec.since_file_answer (StartTime.Kept left_out) snapshot.value file) }
{
    match file {
        SinceFile::Master => {
            optional_playlist_response(alloc, players_master(alloc, &snapshot, false)?)
        }
        SinceFile::List(rendition) => since_list_response(alloc, snapshot, left_out, rendition),
    }
}

/// That a time has no segment, by the refusal's name.
fn not_found_response(alloc: Global, fault: CatchFault) -> Result<Response, AllocError>
    ensures { IfOk result (λ a. a ≡ spec.not_found_answer fault) }
{
    refusal_response(alloc, Status::NotFound, fault.name())
}

/// That the segment at a time was removed, or that the time precedes the recording.
fn removed_response(alloc: Global, snapshot: &Snapshot, us: u64) -> Result<Response, AllocError>
    ensures { IfOk result (λ a. a ≡ spec.removed_answer snapshot.now us) }
{
    if has_begun_by(snapshot, us) {
        return fault_response(alloc, HttpFault::Gone);
    }
    not_found_response(alloc, CatchFault::BeforeRecording)
}

/// Why no segment at a time is known yet, or ever.
fn later_fault(snapshot: &Snapshot) -> CatchFault
    ensures { result ≡ spec.later_fault snapshot.now }
{
    if snapshot.line().ended() {
        CatchFault::AfterRecording
    } else {
        CatchFault::NotYet
    }
}

/// A file of the playlists that start at a time, in microseconds.
fn started_response(
    alloc: Global,
    snapshot: Arc<Snapshot>,
    us: u64,
    file: SinceFile,
) -> Result<Response, AllocError>
    ensures { IfOk result (λ a. a ≡ spec.since_start_answer us snapshot.value file (start_in us (line snapshot.value))) }
{
    match find_start(&snapshot, us) {
        StartTime::Kept(left_out) => since_file_response(alloc, snapshot, left_out, file),
        StartTime::Removed => removed_response(alloc, &snapshot, us),
        StartTime::Before => not_found_response(alloc, CatchFault::BeforeRecording),
        StartTime::After => not_found_response(alloc, later_fault(&snapshot)),
    }
}

/// A file of the playlists that start with the segment at a time and only grow: 410 once that segment was removed, 404 with the
/// refusal's name if no segment at the time is known yet, or ever, and 400 for an instant that the channel doesn't have.
pub fn since_response(
    alloc: Global,
    snapshot: Arc<Snapshot>,
    start: TimePoint,
    file: SinceFile,
) -> Result<Response, AllocError>
    ensures { IfOk result (λ a. a ≡ spec.since_answer snapshot.value start file) }
{
    let made = match resolve_time(snapshot.config().epoch(), start) {
        Ok(us) => started_response(alloc, snapshot, us, file)?,
        Err(fault) => query_response(alloc, fault)?,
    };
    Ok(made.with_policy(CachePolicy::Brief))
}
