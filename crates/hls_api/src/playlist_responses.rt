//! Responses with playlists.

ghost use Rattle.std.specs.Prelude.{◌≡◌, IfOk, option_copied, option_map};
ghost use Rattle.hls_api.specs.{Responses.playlist_answer, Playlists.live_master_text, ResponseContents.content_of};
ghost use Rattle.hls_api.specs.Responses as spec;
ghost use Rattle.hls_api.specs.Players.{list_policy, live_list_answer, path_master_answer, recent_list_answer, run_answer, with_policy};

use crate::response::Response;
use crate::response_content::ResponseContent;
use crate::text_responses::{fault_response, text_response};
use bytes::Bytes;
use hls_core::snapshot::Snapshot;
use hls_http::fault::HttpFault;
use hls_http::response_parts::{CachePolicy, ContentType, ExtraField, Status};
use hls_m3u8::write_master;
use hls_players_master::players_master;
use hls_playlists::recent_list::write_recent_list;
use hls_playlists::{LivePlaylistWriter, MediaUris, live_master};
use std::alloc::{AllocError, Global};
use std::sync::Arc;

pub(crate) fn playlist_response(content: ResponseContent) -> Response
    ensures { result ≡ playlist_answer (content_of content) }
{
    Response::from_content(
        Status::Done,
        ContentType::Playlist,
        ExtraField::Nothing,
        content,
    )
}

/// A playlist; 404 if there is none.
pub(crate) fn optional_playlist_response(
    alloc: Global,
    text: Option<Vec<u8>>,
) -> Result<Response, AllocError>
    ensures { IfOk result (λ a. a ≡ spec.list_answer (option_map (λ t. t.items) text)) }
{
    match text {
        Some(text) => Ok(playlist_response(ResponseContent::from_text(text))),
        None => fault_response(alloc, HttpFault::NotFound),
    }
}

/// A playlist that is shared; 404 if there is none.
pub(crate) fn shared_playlist_response(
    alloc: Global,
    text: Option<&Bytes>,
) -> Result<Response, AllocError>
    ensures { IfOk result (λ a. a ≡ spec.list_answer (option_copied text.entry)) }
{
    match text {
        Some(text) => Ok(playlist_response(ResponseContent::from_shared(text.clone()?))),
        None => fault_response(alloc, HttpFault::NotFound),
    }
}

/// The live playlist of a rendition, which may be partly written; 404 before a segment was closed.
pub fn live_playlist_response(
    alloc: Global,
    snapshot: Arc<Snapshot>,
    rendition: usize,
    uris: MediaUris,
) -> Result<Response, AllocError>
    ensures { IfOk result (λ a. a ≡ live_list_answer uris snapshot.value rendition) }
{
    let Some(text) = LivePlaylistWriter::new(alloc, snapshot, rendition, uris)? else {
        let missing = fault_response(alloc, HttpFault::NotFound)?;
        return Ok(with_list_policy(missing, uris));
    };
    let made = playlist_response(ResponseContent::from_playlist(alloc, text)?);
    Ok(with_list_policy(made, uris))
}

/// Returns a response with a live playlist, or that there is none; caches keep one by paths for a second.
pub(crate) fn with_list_policy(response: Response, uris: MediaUris) -> Response
    ensures { result ≡ with_policy (list_policy uris response.policy) response }
{
    match uris {
        MediaUris::Ranges => response,
        MediaUris::Paths | MediaUris::PathsAbove => response.with_policy(CachePolicy::Brief),
    }
}

/// The live playlist by paths of a rendition, which shows at least `us` microseconds; 404 before the first segment is closed. It is short,
/// so its text isn't kept for the next request.
pub fn recent_playlist_response(
    alloc: Global,
    snapshot: Arc<Snapshot>,
    rendition: usize,
    us: u64,
) -> Result<Response, AllocError>
    ensures { IfOk result (λ a. a ≡ recent_list_answer us snapshot.value rendition) }
{
    let made = match write_recent_list(alloc, snapshot, rendition, us)? {
        Some(text) => playlist_response(ResponseContent::from_playlist(alloc, text)?),
        None => fault_response(alloc, HttpFault::NotFound)?,
    };
    Ok(made.with_policy(CachePolicy::Brief))
}

/// The master playlist of the playlists by paths; 404 before each rendition has its init section.
pub fn path_master_response(alloc: Global, snapshot: &Snapshot) -> Result<Response, AllocError>
    ensures { IfOk result (λ a. a ≡ path_master_answer snapshot.now) }
{
    let text = players_master(alloc, snapshot, false)?;
    let response = optional_playlist_response(alloc, text)?;
    Ok(response.with_policy(CachePolicy::Brief))
}

/// The name of the channel's run, in a line.
pub fn run_response(alloc: Global, snapshot: &Snapshot) -> Result<Response, AllocError>
    ensures { IfOk result (λ a. a ≡ run_answer snapshot.now) }
{
    let mut text = Vec::from_slice(alloc, snapshot.config().base().run_name())?;
    text.push(b'\n')?;
    let response = text_response(Status::Done, text);
    Ok(response.with_policy(CachePolicy::Revalidate))
}

/// The master playlist of the live playlists.
pub fn live_master_response(alloc: Global, snapshot: &Snapshot) -> Result<Response, AllocError>
    ensures { IfOk result (λ a. a ≡ playlist_answer (live_master_text snapshot.now)) }
{
    let list = live_master(alloc, snapshot)?;
    let text = write_master(alloc, &list)?;
    Ok(playlist_response(ResponseContent::from_text(text)))
}
