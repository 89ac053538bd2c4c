//! Playlists of a channel and of a job, and their texts. The channel has three units of 4 s; two of them are live segments, since
//! more may come.

use crate::jobs::REQUEST;
use hls_catchup::{CatchFault, Reply, answer, table_of};
use hls_core::snapshot::Snapshot;
use hls_fakes::CallOutcome;
use hls_m3u8::{MasterPlaylist, MediaPlaylist, MediaSegment, write_master, write_media};
use hls_playlists::{job_master, live_master, live_playlist};
use hls_sample_channels::{SECOND, THREE_UNITS, end_channel_with_retry, record_channel_with_retry};
use std::alloc::{AllocError, Global};
use std::sync::Arc;

fn live() -> &'static [u8] {
    b"#EXTM3U\n#EXT-X-VERSION:6\n#EXT-X-TARGETDURATION:6\n#EXT-X-MEDIA-SEQUENCE:0\n#EXT-X-DISCONTINUITY-SEQUENCE:0\n#EXT-X-MAP:URI=\"/media/0.mp4\",BYTERANGE=\"600@0\"\n#EXTINF:4.000000,\n#EXT-X-BYTERANGE:1000@600\n/media/0.mp4\n#EXTINF:4.000000,\n#EXT-X-BYTERANGE:1000@1600\n/media/0.mp4\n"
}

fn master() -> &'static [u8] {
    b"#EXTM3U\n#EXT-X-VERSION:6\n#EXT-X-STREAM-INF:BANDWIDTH=3000000\n/live/0.m3u8\n"
}

/// Whether it is a segment of 4 s whose bytes begin at this offset.
fn is_segment(segment: &MediaSegment, offset: u64) -> bool {
    match segment.range {
        Some(bytes) => segment.us == 4 * SECOND && bytes.length == 1000 && bytes.offset == offset,
        None => false,
    }
}

fn are_live(segments: &[MediaSegment]) -> bool {
    match segments {
        [first, second] => is_segment(first, 600) && is_segment(second, 1600),
        _ => false,
    }
}

fn is_live(list: &MediaPlaylist) -> bool {
    list.target == 6
        && list.media_sequence == 0
        && !list.ended
        && are_live(list.segments.as_slice())
}

/// Whether the channel is unchanged.
fn is_unchanged(state: &Snapshot) -> bool {
    state.version() == 4 && state.line().segments().next() == 2
}

pub fn outcome_of_list(alloc: Global, state: &Snapshot) -> CallOutcome {
    let outcome = match live_playlist(alloc, state, 0) {
        Ok(Some(list)) => CallOutcome::from_answer(is_live(&list)),
        Ok(None) => CallOutcome::Wrong,
        Err(_) => CallOutcome::OutOfMemory,
    };
    outcome.require_unchanged(is_unchanged(state))
}

/// Writes the text of a rendition's live playlist.
fn live_text(
    alloc: Global,
    snapshot: &Snapshot,
    rendition: usize,
) -> Result<Option<Vec<u8>>, AllocError> {
    match live_playlist(alloc, snapshot, rendition)? {
        Some(list) => Ok(Some(write_media(alloc, &list)?)),
        None => Ok(None),
    }
}

pub fn outcome_of_text(alloc: Global, state: &Snapshot) -> CallOutcome {
    let outcome = match live_text(alloc, state, 0) {
        Ok(Some(text)) => CallOutcome::from_answer(text.as_slice() == live()),
        Ok(None) => CallOutcome::Wrong,
        Err(_) => CallOutcome::OutOfMemory,
    };
    outcome.require_unchanged(is_unchanged(state))
}

fn is_master(list: &MasterPlaylist, uri: &str) -> bool {
    match list.variants.as_slice() {
        [only] => {
            list.audio.is_empty() && only.bandwidth == 3_000_000 && only.uri.as_str() == uri
        }
        _ => false,
    }
}

pub fn outcome_of_master(alloc: Global, state: &Snapshot) -> CallOutcome {
    let outcome = match live_master(alloc, state) {
        Ok(list) => CallOutcome::from_answer(is_master(&list, "/live/0.m3u8")),
        Err(_) => CallOutcome::OutOfMemory,
    };
    outcome.require_unchanged(is_unchanged(state))
}

/// The outcome of writing the playlist's text, which leaves the playlist unchanged.
pub fn outcome_of_written(alloc: Global, list: &MasterPlaylist) -> CallOutcome {
    let outcome = match write_master(alloc, list) {
        Ok(text) => CallOutcome::from_answer(text.as_slice() == master()),
        Err(_) => CallOutcome::OutOfMemory,
    };
    outcome.require_unchanged(is_master(list, "/live/0.m3u8"))
}

pub fn outcome_of_master_text(alloc: Global, state: &Snapshot) -> CallOutcome {
    let outcome = match live_master(alloc, state) {
        Ok(list) => outcome_of_written(alloc, &list),
        Err(_) => CallOutcome::OutOfMemory,
    };
    outcome.require_unchanged(is_unchanged(state))
}

#[test]
fn out_of_memory_then_lists_the_channel_again(rt: HostRuntime) {
    let alloc = rt.alloc();
    let state = record_channel_with_retry(alloc, &THREE_UNITS).expect(&rt, "a channel");
    assert!(rt; outcome_of_list(alloc, &state).is_consistent_with(outcome_of_list(alloc, &state)));
    assert!(rt;
        outcome_of_master(alloc, &state).is_consistent_with(outcome_of_master(alloc, &state))
    );
}

#[test]
fn out_of_memory_then_writes_playlists_again(rt: HostRuntime) {
    let alloc = rt.alloc();
    let state = record_channel_with_retry(alloc, &THREE_UNITS).expect(&rt, "a channel");
    assert!(rt; outcome_of_text(alloc, &state).is_consistent_with(outcome_of_text(alloc, &state)));
    assert!(rt;
        outcome_of_master_text(alloc, &state).is_consistent_with(outcome_of_master_text(
            alloc, &state
        ))
    );
}

/// The outcome of the table that answers the request.
pub fn outcome_of_table(alloc: Global, state: &Snapshot) -> CallOutcome {
    let outcome = match table_of(alloc, state, REQUEST) {
        Ok(table) => CallOutcome::from_answer(table.len() == 4),
        Err(CatchFault::Memory) => CallOutcome::OutOfMemory,
        Err(_) => CallOutcome::Wrong,
    };
    outcome.require_unchanged(state.version() == 5)
}

pub fn answer_with_retry(alloc: Global, state: &Arc<Snapshot>) -> Option<Reply> {
    match answer(alloc, state, REQUEST) {
        Ok(reply) => Some(reply),
        Err(_) => answer(alloc, state, REQUEST).ok(),
    }
}

/// The outcome of the master playlist of a reply.
pub fn outcome_of_job_master(alloc: Global, reply: &Reply) -> CallOutcome {
    match job_master(alloc, reply.snapshot()) {
        Ok(list) => CallOutcome::from_answer(is_master(&list, "0.m3u8")),
        Err(_) => CallOutcome::OutOfMemory,
    }
}

#[test]
fn out_of_memory_then_lists_the_job_again(rt: HostRuntime) {
    let alloc = rt.alloc();
    let state = end_channel_with_retry(alloc, &THREE_UNITS).expect(&rt, "a channel");
    let first = outcome_of_table(alloc, &state);
    assert!(rt; first.is_consistent_with(outcome_of_table(alloc, &state)));
    let reply = answer_with_retry(alloc, &state).expect(&rt, "a reply");
    let first = outcome_of_job_master(alloc, &reply);
    assert!(rt; first.is_consistent_with(outcome_of_job_master(alloc, &reply)));
}
