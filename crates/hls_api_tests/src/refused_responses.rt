//! Responses under allocation failures: the state is unchanged, and the same call again returns the expected response, and so does
//! its reply if the allocation of the reply's head failed.

use hls_api::catchup_query::{CatchupQuery, TimePoint};
use hls_api::ingest::IngestCounts;
use hls_api::route::Route;
use hls_api::{
    PlaylistCache, Response, SegmentSpan, fault_response, finish_response, ingest_refused_response,
    ingested_response, into_send_buffer, live_master_response, live_playlist_response,
    media_response, method_not_allowed_response, read_query, segment_response, status_response,
};
use hls_core::StreamFault;
use hls_core::snapshot::Snapshot;
use hls_core_laws::done::Done;
use hls_core_laws::refusal::Refusal;
use hls_fakes::sends_exactly;
use hls_http::fault::HttpFault;
use hls_http::range_spec::RangeSpec;
use hls_playlists::MediaUris;
use hls_sample_channels::{open_channel, with_units};
use std::alloc::{AllocError, Global};
use std::sync::Arc;

/// Records two units; more may come: one live segment.
pub fn record_two_units(alloc: Global) -> Option<Arc<Snapshot>> {
    let none = open_channel(alloc).ok()?;
    with_units(alloc, &none, 0, &[(0, 4), (4, 8)]).ok()
}

/// Records the same, and retries once if an allocation failed.
fn record_with_retry(alloc: Global) -> Option<Arc<Snapshot>> {
    match record_two_units(alloc) {
        Some(snapshot) => Some(snapshot),
        None => record_two_units(alloc),
    }
}

/// What is requested of the channel, or done with it.
#[derive(Clone, Copy)]
enum RequestCase {
    Status,
    Master,
    List,
    /// The playlist by paths. The channel's run has no name.
    PathList,
    /// A part of the segment.
    Segment,
    /// A segment of another run.
    OtherRun,
    /// The same playlist from the cache, requested once before.
    Cached,
    Part,
    Outside,
    Ingested,
    Refused,
    Finished,
    Full,
    Method,
    Unknown,
}

const COUNTS: IngestCounts = IngestCounts {
    inits: 1,
    units: 2,
    repeats: 0,
    mended: 0,
    filled: 0,
    dropped: 0,
};

fn part(alloc: Global, snapshot: &Arc<Snapshot>, asked: RangeSpec) -> Result<Response, AllocError> {
    media_response(alloc, Arc::try_clone(snapshot)?, 0, asked)
}

fn segment(
    alloc: Global,
    snapshot: &Arc<Snapshot>,
    run: [u8; 16],
    asked: RangeSpec,
) -> Result<Response, AllocError> {
    let span = SegmentSpan {
        first: 600,
        last: 1599,
    };
    segment_response(alloc, Arc::try_clone(snapshot)?, run, 0, span, asked)
}

fn cached_list_response(alloc: Global, snapshot: &Arc<Snapshot>) -> Result<Response, AllocError> {
    let mut lists = PlaylistCache::new(alloc);
    let _ = lists.get_or_render(Arc::try_clone(snapshot)?, 0, MediaUris::Ranges)?;
    lists.get_or_render(Arc::try_clone(snapshot)?, 0, MediaUris::Ranges)
}

fn response(
    alloc: Global,
    snapshot: &Arc<Snapshot>,
    case: RequestCase,
) -> Result<Response, AllocError> {
    match case {
        RequestCase::Status => status_response(alloc, snapshot, 0),
        RequestCase::Master => live_master_response(alloc, snapshot),
        RequestCase::List => {
            live_playlist_response(alloc, Arc::try_clone(snapshot)?, 0, MediaUris::Ranges)
        }
        RequestCase::PathList => {
            live_playlist_response(alloc, Arc::try_clone(snapshot)?, 0, MediaUris::Paths)
        }
        RequestCase::Segment => segment(alloc, snapshot, [0; 16], RangeSpec::Between(992, 2000)),
        RequestCase::OtherRun => segment(alloc, snapshot, [b'a'; 16], RangeSpec::All),
        RequestCase::Cached => cached_list_response(alloc, snapshot),
        RequestCase::Part => part(alloc, snapshot, RangeSpec::Between(0, 7)),
        RequestCase::Outside => part(alloc, snapshot, RangeSpec::From(2600)),
        RequestCase::Ingested => ingested_response(alloc, false, COUNTS),
        RequestCase::Refused => ingest_refused_response(
            alloc,
            StreamFault::Core(Refusal::RecordingFull),
            false,
            COUNTS,
        ),
        RequestCase::Finished => finish_response(alloc, Ok(Done::Repeat)),
        RequestCase::Full => finish_response(alloc, Err(Refusal::LedgerFull)),
        RequestCase::Method => method_not_allowed_response(alloc, Route::Status),
        RequestCase::Unknown => fault_response(alloc, HttpFault::NotFound),
    }
}

/// The outcome of a response.
#[derive(Clone, Copy, PartialEq, Eq)]
enum ResponseOutcome {
    /// It, or its reply's head, couldn't be allocated.
    OutOfMemory,
    /// Its reply is the expected one.
    Sent,
    /// Its reply is a different one.
    Wrong,
}

/// Makes a response's reply, to HEAD or to GET, which should be this one.
fn outcome_of(
    alloc: Global,
    snapshot: &Arc<Snapshot>,
    case: RequestCase,
    reply: &[u8],
    to_head: bool,
) -> ResponseOutcome {
    let Ok(response) = response(alloc, snapshot, case) else {
        return ResponseOutcome::OutOfMemory;
    };
    let Ok(output) = into_send_buffer(alloc, response, false, to_head) else {
        return ResponseOutcome::OutOfMemory;
    };
    if sends_exactly(output, reply) {
        ResponseOutcome::Sent
    } else {
        ResponseOutcome::Wrong
    }
}

/// Whether the second of two attempts returns the response if the first was out of memory, and neither returns another.
fn is_sent_with_retry(
    alloc: Global,
    snapshot: &Arc<Snapshot>,
    case: RequestCase,
    reply: &[u8],
    to_head: bool,
) -> bool {
    match outcome_of(alloc, snapshot, case, reply, to_head) {
        ResponseOutcome::Sent => true,
        ResponseOutcome::Wrong => false,
        ResponseOutcome::OutOfMemory => outcome_of(alloc, snapshot, case, reply, to_head)
            == ResponseOutcome::Sent,
    }
}

const LIST: &[u8] =
    b"HTTP/1.1 200 OK\r\nContent-Type: application/vnd.apple.mpegurl\r\nContent-Length: 210\r\n\r\n#EXTM3U\n#EXT-X-VERSION:6\n#EXT-X-TARGETDURATION:6\n#EXT-X-MEDIA-SEQUENCE:0\n#EXT-X-DISCONTINUITY-SEQUENCE:0\n#EXT-X-MAP:URI=\"/media/0.mp4\",BYTERANGE=\"600@0\"\n#EXTINF:4.000000,\n#EXT-X-BYTERANGE:1000@600\n/media/0.mp4\n";

/// Responses with their complete replies.
const CASES: [(RequestCase, &[u8]); 15] = [
    (
        RequestCase::PathList,
        b"HTTP/1.1 200 OK\r\nContent-Type: application/vnd.apple.mpegurl\r\nContent-Length: 168\r\nCache-Control: max-age=1\r\nAccess-Control-Allow-Origin: *\r\n\r\n#EXTM3U\n#EXT-X-VERSION:6\n#EXT-X-TARGETDURATION:6\n#EXT-X-MEDIA-SEQUENCE:0\n#EXT-X-DISCONTINUITY-SEQUENCE:0\n#EXT-X-MAP:URI=\"/0/init.mp4\"\n#EXTINF:4.000000,\n/0/600-1599.m4s\n",
    ),
    (
        RequestCase::Segment,
        b"HTTP/1.1 206 Partial Content\r\nContent-Type: video/mp4\r\nContent-Length: 8\r\nContent-Range: bytes 992-999/1000\r\nCache-Control: public, max-age=86400, immutable\r\nAccess-Control-Allow-Origin: *\r\n\r\n\xaa\xaa\xaa\xaa\xaa\xaa\xaa\xaa",
    ),
    (
        RequestCase::OtherRun,
        b"HTTP/1.1 404 Not Found\r\nContent-Type: text/plain\r\nContent-Length: 17\r\nCache-Control: no-cache\r\nAccess-Control-Allow-Origin: *\r\n\r\nrefused NotFound\n",
    ),
    (
        RequestCase::Status,
        b"HTTP/1.1 200 OK\r\nContent-Type: text/plain\r\nContent-Length: 47\r\n\r\nversion 3\nplaces 2\nsegments 1\nremoved 0\njobs 0\n",
    ),
    (
        RequestCase::Master,
        b"HTTP/1.1 200 OK\r\nContent-Type: application/vnd.apple.mpegurl\r\nContent-Length: 74\r\n\r\n#EXTM3U\n#EXT-X-VERSION:6\n#EXT-X-STREAM-INF:BANDWIDTH=3000000\n/live/0.m3u8\n",
    ),
    (RequestCase::List, LIST),
    (RequestCase::Cached, LIST),
    (
        RequestCase::Part,
        b"HTTP/1.1 206 Partial Content\r\nContent-Type: video/mp4\r\nContent-Length: 8\r\nContent-Range: bytes 0-7/2600\r\n\r\n\0\0\0\x10ftyp",
    ),
    (
        RequestCase::Outside,
        b"HTTP/1.1 416 Range Not Satisfiable\r\nContent-Type: text/plain\r\nContent-Length: 21\r\nContent-Range: bytes */2600\r\n\r\nrefused RangeOutside\n",
    ),
    (
        RequestCase::Ingested,
        b"HTTP/1.1 200 OK\r\nContent-Type: text/plain\r\nContent-Length: 29\r\n\r\ninit 1 accepted 2 repeated 0\n",
    ),
    (
        RequestCase::Refused,
        b"HTTP/1.1 507 Insufficient Storage\r\nContent-Type: text/plain\r\nContent-Length: 51\r\n\r\nrefused RecordingFull init 1 accepted 2 repeated 0\n",
    ),
    (
        RequestCase::Finished,
        b"HTTP/1.1 200 OK\r\nContent-Type: text/plain\r\nContent-Length: 9\r\n\r\nrepeated\n",
    ),
    (
        RequestCase::Full,
        b"HTTP/1.1 507 Insufficient Storage\r\nContent-Type: text/plain\r\nContent-Length: 19\r\n\r\nrefused LedgerFull\n",
    ),
    (
        RequestCase::Method,
        b"HTTP/1.1 405 Method Not Allowed\r\nContent-Type: text/plain\r\nContent-Length: 18\r\nAllow: GET, HEAD\r\n\r\nrefused BadMethod\n",
    ),
    (
        RequestCase::Unknown,
        b"HTTP/1.1 404 Not Found\r\nContent-Type: text/plain\r\nContent-Length: 17\r\n\r\nrefused NotFound\n",
    ),
];

#[test]
fn out_of_memory_changes_no_answer(rt: HostRuntime) {
    let alloc = rt.alloc();
    let snapshot = record_with_retry(alloc).expect(&rt, "a snapshot with two units");
    for (case, reply) in CASES {
        assert!(rt; is_sent_with_retry(alloc, &snapshot, case, reply, false));
    }
    assert_eq!(rt; snapshot.version(), 3);
}

/// Returns a reply's head, with the empty line at its end.
fn head_of(reply: &[u8]) -> &[u8] {
    for at in 0..reply.len() {
        if reply[at..].starts_with(b"\r\n\r\n") {
            return reply.get(..at.wrapping_add(4)).unwrap_or(b"");
        }
    }
    b""
}

#[test]
fn out_of_memory_to_head_has_no_body(rt: HostRuntime) {
    let alloc = rt.alloc();
    let snapshot = record_with_retry(alloc).expect(&rt, "a snapshot with two units");
    for (case, reply) in CASES {
        assert!(rt; is_sent_with_retry(alloc, &snapshot, case, head_of(reply), true));
    }
}

#[test]
fn out_of_memory_tells_nothing_of_a_query(rt: HostRuntime) {
    let alloc = rt.alloc();
    let query = b"fro%6d=%30&to=2024-01-01T00:00:00%2B00:00";
    let said = match read_query(alloc, query) {
        Ok(said) => said,
        Err(_) => read_query(alloc, query).ok().flatten(),
    };
    let asked = CatchupQuery {
        start: TimePoint::Time(0),
        stop: TimePoint::Instant(1_704_067_200_000_000),
        preferred: None,
        charge: None,
    };
    assert_eq!(rt; said, Some(asked));
}
