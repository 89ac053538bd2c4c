//! Sessions with any one allocation refused: each ends with the fixed 503, or as without the failure.

use crate::echo::serve;
use hls_fakes::{ChunkedReader, PageWriter};
use hls_http::response_parts::{out_of_memory_head_text, out_of_memory_text};
use hls_http::{Session, SessionEnd, find_query_value, parse_query};
use std::alloc::Global;

/// The result of a session.
#[derive(Clone, Copy, PartialEq, Eq)]
enum ReplyOutcome {
    Served,
    Memory,
    Other,
}

fn serve_once(alloc: Global, request: &[u8], reply: &[u8], no_memory: &[u8]) -> ReplyOutcome {
    let Ok(mut session) = Session::new(alloc, ChunkedReader::new(request, 70, 0), PageWriter::new())
    else {
        return ReplyOutcome::Memory;
    };
    let end = serve(alloc, &mut session);
    let page = session.writer.into_inner();
    if end == SessionEnd::Closed && page.holds_text(reply) {
        return ReplyOutcome::Served;
    }
    if end == SessionEnd::Refused && page.holds_text(no_memory) {
        ReplyOutcome::Memory
    } else {
        ReplyOutcome::Other
    }
}

/// Whether one of two results is complete, and the other is so, too, or is out of memory.
fn is_right(first: ReplyOutcome, second: ReplyOutcome) -> bool {
    match first {
        ReplyOutcome::Served => second != ReplyOutcome::Other,
        ReplyOutcome::Memory => second == ReplyOutcome::Served,
        ReplyOutcome::Other => false,
    }
}

/// Whether a request gets this reply once of two times, and the other time too or the out-of-memory reply.
fn is_served(alloc: Global, request: &[u8], reply: &[u8], no_memory: &[u8]) -> bool {
    let first = serve_once(alloc, request, reply, no_memory);
    let second = serve_once(alloc, request, reply, no_memory);
    is_right(first, second)
}

#[test]
fn out_of_memory_is_the_fixed_reply(rt: HostRuntime) {
    let request = b"PUT / HTTP/1.1\r\nHost: a\r\nContent-Length: 3\r\n\r\nabc";
    let reply = b"HTTP/1.1 200 OK\r\nContent-Type: text/plain\r\nContent-Length: 3\r\n\r\nabc";
    assert!(rt; is_served(rt.alloc(), request, reply, out_of_memory_text()));
}

#[test]
fn out_of_memory_to_head_has_no_body(rt: HostRuntime) {
    let request = b"HEAD / HTTP/1.1\r\nHost: a\r\n\r\n";
    let reply = b"HTTP/1.1 200 OK\r\nContent-Type: text/plain\r\nContent-Length: 10\r\n\r\n";
    assert!(rt; is_served(rt.alloc(), request, reply, out_of_memory_head_text()));
}

/// The result of finding the value of a query's key.
fn finds(alloc: Global) -> ReplyOutcome {
    match parse_query(alloc, b"from=1&t%6f=2+3") {
        Ok(pairs) if find_query_value(&pairs, b"to") == Some(b"2 3".as_slice()) => {
            ReplyOutcome::Served
        }
        Ok(_) => ReplyOutcome::Other,
        Err(_) => ReplyOutcome::Memory,
    }
}

#[test]
fn out_of_memory_finds_no_value(rt: HostRuntime) {
    let first = finds(rt.alloc());
    let second = finds(rt.alloc());
    assert!(rt; is_right(first, second));
}
