//! Heads of replies and small replies: on an allocation failure there is none, or the fixed reply of a session.

use hls_fakes::{CallOutcome, PageWriter};
use hls_http::response_parts::{
    CachePolicy, ContentType, ExtraField, ResponseParts, Status, out_of_memory_head_text,
};
use hls_http::{
    BufferedReader, InputBuffer, Session, SessionEnd, make_response, refusal_body, write_head,
};
use hls_io::TextResource;
use std::alloc::Global;

fn head_text() -> &'static [u8] {
    b"HTTP/1.1 202 Accepted\r\nContent-Type: text/plain\r\nContent-Length: 3\r\nLocation: /job/7\r\n\r\n"
}

/// The head, followed by the body.
fn reply_text() -> &'static [u8] {
    b"HTTP/1.1 202 Accepted\r\nContent-Type: text/plain\r\nContent-Length: 3\r\nLocation: /job/7\r\n\r\nabc"
}

fn head<'a>() -> ResponseParts<'a> {
    ResponseParts {
        status: Status::Accepted,
        kind: ContentType::Text,
        extra: ExtraField::Job(7),
        policy: CachePolicy::Unstated,
        closing: false,
    }
}

/// The outcome of a session's reply to HEAD.
pub fn outcome_of_session(alloc: Global) -> CallOutcome {
    let Ok(mut session) = Session::new(alloc, b"".as_slice(), PageWriter::new()) else {
        return CallOutcome::OutOfMemory;
    };
    let end = session.reply(alloc, &head(), b"abc", true);
    let page = session.writer.into_inner();
    match end {
        Ok(()) => CallOutcome::from_answer(page.holds_text(head_text())),
        Err(SessionEnd::Refused) => CallOutcome::from_refusal(page.holds_text(
            out_of_memory_head_text(),
        )),
        Err(_) => CallOutcome::Wrong,
    }
}

pub fn outcome_of_bytes(alloc: Global) -> CallOutcome {
    match write_head(alloc, &head(), 3, 0) {
        Ok(bytes) => CallOutcome::from_answer(bytes.as_slice() == head_text()),
        Err(_) => CallOutcome::OutOfMemory,
    }
}

pub fn outcome_of_refusal(alloc: Global) -> CallOutcome {
    match refusal_body(alloc, "NotYet") {
        Ok(bytes) => CallOutcome::from_answer(bytes.as_slice() == b"refused NotYet\n".as_slice()),
        Err(_) => CallOutcome::OutOfMemory,
    }
}

pub fn outcome_of_source(alloc: Global) -> CallOutcome {
    match BufferedReader::new(alloc, b"abc".as_slice()) {
        Ok(source) => CallOutcome::from_answer(source.input.unread().is_empty()),
        Err(_) => CallOutcome::OutOfMemory,
    }
}

pub fn outcome_of_input(alloc: Global) -> CallOutcome {
    match InputBuffer::new(alloc) {
        Ok(input) => CallOutcome::from_answer(input.unread().is_empty()),
        Err(_) => CallOutcome::OutOfMemory,
    }
}

pub fn outcome_of_output(alloc: Global) -> CallOutcome {
    match make_response(alloc, &head(), TextResource::as_range(b"abc"), false) {
        Ok(output) => CallOutcome::from_answer(output.chunk() == reply_text()),
        Err(_) => CallOutcome::OutOfMemory,
    }
}

#[test]
fn out_of_memory_then_writes_heads_again(rt: HostRuntime) {
    let alloc = rt.alloc();
    assert!(rt; outcome_of_bytes(alloc).is_consistent_with(outcome_of_bytes(alloc)));
    assert!(rt; outcome_of_refusal(alloc).is_consistent_with(outcome_of_refusal(alloc)));
    assert!(rt; outcome_of_source(alloc).is_consistent_with(outcome_of_source(alloc)));
    assert!(rt; outcome_of_input(alloc).is_consistent_with(outcome_of_input(alloc)));
    assert!(rt; outcome_of_output(alloc).is_consistent_with(outcome_of_output(alloc)));
    assert!(rt; outcome_of_session(alloc).is_consistent_with(outcome_of_session(alloc)));
}
