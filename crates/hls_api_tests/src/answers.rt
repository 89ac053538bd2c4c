//! Responses about jobs and queries, and the replies that are sent for them; on an allocation failure there is none.

use hls_api::catchup_query::QueryFault;
use hls_api::{Response, added_response, into_send_buffer, query_response, removed_response};
use hls_catchup::JobFault;
use hls_fakes::{CallOutcome, sends_exactly};
use std::alloc::{AllocError, Global};

#[derive(Clone, Copy)]
pub enum AskCase {
    BadQuery,
    Added,
    Full,
    Removed,
    Unknown,
}

/// Responses with the complete replies that are sent for them.
pub const ROWS: [(AskCase, &[u8]); 5] = [
    (
        AskCase::BadQuery,
        b"HTTP/1.1 400 Bad Request\r\nContent-Type: text/plain\r\nContent-Length: 17\r\n\r\nrefused BadQuery\n",
    ),
    (
        AskCase::Added,
        b"HTTP/1.1 202 Accepted\r\nContent-Type: text/plain\r\nContent-Length: 16\r\nLocation: /job/7\r\n\r\njob 7 version 5\n",
    ),
    (
        AskCase::Full,
        b"HTTP/1.1 503 Service Unavailable\r\nContent-Type: text/plain\r\nContent-Length: 18\r\n\r\nrefused TableFull\n",
    ),
    (AskCase::Removed, b"HTTP/1.1 204 No Content\r\n\r\n"),
    (
        AskCase::Unknown,
        b"HTTP/1.1 404 Not Found\r\nContent-Type: text/plain\r\nContent-Length: 17\r\n\r\nrefused NotFound\n",
    ),
];

fn respond_to_case(alloc: Global, case: AskCase) -> Result<Response, AllocError> {
    match case {
        AskCase::BadQuery => query_response(alloc, QueryFault::BadQuery),
        AskCase::Added => added_response(alloc, 5, Ok(7)),
        AskCase::Full => added_response(alloc, 5, Err(JobFault::TableFull)),
        AskCase::Removed => removed_response(alloc, Ok(())),
        AskCase::Unknown => removed_response(alloc, Err(JobFault::UnknownJob)),
    }
}

/// Returns how a response is sent, which should be this reply.
pub fn outcome_of(alloc: Global, case: AskCase, reply: &[u8]) -> CallOutcome {
    let Ok(answer) = respond_to_case(alloc, case) else {
        return CallOutcome::OutOfMemory;
    };
    match into_send_buffer(alloc, answer, false, false) {
        Ok(output) => CallOutcome::from_answer(sends_exactly(output, reply)),
        Err(_) => CallOutcome::OutOfMemory,
    }
}

#[test]
fn out_of_memory_then_answers_again(rt: HostRuntime) {
    let alloc = rt.alloc();
    for (case, reply) in ROWS {
        assert!(rt;
            outcome_of(alloc, case, reply).is_consistent_with(outcome_of(alloc, case, reply))
        );
    }
}
