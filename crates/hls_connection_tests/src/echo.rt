//! A small server over a session: PUT returns its body, and every other request ten digits. It refuses nothing: if there is no
//! request it ends the session without a reply.

use hls_fakes::PageWriter;
use hls_http::response_parts::{
    CachePolicy, ContentType, ExtraField, ResponseParts, Status, out_of_memory_text,
};
use hls_http::{BodyEnd, BodyFraming, BodyRead, HeadEnd, Method, ParsedHead, Session, SessionEnd};
use hls_io::write_whole;
use std::alloc::{AllocError, Global};
use std::io::Read;

/// Returns the content of a body, and why it stopped, if it did.
pub fn read_content<R: Read>(
    alloc: Global,
    session: &mut Session<R, PageWriter>,
    body: BodyFraming,
) -> Result<(Vec<u8>, Option<BodyEnd>), AllocError> {
    let mut body = body;
    let mut all = Vec::new(alloc);
    for _ in 0..100u8 {
        match session.body(&mut body) {
            Ok(BodyRead::Piece) => all.extend_from_slice(session.source.input.last_taken())?,
            Ok(BodyRead::End) => return Ok((all, None)),
            Err(end) => return Ok((all, Some(end))),
        }
    }
    Ok((all, None))
}

/// Replies to a request whose body was read.
fn write_reply<R: Read>(
    alloc: Global,
    session: &mut Session<R, PageWriter>,
    head: &ParsedHead,
    body: &[u8],
) -> Result<(), SessionEnd> {
    let reply = ResponseParts {
        status: Status::Done,
        kind: ContentType::Text,
        extra: ExtraField::Nothing,
        policy: CachePolicy::Unstated,
        closing: head.closes,
    };
    if head.method == Method::Put {
        return session.reply(alloc, &reply, body, false);
    }
    let to_head = head.method == Method::Head;
    session.reply(alloc, &reply, b"0123456789", to_head)
}

fn serve_one<R: Read>(
    alloc: Global,
    session: &mut Session<R, PageWriter>,
    head: &ParsedHead,
) -> Result<(), SessionEnd> {
    let Ok(body) = head.body else {
        return Err(SessionEnd::Refused);
    };
    match read_content(alloc, session, body) {
        Ok((all, None)) => write_reply(alloc, session, head, &all),
        Ok((_, Some(BodyEnd::BadFraming))) => Err(SessionEnd::Refused),
        Ok((_, Some(BodyEnd::CutShort))) => Err(SessionEnd::CutShort),
        Ok((_, Some(BodyEnd::ReadFailed))) => Err(SessionEnd::ReadFailed),
        Err(_) => {
            let _ = write_whole(&mut session.writer, out_of_memory_text());
            Err(SessionEnd::Refused)
        }
    }
}

/// Serves at most ten requests.
pub fn serve<R: Read>(alloc: Global, session: &mut Session<R, PageWriter>) -> SessionEnd {
    for _ in 0..10u8 {
        match session.next_head() {
            Ok(head) => {
                if let Err(end) = serve_one(alloc, session, &head) {
                    return end;
                }
            }
            Err(HeadEnd::Closed) => return SessionEnd::Closed,
            Err(HeadEnd::CutShort) => return SessionEnd::CutShort,
            Err(HeadEnd::ReadFailed) => return SessionEnd::ReadFailed,
            Err(_) => return SessionEnd::Refused,
        }
    }
    SessionEnd::Closed
}
