//! Replies; a head is made as one text before the first write.

ghost use Rattle.std.specs.{Prelude.{◌≡◌, ◌++◌, IfOk}, Fmt.decimal};
ghost use Rattle.hls_http.specs.ResponseText.{close_line, content_lines, crlf, extra_line, head_text_of, policy_lines, refusal_body, response_text, status_line, type_line};

use crate::response_parts::{CachePolicy, ContentType, ExtraField, ResponseParts, Status};
use hls_io::{MAX_GATHERED_BYTES, Resource, ResourceRange, SendBuffer};
use hls_text::push_number;
use std::alloc::{AllocError, Global};

/// The initial capacity of a head, which suffices for most.
const HEAD_ROOM: usize = 256;

fn status_text(status: Status) -> &'static [u8]
    ensures { result.now ≡ status_line status }
{
    match status {
        Status::Done => b"HTTP/1.1 200 OK\r\n",
        Status::Accepted => b"HTTP/1.1 202 Accepted\r\n",
        Status::NoContent => b"HTTP/1.1 204 No Content\r\n",
        Status::PartialContent => b"HTTP/1.1 206 Partial Content\r\n",
        Status::BadRequest => b"HTTP/1.1 400 Bad Request\r\n",
        Status::NotFound => b"HTTP/1.1 404 Not Found\r\n",
        Status::MethodNotAllowed => b"HTTP/1.1 405 Method Not Allowed\r\n",
        Status::Conflict => b"HTTP/1.1 409 Conflict\r\n",
        Status::Gone => b"HTTP/1.1 410 Gone\r\n",
        Status::ContentTooLarge => b"HTTP/1.1 413 Content Too Large\r\n",
        Status::RangeNotSatisfiable => b"HTTP/1.1 416 Range Not Satisfiable\r\n",
        Status::HeadTooLarge => b"HTTP/1.1 431 Request Header Fields Too Large\r\n",
        Status::Unavailable => b"HTTP/1.1 503 Service Unavailable\r\n",
        Status::InsufficientStorage => b"HTTP/1.1 507 Insufficient Storage\r\n",
    }
}

fn type_text(kind: ContentType) -> &'static [u8]
    ensures { result.now ≡ type_line kind }
{
    match kind {
        ContentType::Text => b"Content-Type: text/plain\r\n",
        ContentType::Media => b"Content-Type: video/mp4\r\n",
        ContentType::Playlist => b"Content-Type: application/vnd.apple.mpegurl\r\n",
    }
}

/// Appends a number between two texts.
fn push_number_between(
    out: &mut Vec<u8>,
    front: &[u8],
    number: u64,
    back: &[u8],
) -> Result<(), AllocError>
    ensures { IfOk result (λ done. out.new.items ≡ out.old.items ++ (front.now ++ (decimal number ++ back.now))) }
{
    out.extend_from_slice(front)?;
    push_number(out, number)?;
    out.extend_from_slice(back)
}

fn push_content(
    out: &mut Vec<u8>,
    status: Status,
    kind: ContentType,
    len: u64,
) -> Result<(), AllocError>
    ensures { IfOk result (λ done. out.new.items ≡ out.old.items ++ content_lines status kind len) }
{
    if !status.has_content() {
        return Ok(());
    }
    out.extend_from_slice(type_text(kind))?;
    push_number_between(out, b"Content-Length: ", len, b"\r\n")
}

fn push_extra(out: &mut Vec<u8>, extra: ExtraField<'_>) -> Result<(), AllocError>
    ensures { IfOk result (λ done. out.new.items ≡ out.old.items ++ extra_line extra.entry) }
{
    match extra {
        ExtraField::Nothing => Ok(()),
        ExtraField::Range(first, last, total) => {
            push_number_between(out, b"Content-Range: bytes ", first, b"-")?;
            push_number_between(out, b"", last, b"/")?;
            push_number_between(out, b"", total, b"\r\n")?;
            Ok(())
        }
        ExtraField::NoRange(total) => push_number_between(
            out,
            b"Content-Range: bytes */",
            total,
            b"\r\n",
        ),
        ExtraField::Job(id) => push_number_between(out, b"Location: /job/", id, b"\r\n"),
        ExtraField::Allow(methods) => {
            out.extend_from_slice(b"Allow: ")?;
            out.extend_from_slice(methods)?;
            out.extend_from_slice(b"\r\n")
        }
        ExtraField::Retry(seconds) => {
            push_number_between(out, b"Retry-After: ", seconds, b"\r\n")
        }
    }
}

fn policy_text(policy: CachePolicy) -> &'static [u8]
    ensures { result.now ≡ policy_lines policy }
{
    match policy {
        CachePolicy::Unstated => b"",
        CachePolicy::Immutable =>
            b"Cache-Control: public, max-age=86400, immutable\r\nAccess-Control-Allow-Origin: *\r\n",
        CachePolicy::Brief => b"Cache-Control: max-age=1\r\nAccess-Control-Allow-Origin: *\r\n",
        CachePolicy::Revalidate => b"Cache-Control: no-cache\r\nAccess-Control-Allow-Origin: *\r\n",
    }
}

/// Returns the end of a head.
fn end_text(closing: bool) -> &'static [u8]
    ensures { result.now ≡ close_line closing ++ crlf }
{
    if closing {
        b"Connection: close\r\n\r\n"
    } else {
        b"\r\n"
    }
}

/// Writes the text of a reply's head, for a content of `len` bytes: status line, Content-Type, Content-Length, then Content-Range,
/// Location or Allow, then Cache-Control, Connection, and the empty line. Allocates capacity for `room` more bytes.
pub fn write_head(
    alloc: Global,
    head: &ResponseParts<'_>,
    len: u64,
    room: usize,
) -> Result<Vec<u8>, AllocError>
    ensures { IfOk result (λ v. v.items ≡ head_text_of head.now len) }
{
    let mut out = Vec::with_capacity(alloc, HEAD_ROOM.saturating_add(room))?;
    out.extend_from_slice(status_text(head.status))?;
    push_content(&mut out, head.status, head.kind, len)?;
    push_extra(&mut out, head.extra)?;
    out.extend_from_slice(policy_text(head.policy))?;
    out.extend_from_slice(end_text(head.closing))?;
    Ok(out)
}

/// Writes a head with room for the content's small slices, or without it if that much can't be allocated.
fn write_head_with_room(
    alloc: Global,
    head: &ResponseParts<'_>,
    len: u64,
) -> Result<Vec<u8>, AllocError>
    ensures { IfOk result (λ v. v.items ≡ head_text_of head.now len) }
{
    let room = len.min(MAX_GATHERED_BYTES as u64) as usize;
    match write_head(alloc, head, len, room) {
        Ok(text) => Ok(text),
        Err(_) => write_head(alloc, head, len, 0),
    }
}

/// Makes a reply whose content is a part of a resource, which is sent as the resource's own slices; a reply to HEAD has none.
/// Allocates the head, and room for as many bytes of small slices as are sent at once, if there is memory for it.
pub fn make_response<M: Resource + Drop>(
    alloc: Global,
    head: &ResponseParts<'_>,
    content: ResourceRange<M>,
    to_head: bool,
) -> Result<SendBuffer<M>, AllocError>
    ensures { IfOk result (λ output. output ≡ response_text head.now content to_head) }
{
    let len = content.len();
    if to_head {
        let text = write_head(alloc, head, len, 0)?;
        return Ok(SendBuffer::from_text(text));
    }
    let text = write_head_with_room(alloc, head, len)?;
    Ok(SendBuffer::from_range(text, content))
}

/// Returns the body of a refusal: its name.
pub fn refusal_body(alloc: Global, name: &str) -> Result<Vec<u8>, AllocError>
    ensures { IfOk result (λ v. v.items ≡ refusal_body name.now) }
{
    let mut out = Vec::from_slice(alloc, b"refused ")?;
    out.extend_from_slice(name.as_bytes())?;
    out.push(b'\n')?;
    Ok(out)
}
