//! The head of a reply.

ghost use Rattle.std.specs.Prelude.{◌≡◌};
ghost use Rattle.hls_http.specs.ResponseText.{has_content, is_success, out_of_memory_text, out_of_memory_head_text, out_of_memory_response};
ghost use Rattle.hls_http.specs.ResponseText as spec;

/// The status of a reply, by its code (RFC 9110 15).
#[derive(Clone, Copy, Drop)]
pub enum Status {
    Done = 200,
    Accepted = 202,
    NoContent = 204,
    PartialContent = 206,
    BadRequest = 400,
    NotFound = 404,
    MethodNotAllowed = 405,
    Conflict = 409,
    Gone = 410,
    ContentTooLarge = 413,
    RangeNotSatisfiable = 416,
    HeadTooLarge = 431,
    Unavailable = 503,
    InsufficientStorage = 507,
}

/// The type of a reply's content.
#[derive(Clone, Copy, Drop)]
pub enum ContentType {
    /// `text/plain`.
    Text,
    /// `video/mp4`.
    Media,
    /// `application/vnd.apple.mpegurl`.
    Playlist,
}

/// The optional field of a reply: Content-Range, Location or Allow.
#[derive(Clone, Copy)]
pub enum ExtraField<'a> {
    /// None.
    Nothing,
    /// `Content-Range` with the first and the last byte that are returned, and the total.
    Range(u64, u64, u64),
    /// `Content-Range` with the total only; no byte is returned.
    NoRange(u64),
    /// `Location` of a job by its id.
    Job(u64),
    /// `Allow` with the methods, separated by a comma and a space.
    Allow(&'a [u8]),
    /// `Retry-After` with a number of seconds (RFC 9110 10.2.3).
    Retry(u64),
}

/// What caches may do with a reply (RFC 9111 5.2.2). Replies that state it may be read by pages of any other origin (CORS).
#[derive(Clone, Copy, Drop)]
pub enum CachePolicy {
    /// The reply states nothing.
    Unstated,
    /// The content never changes: kept for a day.
    Immutable,
    /// Kept for a second.
    Brief,
    /// Not used again without a new request.
    Revalidate,
}

/// The head of a reply, except the length of its content.
#[derive(Clone, Copy)]
pub struct ResponseParts<'a> {
    /// The status.
    pub status: Status,
    /// The type of the content.
    pub kind: ContentType,
    /// The optional field of a reply: Content-Range, Location or Allow.
    pub extra: ExtraField<'a>,
    /// What caches may do with the reply.
    pub policy: CachePolicy,
    /// Whether the reply has `Connection: close`: no further request is accepted.
    pub closing: bool,
}

impl Status {
    /// Whether a reply with this status states the type and the length of its content.
    pub fn has_content(self) -> bool
        ensures { result ≡ has_content self }
    {
        !matches!(self, Status::NoContent)
    }

    /// Whether what was asked for is returned or done (RFC 9110 15.3).
    pub fn is_success(self) -> bool
        ensures { result ≡ is_success self }
    {
        matches!(
            self,
            Status::Done | Status::Accepted | Status::NoContent | Status::PartialContent
        )
    }
}

/// Returns the out-of-memory reply, which needs no allocation: 503, `refused Memory`, and `Connection: close`.
pub fn out_of_memory_text() -> &'static [u8]
    ensures { result.now ≡ out_of_memory_text }
{
    b"HTTP/1.1 503 Service Unavailable\r\nContent-Type: text/plain\r\nContent-Length: 15\r\nConnection: close\r\n\r\nrefused Memory\n"
}

/// Returns the out-of-memory reply to a HEAD request: without its body.
pub fn out_of_memory_head_text() -> &'static [u8]
    ensures { result.now ≡ out_of_memory_head_text }
{
    b"HTTP/1.1 503 Service Unavailable\r\nContent-Type: text/plain\r\nContent-Length: 15\r\nConnection: close\r\n\r\n"
}

/// Returns the out-of-memory reply; to a HEAD request without its body.
pub fn out_of_memory_response(to_head: bool) -> &'static [u8]
    ensures { result.now ≡ out_of_memory_response to_head }
{
    if to_head {
        out_of_memory_head_text()
    } else {
        out_of_memory_text()
    }
}

/// Returns the text of 100 Continue, which a client may wait for before it sends a body (RFC 9110 15.2.1).
pub fn continue_text() -> &'static [u8]
    ensures { result.now ≡ spec.continue_text }
{
    b"HTTP/1.1 100 Continue\r\n\r\n"
}
