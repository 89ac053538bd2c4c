//! How a stream of requests ends, why a body stops before its end, and how a session ends.

/// What follows the last whole request of a stream.
#[derive(Clone, Copy, Drop)]
pub enum InputEnd {
    /// Nothing.
    Closed,
    /// A prefix of a head or of a body.
    CutShort,
    /// Bytes that can't become a head.
    BadHead,
    /// A head that exceeds the limits.
    HeadTooLarge,
    /// A head whose Host or framing is bad, or a body that breaks the grammar of chunks.
    BadRequest,
}

/// Why no more of a body can be read.
#[derive(Clone, Copy, Debug, PartialEq, Eq, Drop)]
pub enum BodyEnd {
    /// The body breaks the grammar of chunks (RFC 9112 7.1), or a size line or the trailers exceed their limits.
    BadFraming,
    /// The input ended inside the body.
    CutShort,
    /// A read failed, and was counted.
    ReadFailed,
}

/// Why a body wasn't discarded to its end.
#[derive(Clone, Copy, Drop)]
pub enum DiscardEnd {
    /// The size line of a chunk with which the content would exceed 65536 bytes is next.
    TooLarge,
    /// The body ended early.
    Stopped(BodyEnd),
}

/// Why a session accepts no further request.
#[derive(Clone, Copy, Debug, PartialEq, Eq, Drop)]
pub enum SessionEnd {
    /// The input ended between two requests, or a successful reply said `Connection: close`.
    Closed,
    /// A refusal said `Connection: close`.
    Refused,
    /// The input ended inside a head or a body; there is no reply.
    CutShort,
    /// A read failed, and was counted.
    ReadFailed,
    /// A write failed, and was counted: a prefix of the reply was written.
    WriteFailed,
}
