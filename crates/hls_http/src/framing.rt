//! The framing of the rest of a body.

/// The rest of a body. A body begins as `Length` with its Content-Length (0 if it has none), or as `Size`; it has ended at a `Length`
/// of 0.
#[derive(Clone, Copy, Debug, PartialEq, Eq, Drop)]
pub enum BodyFraming {
    /// A number of bytes, and then the end.
    Length(u64),
    /// The line of a chunk's size (RFC 9112 7.1) is next.
    Size,
    /// A number of bytes of a chunk, and then its CR LF.
    Data(u64),
    /// The trailers after the last chunk (RFC 9112 7.1.2) are next.
    Trailers,
}
