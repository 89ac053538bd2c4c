//! The limits of requests.

/// The most bytes of a head, with the empty lines before it and the empty line at its end; of a chunk's size line with
/// its CR LF; and of trailers with the empty line at their end.
pub const MOST_HEAD: usize = 16384;

/// The most fields of a head, or of trailers.
pub const MOST_FIELDS: usize = 64;

/// The most bytes of a body that is discarded.
pub const MOST_DISCARDED: u64 = 65536;

/// The most digits of a Content-Length, and of the seconds of a Prefer field.
pub const MOST_LENGTH_DIGITS: usize = 15;

/// The largest number in a Range, 2^53; a larger one is capped at this.
pub const MOST_RANGE: u64 = 1 << 53;
