//! Byte ranges of a reply (RFC 9110 14).

/// What a Range field asks for, in bytes. Numbers are at most 2^53.
#[derive(Clone, Copy, Debug, PartialEq, Eq, Drop)]
pub enum RangeSpec {
    /// No range, or an ignored one.
    All,
    /// From the first byte to the last, inclusive.
    Between(u64, u64),
    /// From this byte on.
    From(u64),
    /// The given number of bytes at the end.
    Suffix(u64),
}

/// The part of a resource that a reply returns.
#[derive(Clone, Copy, PartialEq, Eq, Drop)]
pub enum RangeSelection {
    /// All of it: 200.
    Whole,
    /// A number of bytes from an offset: 206.
    Slice {
        /// The offset of the first byte.
        from: u64,
        /// The number of bytes, at least 1.
        len: u64,
    },
    /// None of it: 416.
    Outside,
}
