//! How a log ends.

/// What follows the last complete record of a log.
#[derive(Clone, Copy, Debug, PartialEq, Eq, Drop)]
pub enum Ending {
    /// Nothing.
    Complete,
    /// The beginning of a record: a header or a body of which the end is missing.
    Torn,
    /// No record: a header with a body length above the limit, or a body with another checksum.
    Corrupt,
}
