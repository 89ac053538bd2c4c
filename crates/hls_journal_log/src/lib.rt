//! The log of a journal: numbered records with checksums, appended to a disk and read back up to the first that isn't complete.
//!
//! A record is the length of its body in four bytes, a checksum of its number and body in eight, and the body. Its number is its place
//! in the log, so a record that is found at another place is no record.
//!
//! A sync point is a record that says up to which byte the log was synced before it. If a log ends before the place that any sync point
//! in it names, then synced bytes are damaged, and [`read_log`] refuses it; any other incomplete tail is what a crash may leave.
#![tactic(auto)]

mod checksum;
mod ending;
mod fault;
pub mod laws;
mod log;
mod open;
mod read;
mod sync_point;
mod write;

pub use checksum::checksum_of;
pub use ending::Ending;
pub use fault::LogFault;
pub use log::Log;
pub use open::{ReadLog, begin_log, read_disk, read_log};
pub use read::{LogContent, read_records};
pub use sync_point::has_sync_point_beyond;

/// The most bytes of a record's body.
pub const BODY_LIMIT: usize = 134217728;

/// The bytes of a record before its body: the body's length in four, the checksum in eight.
pub const HEADER_LEN: usize = 12;

/// The bytes of a sync point's body: eight that mark it, its own number in eight, and the synced length in eight.
pub const SYNC_POINT_LEN: usize = 24;

/// The first byte of a sync point's body. No other record's body may begin with it.
pub const SYNC_POINT_KIND: u8 = 7;
