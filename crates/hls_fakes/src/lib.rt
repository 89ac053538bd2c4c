//! For tests and examples: sample streams, an init section and units, byte by byte; readers and writers over memory, with small chunks,
//! with one call that fails, without allocations; outputs collected to their end; flags of other threads that are polled; and outcomes of
//! calls in which an allocation may fail.
#![tactic(auto)]

mod boxes;
mod call_counter;
mod call_outcome;
mod chunked_reader;
mod chunked_writer;
mod flags;
mod init;
mod outputs;
mod page_writer;
mod unit;

pub use boxes::{box_bytes, number_box};
pub use call_outcome::CallOutcome;
pub use chunked_reader::ChunkedReader;
pub use chunked_writer::ChunkedWriter;
pub use flags::{MAX_POLLS, wait_until_set};
pub use init::{init_bytes, trak_box, trex_box};
pub use outputs::{collect_sent, sends_exactly};
pub use page_writer::PageWriter;
pub use unit::unit_bytes;

/// The number of a call that never happens.
pub const NEVER: usize = 0;
