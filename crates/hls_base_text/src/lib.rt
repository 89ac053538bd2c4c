//! Reads and writes the text of a base: what precedes the recordings of a process, as an earlier process of the channel gives it.
#![tactic(auto)]

mod base_fault;
mod base_fields;
mod base_line;
mod lines;
mod read;
mod write;

pub use base_fault::BaseFault;
pub use base_fields::BaseFields;
pub use base_line::BaseLine;
pub use read::read_base;
pub use write::write_base;
