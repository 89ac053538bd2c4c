//! Counted readers and writers, through which sessions and programs read and write, so that a failed call is reported if and only if one
//! was counted; and the output that a server still has to send.
//!
//! That is a text, followed by at most one range of a resource, which stays in place. It is sent in chunks, as a socket accepts them,
//! without blocking or allocating.
#![tactic(auto)]

mod counted;
mod resource;
mod resource_range;
mod send_buffer;
pub mod send_laws;
mod small_slices;
mod text_resource;
mod write;

pub use counted::Counted;
pub use resource::Resource;
pub use resource_range::ResourceRange;
pub use send_buffer::SendBuffer;
pub use small_slices::MAX_GATHERED_BYTES;
pub use text_resource::TextResource;
pub use write::write_whole;
