//! The command `cut`: reads a recorded stream, and writes its playlist.

pub mod channel_config;
pub mod fault;
pub mod record_stream;
pub mod recorder;
pub mod run;
