//! The housekeeper of a running server: keeps the channel to its window, and logs what the operator has to know of it.
//!
//! `run_housekeeper` works for any `ServerStatus`, which is all that it needs of the server around it. The crate also has the
//! operator's other log lines that concern no client.
//!
//! It is proved that the only events it submits to the channel are those that upkeep yields and, where units are mended, the fillers that
//! renditions need whose encoders are away. Nothing is claimed of threads and time.
#![tactic(auto)]

mod alert;
mod away;
mod coverage;
mod cut_measures;
mod display;
mod encoder_watch;
mod fill;
mod filling;
mod gauge;
mod housekeeper;
mod lag;
mod log_throttle;
mod memory;
mod memory_needs;
mod monitor;
mod nearest_sync;
mod operator_log;
mod process;
mod progress;
mod server_status;
mod thread_counts;
mod trim_backoff;
mod trim_hold;
mod warnings;

pub use display::{DisplayName, DisplayNames, DisplaySettings};
pub use housekeeper::run_housekeeper;
pub use log_throttle::{LogThrottle, may_log};
pub use memory::log_memory;
pub use memory_needs::{MemoryNeeds, MemoryParts, settings_needs, write_needs};
pub use operator_log::{OperatorLog, log_ended_worker, log_failed_accept, log_line, log_listening};
pub use process::measure_process;
pub use server_status::ServerStatus;
pub use thread_counts::{ThreadCounts, log_fewer_threads};
