//! A running server of a channel: threads that serve connections from one turn, threads that run catch-up jobs, one that keeps the
//! channel to its window, one that writes its journal if it has one, and the log lines about clients.
//!
//! The responses of a connection are those of a session over the turn, which `hls_api` defines. No contract covers threads, sockets and
//! time.
#![tactic(auto)]

mod body_lanes;
mod durability;
mod follower;
mod handler;
mod limits;
mod log_lines;
mod logged_connection;
mod observer;
mod request_counts;
mod send_gate;
mod server;
mod startup;

pub use follower::{FollowFault, NoFollower, StateFollower};
pub use log_lines::{AccessLine, IngestLine};
pub use server::{ServerJournal, ServerStart, run_server};
pub use startup::log_start;
