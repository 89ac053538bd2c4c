//! Many connections on one thread: a worker polls its sockets, and gives each connection whose socket is ready a turn, until the socket
//! blocks or the turn is used up. What is served is up to its handler. The worker decides when a connection is too slow, and which one
//! is evicted when all places are in use.
//!
//! It is proved that the handler suits each connection whenever that has a turn, whatever the others did between. No clause says that
//! a socket is ever read: that is up to the system.
#![tactic(auto)]

mod activity;
mod backlog;
mod handler;
mod listener;
mod slot;
mod socket;
mod step;
mod wait_queue;
mod waker;
mod worker;
mod worker_io;
mod worker_loads;
mod yielding;

pub use activity::{Activity, ConnectionStage};
pub use handler::{ConnectionEnd, Handler};
pub use listener::{connection_limit, open_file_limit, tune_listener, worker_limit};
pub use worker::run_worker;
pub use worker_io::WorkerIo;
pub use worker_loads::WorkerLoads;
pub use yielding::choose_yielding;
