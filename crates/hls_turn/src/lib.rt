//! The turn: the one state of a channel, which many threads see and change in one order.
//!
//! The state is in a queue of capacity one. The thread that takes it out has exclusive access, and puts back either the same state or
//! one that is one event further; so all events are in one log, whatever the threads do. The queue's own rule is
//! [`Rule`](../specs/Rule.antt); no public clause cites it.
#![tactic(auto)]

mod pass;
mod state_queue;
mod turn;
mod view;

pub use hls_core_laws::done::Done;
pub use pass::Pass;
pub use turn::Turn;
