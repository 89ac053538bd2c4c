//! The metrics of a channel, as `GET /metrics` shows them: Prometheus' text format.
//!
//! [`Metrics`](../specs/Metrics.antt) defines the text: the numbers of a state, which are proved, and those that the server's threads
//! store in [`Measurements`]. The work is bounded whatever the channel's age: some 60 numbers, eleven for each rendition, and one for
//! each refusal, and for each route and status.
#![tactic(auto)]

mod channel_metrics;
mod lines;
pub mod measured;
mod measured_metrics;
pub mod measurements;
pub mod refusal_kinds;
mod refusal_metrics;
pub mod rendition_metric;
mod rendition_metrics;
pub mod request_kinds;
mod write;

pub use measured::Measured;
pub use measurements::Measurements;
pub use request_kinds::{RouteKind, request_kind};
pub use write::push_metrics;
