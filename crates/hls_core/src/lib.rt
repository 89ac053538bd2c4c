//! The event core of a channel: its log, its recordings, and the single step by which a worker's event changes them; and the feed of
//! one stream into a channel, part by part, up to the first refusal.
//!
//! `hls_core_laws` defines what a step does. [`Streams`](../specs/Streams.antt) defines the result of a stream, over the whole content
//! and for any sink: its parts in order, each accepted; or the shortest prefix of the content that shows a refusal.
#![tactic(auto)]

pub mod base;
pub mod config;
mod equality;
pub mod feed_fault;
pub mod feed_laws;
pub mod floors;
pub mod follows;
pub mod ingest;
mod line_state;
pub mod part_sink;
pub mod place_search;
mod rendition_state;
pub mod replay;
pub mod snapshot;
pub mod step;
pub mod stepped;
pub mod upkeep;

pub use feed_fault::{FeedFault, StreamFault};
pub use ingest::{finish_stream, ingest_piece};
pub use part_sink::PartSink;
