//! A connection to a server of one channel, over any reader and writer: requests, encoders' bodies part by part, responses, and whole
//! sessions.
//!
//! `hls_api` defines what a session is. A connection uses its channel through a [`Keeper`](keeper::Keeper):
//! [`Alone`](alone::Alone) on one thread, a [`ChannelHandle`](channel_handle::ChannelHandle) on each of many.
#![tactic(auto)]

pub mod act_log;
pub mod alone;
pub mod channel_handle;
pub mod connection;
pub mod events;
mod handlers;
pub mod ingest_sink;
pub mod keeper;
pub mod laws;
mod machine;
mod mending_sink;
mod receive;
mod request_context;
mod respond;
pub mod session;
pub mod shared_channel;
mod state;
mod steps;
mod wait;
