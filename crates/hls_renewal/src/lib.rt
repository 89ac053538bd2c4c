//! Renewal: a channel begins a new log at a cut of its live line, so that its log never fills up.
//!
//! The renewed channel has each rendition's units from the cut on, and what precedes is its base. So its playlists, paths and ranges are
//! those of the old channel.
#![tactic(auto)]

mod base;
mod events;
pub mod laws;
mod line_cut;
mod renewal;

pub use line_cut::LineCut;
pub use renewal::{RenewFault, renew};
