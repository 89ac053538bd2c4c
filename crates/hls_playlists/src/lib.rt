//! Makes the playlists of players from a snapshot: live playlists, the playlists of a catch-up recording, and master playlists.
//!
//! `hls_playlists_laws` defines which list is right. `LivePlaylistWriter` makes a text in parts, between which other connections get
//! their turn.
#![tactic(auto)]

mod job_playlists;
mod live_writer;
mod masters;
mod media_uris;
pub mod recent_list;
mod resource_uri;
mod segment_iterator;
mod segments;
mod standalone;
pub mod start_laws;
mod start_time;

pub use job_playlists::make_job_lists;
pub use live_writer::LivePlaylistWriter;
pub use masters::{job_master, live_master};
pub use media_uris::MediaUris;
pub use segments::{bytes_between, is_break, make_plan_segments, segment_between};
pub use standalone::live_playlist;
pub use start_time::{StartTime, find_start};
