//! The playlists of a channel as definitions over lists of facts, with their laws.
//!
//! They are a state's live playlists, what a later one may change, that those of two origins agree, and that a channel continues
//! after a handover; and a catch-up recording's resource, the segments of a plan, the media that they yield when joined, and master
//! playlists.
#![tactic(auto)]

mod live;
pub mod path_laws;
mod segments;

pub use live::{
    live_lists_agree, live_lists_continue_at_handover, live_lists_follow, live_lists_have_texts,
    live_lists_join_at_handover, live_lists_stay, live_lists_stay_joined,
};
pub use segments::{
    segments_are_dated, segments_are_good, segments_are_undated, segments_tile_the_units,
};
