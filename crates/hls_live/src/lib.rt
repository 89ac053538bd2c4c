//! The live line of a channel: its segments as common places are added, and how they slide.
#![tactic(auto)]

mod kept_segments;
mod live_line;
mod place_fit;
mod prefix_sums;

pub use hls_places_laws::{LineFault, LineGoal, LiveSegment, SegmentStart};
pub use live_line::LiveLine;
