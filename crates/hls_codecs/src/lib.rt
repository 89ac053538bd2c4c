//! What the sample entries of an init section say (ISO/IEC 14496-12 8.5.2): the codec of each track as data and as the string of a CODECS
//! attribute (RFC 6381), its picture size, dynamic range, channels and language.
//!
//! Everything is read as numbers and written from them, so no text of an init section reaches a playlist.
#![tactic(auto)]

mod aac;
mod audio;
mod boxes;
pub mod codec;
mod configs;
mod kinds;
mod languages;
pub mod sample_durations;
mod sound;
mod texts;
pub mod track_format;
mod tracks;
mod video;

pub use sample_durations::{DurationRange, frame_rate, join_durations, read_durations};
pub use texts::{push_channels, push_codec, push_language};
pub use tracks::{is_track_encrypted, read_track_format};
