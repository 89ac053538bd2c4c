//! What a master playlist says of a rendition.

use crate::rates::Rates;
use bytes::Bytes;
use hls_codecs::track_format::{Channels, DisplaySize, VideoRange};

/// A rendition of a master playlist.
#[derive(Drop)]
pub struct RenditionSummary {
    /// Its number, from 0.
    pub number: usize,
    /// Its name.
    pub name: Bytes,
    /// Whether it is a video rendition; else audio.
    pub video: bool,
    /// The configured bandwidth, in bits per second.
    pub bandwidth: u64,
    /// The measured bit rates; None before a segment was closed.
    pub rates: Option<Rates>,
    /// The strings of its tracks' codecs: that of the picture and that of the sound, each empty if there is no such track. None if the
    /// init section isn't understood.
    pub codecs: Option<CodecStrings>,
    /// The displayed size of the picture.
    pub size: Option<DisplaySize>,
    pub range: Option<VideoRange>,
    /// Thousandths of frames per second.
    pub frame_rate: Option<u32>,
    pub channels: Option<Channels>,
    /// The packed language of the sound.
    pub language: Option<u16>,
}

/// The strings of a rendition's codecs.
#[derive(Drop)]
pub struct CodecStrings {
    pub picture: Bytes,
    pub sound: Bytes,
}
