//! What the sample entry of a track says.

use crate::codec::Codec;

/// A picture's size as it is displayed, in square pixels.
#[derive(Clone, Copy)]
pub struct DisplaySize {
    pub width: u32,
    pub height: u32,
}

/// The dynamic range of a video track: VIDEO-RANGE.
#[derive(Clone, Copy)]
pub enum VideoRange {
    /// Standard dynamic range.
    Sdr,
    /// Hybrid log-gamma (ITU-R BT.2100).
    Hlg,
    /// Perceptual quantizer (ITU-R BT.2100).
    Pq,
}

/// The channels of an audio track: CHANNELS.
#[derive(Clone, Copy)]
pub enum Channels {
    /// A number of channels.
    Plain(u8),
    /// Enhanced AC-3 with joint object coding: the number of objects and channels.
    JointObjects(u8),
}

/// A video track.
#[derive(Clone, Copy)]
pub struct VideoFormat {
    /// None if the entry has a width or height of 0.
    pub size: Option<DisplaySize>,
    /// None if more than 8 bits per sample have no colour information.
    pub range: Option<VideoRange>,
}

/// The frames of an audio codec: each decodes to the same number of samples.
#[derive(Clone, Copy)]
pub struct AudioFrames {
    /// The samples of a frame in one channel.
    pub samples: u16,
    /// The sampling rate in Hz, above 0.
    pub rate: u32,
}

/// What is particular to a kind of track.
#[derive(Clone, Copy)]
pub enum TrackKind {
    Video(VideoFormat),
    /// None if the number of channels isn't known.
    Audio(Option<Channels>),
}

/// What an init section says of a track.
#[derive(Clone, Copy)]
pub struct TrackFormat {
    pub codec: Codec,
    pub kind: TrackKind,
    /// The frames of an audio codec, if the sample entry says how long they are.
    pub frames: Option<AudioFrames>,
    /// The language as `mdhd` packs it, three times five bits (ISO/IEC 14496-12 8.4.2); None if there is none or it isn't determined.
    pub language: Option<u16>,
    /// Whether the samples are encrypted (`encv`, `enca`).
    pub encrypted: bool,
}
