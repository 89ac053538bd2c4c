//! The silent frames of AAC-LC, and what fillers of audio repeat.

ghost use Rattle.std.specs.Prelude.{◌≡◌, option_map};
ghost use Rattle.hls_mend.specs.Silence.{frame_length as length_of_frames, frame_of_channels, frame_of_codec, silent_frame as silent_frame_of, sound_by, sound_of, sound_view};

use hls_codecs::codec::{Codec, Mp4aConfig};
use hls_codecs::read_track_format;
use hls_codecs::track_format::{AudioFrames, Channels, TrackFormat, TrackKind};
use hls_mend_laws::filler::FrameLength;

/// A silent frame with one channel, at any sampling rate (ISO/IEC 14496-3 4.4.2).
const SILENT_MONO: [u8; 6] = [0x00, 0xc8, 0x00, 0x80, 0x23, 0x80];

/// A silent frame with two channels.
const SILENT_STEREO: [u8; 9] = [0x21, 0x00, 0x49, 0x90, 0x02, 0x19, 0x00, 0x23, 0x80];

/// The audio object type of AAC-LC (ISO/IEC 14496-3 1.5.1.1).
const AAC_LC: u8 = 2;

/// What fillers of audio repeat.
#[derive(Clone, Copy)]
pub struct Sound<'a> {
    /// How long each frame is.
    pub length: FrameLength,
    /// The silent frame, if the codec has one.
    pub silent: Option<&'a [u8]>,
}

/// The silent frame with this number of channels.
fn find_frame_of_channels(count: u8) -> Option<&'static [u8]>
    ensures { option_map (λ frame. frame.now) result ≡ frame_of_channels count }
{
    match count {
        1 => Some(&SILENT_MONO),
        2 => Some(&SILENT_STEREO),
        _ => None,
    }
}

/// The silent frame of a codec.
fn find_frame_of_codec(codec: Codec, kind: TrackKind) -> Option<&'static [u8]>
    ensures { option_map (λ frame. frame.now) result ≡ frame_of_codec codec kind }
{
    let Codec::Mp4a(Mp4aConfig::Mpeg4(object_type)) = codec else {
        return None;
    };
    let TrackKind::Audio(Some(Channels::Plain(count))) = kind else {
        return None;
    };
    if object_type != AAC_LC {
        return None;
    }
    find_frame_of_channels(count)
}

/// The silent frame of the first track of an init section, for [`silent_unit`](crate::silent_unit): None unless its codec is AAC-LC with
/// one or two channels.
#[tactic(auto, unfolding(crate::specs::Silence::silent_frame))]
pub fn silent_frame(init: &[u8]) -> Option<&'static [u8]>
    ensures { option_map (λ frame. frame.now) result ≡ silent_frame_of init.now }
{
    let format = read_track_format(init, 0)?;
    if format.encrypted {
        return None;
    }
    find_frame_of_codec(format.codec, format.kind)
}

/// The length of a codec's frames, in ticks of a timescale.
fn frame_length(scale: u32, frames: AudioFrames) -> FrameLength
    ensures { result ≡ length_of_frames scale frames }
{
    FrameLength {
        ticks: u64::from(frames.samples) * u64::from(scale),
        rate: frames.rate,
    }
}

/// The sound of fillers of a codec with these frames.
fn sound_with(scale: u32, format: TrackFormat, frames: AudioFrames) -> Sound<'static>
    ensures { sound_view result ≡ sound_by scale format frames }
{
    Sound {
        length: frame_length(scale, frames),
        silent: find_frame_of_codec(format.codec, format.kind),
    }
}

/// What fillers of the first track of an init section repeat, where a second has `scale` ticks: None unless the sample entry says how long
/// a frame is.
#[tactic(auto, unfolding(crate::specs::Silence::sound_of))]
pub fn find_sound(scale: u32, init: &[u8]) -> Option<Sound<'static>>
    ensures { option_map sound_view result ≡ sound_of scale init.now }
{
    let track = read_track_format(init, 0)?;
    if track.encrypted {
        return None;
    }
    let frames = track.frames?;
    Some(sound_with(scale, track, frames))
}
