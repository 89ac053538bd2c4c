//! Reads audio sample entries (ISO/IEC 14496-12 12.2).

ghost use Rattle.std.specs.Prelude.{◌≡◌, option_map, option_and_then};
ghost use Rattle.hls_codecs.specs.Boxes.{box_in};
ghost use Rattle.hls_codecs.specs.Audio.{ac3_channels, ac3_frames, ec3_channels, ec3_frames, flac_channels, alac_channels};
ghost use Rattle.hls_codecs.specs.Kinds.{dac3_type, dec3_type, dfla_type, alac_type};
ghost use Rattle.hls_codecs.specs.Tracks.{audio_from, framed_audio, esds_in, mp4a_audio, ac3_audio, ec3_audio, opus_audio, audio_entry};

use crate::aac::read_mp4a;
use crate::audio::{
    read_ac3_channels, read_ac3_frames, read_alac_channels, read_ec3_channels, read_ec3_frames,
    read_flac_channels, read_opus_channels,
};
use crate::boxes::find_box;
use crate::codec::Codec;
use crate::kinds::{AC3, ALAC, DAC3, DEC3, DFLA, DOPS, EC3, ESDS, FLAC, MP4A, OPUS, WAVE};
use crate::track_format::{AudioFrames, Channels};

/// The codec, the channels and the frames of an audio entry.
#[derive(Clone, Copy)]
pub struct AudioEntry {
    pub codec: Codec,
    pub channels: Option<Channels>,
    pub frames: Option<AudioFrames>,
}

/// The content of an entry's `esds` box; a QuickTime file has it in `wave`.
fn find_esds(boxes: &[u8]) -> Option<&[u8]>
    ensures { option_map (λ content. content.now) result ≡ esds_in boxes.now }
{
    if let Some(esds) = find_box(boxes, ESDS, 0) {
        return Some(esds);
    }
    let Some(wave) = find_box(boxes, WAVE, 0) else {
        return None;
    };
    find_box(wave, ESDS, 0)
}

/// An entry that doesn't say how long its frames are.
fn audio_from(codec: Codec, channels: Option<Channels>) -> AudioEntry
    ensures { result ≡ audio_from codec channels }
{
    AudioEntry {
        codec,
        channels,
        frames: None,
    }
}

#[tactic(auto, unfolding(crate::specs::Tracks::mp4a_audio))]
fn read_mp4a_entry(channels: Option<Channels>, boxes: &[u8]) -> Option<AudioEntry>
    ensures { result ≡ mp4a_audio channels boxes.now }
{
    let Some(esds) = find_esds(boxes) else {
        return None;
    };
    let entry = read_mp4a(channels, esds)?;
    Some(AudioEntry {
        codec: Codec::Mp4a(entry.config),
        channels: entry.channels,
        frames: entry.frames,
    })
}

#[tactic(auto, unfolding(crate::specs::Tracks::opus_audio))]
fn read_opus_entry(boxes: &[u8]) -> Option<AudioEntry>
    ensures { result ≡ opus_audio boxes.now }
{
    let Some(dops) = find_box(boxes, DOPS, 0) else {
        return None;
    };
    let channels = read_opus_channels(dops)?;
    Some(audio_from(Codec::Opus, channels))
}

fn read_ac3_entry(boxes: &[u8]) -> AudioEntry
    ensures { result ≡ ac3_audio boxes.now }
{
    let Some(content) = find_box(boxes, DAC3, 0) else {
        return audio_from(Codec::Ac3, None);
    };
    AudioEntry {
        codec: Codec::Ac3,
        channels: read_ac3_channels(content),
        frames: read_ac3_frames(content),
    }
}

fn read_ec3_entry(boxes: &[u8]) -> AudioEntry
    ensures { result ≡ ec3_audio boxes.now }
{
    let Some(content) = find_box(boxes, DEC3, 0) else {
        return audio_from(Codec::Ec3, None);
    };
    AudioEntry {
        codec: Codec::Ec3,
        channels: read_ec3_channels(content),
        frames: read_ec3_frames(content),
    }
}

fn read_flac_box(boxes: &[u8]) -> Option<Channels>
    ensures { result ≡ option_and_then flac_channels (box_in dfla_type 0 boxes.now) }
{
    let Some(content) = find_box(boxes, DFLA, 0) else {
        return None;
    };
    read_flac_channels(content)
}

fn read_alac_box(boxes: &[u8]) -> Option<Channels>
    ensures { result ≡ option_and_then alac_channels (box_in alac_type 0 boxes.now) }
{
    let Some(content) = find_box(boxes, ALAC, 0) else {
        return None;
    };
    read_alac_channels(content)
}

/// The codec, the channels and the frames of an audio entry of a format, which itself says a number of channels, from the boxes in it.
#[tactic(auto, unfolding(crate::specs::Tracks::audio_entry))]
pub fn read_audio_entry(format: u32, channels: Option<Channels>, boxes: &[u8]) -> Option<AudioEntry>
    ensures { result ≡ audio_entry format channels boxes.now }
{
    match format {
        MP4A => read_mp4a_entry(channels, boxes),
        AC3 => Some(read_ac3_entry(boxes)),
        EC3 => Some(read_ec3_entry(boxes)),
        OPUS => read_opus_entry(boxes),
        FLAC => Some(audio_from(Codec::Flac, read_flac_box(boxes))),
        ALAC => Some(audio_from(Codec::Alac, read_alac_box(boxes))),
        _ => None,
    }
}
