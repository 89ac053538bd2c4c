//! Reads the configuration boxes of audio codecs: their channels.

ghost use Rattle.std.specs.Prelude.{◌≡◌, ◌<◌, ◌≤◌};
ghost use Rattle.hls_codecs.specs.Audio.{some_frames, dolby_frames, dolby_rate, ac3_frames, ec3_frames, some_channels, acmod_channels, ac3_channels, location_channels, has_dependents, substream_end, ec3_bed_channels, has_joint_objects, ec3_channels, opus_channels, flac_channels, alac_channels};

use crate::boxes::bits_at;
use crate::codec::Mp4aConfig;
use crate::track_format::{AudioFrames, Channels};

/// What an `mp4a` entry says: its codec, and its channels and frames if they are known.
#[derive(Clone, Copy)]
pub struct Mp4aEntry {
    pub config: Mp4aConfig,
    pub channels: Option<Channels>,
    pub frames: Option<AudioFrames>,
}

/// Frames of this many samples, unless the sampling rate is 0.
pub fn some_frames(samples: u16, rate: u32) -> Option<AudioFrames>
    ensures { result ≡ some_frames samples rate }
{
    if rate == 0 {
        return None;
    }
    Some(AudioFrames { samples, rate })
}

/// This many channels, unless it is 0.
pub fn some_channels(count: u8) -> Option<Channels>
    ensures { result ≡ some_channels count }
{
    if count == 0 {
        return None;
    }
    Some(Channels::Plain(count))
}

/// The full bandwidth channels of an `acmod`.
fn acmod_channels(acmod: u32) -> u8
    ensures value { result ≡ acmod_channels acmod }
    ensures bound { result ≤ 5 }
{
    match acmod {
        0 => 2,
        1 => 1,
        2 => 2,
        3 | 4 => 3,
        5 | 6 => 4,
        _ => 5,
    }
}

/// Reads the content of a `dac3` box.
#[tactic(auto, unfolding(crate::specs::Audio::ac3_channels))]
pub fn read_ac3_channels(content: &[u8]) -> Option<Channels>
    ensures { result ≡ ac3_channels content.now }
{
    if content.len() < 3 {
        return None;
    }
    Some(Channels::Plain(acmod_channels(bits_at(content, 3, 10)) + bits_at(content, 1, 13) as u8))
}

/// The sampling rate of an `fscod`; 0 if it is reserved.
fn dolby_rate(code: u32) -> u32
    ensures { result ≡ dolby_rate code }
{
    match code {
        0 => 48000,
        1 => 44100,
        2 => 32000,
        _ => 0,
    }
}

/// The frames of AC-3 in a `dac3` box, and of Enhanced AC-3 in a `dec3` box: six blocks of 256 samples.
fn dolby_frames(code: u32) -> Option<AudioFrames>
    ensures { result ≡ dolby_frames code }
{
    some_frames(1536, dolby_rate(code))
}

/// The frames of AC-3, by the content of a `dac3` box.
#[tactic(auto, unfolding(crate::specs::Audio::ac3_frames))]
pub fn read_ac3_frames(content: &[u8]) -> Option<AudioFrames>
    ensures { result ≡ ac3_frames content.now }
{
    if content.len() < 3 {
        return None;
    }
    dolby_frames(bits_at(content, 2, 0))
}

/// The frames of Enhanced AC-3, by the content of a `dec3` box.
#[tactic(auto, unfolding(crate::specs::Audio::ec3_frames))]
pub fn read_ec3_frames(content: &[u8]) -> Option<AudioFrames>
    ensures { result ≡ ec3_frames content.now }
{
    if content.len() < 5 {
        return None;
    }
    dolby_frames(bits_at(content, 2, 16))
}

/// The channels that the dependent substreams of Enhanced AC-3 add.
#[tactic(auto, unfolding(crate::specs::Audio::location_channels))]
fn location_channels(content: &[u8]) -> u8
    ensures value { result ≡ location_channels content.now }
    ensures bound { result < 15 }
{
    let pairs = bits_at(content, 1, 47) * 2 + bits_at(content, 1, 46) * 2;
    let backs = pairs + bits_at(content, 1, 45) + bits_at(content, 1, 44);
    let wides = backs + bits_at(content, 1, 43) * 2 + bits_at(content, 1, 42) * 2;
    let heights = wides + bits_at(content, 1, 41) * 2 + bits_at(content, 1, 40);
    (heights + bits_at(content, 1, 39)) as u8
}

fn has_dependents(content: &[u8]) -> bool
    ensures { result ≡ has_dependents content.now }
{
    bits_at(content, 4, 35) > 0
}

/// The end of the first substream in a `dec3`.
fn substream_end(content: &[u8]) -> usize
    ensures value { result ≡ substream_end content.now }
    ensures bound { result ≤ 6 }
{
    if has_dependents(content) { 6 } else { 5 }
}

fn ec3_bed_channels(content: &[u8]) -> u8
    ensures { result ≡ ec3_bed_channels content.now }
{
    let bed = acmod_channels(bits_at(content, 3, 28)) + bits_at(content, 1, 31) as u8;
    if has_dependents(content) {
        return bed + location_channels(content);
    }
    bed
}

#[tactic(auto, unfolding(crate::specs::Audio::has_joint_objects))]
fn has_joint_objects(content: &[u8]) -> bool
    ensures { result ≡ has_joint_objects content.now }
{
    let end = substream_end(content);
    if bits_at(content, 3, 13) != 0 || content.len() < end + 2 {
        return false;
    }
    content[end] % 2 == 1
}

/// Reads the content of a `dec3` box.
#[tactic(auto, unfolding(crate::specs::Audio::ec3_channels, crate::specs::Audio::has_joint_objects))]
pub fn read_ec3_channels(content: &[u8]) -> Option<Channels>
    ensures { result ≡ ec3_channels content.now }
{
    let end = substream_end(content);
    if content.len() < end {
        return None;
    }
    if !has_joint_objects(content) {
        return Some(Channels::Plain(ec3_bed_channels(content)));
    }
    let Some(complexity) = content.get(end + 1) else {
        unreachable!();
    };
    Some(Channels::JointObjects(*complexity))
}

/// Reads the content of a `dOps` box. None if it isn't valid, and no number of channels if it is 0.
#[tactic(auto, unfolding(crate::specs::Audio::opus_channels))]
pub fn read_opus_channels(content: &[u8]) -> Option<Option<Channels>>
    ensures { result ≡ opus_channels content.now }
{
    if content.len() < 11 || content[0] != 0 {
        return None;
    }
    if content[10] != 0 && content.len() < 13 + usize::from(content[1]) {
        return None;
    }
    Some(some_channels(content[1]))
}

/// Reads the content of a `dfLa` box.
#[tactic(auto, unfolding(crate::specs::Audio::flac_channels))]
pub fn read_flac_channels(content: &[u8]) -> Option<Channels>
    ensures { result ≡ flac_channels content.now }
{
    if content.len() < 42 || content[4] % 128 != 0 {
        return None;
    }
    Some(Channels::Plain(bits_at(content, 3, 164) as u8 + 1))
}

/// Reads the content of the `alac` box in an `alac` entry.
#[tactic(auto, unfolding(crate::specs::Audio::alac_channels))]
pub fn read_alac_channels(content: &[u8]) -> Option<Channels>
    ensures { result ≡ alac_channels content.now }
{
    if content.len() < 28 {
        return None;
    }
    some_channels(content[13])
}
