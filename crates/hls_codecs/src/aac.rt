//! Reads the elementary stream descriptor of an `mp4a` entry (ISO/IEC 14496-1 7.2.6) and its AudioSpecificConfig (ISO/IEC 14496-3 1.6.2.1).

ghost use Rattle.std.specs.Prelude.{◌≡◌, ◌<◌, ◌≤◌, ◌^◌, ℕ, List, option_map};
ghost use Rattle.std.specs.Borrow.{Bor};
ghost use Rattle.hls_codecs.specs.Audio.{reaches, descriptor_length, descriptor_of, inner_offset, decoder_config, aot_width, aot_at, rate_width, channels_bit, sync_bit, signals_sbr, signals_ps, audio_type, configured_channels, aac_channels, rate_of_index, rate_at, is_hierarchical, core_bit, core_type, frame_bit, frame_samples, aac_frames, mpeg4_entry, other_channels, mp4a_from, mp4a_entry};

use crate::audio::{Mp4aEntry, some_channels, some_frames};
use crate::boxes::{bits_at, byte_or_zero, bytes_from};
use crate::codec::Mp4aConfig;
use crate::track_format::{AudioFrames, Channels};

/// The tags of the descriptors that are read.
const ES_DESCRIPTOR: u8 = 3;

const DECODER_CONFIG: u8 = 4;

const DECODER_SPECIFIC_INFO: u8 = 5;

/// Reads the length of a descriptor, in at most four bytes, and returns the bytes after it.
fn read_length(bytes: &[u8]) -> Option<(usize, &[u8])>
    ensures { option_map (λ (found : ℕ × Bor (List ℕ)). (found.0, found.1.now)) result ≡ descriptor_length 4 0 bytes.now }
{
    let mut len = 0usize;
    let mut rest = bytes;
    let mut left = 4u32;
    'bytes: while left > 0 {
        let [first, after @ ..] = rest else {
            return None;
        };
        left -= 1;
        rest = after;
        if *first < 128 {
            return Some((len * 128 + usize::from(*first), rest));
        }
        len = len * 128 + usize::from(*first % 128);
    }
    None
}

/// The content of the descriptor at the start of the bytes, if it has this tag.
#[tactic(auto, unfolding(crate::specs::Audio::descriptor_of))]
fn read_descriptor(bytes: &[u8], tag: u8) -> Option<&[u8]>
    ensures { option_map (λ content. content.now) result ≡ descriptor_of tag bytes.now }
{
    if bytes.is_empty() || bytes[0] != tag {
        return None;
    }
    let Some((len, rest)) = read_length(&bytes[1..]) else {
        return None;
    };
    if rest.len() < len {
        return None;
    }
    Some(&rest[..len])
}

/// Where the descriptors in an ES_Descriptor begin.
#[tactic(auto, unfolding(crate::specs::Audio::inner_offset))]
fn inner_offset(es: &[u8]) -> usize
    ensures value { result ≡ inner_offset es.now }
    ensures bound { result < 1000 }
{
    let flags = byte_or_zero(es, 2);
    let mut at = 3;
    if flags / 128 == 1 {
        at += 2;
    }
    if flags / 64 % 2 == 1 {
        at += 1 + usize::from(byte_or_zero(es, at));
    }
    if flags / 32 % 2 == 1 {
        at += 2;
    }
    at
}

/// The DecoderConfigDescriptor in the content of an `esds` box.
#[tactic(auto, unfolding(crate::specs::Audio::decoder_config))]
fn read_decoder_config(esds: &[u8]) -> Option<&[u8]>
    ensures { option_map (λ config. config.now) result ≡ decoder_config esds.now }
{
    let Some(es) = read_descriptor(bytes_from(esds, 4), ES_DESCRIPTOR) else {
        return None;
    };
    read_descriptor(bytes_from(es, inner_offset(es)), DECODER_CONFIG)
}

/// Whether the bytes have this many bits.
fn reaches(bytes: &[u8], bits: usize) -> bool
    requires { bits < 2 ^ 32 }
    ensures { result ≡ reaches bits bytes.now }
{
    (bits + 7) / 8 <= bytes.len()
}

fn aot_width(config: &[u8], at: usize) -> usize
    requires { at < 2 ^ 16 }
    ensures value { result ≡ aot_width at config.now }
    ensures bound { result ≤ 11 }
{
    if bits_at(config, 5, at) == 31 { 11 } else { 5 }
}

fn aot_at(config: &[u8], at: usize) -> u8
    requires { at < 2 ^ 16 }
    ensures { result ≡ aot_at at config.now }
{
    let short = bits_at(config, 5, at);
    if short != 31 {
        return short as u8;
    }
    32 + bits_at(config, 6, at + 5) as u8
}

fn rate_width(config: &[u8], at: usize) -> usize
    requires { at < 2 ^ 16 }
    ensures value { result ≡ rate_width at config.now }
    ensures bound { result ≤ 28 }
{
    if bits_at(config, 4, at) == 15 { 28 } else { 4 }
}

/// Where `channelConfiguration` is.
#[tactic(auto, unfolding(crate::specs::Audio::channels_bit))]
fn channels_bit(config: &[u8]) -> usize
    ensures value { result ≡ channels_bit config.now }
    ensures bound { result ≤ 39 }
{
    let width = aot_width(config, 0);
    width + rate_width(config, width)
}

/// Where backward compatible signalling of SBR is.
#[tactic(auto, unfolding(crate::specs::Audio::sync_bit))]
fn sync_bit(config: &[u8]) -> usize
    ensures value { result ≡ sync_bit config.now }
    ensures bound { result ≤ 60 }
{
    let at = channels_bit(config) + 4;
    if bits_at(config, 1, at + 1) == 1 {
        return at + 17;
    }
    at + 3
}

#[tactic(auto, unfolding(crate::specs::Audio::signals_sbr))]
fn signals_sbr(config: &[u8], at: usize) -> bool
    requires place { at ≡ sync_bit config.now }
    requires bound { at ≤ 60 }
    ensures { result ≡ signals_sbr config.now }
{
    if !reaches(config, at + 17) {
        return false;
    }
    bits_at(config, 11, at) == 0x2b7
        && bits_at(config, 5, at + 11) == 5
        && bits_at(config, 1, at + 16) == 1
}

#[tactic(auto, unfolding(crate::specs::Audio::signals_ps))]
fn signals_ps(config: &[u8], at: usize) -> bool
    requires place { at ≡ sync_bit config.now }
    requires bound { at ≤ 60 }
    ensures { result ≡ signals_ps config.now }
{
    let at = at + 17 + rate_width(config, at + 17);
    if !reaches(config, at + 12) {
        return false;
    }
    bits_at(config, 11, at) == 0x548 && bits_at(config, 1, at + 11) == 1
}

/// The audio object type that a string names.
#[tactic(auto, unfolding(crate::specs::Audio::audio_type))]
fn audio_type(config: &[u8]) -> u8
    ensures { result ≡ audio_type config.now }
{
    let aot = aot_at(config, 0);
    let at = sync_bit(config);
    if aot != 2 || !signals_sbr(config, at) {
        return aot;
    }
    if signals_ps(config, at) { 29 } else { 5 }
}

fn configured_channels(configuration: u32) -> u8
    ensures { result ≡ configured_channels configuration }
{
    match configuration {
        0 => 0,
        1 => 1,
        2 => 2,
        3 => 3,
        4 => 4,
        5 => 5,
        6 => 6,
        7 | 12 | 14 => 8,
        11 => 7,
        13 => 24,
        _ => 0,
    }
}

#[tactic(auto, unfolding(crate::specs::Audio::aac_channels))]
fn aac_channels(config: &[u8]) -> Option<Channels>
    ensures { result ≡ aac_channels config.now }
{
    if audio_type(config) == 29 {
        return Some(Channels::Plain(2));
    }
    some_channels(configured_channels(bits_at(config, 4, channels_bit(config))))
}

/// The sampling rate of a `samplingFrequencyIndex`; 0 if it is reserved (ISO/IEC 14496-3 table 1.18).
fn rate_of_index(index: u32) -> u32
    ensures { result ≡ rate_of_index index }
{
    match index {
        0 => 96000,
        1 => 88200,
        2 => 64000,
        3 => 48000,
        4 => 44100,
        5 => 32000,
        6 => 24000,
        7 => 22050,
        8 => 16000,
        9 => 12000,
        10 => 11025,
        11 => 8000,
        12 => 7350,
        _ => 0,
    }
}

/// The sampling rate at a bit.
fn rate_at(config: &[u8], at: usize) -> u32
    requires { at < 2 ^ 16 }
    ensures { result ≡ rate_at at config.now }
{
    let index = bits_at(config, 4, at);
    if index == 15 {
        return bits_at(config, 24, at + 4);
    }
    rate_of_index(index)
}

/// Whether the object type is SBR or PS, and that of the core follows.
fn is_hierarchical(config: &[u8]) -> bool
    ensures { result ≡ is_hierarchical config.now }
{
    matches!(aot_at(config, 0), 5 | 29)
}

/// Where the object type of the core is.
#[tactic(auto, unfolding(crate::specs::Audio::core_bit))]
fn core_bit(config: &[u8]) -> usize
    ensures value { result ≡ core_bit config.now }
    ensures bound { result ≤ 71 }
{
    if !is_hierarchical(config) {
        return 0;
    }
    let at = channels_bit(config) + 4;
    at + rate_width(config, at)
}

/// The object type of the core: AAC itself, without SBR.
fn core_type(config: &[u8]) -> u8
    ensures { result ≡ core_type config.now }
{
    aot_at(config, core_bit(config))
}

/// Where `frameLengthFlag` is.
#[tactic(auto, unfolding(crate::specs::Audio::frame_bit))]
fn frame_bit(config: &[u8]) -> usize
    ensures value { result ≡ frame_bit config.now }
    ensures bound { result ≤ 82 }
{
    if !is_hierarchical(config) {
        return channels_bit(config) + 4;
    }
    let at = core_bit(config);
    at + aot_width(config, at)
}

/// The samples of a frame of the core.
fn frame_samples(config: &[u8]) -> u16
    ensures { result ≡ frame_samples config.now }
{
    if bits_at(config, 1, frame_bit(config)) == 1 {
        960
    } else {
        1024
    }
}

/// The frames of AAC Main, LC, SSR and LTP, and of SBR over them.
#[tactic(auto, unfolding(crate::specs::Audio::aac_frames))]
fn aac_frames(config: &[u8]) -> Option<AudioFrames>
    ensures { result ≡ aac_frames config.now }
{
    let core = core_type(config);
    if core == 0 || core > 4 {
        return None;
    }
    some_frames(frame_samples(config), rate_at(config, aot_width(config, 0)))
}

/// Reads an AudioSpecificConfig.
#[tactic(auto, unfolding(crate::specs::Audio::mpeg4_entry))]
fn read_mpeg4(config: &[u8]) -> Option<Mp4aEntry>
    ensures { result ≡ mpeg4_entry config.now }
{
    if !reaches(config, channels_bit(config) + 4) || aot_at(config, 0) == 0 {
        return None;
    }
    Some(Mp4aEntry {
        config: Mp4aConfig::Mpeg4(audio_type(config)),
        channels: aac_channels(config),
        frames: aac_frames(config),
    })
}

/// The channels of MP3, which the entry itself says.
fn other_channels(oti: u8, entry_channels: Option<Channels>) -> Option<Channels>
    ensures { result ≡ other_channels oti entry_channels }
{
    if oti == 0x69 || oti == 0x6b {
        return entry_channels;
    }
    None
}

#[tactic(auto, unfolding(crate::specs::Audio::mp4a_from))]
fn read_mp4a_config(entry_channels: Option<Channels>, config: &[u8]) -> Option<Mp4aEntry>
    ensures { result ≡ mp4a_from entry_channels config.now }
{
    if config.len() < 13 || config[0] == 0 {
        return None;
    }
    if config[0] != 0x40 {
        return Some(Mp4aEntry {
            config: Mp4aConfig::Other(config[0]),
            channels: other_channels(config[0], entry_channels),
            frames: None,
        });
    }
    let Some(specific) = read_descriptor(&config[13..], DECODER_SPECIFIC_INFO) else {
        return None;
    };
    read_mpeg4(specific)
}

/// Reads the content of an `esds` box, in an entry that says this number of channels.
#[tactic(auto, unfolding(crate::specs::Audio::mp4a_entry))]
pub fn read_mp4a(entry_channels: Option<Channels>, esds: &[u8]) -> Option<Mp4aEntry>
    ensures { result ≡ mp4a_entry entry_channels esds.now }
{
    let Some(config) = read_decoder_config(esds) else {
        return None;
    };
    read_mp4a_config(entry_channels, config)
}
