//! Summarizes the renditions of a snapshot.

ghost use Rattle.std.specs.Prelude.{◌≡◌, option_and_then, option_map, IfOk};
ghost use Rattle.hls_codecs.specs.Texts.{codec_text};
ghost use Rattle.hls_players_master.specs.Summaries.{rate_in_units, frame_rate_of, picture_text, sound_text, codec_strings, picture_of, sound_of, summary_of, summaries_of};

use crate::rates::measure_rates;
use crate::summary::{CodecStrings, RenditionSummary};
use crate::tracks::{KnownTracks, Picture, Sound, read_tracks};
use bytes::Bytes;
use hls_codecs::codec::Codec;
use hls_codecs::track_format::{Channels, DisplaySize, VideoRange};
use hls_codecs::{frame_rate, join_durations, push_codec, read_durations};
use hls_core::snapshot::Snapshot;
use hls_core_laws::rendition::Rendition;
use hls_media_laws::track::Track;
use hls_record::Recording;
use std::alloc::{AllocError, Global};

/// How many of the newest units are looked at for a frame rate.
const MOST_UNITS: u64 = 8;

/// The frame rate of a track in the newest units, in thousandths of frames per second.
fn rate_in_units(track: Track, recording: &Recording) -> Option<u32>
    ensures { result ≡ rate_in_units track recording.now.units }
{
    let count = recording.count();
    let mut n = recording.floor().max(count.saturating_sub(MOST_UNITS));
    let mut range = None;
    'units: while n < count {
        let Some(unit) = recording.unit(n) else {
            unreachable!();
        };
        range = join_durations(range, read_durations(track, unit));
        n += 1;
    }
    let Some(range) = range else {
        return None;
    };
    frame_rate(track.scale, range)
}

#[tactic(auto, unfolding(crate::specs::Summaries::frame_rate_of))]
fn frame_rate_of(recording: &Recording, picture: Option<Picture>) -> Option<u32>
    ensures { result ≡ option_and_then (frame_rate_of recording.now) picture }
{
    let Some(picture) = picture else {
        return None;
    };
    let Some(track) = recording.init().tracks().get(picture.number) else {
        return None;
    };
    rate_in_units(*track, recording)
}

/// The string of a codec.
fn codec_string(alloc: Global, codec: Codec) -> Result<Bytes, AllocError>
    ensures { IfOk result (λ text. text ≡ codec_text codec) }
{
    let mut text = Vec::new(alloc);
    push_codec(&mut text, codec)?;
    Ok(Bytes::from_vec(text)?)
}

fn picture_string(alloc: Global, picture: Option<Picture>) -> Result<Bytes, AllocError>
    ensures { IfOk result (λ text. text ≡ picture_text picture) }
{
    match picture {
        Some(picture) => codec_string(alloc, picture.codec),
        None => Ok(Bytes::from_static(b"".as_slice())),
    }
}

fn sound_string(alloc: Global, sound: Option<Sound>) -> Result<Bytes, AllocError>
    ensures { IfOk result (λ text. text ≡ sound_text sound) }
{
    match sound {
        Some(sound) => codec_string(alloc, sound.codec),
        None => Ok(Bytes::from_static(b"".as_slice())),
    }
}

fn codec_strings(
    alloc: Global,
    known: Option<KnownTracks>,
) -> Result<Option<CodecStrings>, AllocError>
    ensures { IfOk result (λ strings. strings ≡ option_map codec_strings known) }
{
    let Some(known) = known else {
        return Ok(None);
    };
    Ok(Some(CodecStrings {
        picture: picture_string(alloc, known.picture)?,
        sound: sound_string(alloc, known.sound)?,
    }))
}

fn picture_of(known: Option<KnownTracks>) -> Option<Picture>
    ensures { result ≡ picture_of known }
{
    known?.picture
}

fn sound_of(known: Option<KnownTracks>) -> Option<Sound>
    ensures { result ≡ sound_of known }
{
    known?.sound
}

fn size_of(picture: Option<Picture>) -> Option<DisplaySize>
    ensures { result ≡ option_and_then (λ p. p.size) picture }
{
    picture?.size
}

fn range_of(picture: Option<Picture>) -> Option<VideoRange>
    ensures { result ≡ option_and_then (λ p. p.range) picture }
{
    picture?.range
}

fn channels_of(sound: Option<Sound>) -> Option<Channels>
    ensures { result ≡ option_and_then (λ s. s.channels) sound }
{
    sound?.channels
}

fn language_of(sound: Option<Sound>) -> Option<u16>
    ensures { result ≡ option_and_then (λ s. s.language) sound }
{
    sound?.language
}

/// Summarizes a rendition with a recording.
#[tactic(auto, unfolding(crate::specs::Summaries::summary_of, crate::specs::Summaries::tracks_of))]
fn summarize(
    alloc: Global,
    snapshot: &Snapshot,
    number: usize,
    rendition: &Rendition,
    recording: &Recording,
) -> Result<RenditionSummary, AllocError>
    ensures { IfOk result (λ summary. summary ≡ summary_of snapshot.now number rendition.now recording.now) }
{
    let known = read_tracks(
        recording.init_section_bytes(),
        recording.init().tracks().len(),
    );
    let picture = picture_of(known);
    let sound = sound_of(known);
    Ok(RenditionSummary {
        number,
        name: rendition.name.clone()?,
        video: rendition.video,
        bandwidth: rendition.bandwidth,
        rates: measure_rates(recording, number, snapshot.line()),
        codecs: codec_strings(alloc, known)?,
        size: size_of(picture),
        range: range_of(picture),
        frame_rate: frame_rate_of(recording, picture),
        channels: channels_of(sound),
        language: language_of(sound),
    })
}

/// Summarizes all renditions, in order. None before each has its init section.
pub fn summarize_renditions(
    alloc: Global,
    snapshot: &Snapshot,
) -> Result<Option<Vec<RenditionSummary>>, AllocError>
    ensures { IfOk result (λ found. option_map (λ v. v.items) found ≡ summaries_of snapshot.now) }
{
    let mut summaries = Vec::new(alloc);
    let renditions = snapshot.config().renditions();
    let mut number = 0;
    'renditions: while number < renditions.len() {
        let Some(recording) = snapshot.recording(number) else {
            return Ok(None);
        };
        summaries.push(summarize(alloc, snapshot, number, &renditions[number], recording)?)?;
        number += 1;
    }
    Ok(Some(summaries))
}
