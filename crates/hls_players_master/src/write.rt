//! Writes a players' master playlist.

ghost use Rattle.std.specs.Prelude.{◌≡◌, [], ◌∷◌, ◌++◌, not, OnOk, IfOk, codes};
ghost use Rattle.std.specs.List.{list_any};
ghost use Rattle.hls_m3u8.specs.Lines.{text_of_lines, header_line, quoted};
ghost use Rattle.hls_players_master.specs.Text.{uri_text, group_of, is_video, is_audio, is_in_group, is_first, default_text, language_attribute, channels_attribute, media_start, media_group, name_attribute, media_details, media_uri, media_line, media_of, media_lines, peak_of, average_of, larger_in, largest_of, sum_of_rates, average_attribute, stream_start, bandwidth_of, bandwidth_text, added_codec, with_sound, codecs_with, size_text, size_attribute, digit, three_digits, frame_rate_attribute, range_attribute, picture_text, stream_text, no_captions, audio_attribute, stream_lines, alone_lines, variant_of, variants_with, variants_alone, variants_of, variants_of_videos, grouped_lines, rendition_lines, independent_lines, players_master_text};

use crate::rates::{MOST_RATE, Rates};
use crate::summary::{CodecStrings, RenditionSummary};
use hls_codecs::track_format::{Channels, DisplaySize, VideoRange};
use hls_codecs::{push_channels, push_language};
use hls_text::push_number;
use std::alloc::{AllocError, Global};

fn push_uri(out: &mut Vec<u8>, number: usize) -> Result<(), AllocError>
    ensures { OnOk result (out.new.items ≡ out.old.items ++ uri_text number) }
{
    push_number(out, number as u64)?;
    out.extend_from_slice(b".m3u8")
}

fn push_quoted(out: &mut Vec<u8>, text: &[u8]) -> Result<(), AllocError>
    ensures { OnOk result (out.new.items ≡ out.old.items ++ quoted text.now) }
{
    out.push(b'"')?;
    out.extend_from_slice(text)?;
    out.push(b'"')?;
    Ok(())
}

/// The name of the audio group of a rendition.
fn group_of(summary: &RenditionSummary) -> &[u8]
    ensures { result.now ≡ group_of summary.now }
{
    match &summary.codecs {
        Some(codecs) if !codecs.sound.is_empty() => &codecs.sound,
        _ => b"audio".as_slice(),
    }
}

/// Whether a rendition is in this audio group.
fn is_in_group(group: &[u8], summary: &RenditionSummary) -> bool
    ensures { result ≡ is_in_group group.now summary.now }
{
    !summary.video && group_of(summary) == group
}

/// Whether one of these renditions is in this audio group.
fn has_group(group: &[u8], summaries: &[RenditionSummary]) -> bool
    ensures { result ≡ list_any (is_in_group group.now) summaries.now }
{
    summaries.iter().any(|summary| is_in_group(group, summary))
}

/// Whether none of the renditions before one is in its audio group.
fn is_first(before: &[RenditionSummary], summary: &RenditionSummary) -> bool
    ensures { result ≡ is_first before.now summary.now }
{
    !has_group(group_of(summary), before)
}

fn push_default(out: &mut Vec<u8>, first: bool) -> Result<(), AllocError>
    ensures { OnOk result (out.new.items ≡ out.old.items ++ default_text first) }
{
    if first {
        out.extend_from_slice(b",DEFAULT=YES,AUTOSELECT=YES")
    } else {
        out.extend_from_slice(b",DEFAULT=NO,AUTOSELECT=YES")
    }
}

fn push_language_attribute(out: &mut Vec<u8>, language: Option<u16>) -> Result<(), AllocError>
    ensures { OnOk result (out.new.items ≡ out.old.items ++ language_attribute language) }
{
    let Some(packed) = language else {
        return Ok(());
    };
    out.extend_from_slice(b",LANGUAGE=\"")?;
    push_language(out, packed)?;
    out.extend_from_slice(b"\"")
}

fn push_channels_attribute(out: &mut Vec<u8>, channels: Option<Channels>) -> Result<(), AllocError>
    ensures { OnOk result (out.new.items ≡ out.old.items ++ channels_attribute channels) }
{
    let Some(channels) = channels else {
        return Ok(());
    };
    out.extend_from_slice(b",CHANNELS=\"")?;
    push_channels(out, channels)?;
    out.extend_from_slice(b"\"")
}

#[tactic(auto, unfolding(crate::specs::Text::media_start))]
fn push_media_start(out: &mut Vec<u8>) -> Result<(), AllocError>
    ensures { OnOk result (out.new.items ≡ out.old.items ++ media_start) }
{
    out.extend_from_slice(b"#EXT-X-MEDIA:TYPE=AUDIO,GROUP-ID=")
}

fn push_media_group(out: &mut Vec<u8>, group: &[u8]) -> Result<(), AllocError>
    ensures { OnOk result (out.new.items ≡ out.old.items ++ media_group group.now) }
{
    push_media_start(out)?;
    push_quoted(out, group)
}

fn push_name_attribute(out: &mut Vec<u8>, name: &[u8]) -> Result<(), AllocError>
    ensures { OnOk result (out.new.items ≡ out.old.items ++ name_attribute name.now) }
{
    out.extend_from_slice(b",NAME=")?;
    push_quoted(out, name)
}

fn push_media_details(
    out: &mut Vec<u8>,
    first: bool,
    audio: &RenditionSummary,
) -> Result<(), AllocError>
    ensures { OnOk result (out.new.items ≡ out.old.items ++ media_details first audio.now) }
{
    push_default(out, first)?;
    push_language_attribute(out, audio.language)?;
    push_channels_attribute(out, audio.channels)
}

fn push_media_uri(out: &mut Vec<u8>, audio: &RenditionSummary) -> Result<(), AllocError>
    ensures { OnOk result (out.new.items ≡ out.old.items ++ media_uri audio.now) }
{
    out.extend_from_slice(b",URI=\"")?;
    push_uri(out, audio.number)?;
    out.extend_from_slice(b"\"")
}

/// Writes the line of an audio rendition (RFC 8216 section 4.3.4.1).
#[tactic(auto, unfolding(crate::specs::Text::media_line))]
fn push_media(out: &mut Vec<u8>, first: bool, audio: &RenditionSummary) -> Result<(), AllocError>
    ensures { OnOk result (out.new.items ≡ out.old.items ++ text_of_lines (media_line first audio.now ∷ [])) }
{
    push_media_group(out, group_of(audio))?;
    push_name_attribute(out, &audio.name)?;
    push_media_details(out, first, audio)?;
    push_media_uri(out, audio)?;
    out.extend_from_slice(b"\n")
}

/// Writes the line of an audio rendition after those before it, and nothing of a video rendition.
fn push_media_of(
    out: &mut Vec<u8>,
    before: &[RenditionSummary],
    audio: &RenditionSummary,
) -> Result<(), AllocError>
    ensures { OnOk result (out.new.items ≡ out.old.items ++ text_of_lines (media_of before.now audio.now)) }
{
    if audio.video {
        return Ok(());
    }
    push_media(out, is_first(before, audio), audio)
}

fn push_all_media(out: &mut Vec<u8>, summaries: &[RenditionSummary]) -> Result<(), AllocError>
    ensures { OnOk result (out.new.items ≡ out.old.items ++ text_of_lines (media_lines [] summaries.now)) }
{
    let mut n = 0;
    'renditions: while n < summaries.len() {
        push_media_of(out, &summaries[..n], &summaries[n])?;
        n += 1;
    }
    Ok(())
}

fn peak_of(rates: Option<Rates>) -> u64
    ensures { result ≡ peak_of rates }
{
    match rates {
        Some(rates) => rates.peak,
        None => 0,
    }
}

fn average_of(rates: Option<Rates>) -> u64
    ensures { result ≡ average_of rates }
{
    match rates {
        Some(rates) => rates.average,
        None => 0,
    }
}

/// The higher rates of some and those of a rendition, if it is in this audio group.
fn larger_in(group: &[u8], most: Rates, audio: &RenditionSummary) -> Rates
    ensures { result ≡ larger_in group.now most audio.now }
{
    if !is_in_group(group, audio) {
        return most;
    }
    Rates {
        peak: most.peak.max(peak_of(audio.rates)),
        average: most.average.max(average_of(audio.rates)),
    }
}

/// The highest rates of the renditions of an audio group.
fn largest_of(group: &[u8], summaries: &[RenditionSummary]) -> Rates
    ensures { result ≡ largest_of group.now summaries.now }
{
    let mut most = Rates {
        peak: 0,
        average: 0,
    };
    let mut n = 0;
    'renditions: while n < summaries.len() {
        most = larger_in(group, most, &summaries[n]);
        n += 1;
    }
    most
}

/// Two bit rates together, at most the highest that is written.
fn sum_of_rates(a: u64, b: u64) -> u64
    ensures { result ≡ sum_of_rates a b }
{
    a.saturating_add(b).min(MOST_RATE)
}

/// The bandwidth of a rendition with the peak of an audio group, never below the configured one.
fn bandwidth_of(video: &RenditionSummary, audio: u64) -> u64
    ensures { result ≡ bandwidth_of video.now audio }
{
    let peak = sum_of_rates(peak_of(video.rates), audio);
    video.bandwidth.max(peak)
}

fn push_average(out: &mut Vec<u8>, rates: Option<Rates>, audio: u64) -> Result<(), AllocError>
    ensures { OnOk result (out.new.items ≡ out.old.items ++ average_attribute rates audio) }
{
    let Some(rates) = rates else {
        return Ok(());
    };
    out.extend_from_slice(b",AVERAGE-BANDWIDTH=")?;
    push_number(out, sum_of_rates(rates.average, audio))
}

#[tactic(auto, unfolding(crate::specs::Text::stream_start))]
fn push_stream_start(out: &mut Vec<u8>) -> Result<(), AllocError>
    ensures { OnOk result (out.new.items ≡ out.old.items ++ stream_start) }
{
    out.extend_from_slice(b"#EXT-X-STREAM-INF:BANDWIDTH=")
}

/// Writes the bandwidths of a rendition with the largest audio of a group (RFC 8216 section 4.3.4.2).
#[tactic(auto, unfolding(crate::specs::Text::bandwidth_text))]
fn push_bandwidth(
    out: &mut Vec<u8>,
    video: &RenditionSummary,
    audio: Rates,
) -> Result<(), AllocError>
    ensures { OnOk result (out.new.items ≡ out.old.items ++ bandwidth_text video.now audio) }
{
    push_stream_start(out)?;
    push_number(out, bandwidth_of(video, audio.peak))?;
    push_average(out, video.rates, audio.average)
}

/// Writes a codec into a list that has some already, or none.
fn push_codec_after(out: &mut Vec<u8>, before: bool, text: &[u8]) -> Result<(), AllocError>
    ensures { OnOk result (out.new.items ≡ out.old.items ++ added_codec before text.now) }
{
    if text.is_empty() {
        return Ok(());
    }
    if before {
        out.push(b',')?;
    }
    out.extend_from_slice(text)
}

/// Writes the codecs of a rendition, and that of a sound if it isn't one of them.
fn push_codecs_with(
    out: &mut Vec<u8>,
    codecs: &CodecStrings,
    sound: &[u8],
) -> Result<(), AllocError>
    ensures { OnOk result (out.new.items ≡ out.old.items ++ with_sound codecs.now sound.now) }
{
    let own: &[u8] = &codecs.sound;
    out.extend_from_slice(&codecs.picture)?;
    push_codec_after(out, !codecs.picture.is_empty(), own)?;
    if own == sound {
        return Ok(());
    }
    push_codec_after(out, !codecs.picture.is_empty() || !own.is_empty(), sound)
}

/// Writes the CODECS of a rendition with an audio group, or nothing unless both are known.
fn push_codecs(
    out: &mut Vec<u8>,
    codecs: &Option<CodecStrings>,
    others: &Option<CodecStrings>,
) -> Result<(), AllocError>
    ensures { OnOk result (out.new.items ≡ out.old.items ++ codecs_with codecs.now others.now) }
{
    let Some(codecs) = codecs else {
        return Ok(());
    };
    let Some(others) = others else {
        return Ok(());
    };
    if codecs.picture.is_empty() && codecs.sound.is_empty() && others.sound.is_empty() {
        return Ok(());
    }
    out.extend_from_slice(b",CODECS=\"")?;
    push_codecs_with(out, codecs, &others.sound)?;
    out.extend_from_slice(b"\"")
}

fn push_size_text(out: &mut Vec<u8>, size: DisplaySize) -> Result<(), AllocError>
    ensures { OnOk result (out.new.items ≡ out.old.items ++ size_text size) }
{
    push_number(out, u64::from(size.width))?;
    out.push(b'x')?;
    push_number(out, u64::from(size.height))
}

fn push_size(out: &mut Vec<u8>, size: Option<DisplaySize>) -> Result<(), AllocError>
    ensures { OnOk result (out.new.items ≡ out.old.items ++ size_attribute size) }
{
    let Some(size) = size else {
        return Ok(());
    };
    out.extend_from_slice(b",RESOLUTION=")?;
    push_size_text(out, size)
}

/// Writes the last digit of a number.
fn push_digit(out: &mut Vec<u8>, n: u32) -> Result<(), AllocError>
    ensures { OnOk result (out.new.items ≡ out.old.items ++ digit n) }
{
    out.push(48 + (n % 10) as u8)?;
    Ok(())
}

fn push_three_digits(out: &mut Vec<u8>, n: u32) -> Result<(), AllocError>
    ensures { OnOk result (out.new.items ≡ out.old.items ++ three_digits n) }
{
    push_digit(out, n / 100)?;
    push_digit(out, n / 10)?;
    push_digit(out, n)
}

fn push_frame_rate(out: &mut Vec<u8>, rate: Option<u32>) -> Result<(), AllocError>
    ensures { OnOk result (out.new.items ≡ out.old.items ++ frame_rate_attribute rate) }
{
    let Some(rate) = rate else {
        return Ok(());
    };
    out.extend_from_slice(b",FRAME-RATE=")?;
    push_number(out, u64::from(rate / 1000))?;
    out.push(b'.')?;
    push_three_digits(out, rate)
}

fn push_range(out: &mut Vec<u8>, range: Option<VideoRange>) -> Result<(), AllocError>
    ensures { OnOk result (out.new.items ≡ out.old.items ++ range_attribute range) }
{
    match range {
        None => Ok(()),
        Some(VideoRange::Sdr) => out.extend_from_slice(b",VIDEO-RANGE=SDR"),
        Some(VideoRange::Hlg) => out.extend_from_slice(b",VIDEO-RANGE=HLG"),
        Some(VideoRange::Pq) => out.extend_from_slice(b",VIDEO-RANGE=PQ"),
    }
}

#[tactic(auto, unfolding(crate::specs::Text::picture_text))]
fn push_picture(out: &mut Vec<u8>, video: &RenditionSummary) -> Result<(), AllocError>
    ensures { OnOk result (out.new.items ≡ out.old.items ++ picture_text video.now) }
{
    push_size(out, video.size)?;
    push_frame_rate(out, video.frame_rate)?;
    push_range(out, video.range)
}

/// Writes the URI of a rendition's media playlist as a line.
fn push_uri_line(out: &mut Vec<u8>, number: usize) -> Result<(), AllocError>
    ensures { OnOk result (out.new.items ≡ out.old.items ++ text_of_lines (uri_text number ∷ [])) }
{
    push_uri(out, number)?;
    out.extend_from_slice(b"\n")
}

/// Writes the attributes of a rendition with these rates of an audio group and the codecs of another rendition.
#[tactic(auto, unfolding(crate::specs::Text::stream_text))]
fn push_stream(
    out: &mut Vec<u8>,
    video: &RenditionSummary,
    audio: Rates,
    others: &Option<CodecStrings>,
) -> Result<(), AllocError>
    ensures { OnOk result (out.new.items ≡ out.old.items ++ stream_text video.now audio others.now) }
{
    push_bandwidth(out, video, audio)?;
    push_codecs(out, &video.codecs, others)?;
    push_picture(out, video)
}

fn push_audio_attribute(out: &mut Vec<u8>, group: &[u8]) -> Result<(), AllocError>
    ensures { OnOk result (out.new.items ≡ out.old.items ++ audio_attribute group.now) }
{
    out.extend_from_slice(b",AUDIO=")?;
    push_quoted(out, group)
}

/// Writes the end of a variant stream's line, and the URI of its media playlist.
fn push_stream_end(out: &mut Vec<u8>, number: usize) -> Result<(), AllocError>
    ensures { OnOk result (out.new.items ≡ out.old.items ++ text_of_lines (no_captions ∷ uri_text number ∷ [])) }
{
    out.extend_from_slice(b",CLOSED-CAPTIONS=NONE\n")?;
    push_uri_line(out, number)
}

/// Writes the end of the line of a variant stream with an audio group, and the URI of its media playlist.
fn push_grouped_end(out: &mut Vec<u8>, group: &[u8], number: usize) -> Result<(), AllocError>
    ensures { OnOk result (out.new.items ≡ out.old.items ++ text_of_lines ((audio_attribute group.now ++ no_captions) ∷ uri_text number ∷ [])) }
{
    push_audio_attribute(out, group)?;
    push_stream_end(out, number)
}

/// Writes a rendition as a variant stream with the audio group of another.
#[tactic(auto, unfolding(crate::specs::Text::stream_with))]
fn push_stream_with(
    out: &mut Vec<u8>,
    summaries: &[RenditionSummary],
    video: &RenditionSummary,
    audio: &RenditionSummary,
) -> Result<(), AllocError>
    ensures { OnOk result (out.new.items ≡ out.old.items ++ text_of_lines (stream_lines summaries.now video.now audio.now)) }
{
    let group = group_of(audio);
    push_stream(out, video, largest_of(group, summaries), &audio.codecs)?;
    push_grouped_end(out, group, video.number)
}

/// Writes a rendition as a variant stream of its own.
#[tactic(auto, unfolding(crate::specs::Text::stream_alone))]
fn push_stream_alone(out: &mut Vec<u8>, video: &RenditionSummary) -> Result<(), AllocError>
    ensures { OnOk result (out.new.items ≡ out.old.items ++ text_of_lines (alone_lines video.now)) }
{
    let none = Rates {
        peak: 0,
        average: 0,
    };
    push_stream(out, video, none, &video.codecs)?;
    push_stream_end(out, video.number)
}

/// Writes a rendition with an audio group, given by its first rendition, and nothing for the others of the group.
fn push_variant_of(
    out: &mut Vec<u8>,
    summaries: &[RenditionSummary],
    video: &RenditionSummary,
    before: &[RenditionSummary],
    audio: &RenditionSummary,
) -> Result<(), AllocError>
    ensures { OnOk result (out.new.items ≡ out.old.items ++ text_of_lines (variant_of summaries.now video.now before.now audio.now)) }
{
    if audio.video || !is_first(before, audio) {
        return Ok(());
    }
    push_stream_with(out, summaries, video, audio)
}

/// Writes the variant streams of a rendition: one with each audio group.
fn push_variants_with(
    out: &mut Vec<u8>,
    summaries: &[RenditionSummary],
    video: &RenditionSummary,
) -> Result<(), AllocError>
    ensures { OnOk result (out.new.items ≡ out.old.items ++ text_of_lines (variants_with summaries.now video.now [] summaries.now)) }
{
    let mut n = 0;
    'renditions: while n < summaries.len() {
        push_variant_of(out, summaries, video, &summaries[..n], &summaries[n])?;
        n += 1;
    }
    Ok(())
}

/// Writes the variant streams of a video rendition, and nothing of an audio rendition.
fn push_variants_of(
    out: &mut Vec<u8>,
    summaries: &[RenditionSummary],
    video: &RenditionSummary,
) -> Result<(), AllocError>
    ensures { OnOk result (out.new.items ≡ out.old.items ++ text_of_lines (variants_of summaries.now video.now)) }
{
    if !video.video {
        return Ok(());
    }
    push_variants_with(out, summaries, video)
}

fn push_videos(out: &mut Vec<u8>, summaries: &[RenditionSummary]) -> Result<(), AllocError>
    ensures { OnOk result (out.new.items ≡ out.old.items ++ text_of_lines (variants_of_videos summaries.now summaries.now)) }
{
    let mut n = 0;
    'renditions: while n < summaries.len() {
        push_variants_of(out, summaries, &summaries[n])?;
        n += 1;
    }
    Ok(())
}

fn push_all_alone(out: &mut Vec<u8>, summaries: &[RenditionSummary]) -> Result<(), AllocError>
    ensures { OnOk result (out.new.items ≡ out.old.items ++ text_of_lines (variants_alone summaries.now)) }
{
    let mut n = 0;
    'renditions: while n < summaries.len() {
        push_stream_alone(out, &summaries[n])?;
        n += 1;
    }
    Ok(())
}

fn has_video(summaries: &[RenditionSummary]) -> bool
    ensures { result ≡ list_any is_video summaries.now }
{
    summaries.iter().any(|summary| summary.video)
}

fn has_audio(summaries: &[RenditionSummary]) -> bool
    ensures { result ≡ list_any is_audio summaries.now }
{
    summaries.iter().any(|summary| !summary.video)
}

/// Writes audio renditions in groups, and each video rendition with each group.
fn push_grouped(out: &mut Vec<u8>, summaries: &[RenditionSummary]) -> Result<(), AllocError>
    ensures { OnOk result (out.new.items ≡ out.old.items ++ text_of_lines (grouped_lines summaries.now)) }
{
    push_all_media(out, summaries)?;
    push_videos(out, summaries)?;
    Ok(())
}

fn push_renditions(out: &mut Vec<u8>, summaries: &[RenditionSummary]) -> Result<(), AllocError>
    ensures { OnOk result (out.new.items ≡ out.old.items ++ text_of_lines (rendition_lines summaries.now)) }
{
    if has_video(summaries) && has_audio(summaries) {
        return push_grouped(out, summaries);
    }
    push_all_alone(out, summaries)
}

fn push_head(out: &mut Vec<u8>, independent: bool) -> Result<(), AllocError>
    ensures { OnOk result (out.new.items ≡ out.old.items ++ text_of_lines (header_line ∷ codes "#EXT-X-VERSION:6" ∷ independent_lines independent)) }
{
    out.extend_from_slice(b"#EXTM3U\n#EXT-X-VERSION:6\n")?;
    if independent {
        out.extend_from_slice(b"#EXT-X-INDEPENDENT-SEGMENTS\n")?;
    }
    Ok(())
}

/// Writes the master playlist of these renditions.
#[tactic(auto, unfolding(crate::specs::Text::players_master_text))]
pub fn write_players_master(
    alloc: Global,
    independent: bool,
    summaries: &[RenditionSummary],
) -> Result<Vec<u8>, AllocError>
    ensures { IfOk result (λ text. text.items ≡ players_master_text independent summaries.now) }
{
    let mut out = Vec::new(alloc);
    push_head(&mut out, independent)?;
    push_renditions(&mut out, summaries)?;
    Ok(out)
}
