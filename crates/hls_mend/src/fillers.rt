//! Units that fill a gap, made of a unit that was recorded.

ghost use Rattle.std.specs.Prelude.{◌≡◌, ◌<◌, ◌≤◌, ◌-◌, ◌^◌, replicate, length, option_map, option_and_then, true, IfOk, IfSome};
ghost use Rattle.std.specs.List.{concat};
ghost use Rattle.hls_mend_laws.specs.Fillers.{is_span as can_be_span, held, held_unit, silence, silent_sample as sample_of_silence, frames_end as end_of_frames, whole_frames, frame_count as count_of_frames, silent_samples, lasts_a_tick, are_few, can_repeat as may_repeat, silence_by, silent_unit as unit_of_silence};
ghost use Rattle.hls_mend_laws.specs.FragmentsRead.{fragment_of};
ghost use Rattle.hls_mend_laws.specs.Retimed.{written};
ghost use Rattle.hls_mend.specs.FirstSamples.{first_of, first_view};

use crate::fragment::read_fragment;
use crate::write::{FragmentParts, write_unit};
use hls_media_laws::init::Init;
use hls_mend_laws::filler::{FillerSpan, FrameLength};
use hls_mend_laws::sample::Sample;
use std::alloc::{AllocError, Global};

/// The most frames of a filler.
const MOST_FRAMES: u128 = 65536;

/// Whether the ticks of a span are above 0 and fit 32 bits.
fn is_span(span: FillerSpan) -> bool
    ensures { result ≡ can_be_span span }
{
    span.ticks > 0 && span.ticks < 1 << 32
}

/// What fillers are made of: the first sample of a recorded unit, and what a filler keeps of that unit. It is read once for all fillers of
/// a gap, since a unit may have tens of thousands of samples.
#[derive(Clone, Copy)]
pub struct FirstSample<'a> {
    /// The sequence number.
    pub number: u32,
    /// The content of the `tfhd`.
    pub head: &'a [u8],
    /// The first sample.
    pub sample: Sample,
    /// The samples' bytes, which begin with those of the first.
    pub payload: &'a [u8],
}

/// Reads the first sample of a recorded unit. None if mending can't write the unit again.
pub fn read_first_sample<'a>(
    alloc: Global,
    init: &Init,
    unit: &'a [u8],
) -> Result<Option<FirstSample<'a>>, AllocError>
    ensures value { IfOk result (λ o. option_map first_view o ≡ option_and_then first_of (fragment_of init.now unit.now)) }
    ensures within { IfOk result (λ o. IfSome o (λ first. first.sample.size ≤ length first.payload.now)) }
{
    let Some(fragment) = read_fragment(alloc, init, unit)? else {
        return Ok(None);
    };
    if fragment.samples.is_empty() {
        return Ok(None);
    }
    Ok(Some(FirstSample {
        number: fragment.number,
        head: fragment.head,
        sample: fragment.samples[0],
        payload: fragment.payload,
    }))
}

/// A filler that holds a sample for the ticks of the span, if these fit and the sample hasn't more bytes than the filler may have.
pub fn hold_sample(
    alloc: Global,
    first: FirstSample<'_>,
    span: FillerSpan,
) -> Result<Option<Vec<u8>>, AllocError>
    requires { first.sample.size ≤ length first.payload.now }
    ensures { IfOk result (λ o. option_map (λ v. v.items) o ≡ option_and_then written (held span (first_view first.entry))) }
{
    if !is_span(span) || first.sample.size > span.most {
        return Ok(None);
    }
    let sample = Sample {
        duration: span.ticks as u32,
        ..first.sample
    };
    let parts = FragmentParts {
        front: &[],
        number: first.number,
        head: first.head,
        start: span.start,
        samples: &[sample],
        payload: &first.payload[..first.sample.size as usize],
    };
    write_unit(alloc, parts)
}

/// A filler that holds the first sample of a recorded unit for the ticks of the span: if that is a sync sample of video, the picture
/// freezes. None if mending can't write the unit again, if the ticks are 0 or 2^32 or more, or if the sample has more bytes than the
/// filler may have.
#[tactic(auto, unfolding(hls_mend_laws::specs::Fillers::held_unit), using(crate::proofs::FirstSteps::holds_none, crate::proofs::FirstSteps::holds_first))]
pub fn hold_unit(
    alloc: Global,
    init: &Init,
    unit: &[u8],
    span: FillerSpan,
) -> Result<Option<Vec<u8>>, AllocError>
    ensures { IfOk result (λ o. option_map (λ v. v.items) o ≡ held_unit init.now unit.now span) }
{
    let Some(first) = read_first_sample(alloc, init, unit)? else {
        return Ok(None);
    };
    hold_sample(alloc, first, span)
}

/// The tick at which the first `count` frames end.
fn frames_end(length: FrameLength, count: u32) -> u128
    requires { 0 < length.rate }
    ensures { result ≡ end_of_frames length count }
{
    u128::from(count) * u128::from(length.ticks) / u128::from(length.rate)
}

/// The number of frames that end within these ticks.
#[tactic(auto, using(crate::proofs::FrameSteps::frames_fit))]
fn frame_count(length: FrameLength, ticks: u64) -> u128
    requires { 0 < length.ticks }
    ensures value { result ≡ count_of_frames length ticks }
    ensures within { end_of_frames length result ≤ ticks }
{
    u128::from(ticks) * u128::from(length.rate) / u128::from(length.ticks)
}

/// The first `count` frames.
#[tactic(auto, using(crate::proofs::FrameSteps::frames_next, crate::proofs::FrameSteps::frames_zero))]
fn make_whole_frames(
    alloc: Global,
    length: FrameLength,
    size: u32,
    count: u32,
) -> Result<Vec<Sample>, AllocError>
    requires rate { 0 < length.rate }
    requires short { end_of_frames length count < 2 ^ 32 }
    ensures { IfOk result (λ v. v.items ≡ whole_frames length size count) }
{
    let mut samples = Vec::new(alloc);
    for done in 0..count {
        let ticks = frames_end(length, done + 1) - frames_end(length, done);
        samples.push(silent_sample(ticks as u32, size))?;
    }
    Ok(samples)
}

/// The ticks that are left after the first `count` frames.
fn ticks_left(length: FrameLength, count: u32, ticks: u32) -> u32
    requires rate { 0 < length.rate }
    requires within { end_of_frames length count ≤ ticks }
    ensures { result ≡ ticks - end_of_frames length count }
{
    ticks - frames_end(length, count) as u32
}

/// Frames for the given number of ticks; the last one may be shorter.
fn make_frames(
    alloc: Global,
    length: FrameLength,
    size: u32,
    ticks: u32,
) -> Result<Vec<Sample>, AllocError>
    requires lasts { lasts_a_tick length ≡ true }
    requires few { count_of_frames length ticks < 65536 }
    ensures { IfOk result (λ v. v.items ≡ silent_samples length size ticks) }
{
    let count = frame_count(length, u64::from(ticks)) as u32;
    let mut samples = make_whole_frames(alloc, length, size, count)?;
    let left = ticks_left(length, count, ticks);
    if left == 0 {
        return Ok(samples);
    }
    samples.push(silent_sample(left, size))?;
    Ok(samples)
}

/// One frame of silence.
fn silent_sample(ticks: u32, size: u32) -> Sample
    ensures { result ≡ sample_of_silence ticks size }
{
    Sample {
        duration: ticks,
        size,
        flags: 0x0200_0000,
        offset: 0,
    }
}

/// The same frame as often as given.
fn repeat_frame(alloc: Global, frame: &[u8], times: usize) -> Result<Vec<u8>, AllocError>
    ensures { IfOk result (λ v. v.items ≡ concat (replicate times frame.now)) }
{
    let mut bytes = Vec::new(alloc);
    let mut left = times;
    'frames: while left > 0 {
        bytes.extend_from_slice(frame)?;
        left -= 1;
    }
    Ok(bytes)
}

/// Whether a frame lasts for a tick at least.
fn lasts_a_tick(length: FrameLength) -> bool
    ensures { result ≡ lasts_a_tick length }
{
    length.rate > 0 && u64::from(length.rate) <= length.ticks
}

/// Whether the frames of a span are neither too many nor larger than the filler may be.
fn are_few(length: FrameLength, size: usize, span: FillerSpan) -> bool
    requires { 0 < length.ticks }
    ensures value { result ≡ are_few length size span }
    ensures small { result ≡ true → size < 2 ^ 32 }
{
    let count = frame_count(length, span.ticks);
    count < MOST_FRAMES && (count + 1) * size as u128 <= u128::from(span.most)
}

/// Whether frames of this length and this size can be repeated over the span.
fn can_repeat(length: FrameLength, size: usize, span: FillerSpan) -> bool
    ensures value { result ≡ may_repeat length size span }
    ensures small { result ≡ true → size < 2 ^ 32 }
{
    is_span(span) && lasts_a_tick(length) && are_few(length, size, span)
}

/// A filler of this frame as often as needed.
fn repeat_over(
    alloc: Global,
    first: FirstSample<'_>,
    length: FrameLength,
    frame: &[u8],
    span: FillerSpan,
) -> Result<Option<Vec<u8>>, AllocError>
    ensures { IfOk result (λ o. option_map (λ v. v.items) o ≡ option_and_then written (silence_by length frame.now (first_view first.entry) span)) }
{
    if !can_repeat(length, frame.len(), span) {
        return Ok(None);
    }
    let samples = make_frames(alloc, length, frame.len() as u32, span.ticks as u32)?;
    let payload = repeat_frame(alloc, frame, samples.len())?;
    let parts = FragmentParts {
        front: &[],
        number: first.number,
        head: first.head,
        start: span.start,
        samples: &samples,
        payload: &payload,
    };
    write_unit(alloc, parts)
}

/// A filler of a frame as often as needed for the ticks of the span: the silent frame, or else the sample.
pub fn repeat_sample(
    alloc: Global,
    first: FirstSample<'_>,
    frames: FrameLength,
    silent: Option<&[u8]>,
    span: FillerSpan,
) -> Result<Option<Vec<u8>>, AllocError>
    requires { first.sample.size ≤ length first.payload.now }
    ensures { IfOk result (λ o. option_map (λ v. v.items) o ≡ option_and_then written (silence frames (option_map (λ frame. frame.now) silent.entry) span (first_view first.entry))) }
{
    let frame = match silent {
        Some(frame) => frame,
        None => &first.payload[..first.sample.size as usize],
    };
    repeat_over(alloc, first, frames, frame, span)
}

/// A filler of a frame as often as needed for the ticks of the span: the silent frame, or else the first sample of the recorded unit. Each
/// is as long as the codec says; the last one may be shorter. None if mending can't write the unit again, if the ticks are 0 or 2^32 or
/// more, if there were more than 65536 frames, or if they had more bytes than the filler may have.
#[tactic(auto, unfolding(hls_mend_laws::specs::Fillers::silent_unit), using(crate::proofs::FirstSteps::repeats_none, crate::proofs::FirstSteps::repeats_first))]
pub fn silent_unit(
    alloc: Global,
    init: &Init,
    unit: &[u8],
    length: FrameLength,
    silent: Option<&[u8]>,
    span: FillerSpan,
) -> Result<Option<Vec<u8>>, AllocError>
    ensures { IfOk result (λ o. option_map (λ v. v.items) o ≡ unit_of_silence init.now unit.now length (option_map (λ frame. frame.now) silent.entry) span) }
{
    let Some(first) = read_first_sample(alloc, init, unit)? else {
        return Ok(None);
    };
    repeat_sample(alloc, first, length, silent, span)
}
