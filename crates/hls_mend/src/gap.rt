//! Fills gaps.

ghost use Rattle.std.specs.Prelude.{◌≡◌, ◌<◌, ◌≤◌, length, slice_index_or, option_map, Some, All, IfOk, IfSome};
ghost use Rattle.hls_media_laws.specs.{FactLists.no_facts, IsInitOrUnit.IsUnit};
ghost use Rattle.hls_mend.specs.MendedUnits.{declared_rate as rate_of, is_audio as is_audio_init, audio_source, filler, filler_bytes, filler_len as len_of_fillers, filler_most as most_of_filler, filler_source, filler_ticks as ticks_of_filler, fillers_from, fillers_to, last_sync, source_by, source_of, source_view, span_filler, span_for as span_of};
ghost use Rattle.hls_mend.specs.Silence.{sound_view};
ghost use Rattle.hls_mend.specs.FirstSamples.{first_bytes, first_in, first_view};

use crate::fillers::{FirstSample, hold_sample, read_first_sample, repeat_sample};
use crate::made_units::read_span;
use crate::mended::ReadUnit;
use crate::silence::{Sound, find_sound};
use hls_boxes::kinds::UNIT_LIMIT;
use hls_core_laws::rendition::Rendition;
use hls_media_laws::facts::Facts;
use hls_media_laws::init::Init;
use hls_mend_laws::filler::FillerSpan;
use hls_record::Recording;
use std::alloc::{AllocError, Global};

/// The number of units among which one that begins with a sync sample is searched.
const MOST_UNITS: u64 = 4096;

/// The number of fillers that a gap has at most.
const MOST_FILLERS: u64 = 64;

/// The handler of audio, `soun`.
const AUDIO_HANDLER: u32 = 0x736f_756e;

/// What fillers are made of.
#[derive(Clone, Copy)]
pub struct FillerSource<'a> {
    /// A recorded unit.
    pub unit: &'a [u8],
    /// What is repeated, if it is audio.
    pub sound: Option<Sound<'a>>,
    /// The declared bit rate, in bits per second.
    pub bandwidth: u64,
}

/// The bit rate that a channel declares of rendition `n`, in bits per second; 0 if it has no such rendition.
pub fn declared_rate(renditions: &[Rendition], n: usize) -> u64
    ensures { result ≡ rate_of renditions.now n }
{
    match renditions.get(n) {
        Some(rendition) => rendition.bandwidth,
        None => 0,
    }
}

/// Whether the timing track is audio.
pub fn is_audio(init: &Init) -> bool
    ensures { result ≡ is_audio_init init.now }
{
    init.timing_track().handler == AUDIO_HANDLER
}

/// Whether unit `n` begins with a sync sample.
fn is_sync(recording: &Recording, n: u64) -> bool
    requires { n < length recording.now.facts }
    ensures { result ≡ (slice_index_or recording.now.facts n no_facts).sync }
{
    match recording.facts(n) {
        Some(facts) => facts.sync,
        None => unreachable!(),
    }
}

/// The number of the last unit that begins with a sync sample, among the last 4096.
fn find_last_sync(recording: &Recording) -> Option<u64>
    ensures value { result ≡ last_sync 4096 recording.now.facts (length recording.now.facts) }
    ensures within { IfSome result (λ n. n < length recording.now.facts) }
{
    let mut count = recording.count();
    let mut left = MOST_UNITS;
    'units: while left > 0 {
        if count == 0 {
            return None;
        }
        count -= 1;
        left -= 1;
        if is_sync(recording, count) {
            return Some(count);
        }
    }
    None
}

/// The number of the unit that fillers are made of.
#[tactic(auto, unfolding(crate::specs::MendedUnits::filler_source))]
fn find_unit(recording: &Recording, is_audio: bool) -> Option<u64>
    ensures value { result ≡ filler_source is_audio recording.now.facts }
    ensures within { IfSome result (λ n. n < length recording.now.facts) }
{
    if !is_audio {
        return find_last_sync(recording);
    }
    let count = recording.count();
    if count == 0 {
        return None;
    }
    Some(count - 1)
}

/// What fillers are made of, given the number of the recorded unit.
fn source_at<'a>(
    recording: &'a Recording,
    sound: Option<Sound<'a>>,
    bandwidth: u64,
    n: Option<u64>,
) -> Option<FillerSource<'a>>
    ensures { option_map source_view result ≡ source_by bandwidth recording.now (option_map sound_view sound.entry) n }
{
    let unit = recording.unit(n?)?;
    Some(FillerSource {
        unit,
        sound,
        bandwidth,
    })
}

/// What fillers of audio are made of.
fn find_audio_source<'a>(
    recording: &'a Recording,
    sound: Option<Sound<'a>>,
    bandwidth: u64,
) -> Option<FillerSource<'a>>
    ensures { option_map source_view result ≡ audio_source bandwidth recording.now (option_map sound_view sound.entry) }
{
    let sound = sound?;
    source_at(
        recording,
        Some(sound),
        bandwidth,
        find_unit(recording, true),
    )
}

/// What fillers of a rendition are made of.
#[tactic(auto, unfolding(crate::specs::MendedUnits::source_of))]
fn find_source<'a>(
    init: &Init,
    recording: &'a Recording,
    bandwidth: u64,
) -> Option<FillerSource<'a>>
    ensures { option_map source_view result ≡ source_of bandwidth init.now recording.now }
{
    if !is_audio(init) {
        return source_at(recording, None, bandwidth, find_unit(recording, false));
    }
    let sound = find_sound(init.timing_track().scale, recording.init_section_bytes());
    find_audio_source(recording, sound, bandwidth)
}

/// How long the fillers of a gap before a unit of this duration are, in ticks.
fn filler_len(duration: u64, gap: u64) -> u64
    ensures { result ≡ len_of_fillers duration gap }
{
    duration.max(gap / 64 + u64::from(gap % 64 > 0))
}

/// The length of the next filler of a gap, in ticks.
fn filler_ticks(len: u64, gap: u64) -> u64
    ensures value { result ≡ ticks_of_filler len gap }
    ensures within { result ≤ gap }
{
    if u128::from(gap) < 2 * u128::from(len) {
        gap
    } else {
        len
    }
}

/// The most bytes of a filler's samples.
fn filler_most(init: &Init, bandwidth: u64, ticks: u64) -> u32
    ensures { result ≡ most_of_filler init.now bandwidth ticks }
{
    let scale = u128::from(init.timing_track().scale);
    let twice = u128::from(bandwidth) * u128::from(ticks) / (4 * scale);
    twice.min(u128::from(UNIT_LIMIT)) as u32
}

/// The span of a filler.
fn span_for(init: &Init, bandwidth: u64, start: u64, ticks: u64) -> FillerSpan
    ensures { result ≡ span_of init.now bandwidth start ticks }
{
    FillerSpan {
        start,
        ticks,
        most: filler_most(init, bandwidth, ticks),
    }
}

/// The bytes of a filler, if one can be made.
fn make_bytes(
    alloc: Global,
    source: FillerSource<'_>,
    first: FirstSample<'_>,
    span: FillerSpan,
) -> Result<Option<Vec<u8>>, AllocError>
    requires within { first.sample.size ≤ length first.payload.now }
    ensures { IfOk result (λ o. option_map (λ v. v.items) o ≡ first_bytes (first_view first.entry) (source_view source.entry).sound span) }
{
    match source.sound {
        Some(sound) => repeat_sample(alloc, first, sound.length, sound.silent, span),
        None => hold_sample(alloc, first, span),
    }
}

/// A filler, if one can be made.
fn make_filler(
    alloc: Global,
    init: &Init,
    source: FillerSource<'_>,
    first: FirstSample<'_>,
    start: u64,
    ticks: u64,
) -> Result<Option<ReadUnit>, AllocError>
    requires within { first.sample.size ≤ length first.payload.now }
    requires read { Some (first_view first) ≡ first_in init.now (source_view source).unit }
    ensures value { IfOk result (λ o. o ≡ filler init.now (source_view source.entry) start ticks) }
    ensures valid { IfOk result (λ o. IfSome o (λ u. IsUnit init.now u.bytes u.facts)) }
{
    let span = span_for(init, source.bandwidth, start, ticks);
    let made = make_bytes(alloc, source, first, span)?;
    let end = u128::from(start) + u128::from(ticks);
    read_span(init, made, start, end)
}

/// Fillers of this length from a tick to another, by the first sample of their source. None follow one that can't be made, and there are at
/// most 64.
fn make_fillers(
    alloc: Global,
    init: &Init,
    source: FillerSource<'_>,
    first: FirstSample<'_>,
    len: u64,
    start: u64,
    end: u64,
) -> Result<Vec<ReadUnit>, AllocError>
    requires within { first.sample.size ≤ length first.payload.now }
    requires read { Some (first_view first) ≡ first_in init.now (source_view source).unit }
    ensures value { IfOk result (λ v. v.items ≡ fillers_from 64 init.now (source_view source.entry) len start end) }
    ensures valid { IfOk result (λ v. All (λ u. IsUnit init.now u.bytes u.facts) v.items) }
{
    let mut fillers = Vec::new(alloc);
    let mut next = start;
    let mut left = MOST_FILLERS;
    'fillers: while left > 0 {
        if next >= end {
            return Ok(fillers);
        }
        let ticks = filler_ticks(len, end - next);
        let Some(filler) = make_filler(alloc, init, source, first, next, ticks)? else {
            return Ok(fillers);
        };
        fillers.push(filler)?;
        next += ticks;
        left -= 1;
    }
    Ok(fillers)
}

/// Fillers of this length from a tick to another. Their source is read once.
#[tactic(auto, using(crate::proofs::FirstSteps::unread_fills_nothing))]
fn fill_from(
    alloc: Global,
    init: &Init,
    source: FillerSource<'_>,
    len: u64,
    start: u64,
    end: u64,
) -> Result<Vec<ReadUnit>, AllocError>
    ensures value { IfOk result (λ v. v.items ≡ fillers_from 64 init.now (source_view source.entry) len start end) }
    ensures valid { IfOk result (λ v. All (λ u. IsUnit init.now u.bytes u.facts) v.items) }
{
    match read_first_sample(alloc, init, source.unit)? {
        Some(first) => make_fillers(alloc, init, source, first, len, start, end),
        None => Ok(Vec::new(alloc)),
    }
}

/// The fillers of a gap from the end of a rendition with this declared bit rate to a unit. Of audio each repeats the silent frame, or else
/// the first sample of the last unit; of video it holds the last sync sample.
#[tactic(auto, unfolding(crate::specs::MendedUnits::fillers_to))]
pub fn fill_gap(
    alloc: Global,
    init: &Init,
    recording: &Recording,
    bandwidth: u64,
    facts: Facts,
) -> Result<Vec<ReadUnit>, AllocError>
    ensures value { IfOk result (λ v. v.items ≡ fillers_to bandwidth init.now recording.now facts) }
    ensures valid { IfOk result (λ v. All (λ u. IsUnit init.now u.bytes u.facts) v.items) }
{
    let Some(source) = find_source(init, recording, bandwidth) else {
        return Ok(Vec::new(alloc));
    };
    let start = recording.last_end();
    let len = filler_len(facts.duration, facts.start.saturating_sub(start));
    fill_from(alloc, init, source, len, start, facts.start)
}

/// A filler of a rendition with this declared bit rate, from `start` for the given number of ticks. None if the rendition has no unit to
/// make it of whose bytes are kept, if mending can't write that unit again, if it isn't known how long frames of audio are, or if the
/// filler would be larger than twice the bit rate for its time.
#[tactic(auto, unfolding(crate::specs::MendedUnits::span_filler))]
pub fn make_span_filler(
    alloc: Global,
    recording: &Recording,
    bandwidth: u64,
    start: u64,
    ticks: u64,
) -> Result<Option<ReadUnit>, AllocError>
    ensures value { IfOk result (λ o. o ≡ span_filler bandwidth recording.now start ticks) }
    ensures valid { IfOk result (λ o. IfSome o (λ u. IsUnit recording.now.init u.bytes u.facts)) }
{
    let init = recording.init();
    let Some(source) = find_source(init, recording, bandwidth) else {
        return Ok(None);
    };
    let Some(first) = read_first_sample(alloc, init, source.unit)? else {
        return Ok(None);
    };
    make_filler(alloc, init, source, first, start, ticks)
}
