//! Makes the filler that a rendition needs next.

ghost use Rattle.std.specs.Prelude.{◌≡◌, ◌<◌, option_map, IfOk, IfSome, length};
ghost use Rattle.std.specs.Option.{option_copied};
ghost use Rattle.hls_core_laws.specs.Moves.{IsFittingAsSeen};
ghost use Rattle.hls_media_laws.specs.{FactLists.fact_at, IsInitOrUnit.IsUnit};
ghost use Rattle.hls_mend.specs.MendedUnits.{is_audio as is_audio_init};
ghost use Rattle.hls_housekeeper.specs.Away.{accept_of, away_at, begins_second as second_begins, fill_span, filler_in, filler_of, is_boundary as is_boundary_at, leader_at, least_span_us as least_span, next_boundary as next_boundary_of, next_filler, over_ticks as ticks_over, rescaled, span_by, span_over as span_over_unit, span_to as span_to_boundary, tick_at as tick_of};

use crate::away::{away_recording, end_us, find_leader, is_audio, least_end, present_recording};
use hls_core::snapshot::Snapshot;
use hls_core_laws::event::Event;
use hls_media_laws::facts::Facts;
use hls_mend::mended::ReadUnit;
use hls_mend::{declared_rate, make_span_filler};
use hls_record::Recording;
use std::alloc::{AllocError, Global};

/// How many of the leader's last units are looked at.
const MOST_UNITS: u64 = 4096;

/// Microseconds per second.
const SECOND: u64 = 1_000_000;

/// Where a filler starts and how long it lasts, in ticks of its rendition.
#[derive(Clone, Copy)]
pub struct FillSpan {
    pub start: u64,
    pub ticks: u64,
}

/// Whether a second of the clock begins within a unit.
fn begins_second(facts: Facts) -> bool
    ensures { result ≡ second_begins facts }
{
    let until_second = (SECOND - facts.start_us % SECOND) % SECOND;
    until_second < facts.end_us.saturating_sub(facts.start_us)
}

/// Whether a unit begins with a sync sample, at least so long after the end; where audio leads, one for each second.
fn is_boundary(lead: &Recording, end_us: u64, least_us: u64, facts: Facts) -> bool
    ensures { result ≡ is_boundary_at (is_audio_init lead.now.init) end_us least_us facts }
{
    facts.sync
        && (!is_audio(lead) || begins_second(facts))
        && least_us <= facts.start_us.saturating_sub(end_us)
}

/// The first boundary of the leader that is at least so long after the end.
fn find_boundary(lead: &Recording, end_us: u64, least_us: u64) -> Option<Facts>
    ensures { result ≡ next_boundary_of (is_audio_init lead.now.init) end_us least_us lead.now.facts }
{
    let count = lead.count();
    let mut n = count.saturating_sub(MOST_UNITS);
    'units: while n < count {
        let facts = facts_at(lead, n);
        if is_boundary(lead, end_us, least_us, facts) {
            return Some(facts);
        }
        n += 1;
    }
    None
}

/// The facts of unit `n`.
fn facts_at(recording: &Recording, n: u64) -> Facts
    requires { n < length recording.now.facts }
    ensures { result ≡ fact_at recording.now.facts n }
{
    match recording.facts(n) {
        Some(facts) => facts,
        None => unreachable!(),
    }
}

/// How far after a rendition's end the next boundary is, at least, in microseconds.
fn least_span_us(is_audio: bool) -> u64
    ensures { result ≡ least_span is_audio }
{
    if is_audio { 100_000 } else { 1 }
}

/// A tick of the leader, in ticks of the rendition, rounded up.
fn tick_at(lead: &Recording, recording: &Recording, tick: u64) -> u128
    ensures { result ≡ tick_of lead.now recording.now tick }
{
    let from = u128::from(lead.init().timing_track().scale);
    let to = u128::from(recording.init().timing_track().scale);
    (u128::from(tick) * to + (from - 1)) / from
}

/// From the rendition's end to a boundary, if all that are there have come as far.
fn span_to(limit_us: u64, lead: &Recording, recording: &Recording, facts: Facts) -> Option<FillSpan>
    ensures { result ≡ span_to_boundary limit_us lead.now recording.now facts }
{
    if facts.start_us > limit_us {
        return None;
    }
    let start = recording.last_end();
    let span = tick_at(lead, recording, facts.start).saturating_sub(u128::from(start));
    let ticks = u64::try_from(span).unwrap_or(u64::MAX);
    Some(FillSpan { start, ticks })
}

/// The time of a unit of the leader, but at least `least_us`, in ticks of the rendition.
fn over_ticks(least_us: u64, lead: &Recording, recording: &Recording, facts: Facts) -> u64
    ensures { result ≡ ticks_over least_us lead.now recording.now facts }
{
    let start = tick_at(lead, recording, facts.start);
    let end = tick_at(lead, recording, facts.start.saturating_add(facts.duration));
    let scale = u128::from(recording.init().timing_track().scale);
    let least = (u128::from(least_us) * scale + 999_999) / 1_000_000;
    u64::try_from(end.saturating_sub(start).max(least)).unwrap_or(u64::MAX)
}

/// After a hole: from a boundary to its end, if all that are there have come up to it, and it isn't longer than `fill_us`.
fn span_over(
    fill_us: u32,
    limit_us: u64,
    lead: &Recording,
    recording: &Recording,
    facts: Facts,
) -> Option<FillSpan>
    ensures { result ≡ span_over_unit fill_us limit_us (least_span (is_audio_init recording.now.init)) lead.now recording.now facts }
{
    let least = least_span_us(is_audio(recording));
    let from = u128::from(facts.start_us);
    let until = u128::from(facts.end_us).max(from + u128::from(least));
    if until > u128::from(limit_us) || until.saturating_sub(from) > u128::from(fill_us) {
        return None;
    }
    let start = tick_at(lead, recording, facts.start);
    Some(FillSpan {
        start: u64::try_from(start).unwrap_or(u64::MAX),
        ticks: over_ticks(least, lead, recording, facts),
    })
}

/// What is filled up to a boundary, or from it on if it is more than `fill_us` after the rendition's end.
fn span_at(
    fill_us: u32,
    limit_us: u64,
    lead: &Recording,
    recording: &Recording,
    found: Option<Facts>,
) -> Option<FillSpan>
    ensures { result ≡ span_by fill_us limit_us lead.now recording.now found }
{
    let facts = found?;
    let gap_us = facts.start_us.saturating_sub(end_us(recording));
    if gap_us <= u64::from(fill_us) {
        return span_to(limit_us, lead, recording, facts);
    }
    span_over(fill_us, limit_us, lead, recording, facts)
}

/// What is filled of a rendition next.
#[tactic(auto, using(crate::proofs::FillLaws::nothing_due))]
fn find_span(
    fill_us: u32,
    limit_us: u64,
    lead: &Recording,
    recording: &Recording,
) -> Option<FillSpan>
    ensures { result ≡ fill_span fill_us limit_us lead.now recording.now }
{
    let end = end_us(recording);
    let least = least_span_us(is_audio(recording));
    // nothing is looked for before all have come far enough
    if limit_us.saturating_sub(end) < least {
        return None;
    }
    let found = find_boundary(lead, end, least);
    span_at(fill_us, limit_us, lead, recording, found)
}

/// The filler that a rendition needs next, if there is one.
fn make_next_filler(
    alloc: Global,
    bandwidth: u64,
    fill_us: u32,
    limit_us: u64,
    lead: &Recording,
    recording: &Recording,
) -> Result<Option<ReadUnit>, AllocError>
    ensures value { IfOk result (λ o. o ≡ filler_in bandwidth recording.now (fill_span fill_us limit_us lead.now recording.now)) }
    ensures valid { IfOk result (λ o. IfSome o (λ u. IsUnit recording.now.init u.bytes u.facts)) }
{
    match find_span(fill_us, limit_us, lead, recording) {
        Some(span) => make_span_filler(alloc, recording, bandwidth, span.start, span.ticks),
        None => Ok(None),
    }
}

/// The recording of the rendition whose boundaries the others are filled to.
fn leader_recording<'a>(snapshot: &'a Snapshot, silent: &[bool]) -> Option<&'a Recording>
    ensures { option_copied result ≡ leader_at snapshot.now silent.now (length snapshot.now.config.renditions) }
{
    match find_leader(snapshot, silent) {
        Some(leader) => present_recording(snapshot, silent, leader),
        None => None,
    }
}

/// The filler that a rendition needs next, if it is away and others are there: up to the next boundary of these, or after their hole.
#[tactic(auto, unfolding(crate::specs::Away::filler_of))]
pub fn find_filler(
    alloc: Global,
    fill_us: u32,
    snapshot: &Snapshot,
    silent: &[bool],
    rendition: usize,
) -> Result<Option<Event>, AllocError>
    ensures value { IfOk result (λ o. o ≡ option_map (accept_of rendition) (filler_of fill_us snapshot.now silent.now rendition)) }
    ensures fits { IfOk result (λ o. IfSome o (λ event. IsFittingAsSeen snapshot.now event)) }
{
    let Some(recording) = away_recording(snapshot, silent, rendition) else {
        return Ok(None);
    };
    let (Some(limit_us), Some(lead)) = (
        least_end(snapshot, silent),
        leader_recording(snapshot, silent),
    ) else {
        return Ok(None);
    };
    let bandwidth = declared_rate(snapshot.config().renditions(), rendition);
    match make_next_filler(alloc, bandwidth, fill_us, limit_us, lead, recording)? {
        Some(filler) => Ok(Some(Event::Accept {
            rendition,
            facts: filler.facts,
            bytes: filler.bytes,
        })),
        None => Ok(None),
    }
}
