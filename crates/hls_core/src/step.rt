//! The single step by which a channel changes.

ghost use Rattle.std.specs.Prelude.{◌≡◌, Ok, Err, None, IfOk, IfErr, IfSome};
ghost use Rattle.hls_media_laws.specs.IsInitOrUnit.{IsInit};
ghost use Rattle.hls_core_laws.specs.IsState.{IsState};
ghost use Rattle.hls_core_laws.specs.declared.event.Event.TheVariants.{Begin, Accept, Finish, Slide, Trim};
ghost use Rattle.hls_core_laws.specs.declared.refusal.Refusal.TheVariants.{Memory};
ghost use Rattle.hls_core_laws.specs.Moves.{IsFitting, IsRefused};
ghost use Rattle.hls_core_laws.specs.Outcome.{Repeated, outcome_of};
ghost use Rattle.hls_core.specs.MayBegin.{BeginMeets, MayAccept};
ghost use Rattle.hls_core.specs.StepResult.{Steps, Applies};
ghost use Rattle.hls_core.specs.declared.stepped.Stepped.TheVariants.{New};

use crate::rendition_state::RenditionState;
use crate::snapshot::Snapshot;
use crate::stepped::Stepped;
use bytes::Bytes;
use hls_core_laws::done::Done;
use hls_core_laws::event::{Entry, Event, LoggedEvent};
use hls_core_laws::refusal::Refusal;
use hls_live::LineFault;
use hls_media_laws::facts::Facts;
use hls_media_laws::init::Init;
use hls_record::{RecordFault, Recording};
use std::alloc::{AllocError, Global};
use std::sync::Arc;

/// Applies an event of the worker `by` to a channel: returns a new snapshot, a repeat, or the first cause to refuse it.
///
/// The tests are in this order, and running out of memory comes last.
///
/// | Event | Answers |
/// |---|---|
/// | `Begin` | `UnknownRendition`; the same bytes: `Repeat`; other bytes: `InitChanged`; `LedgerFull` |
/// | `Accept` | `UnknownRendition`; `NoInit`; a kept unit of the same start: `Repeat` if the bytes are equal, else `Overlap`; a start before the last end: `Overlap`; `Finished`; `LedgerFull`; `RecordingFull` |
/// | `Finish` | `UnknownRendition`; `NoInit`; already finished: `Repeat`; `LedgerFull` |
/// | `Slide` | `SlideTooMany`: none, or more than are kept; `SlideTooShort`: the line hasn't ended, and less than three targets would be left in some rendition; `LedgerFull` |
/// | `Trim` | `UnknownRendition`; at or below the floor: `Repeat`; `TrimTooFar`: past the unit at which the line begins, or there is no such place; `LedgerFull` |
///
/// The snapshot itself never changes, and the new one shares with it what the event doesn't touch.
pub fn step(snapshot: &Snapshot, alloc: Global, by: u16, event: Event) -> Result<Stepped, Refusal>
    requires { IsFitting snapshot.now event }
    ensures { Steps snapshot.now by event result }
{
    match event {
        Event::Begin {
            rendition,
            init,
            bytes,
        } => begin(snapshot, alloc, by, rendition, init, bytes),
        Event::Accept {
            rendition,
            facts,
            bytes,
        } => accept(snapshot, alloc, by, rendition, facts, bytes),
        Event::Finish { rendition } => finish(snapshot, alloc, by, rendition),
        Event::Slide { count } => slide(snapshot, alloc, by, count),
        Event::Trim { rendition, floor } => trim(snapshot, alloc, by, rendition, floor),
    }
}

/// Replaces the snapshot by the one that an event leads to; it is unchanged after a repeat or a refusal.
pub fn apply(
    snapshot: &mut Arc<Snapshot>,
    alloc: Global,
    by: u16,
    event: Event,
) -> Result<Done, Refusal>
    requires { IsFitting snapshot.old.value event }
    ensures { Applies snapshot.old.value by event snapshot.new.value result }
{
    let version = snapshot.version();
    match step(snapshot, alloc, by, event) {
        Ok(Stepped::New(next)) => {
            *snapshot = next;
            Ok(Done::New {
                version: version + 1,
            })
        }
        Ok(Stepped::Repeat) => Ok(Done::Repeat),
        Err(refusal) => Err(refusal),
    }
}

fn begin(
    snapshot: &Snapshot,
    alloc: Global,
    by: u16,
    rendition: usize,
    init: Init,
    bytes: Bytes,
) -> Result<Stepped, Refusal>
    requires { IsInit bytes init }
    ensures { Steps snapshot.now by (Begin rendition init bytes) result }
{
    let is_new = check_begin(snapshot, rendition, &bytes)?;
    if !is_new {
        return Ok(Stepped::Repeat);
    }
    let event = LoggedEvent::Begun {
        rendition,
        init: init.share()?,
        len: bytes.len() as u64,
    };
    let recording = Recording::begin(alloc, init, bytes);
    let rendition_state = RenditionState::with_recording(alloc, recording, false)?;
    into_stepped(snapshot.with_rendition(alloc, Entry { by, event }, rendition, rendition_state))
}

/// Whether a rendition's init section is new; false if it is a duplicate. These are the tests of `Begin` that need no memory.
fn check_begin(snapshot: &Snapshot, rendition: usize, bytes: &Bytes) -> Result<bool, Refusal>
    ensures meets { BeginMeets snapshot.now rendition bytes.now result }
    ensures valid { IsState snapshot.now }
{
    let Some(old) = snapshot.rendition(rendition) else {
        return Err(Refusal::UnknownRendition);
    };
    match &old.recording {
        Some(recording) if *recording.init_section_bytes() == *bytes => return Ok(false),
        Some(_) => return Err(Refusal::InitChanged),
        None => {}
    }
    if snapshot.is_full() {
        return Err(Refusal::LedgerFull);
    }
    Ok(true)
}

fn accept(
    snapshot: &Snapshot,
    alloc: Global,
    by: u16,
    rendition: usize,
    facts: Facts,
    bytes: Bytes,
) -> Result<Stepped, Refusal>
    requires { IsFitting snapshot.now (Accept rendition facts bytes) }
    ensures { Steps snapshot.now by (Accept rendition facts bytes) result }
{
    let met = check_accept(snapshot, rendition, facts, &bytes)?;
    let Some(recording) = met else {
        return Ok(Stepped::Repeat);
    };
    let recording = match recording.appended(alloc, facts, bytes) {
        Ok(recording) => recording,
        Err(RecordFault::Overlap) => return Err(Refusal::Overlap),
        Err(RecordFault::Full) => return Err(Refusal::RecordingFull),
        Err(RecordFault::Memory) => return Err(Refusal::Memory),
    };
    let rendition_state = RenditionState::with_recording(alloc, recording, false)?;
    let event = LoggedEvent::Accepted { rendition, facts };
    into_stepped(snapshot.with_rendition(alloc, Entry { by, event }, rendition, rendition_state))
}

/// Returns the recording to append a new unit to; `None` if the unit is a duplicate. These are the tests of `Accept` other than those
/// of the recording's length and of memory.
fn check_accept<'a>(
    snapshot: &'a Snapshot,
    rendition: usize,
    facts: Facts,
    bytes: &Bytes,
) -> Result<Option<&'a Recording>, Refusal>
    ensures new { IfOk result (λ met. IfSome met (λ recording. MayAccept snapshot.entry.now rendition facts recording.now)) }
    ensures repeated { IfOk result (λ met. met ≡ None → outcome_of snapshot.entry.now (Accept rendition facts bytes.now) ≡ Repeated) }
    ensures refused { IfErr result (IsRefused snapshot.entry.now (Accept rendition facts bytes.now)) }
    ensures valid { IsState snapshot.entry.now }
{
    let Some(old) = snapshot.rendition(rendition) else {
        return Err(Refusal::UnknownRendition);
    };
    let Some(recording) = &old.recording else {
        return Err(Refusal::NoInit);
    };
    match recording.find_duplicate(facts.start) {
        Some(duplicate) if *duplicate == *bytes => return Ok(None),
        Some(_) => return Err(Refusal::Overlap),
        None => {}
    }
    if facts.start < recording.last_end() {
        return Err(Refusal::Overlap);
    }
    if old.finished {
        return Err(Refusal::Finished);
    }
    if snapshot.is_full() {
        return Err(Refusal::LedgerFull);
    }
    Ok(Some(recording))
}

fn finish(snapshot: &Snapshot, alloc: Global, by: u16, rendition: usize) -> Result<Stepped, Refusal>
    ensures { Steps snapshot.now by (Finish rendition) result }
{
    let Some(old) = snapshot.rendition(rendition) else {
        return Err(Refusal::UnknownRendition);
    };
    let Some(recording) = &old.recording else {
        return Err(Refusal::NoInit);
    };
    if old.finished {
        return Ok(Stepped::Repeat);
    }
    if snapshot.is_full() {
        return Err(Refusal::LedgerFull);
    }
    let rendition_state = RenditionState::with_recording(alloc, recording.share(alloc)?, true)?;
    let event = LoggedEvent::Finished { rendition };
    into_stepped(snapshot.with_rendition(alloc, Entry { by, event }, rendition, rendition_state))
}

fn slide(snapshot: &Snapshot, alloc: Global, by: u16, count: u64) -> Result<Stepped, Refusal>
    ensures { Steps snapshot.now by (Slide count) result }
{
    let line = snapshot.line();
    match line.check_slide(count) {
        Ok(()) => {}
        Err(LineFault::TooMany) => return Err(Refusal::SlideTooMany),
        Err(LineFault::TooShort) => return Err(Refusal::SlideTooShort),
        Err(LineFault::Ended) => return Err(Refusal::SlideTooShort),
        Err(LineFault::Memory) => return Err(Refusal::SlideTooShort),
    }
    if snapshot.is_full() {
        return Err(Refusal::LedgerFull);
    }
    let Ok(now) = line.slide(alloc, count) else {
        return Err(Refusal::Memory);
    };
    into_stepped(snapshot.with_slide(alloc, by, count, now))
}

fn trim(
    snapshot: &Snapshot,
    alloc: Global,
    by: u16,
    rendition: usize,
    floor: u64,
) -> Result<Stepped, Refusal>
    ensures { Steps snapshot.now by (Trim rendition floor) result }
{
    let Some(old) = snapshot.rendition(rendition) else {
        return Err(Refusal::UnknownRendition);
    };
    if floor <= old.floor() {
        return Ok(Stepped::Repeat);
    }
    if snapshot.trim_limit(rendition) < floor {
        return Err(Refusal::TrimTooFar);
    }
    if snapshot.is_full() {
        return Err(Refusal::LedgerFull);
    }
    let Some(recording) = &old.recording else {
        unreachable!()
    };
    let rendition_state = RenditionState::with_recording(
        alloc,
        recording.trimmed(alloc, floor)?,
        old.finished,
    )?;
    let event = LoggedEvent::Trimmed { rendition, floor };
    into_stepped(snapshot.with_trim(alloc, Entry { by, event }, rendition, rendition_state))
}

/// Returns the answer of a step that only an allocation failure can still refuse.
fn into_stepped(next: Result<Arc<Snapshot>, AllocError>) -> Result<Stepped, Refusal>
    ensures new { IfOk next (λ next. result ≡ Ok (New next)) }
    ensures refused { IfErr next (λ _. result ≡ Err Memory) }
{
    match next {
        Ok(next) => Ok(Stepped::New(next)),
        Err(_) => Err(Refusal::Memory),
    }
}
