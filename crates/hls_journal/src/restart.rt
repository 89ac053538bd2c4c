//! Restores a channel from records and stored media.

ghost use Rattle.std.specs.Prelude.{◌≡◌, ◌↔◌, ℕ, ◌+◌, ◌≤◌, ◌<◌, ◌-◌, ◌^◌, ◌∷◌, ◌++◌, List, length, replicate, slice_get, slice_range, IfOk, IfErr, IsTrue, MatchOption};
ghost use Rattle.std.specs.Option.{option_copied};
ghost use Rattle.hls_journal_log.specs.Checksum.{checksum_of};
ghost use Rattle.hls_core_laws.specs.Moves.{IsFitting, state_with_entry};
ghost use Rattle.hls_core_laws.specs.Outcome.{New, outcome_of};
ghost use Rattle.hls_core_laws.specs.Runs.{first_state};
ghost use Rattle.hls_journal_laws.specs.Bodies.{unit_len_in, IsAside};
ghost use Rattle.hls_journal_laws.specs.Restored.{IsTrimmedUnit, IsRecordOf, Recalls, Restores};
ghost use Rattle.hls_journal_laws.specs.Floors.{highest_floor};
ghost use Rattle.hls_journal.specs.Recalling.{floors_at, RestoresChannel, IsStoredIn, IsUnitOf, BeginsWith, AcceptsNext, RestoresOne};
ghost use Rattle.hls_journal.specs.Faults.{fault_of, IsOldFault, IsRecallFault, IsBeginFault, IsTrimmedFault, IsStoredFault, IsUnitFault, IsRestoreFault, IsJournalFault};
ghost use Rattle.hls_journal.specs.Pieces.{IsBeforePieces, IsPieceAt, IsInPieceOf, IsPieceFault};

use crate::channel::read_channel;
use crate::fault::{JournalFault, RecallFault};
use crate::floors::find_floors;
use crate::zeros::push_zeros;
use crate::{ACCEPTED, BEGUN, CLOSED, FINISHED, IDS, SLID, TRIMMED, UNIT_HEAD_AT};
use byteorder::{ByteOrder, LittleEndian};
use bytes::Bytes;
use hls_boxes::kinds::UNIT_LIMIT;
use hls_core::config::Config;
use hls_core::snapshot::Snapshot;
use hls_core::step::step;
use hls_core::stepped::Stepped;
use hls_core_laws::event::Event;
use hls_core_laws::refusal::Refusal;
use hls_journal_laws::stored_media::{MediaPiece, StoredMedia};
use hls_journal_log::checksum_of;
use hls_media::{read_facts, read_init};
use hls_media_laws::fault::MediaFault;
use hls_record::Recording;
use std::alloc::{AllocError, Global};
use std::sync::Arc;

/// Restores the channel of a journal: its first record must be of a channel with this configuration, and has the base.
///
/// `media` has the stored media of each rendition, with each unit that isn't trimmed. The faults are found in this order: there is no
/// record, those of [`read_channel`], and the first record that leads to no next state. Memory may run out at any place.
#[tactic(auto, using(crate::proofs::Journals::no_records, crate::proofs::Journals::channel_fails, crate::proofs::Journals::records_fail, crate::proofs::Journals::first_body))]
pub fn restore(
    alloc: Global,
    config: Config,
    bodies: &[Bytes],
    media: &[StoredMedia],
) -> Result<Arc<Snapshot>, JournalFault>
    ensures restored { IfOk result (λ s. RestoresChannel config media.now bodies.now s.value) }
    ensures fault { IfErr result (IsJournalFault config media.now bodies.now) }
{
    let Some(channel) = bodies.first() else {
        return Err(JournalFault::NoChannel);
    };
    match read_channel(alloc, channel, &config) {
        Ok(header) => restore_records(alloc, config.with_base(header.base), &bodies[1..], media),
        Err(fault) => Err(fault),
    }
}

/// Restores the channel of the records after the first.
///
/// `WrongRecord`: the record of this number, from 1, is of no event that is new in the state before it. `MissingUnit`: the media don't
/// have its unit.
pub fn restore_records(
    alloc: Global,
    config: Config,
    bodies: &[Bytes],
    media: &[StoredMedia],
) -> Result<Arc<Snapshot>, JournalFault>
    ensures restored { IfOk result (λ s. Restores (highest_floor bodies.now) media.now (first_state config) bodies.now s.value) }
    ensures fault { IfErr result (IsRestoreFault (highest_floor bodies.now) media.now (first_state config) bodies.now) }
{
    let floors = find_floors(alloc, bodies)?;
    let mut state = open_channel(alloc, config)?;
    let mut number: usize = 0;
    for body in bodies {
        number += 1;
        state = match restore_one(alloc, state, body, &floors, media) {
            Ok(next) => next,
            Err(fault) => return Err(fault.at_record(number)),
        };
    }
    Ok(state)
}

/// Returns the channel before any event.
fn open_channel(alloc: Global, config: Config) -> Result<Arc<Snapshot>, AllocError>
    ensures { IfOk result (λ s. s.value ≡ first_state config) }
{
    Ok(Arc::new(alloc, Snapshot::first(alloc, config)?)?)
}

/// Returns the state after one more record.
fn restore_one(
    alloc: Global,
    state: Arc<Snapshot>,
    body: &Bytes,
    floors: &[u64],
    media: &[StoredMedia],
) -> Result<Arc<Snapshot>, RecallFault>
    requires { length floors.now ≡ 256 }
    ensures next { IfOk result (λ next. RestoresOne (floors_at floors.now) media.now state.value body.now next.value) }
    ensures fault { IfErr result (λ fault. (IsAside body.now → ⊥) × IsRecallFault (floors_at floors.now) media.now state.value body.now fault) }
{
    if is_aside(body) {
        return Ok(state);
    }
    recall(alloc, &state, body, floors, media)
}

/// Whether a record is of no event.
fn is_aside(body: &[u8]) -> bool
    ensures { IsTrue result ↔ IsAside body.now }
{
    match body.first() {
        Some(kind) => IDS <= *kind && *kind <= CLOSED,
        None => false,
    }
}

/// Returns the state after one more event.
fn recall(
    alloc: Global,
    state: &Snapshot,
    body: &Bytes,
    floors: &[u64],
    media: &[StoredMedia],
) -> Result<Arc<Snapshot>, RecallFault>
    requires { length floors.now ≡ 256 }
    ensures next { IfOk result (λ next. Recalls (floors_at floors.now) media.now state.now body.now next.value) }
    ensures fault { IfErr result (IsRecallFault (floors_at floors.now) media.now state.now body.now) }
{
    if body.len() < 4 {
        return Err(RecallFault::Wrong);
    }
    let by = LittleEndian::read_u16(&body[1..]);
    match recall_event(alloc, state, body, floors, media) {
        Ok(event) => apply_event(alloc, state, by, event),
        Err(fault) => Err(fault),
    }
}

/// Returns the state after an event, which must be new.
fn apply_event(
    alloc: Global,
    state: &Snapshot,
    by: u16,
    event: Event,
) -> Result<Arc<Snapshot>, RecallFault>
    requires { IsFitting state.now event }
    ensures next { IfOk result (λ next. (outcome_of state.now event ≡ New) × (next.value ≡ state_with_entry state.now by event)) }
    ensures fault { IfErr result (IsOldFault state.now event) }
{
    match step(state, alloc, by, event) {
        Ok(Stepped::New(next)) => Ok(next),
        Ok(Stepped::Repeat) => Err(RecallFault::Wrong),
        Err(refusal) => Err(recall_refusal(refusal)),
    }
}

fn recall_refusal(refusal: Refusal) -> RecallFault
    ensures { result ≡ fault_of refusal }
{
    match refusal {
        Refusal::Memory => RecallFault::Memory,
        _ => RecallFault::Wrong,
    }
}

/// Returns the event of a record.
fn recall_event(
    alloc: Global,
    state: &Snapshot,
    body: &Bytes,
    floors: &[u64],
    media: &[StoredMedia],
) -> Result<Event, RecallFault>
    requires body { 4 ≤ length body.now }
    requires floors { length floors.now ≡ 256 }
    ensures of { IfOk result (IsRecordOf (floors_at floors.now) media.now state.now body.now) }
    ensures fits { IfOk result (IsFitting state.now) }
    ensures fault { IfErr result (IsRecallFault (floors_at floors.now) media.now state.now body.now) }
{
    let rendition = body[3] as usize;
    match body[0] {
        BEGUN => recall_begin(alloc, rendition, body.slice(4..)?),
        ACCEPTED => {
            let Some(recording) = state.recording(rendition) else {
                return Err(RecallFault::Wrong);
            };
            let stored = media_of(media, rendition);
            recall_unit(alloc, recording, rendition, body, floors[rendition], stored)
        }
        FINISHED => Ok(Event::Finish { rendition }),
        SLID if body.len() == 12 => Ok(Event::Slide {
            count: LittleEndian::read_u64(&body[4..]),
        }),
        TRIMMED if body.len() == 12 => Ok(Event::Trim {
            rendition,
            floor: LittleEndian::read_u64(&body[4..]),
        }),
        _ => Err(RecallFault::Wrong),
    }
}

fn media_of(media: &[StoredMedia], rendition: usize) -> Option<&StoredMedia>
    ensures { option_copied result ≡ slice_get media.now rendition }
{
    media.get(rendition)
}

/// Returns the begin of a rendition with this init section.
fn recall_begin(alloc: Global, rendition: usize, bytes: Bytes) -> Result<Event, RecallFault>
    ensures event { IfOk result (BeginsWith rendition bytes) }
    ensures fault { IfErr result (IsBeginFault bytes) }
{
    match read_init(alloc, &bytes) {
        Ok(init) => Ok(Event::Begin {
            rendition,
            init,
            bytes,
        }),
        Err(MediaFault::Memory) => Err(RecallFault::Memory),
        Err(_) => Err(RecallFault::Wrong),
    }
}

/// Returns the event of the next unit of a rendition.
fn recall_unit(
    alloc: Global,
    recording: &Recording,
    rendition: usize,
    body: &[u8],
    floor: u64,
    media: Option<&StoredMedia>,
) -> Result<Event, RecallFault>
    ensures event { IfOk result (AcceptsNext floor (option_copied media.entry) recording.now rendition body.now) }
    ensures fault { IfErr result (IsUnitFault floor (option_copied media.entry) recording.now body.now) }
{
    if !has_unit(body) {
        return Err(RecallFault::Wrong);
    }
    let bytes = match find_unit(alloc, recording, body, floor, media) {
        Ok(bytes) => bytes,
        Err(fault) => return Err(fault),
    };
    match read_facts(recording.init(), &bytes) {
        Ok(facts) => Ok(Event::Accept {
            rendition,
            facts,
            bytes,
        }),
        Err(_) => Err(RecallFault::Wrong),
    }
}

/// Whether a body is long enough for the record of a unit, which has some bytes.
fn has_unit(body: &[u8]) -> bool
    ensures { IsTrue result ↔ (16 ≤ length body.now) × (0 < unit_len_in body.now) }
{
    body.len() >= UNIT_HEAD_AT && read_unit_len(body) > 0
}

/// Returns the length of the unit of a record.
fn read_unit_len(body: &[u8]) -> u32
    requires { 16 ≤ length body.now }
    ensures { result ≡ unit_len_in body.now }
{
    LittleEndian::read_u32(&body[4..])
}

/// Returns the bytes of the next unit of a recording: those that replace it if its number is below the floor, else the stored ones.
fn find_unit(
    alloc: Global,
    recording: &Recording,
    body: &[u8],
    floor: u64,
    media: Option<&StoredMedia>,
) -> Result<Bytes, RecallFault>
    requires body { 16 ≤ length body.now }
    requires some { 0 < unit_len_in body.now }
    ensures unit { IfOk result (IsUnitOf floor (option_copied media.entry) recording.now body.now) }
    ensures fault { IfErr result (IsUnitFault floor (option_copied media.entry) recording.now body.now) }
{
    if recording.count() < floor {
        return make_trimmed_unit(alloc, body);
    }
    find_stored_unit(recording.total(), media, body)
}

/// Returns what replaces a unit that is trimmed in the end: its head, and zeros up to its length.
fn make_trimmed_unit(alloc: Global, body: &[u8]) -> Result<Bytes, RecallFault>
    requires { 16 ≤ length body.now }
    ensures unit { IfOk result (IsTrimmedUnit body.now) }
    ensures fault { IfErr result (IsTrimmedFault body.now) }
{
    let len = read_unit_len(body) as usize;
    let head = &body[UNIT_HEAD_AT..];
    if len < head.len() {
        return Err(RecallFault::Wrong);
    }
    if UNIT_LIMIT < len as u64 {
        return Err(RecallFault::Wrong);
    }
    Ok(pad(alloc, head, len)?)
}

/// Returns bytes, and zeros up to a length.
fn pad(alloc: Global, head: &[u8], len: usize) -> Result<Bytes, AllocError>
    requires { length head.now ≤ len }
    ensures { IfOk result (λ bytes. bytes ≡ head.now ++ replicate (len - length head.now) 0) }
{
    let mut bytes = Vec::with_capacity(alloc, len)?;
    bytes.extend_from_slice(head)?;
    push_zeros(&mut bytes, len - head.len())?;
    Ok(Bytes::from_vec(bytes)?)
}

/// Returns the stored unit at this offset, if it has the record's checksum.
fn find_stored_unit(at: u64, media: Option<&StoredMedia>, body: &[u8]) -> Result<Bytes, RecallFault>
    requires body { 16 ≤ length body.now }
    requires some { 0 < unit_len_in body.now }
    requires small { at ≤ 2 ^ 40 }
    ensures unit { IfOk result (IsStoredIn (option_copied media.entry) at body.now) }
    ensures fault { IfErr result (IsStoredFault (option_copied media.entry) at body.now) }
{
    let Some(stored) = media else {
        return Err(RecallFault::Missing);
    };
    let Some(piece) = find_piece(&stored.pieces, at) else {
        return Err(RecallFault::Missing);
    };
    read_piece(at, piece, body)
}

/// Returns the last piece that begins at this offset or before.
fn find_piece(pieces: &[MediaPiece], at: u64) -> Option<&MediaPiece>
    ensures { MatchOption (option_copied result) (IsBeforePieces pieces.now at) (IsPieceAt pieces.now at) }
{
    let mut low = 0;
    let mut high = pieces.len();
    'halves: while low < high {
        let middle = low + (high - low) / 2;
        if pieces[middle].start <= at {
            low = middle + 1;
        } else {
            high = middle;
        }
    }
    if low == 0 {
        return None;
    }
    Some(&pieces[low - 1])
}

/// Returns the unit of a record at this offset, if a piece has it.
fn read_piece(at: u64, piece: &MediaPiece, body: &[u8]) -> Result<Bytes, RecallFault>
    requires body { 16 ≤ length body.now }
    requires small { at ≤ 2 ^ 40 }
    requires place { piece.now.start ≤ at }
    ensures unit { IfOk result (IsInPieceOf piece.now at body.now) }
    ensures fault { IfErr result (IsPieceFault piece.now at body.now) }
{
    let len = u64::from(read_unit_len(body));
    let from = at - piece.start;
    if (piece.bytes.len() as u64) < from + len {
        return Err(RecallFault::Missing);
    }
    let bytes = piece.bytes.slice(from as usize..(from + len) as usize)?;
    let sum = sum_in_piece(at, piece, &bytes).to_le_bytes();
    if body[8..UNIT_HEAD_AT] != sum[..] {
        return Err(RecallFault::Missing);
    }
    Ok(bytes)
}

/// Returns the checksum of bytes of a piece and their offset. If the piece has no others, it is the piece's own.
fn sum_in_piece(at: u64, piece: &MediaPiece, bytes: &[u8]) -> u64
    requires place { piece.now.start ≤ at }
    requires within { at + length bytes.now ≤ piece.now.start + length piece.now.bytes }
    requires is { bytes.now ≡ slice_range piece.now.bytes (at - piece.now.start) (at - piece.now.start + length bytes.now) }
    ensures { result ≡ checksum_of at bytes.now }
{
    if bytes.len() == piece.bytes.len() {
        return piece.sum;
    }
    checksum_of(at, bytes)
}
