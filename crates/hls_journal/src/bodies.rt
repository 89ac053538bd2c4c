//! Makes the bodies of records.

ghost use Rattle.std.specs.Prelude.{◌≡◌, ◌<◌, ◌^◌, ◌++◌, IfOk};
ghost use Rattle.byteorder.specs.Endian.{little_bytes};
ghost use Rattle.hls_journal.specs.Bodies.{body_start, IsUnitBody, IsBodyOf, IsAsideBody};

use crate::fault::JournalFault;
use crate::unit_head::find_head_len;
use crate::{ACCEPTED, BEGUN, CLOSED, FINISHED, IDS, SLID, TRIMMED};
use hls_boxes::kinds::UNIT_LIMIT;
use hls_core_laws::event::Event;
use hls_journal_log::checksum_of;
use std::alloc::{AllocError, Global};

/// The bytes with which each body begins: kind, worker, rendition.
const START_LEN: usize = 4;

/// The bytes of a number, and of a checksum.
const NUMBER_LEN: usize = 8;

/// The bytes of a unit's length.
const UNIT_LEN: usize = 4;

/// Returns the body of a record of an event of the worker `by`. `at` is the offset of an accepted unit in its rendition's resource.
///
/// `WrongRecord`: the event has a rendition above 255, or bytes that are no unit.
pub fn make_event_body(
    alloc: Global,
    by: u16,
    event: &Event,
    at: u64,
) -> Result<Vec<u8>, JournalFault>
    ensures { IfOk result (λ body. IsBodyOf by at event.now body.items) }
{
    match event {
        Event::Begin {
            rendition,
            bytes,
            ..
        } => {
            let mut body = begin_body(alloc, bytes.len(), BEGUN, by, *rendition)?;
            body.extend_from_slice(bytes)?;
            Ok(body)
        }
        Event::Accept {
            rendition,
            bytes,
            ..
        } => make_unit_body(alloc, by, *rendition, bytes, at),
        Event::Finish { rendition } => begin_body(alloc, 0, FINISHED, by, *rendition),
        Event::Slide { count } => make_number_body(alloc, SLID, by, 0, *count),
        Event::Trim { rendition, floor } => make_number_body(
            alloc, TRIMMED, by, *rendition, *floor,
        ),
    }
}

/// Returns the body of a record that says that ids below `ids` may have been given out.
pub fn make_ids_body(alloc: Global, ids: u64) -> Result<Vec<u8>, JournalFault>
    ensures { IfOk result (λ body. IsAsideBody body.items) }
{
    make_number_body(alloc, IDS, 0, 0, ids)
}

/// Returns the body of the last record of a journal that was closed.
pub fn make_closed_body(alloc: Global) -> Result<Vec<u8>, JournalFault>
    ensures { IfOk result (λ body. IsAsideBody body.items) }
{
    begin_body(alloc, 0, CLOSED, 0, 0)
}

/// Returns the first four bytes of a body, with room for the given number of bytes after them.
fn begin_body(
    alloc: Global,
    room: usize,
    kind: u8,
    by: u16,
    rendition: usize,
) -> Result<Vec<u8>, JournalFault>
    ensures { IfOk result (λ body. body.items ≡ body_start kind by rendition) }
{
    if rendition > 255 {
        return Err(JournalFault::WrongRecord { record: 0 });
    }
    Ok(make_start(alloc, room, kind, by, rendition as u8)?)
}

/// Returns the first four bytes of a body of a rendition. Each further allocation would take the allocator's lock once a unit.
fn make_start(
    alloc: Global,
    room: usize,
    kind: u8,
    by: u16,
    rendition: u8,
) -> Result<Vec<u8>, AllocError>
    ensures { IfOk result (λ body. body.items ≡ body_start kind by rendition) }
{
    let mut body = Vec::with_capacity(alloc, room.saturating_add(START_LEN))?;
    body.push(kind)?;
    body.extend_from_slice(&by.to_le_bytes())?;
    body.push(rendition)?;
    Ok(body)
}

fn make_number_body(
    alloc: Global,
    kind: u8,
    by: u16,
    rendition: usize,
    number: u64,
) -> Result<Vec<u8>, JournalFault>
    ensures body { IfOk result (λ body. body.items ≡ body_start kind by rendition ++ little_bytes 8 number) }
    ensures fits { number < 2 ^ 64 }
{
    let mut body = begin_body(alloc, NUMBER_LEN, kind, by, rendition)?;
    body.extend_from_slice(&number.to_le_bytes())?;
    Ok(body)
}

fn make_unit_body(
    alloc: Global,
    by: u16,
    rendition: usize,
    unit: &[u8],
    at: u64,
) -> Result<Vec<u8>, JournalFault>
    ensures { IfOk result (λ body. IsUnitBody by rendition at unit.now body.items) }
{
    if unit.len() as u64 > UNIT_LIMIT {
        return Err(JournalFault::WrongRecord { record: 0 });
    }
    let Some(head_len) = find_head_len(unit) else {
        return Err(JournalFault::WrongRecord { record: 0 });
    };
    let room = head_len.saturating_add(UNIT_LEN + NUMBER_LEN);
    let mut body = begin_body(alloc, room, ACCEPTED, by, rendition)?;
    body.extend_from_slice(&(unit.len() as u32).to_le_bytes())?;
    body.extend_from_slice(&checksum_of(at, unit).to_le_bytes())?;
    body.extend_from_slice(&unit[..head_len])?;
    Ok(body)
}
