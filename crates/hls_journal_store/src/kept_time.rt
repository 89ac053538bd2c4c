//! How much time the records of a journal keep.

use byteorder::{ByteOrder, LittleEndian};
use bytes::Bytes;
use hls_boxes::kinds::UNIT_LIMIT;
use hls_journal::{ACCEPTED, BEGUN, UNIT_HEAD_AT, find_floors, push_zeros};
use hls_media::{read_facts, read_init};
use hls_media_laws::facts::Facts;
use hls_media_laws::init::Init;
use std::alloc::{AllocError, Global};

/// The first and the last unit of rendition 0 that no record trims, as bodies of records.
#[derive(Drop)]
struct KeptEnds<'a> {
    init: Option<&'a Bytes>,
    first: Option<&'a Bytes>,
    last: Option<&'a Bytes>,
}

/// Returns the time from the first to the last unit of rendition 0 that the records leave untrimmed, in microseconds.
pub(crate) fn count_kept_time(alloc: Global, bodies: &[Bytes]) -> Result<u64, AllocError> {
    let ends = find_ends(alloc, bodies)?;
    let (Some(init), Some(first), Some(last)) = (ends.init, ends.first, ends.last) else {
        return Ok(0);
    };
    let Ok(init) = read_init(alloc, &init[4.min(init.len())..]) else {
        return Ok(0);
    };
    match (
        read_unit(alloc, &init, first)?,
        read_unit(alloc, &init, last)?,
    ) {
        (Some(first), Some(last)) => Ok(last.end_us.saturating_sub(first.start_us)),
        _ => Ok(0),
    }
}

fn find_ends<'a>(alloc: Global, bodies: &'a [Bytes]) -> Result<KeptEnds<'a>, AllocError> {
    let floor = find_floors(alloc, bodies)?.first().copied().unwrap_or(0);
    let mut ends = KeptEnds {
        init: None,
        first: None,
        last: None,
    };
    let mut count: u64 = 0;
    for body in bodies {
        if is_of_first_rendition(body, BEGUN) {
            ends.init = Some(body);
        }
        if is_of_first_rendition(body, ACCEPTED) {
            if count == floor {
                ends.first = Some(body);
            }
            ends.last = Some(body);
            count = count.saturating_add(1);
        }
    }
    Ok(ends)
}

/// Whether a record has this kind, and is of rendition 0.
fn is_of_first_rendition(body: &[u8], kind: u8) -> bool {
    body.len() >= 4 && body[0] == kind && body[3] == 0
}

/// Returns the facts of the unit of a record: its head and its length determine them.
fn read_unit(alloc: Global, init: &Init, body: &[u8]) -> Result<Option<Facts>, AllocError> {
    if body.len() < UNIT_HEAD_AT {
        return Ok(None);
    }
    let head = &body[UNIT_HEAD_AT..];
    let len = LittleEndian::read_u32(&body[4..]) as usize;
    if len < head.len() || len as u64 > UNIT_LIMIT {
        return Ok(None);
    }
    let mut unit = Vec::with_capacity(alloc, len)?;
    unit.extend_from_slice(head)?;
    push_zeros(&mut unit, len - head.len())?;
    Ok(read_facts(init, &unit).ok())
}
