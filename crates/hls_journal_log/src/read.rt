//! Reads the records of a log.

ghost use Rattle.std.specs.Prelude.{◌≡◌, ◌+◌, ◌<◌, ◌≤◌, ◌^◌, length, drop, IfOk, OnOk, IfErr};
ghost use Rattle.hls_journal_log.specs.Records.{log_bytes, body_len_in, IsRecord};
ghost use Rattle.hls_journal_log.specs.Reading.{Reads, Stops, IsRecordAndRest};

use crate::checksum::checksum_of;
use crate::ending::Ending;
use crate::{BODY_LIMIT, HEADER_LEN};
use byteorder::{ByteOrder, LittleEndian};
use bytes::Bytes;
use std::alloc::{AllocError, Global};

/// The records of a log, up to the first that isn't complete.
#[derive(Drop)]
pub struct LogContent {
    /// The bodies, in order. They share the text's memory.
    pub bodies: Vec<Bytes>,
    /// What follows the last record.
    pub ending: Ending,
    /// The number of bytes of the records: the place of the next one.
    pub len: usize,
}

/// Returns the length of the body of the record that a text starts with, or why it starts with none.
fn read_record(text: &[u8], number: u64) -> Result<usize, Ending>
    ensures len { IfOk result (λ len. len ≡ body_len_in text.now) }
    ensures record { OnOk result (IsRecord number text.now) }
    ensures split { OnOk result (IsRecordAndRest number text.now) }
    ensures stops { IfErr result (Stops number text.now) }
{
    if text.is_empty() {
        return Err(Ending::Complete);
    }
    if text.len() < HEADER_LEN {
        return Err(Ending::Torn);
    }
    let len = LittleEndian::read_u32(text) as usize;
    if BODY_LIMIT < len {
        return Err(Ending::Corrupt);
    }
    if text.len() < HEADER_LEN + len {
        return Err(Ending::Torn);
    }
    let sum = checksum_of(number, &text[HEADER_LEN..HEADER_LEN + len]).to_le_bytes();
    if text[4..HEADER_LEN] != sum[..] {
        return Err(Ending::Corrupt);
    }
    Ok(len)
}

/// Reads the records that a text starts with, of which the first has the number `first`.
pub fn read_records(alloc: Global, text: &Bytes, first: u64) -> Result<LogContent, AllocError>
    requires { first + length text.now < 2 ^ 64 }
    ensures reads { IfOk result (λ content. Reads first text.now content.bodies.items content.ending) }
    ensures len { IfOk result (λ content. content.len ≡ length (log_bytes first content.bodies.items)) }
    ensures within { IfOk result (λ content. content.len ≤ length text.now) }
{
    let mut bodies = Vec::new(alloc);
    let mut at = 0;
    let mut number = first;
    'records: loop {
        match read_record(&text[at..], number) {
            Ok(len) => {
                let start = at + HEADER_LEN;
                bodies.push(text.slice(start..start + len)?)?;
                at = start + len;
                number += 1;
            }
            Err(ending) => {
                return Ok(LogContent {
                    bodies,
                    ending,
                    len: at,
                });
            }
        }
    }
}
