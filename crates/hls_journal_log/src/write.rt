//! Makes the bytes of records.

ghost use Rattle.std.specs.Prelude.{◌≡◌, ◌+◌, ◌<◌, ◌≤◌, ◌^◌, ◌++◌, length, OnOk, IfOk};
ghost use Rattle.hls_journal_log.specs.Records.{record_bytes, log_bytes, AreWithinLimit};
ghost use Rattle.hls_journal_log.specs.SyncPoints.{sync_point_body};

use crate::checksum::checksum_of;
use bytes::Bytes;
use std::alloc::{AllocError, Global};

/// What marks the body of a sync point.
pub(crate) const SYNC_MARK: [u8; 8] = [7, 104, 108, 115, 115, 121, 110, 99];

/// Appends the record of a number and a body.
pub(crate) fn push_record(out: &mut Vec<u8>, number: u64, body: &[u8]) -> Result<(), AllocError>
    requires { length body.now ≤ 134217728 }
    ensures { OnOk result (out.new.items ≡ out.old.items ++ record_bytes number body.now) }
{
    let len = body.len() as u32;
    let sum = checksum_of(number, body);
    out.extend_from_slice(&len.to_le_bytes())?;
    out.extend_from_slice(&sum.to_le_bytes())?;
    out.extend_from_slice(body)?;
    Ok(())
}

/// Returns consecutive records, of which the first has the number `first`.
pub(crate) fn make_records(
    alloc: Global,
    first: u64,
    bodies: &[Bytes],
) -> Result<Vec<u8>, AllocError>
    requires small { AreWithinLimit bodies.now }
    requires numbers { first + length bodies.now < 2 ^ 64 }
    ensures { IfOk result (λ text. text.items ≡ log_bytes first bodies.now) }
{
    let mut text = Vec::new(alloc);
    let mut number = first;
    for body in bodies {
        push_record(&mut text, number, body)?;
        number += 1;
    }
    Ok(text)
}

/// Returns the body of the sync point of a number.
pub(crate) fn make_sync_point(
    alloc: Global,
    number: u64,
    synced: u64,
) -> Result<Vec<u8>, AllocError>
    ensures { IfOk result (λ body. body.items ≡ sync_point_body number synced) }
{
    let mut body = Vec::new(alloc);
    body.extend_from_slice(&SYNC_MARK)?;
    body.extend_from_slice(&number.to_le_bytes())?;
    body.extend_from_slice(&synced.to_le_bytes())?;
    Ok(body)
}
