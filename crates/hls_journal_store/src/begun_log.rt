//! A log to which a process begins to write.

use crate::batch::into_bytes;
use crate::fault::{OpenFault, StorePart, open_fault};
use crate::log_file::LogFile;
use crate::records::{append_point, append_records, sync_log};
use crate::start_record::{StartRecord, make_start_body};
use bytes::Bytes;
use hls_journal::make_ids_body;
use hls_journal_log::{Log, ReadLog, begin_log};
use std::alloc::{AllocError, Global};

/// How many job ids a start reserves: more than a process gives out.
pub(crate) const RESERVED_IDS: u64 = 4294967296;

/// A log to which a process begins to write.
#[derive(Drop)]
pub(crate) struct BegunLog {
    pub(crate) log: Log<LogFile>,
    /// How long it was when the last sync point was appended.
    pub(crate) point_end: usize,
}

/// Begins to write to a log: cuts off what isn't complete, writes the first record if it is missing, and what a start writes.
pub(crate) fn begin_records(
    alloc: Global,
    disk: LogFile,
    read: &ReadLog,
    first: &Option<Bytes>,
    first_job: u64,
    own: &StartRecord,
) -> Result<BegunLog, OpenFault> {
    let mut log = match begin_log(disk, read) {
        Ok(log) => log,
        Err(error) => return Err(open_fault(StorePart::Log, error)),
    };
    let ids = make_ids_body(alloc, first_job.saturating_add(RESERVED_IDS))?;
    let bodies = make_start_bodies(alloc, first, ids, own)?;
    let mut point_end = 0;
    append_records(&mut log, alloc, &bodies)?;
    sync_log(&mut log)?;
    append_point(&mut log, alloc, &mut point_end)?;
    Ok(BegunLog { log, point_end })
}

/// Returns the bodies that a start writes.
fn make_start_bodies(
    alloc: Global,
    first: &Option<Bytes>,
    ids: Vec<u8>,
    own: &StartRecord,
) -> Result<Vec<Bytes>, AllocError> {
    let mut bodies = Vec::new(alloc);
    if let Some(first) = first {
        bodies.push(first.clone()?)?;
    }
    bodies.push(into_bytes(ids)?)?;
    bodies.push(into_bytes(make_start_body(alloc, own)?)?)?;
    Ok(bodies)
}
