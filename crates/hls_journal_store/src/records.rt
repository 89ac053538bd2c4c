//! Writes records to the log.

ghost use Rattle.std.specs.Prelude.{◌≡◌, ℕ, ◌≤◌, List, [], length, OnOk, OnErr};
ghost use Rattle.hls_journal_log.specs.Records.{log_bytes};
ghost use Rattle.hls_journal_log.specs.Crashes.{Survive};
ghost use Rattle.hls_journal_store.specs.declared.sync_mode.SyncMode.TheVariants as sync_mode;
ghost use Rattle.hls_journal_store.specs.Followed.{Adds, AddsAfterAsides, AreDurable};

use crate::batch::into_bytes;
use crate::fault::{EndCause, StoreFault, StorePart, sync_fault, write_fault};
use crate::sync_mode::SyncMode;
use bytes::Bytes;
use hls_journal::{JournalFault, make_closed_body};
use hls_journal_log::Log;
use sqlite_disk::Disk;
use std::alloc::Global;
use std::io::{self, ErrorKind};

/// Appends records by one write. If that fails, the log is cut back to its last record.
pub(crate) fn append_records<D: Disk + Drop>(
    log: &mut Log<D>,
    alloc: Global,
    bodies: &[Bytes],
) -> Result<(), StoreFault>
    ensures survive { (kept : List (List ℕ)) → length (log_bytes 0 kept) ≤ log.old.end → Survive kept (D.may_leave log.old.disk) → Survive kept (D.may_leave log.new.disk) }
    ensures adds { OnOk result (Adds bodies.now log.old.next log.new.next log.old.end log.new.end (D.seen log.old.disk) (D.seen log.new.disk)) }
    ensures failed { OnErr result ((log.new.end ≡ log.old.end) × (log.new.next ≡ log.old.next)) }
{
    match log.append(alloc, bodies) {
        Ok(()) => Ok(()),
        Err(error) => {
            cut_back(log);
            Err(append_fault(error))
        }
    }
}

/// Cuts off what a failed write may have left.
fn cut_back<D: Disk + Drop>(log: &mut Log<D>)
    ensures survive { (kept : List (List ℕ)) → length (log_bytes 0 kept) ≤ log.old.end → Survive kept (D.may_leave log.old.disk) → Survive kept (D.may_leave log.new.disk) }
    ensures end { log.new.end ≡ log.old.end }
    ensures next { log.new.next ≡ log.old.next }
{
    if log.disk.may_be_used() {
        // if this fails too, the next write is to the same place
        let _ = log.disk.set_len(log.end);
    }
}

fn append_fault(error: io::Error) -> StoreFault {
    match error.kind() {
        ErrorKind::InvalidInput => StoreFault::Ended(EndCause::LogFull),
        _ => write_fault(StorePart::Log, error),
    }
}

/// Appends a sync point, if bytes were synced after the last one; `point_end` is where that ends.
pub(crate) fn append_point<D: Disk + Drop>(
    log: &mut Log<D>,
    alloc: Global,
    point_end: &mut usize,
) -> Result<(), StoreFault>
    ensures { OnOk result (AddsAfterAsides [] log.old.next log.new.next log.old.end log.new.end (D.seen log.old.disk) (D.seen log.new.disk)) }
{
    if log.synced <= *point_end {
        return Ok(());
    }
    if let Err(error) = log.append_sync_point(alloc) {
        cut_back(log);
        return Err(append_fault(error));
    }
    *point_end = log.end;
    Ok(())
}

/// Makes all records durable.
pub(crate) fn sync_log<D: Disk + Drop>(log: &mut Log<D>) -> Result<(), StoreFault>
    ensures durable { OnOk result ((kept : List (List ℕ)) → D.seen log.old.disk ≡ log_bytes 0 kept → Survive kept (D.may_leave log.new.disk)) }
    ensures same { (D.seen log.new.disk ≡ D.seen log.old.disk) × (log.new.end ≡ log.old.end) × (log.new.next ≡ log.old.next) }
{
    match log.sync() {
        Ok(()) => Ok(()),
        Err(error) => Err(sync_fault(StorePart::Log, error)),
    }
}

/// Appends records. In the mode `Each` they are durable then, and a sync point says what was so before.
pub(crate) fn write_records<D: Disk + Drop>(
    log: &mut Log<D>,
    alloc: Global,
    bodies: &[Bytes],
    mode: SyncMode,
    point_end: &mut usize,
) -> Result<(), StoreFault>
    ensures grows { OnOk result (AddsAfterAsides bodies.now log.old.next log.new.next log.old.end log.new.end (D.seen log.old.disk) (D.seen log.new.disk)) }
    ensures durable { OnOk result (mode ≡ sync_mode.Each → AreDurable bodies.now log.old.next log.old.end (D.seen log.old.disk) (D.may_leave log.new.disk)) }
{
    match mode {
        SyncMode::Each => {
            append_point(log, alloc, point_end)?;
            append_records(log, alloc, bodies)?;
            sync_log(log)?;
            Ok(())
        }
        _ => append_records(log, alloc, bodies),
    }
}

/// Appends the record with this body.
fn append_body<D: Disk + Drop>(
    log: &mut Log<D>,
    alloc: Global,
    body: Result<Vec<u8>, JournalFault>,
) -> Result<(), StoreFault> {
    let Ok(body) = body else {
        return Err(StoreFault::Memory);
    };
    append_records(log, alloc, &[into_bytes(body)?])
}

/// Appends the record of a closed journal, and makes it durable.
pub(crate) fn append_closed<D: Disk + Drop>(
    log: &mut Log<D>,
    alloc: Global,
) -> Result<(), StoreFault> {
    append_body(log, alloc, make_closed_body(alloc))?;
    sync_log(log)
}
