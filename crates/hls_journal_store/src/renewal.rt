//! Renews the journal of a channel whose log has become long: a new log takes the place of the old one.

use crate::batch::{Position, RENDITIONS, find_position, into_bytes};
use crate::begun_log::{BegunLog, RESERVED_IDS, begin_records};
use crate::boot_id::read_boot_id;
use crate::fault::{OpenFault, StoreFault, StorePart, sync_fault, write_fault};
use crate::follower::{StoreFollower, check_open, note_end};
use crate::log_file::LogFile;
use crate::media_starts::MediaStarts;
use crate::records::{append_point, append_records, sync_log};
use crate::start_record::StartRecord;
use crate::whole_log::{find_parts, make_parts};
use bytes::Bytes;
use hls_core::snapshot::Snapshot;
use hls_journal::{ChannelHeader, make_channel_body};
use hls_journal_log::{Log, read_disk};
use std::alloc::{AllocError, Global};
use std::fs::File;
use std::rt::Files;
use std::thread::Threads;

/// Replaces the log of a channel by one of the renewed channel, which `renew_channel` made of the follower's last state. Returns the first id of a job
/// that no process has given out.
///
/// The media stay where they are. A crash at any moment leaves the old log or the new one. After `Memory` and `NoRoom` the old log is
/// still the channel's.
pub fn renew_store<R: Files<File = File>, T: Threads + Sync>(
    rt: &R,
    threads: &T,
    alloc: Global,
    follower: &mut StoreFollower,
    renewed: &Snapshot,
) -> Result<u64, StoreFault> {
    check_open(rt, &follower.paths, &follower.lock, &mut follower.ended)?;
    let first_job = follower.next_ids;
    let outcome = replace_log(rt, threads, alloc, follower, renewed);
    note_end(&mut follower.ended, outcome)?;
    Ok(first_job)
}

fn replace_log<R: Files<File = File>, T: Threads + Sync>(
    rt: &R,
    threads: &T,
    alloc: Global,
    follower: &mut StoreFollower,
    renewed: &Snapshot,
) -> Result<(), StoreFault> {
    follower.media.sync(rt)?;
    let position = find_position(alloc, renewed)?;
    let run = renewed.config().base().run();
    let own = StartRecord::new(read_boot_id(rt), follower.mode, run);
    let begun = write_log(rt, threads, alloc, follower, renewed, &own)?;
    if let Err(error) = follower.paths.replace_log(rt) {
        return Err(sync_fault(StorePart::Log, error));
    }
    follower.log = begun.log;
    follower.point_end = begun.point_end;
    follower.position = position;
    let starts = MediaStarts::of_base(renewed.config().base());
    follower.media.continue_from(&starts);
    follower.next_ids = follower.next_ids.saturating_add(RESERVED_IDS);
    Ok(())
}

/// Writes the log of a renewed channel beside the old one, and makes it durable.
fn write_log<R: Files<File = File>, T: Threads + Sync>(
    rt: &R,
    threads: &T,
    alloc: Global,
    follower: &StoreFollower,
    renewed: &Snapshot,
    own: &StartRecord,
) -> Result<BegunLog, StoreFault> {
    let disk = match follower.paths.create_new_log(rt) {
        Ok(disk) => disk,
        Err(error) => return Err(write_fault(StorePart::Log, error)),
    };
    let mut begun = begin_new_log(alloc, disk, renewed, follower.next_ids, own)?;
    append_entries(threads, alloc, &mut begun.log, renewed)?;
    sync_log(&mut begun.log)?;
    append_point(&mut begun.log, alloc, &mut begun.point_end)?;
    sync_log(&mut begun.log)?;
    Ok(begun)
}

/// Begins the log of a renewed channel with the record of the channel and what a start writes.
fn begin_new_log(
    alloc: Global,
    mut disk: LogFile,
    renewed: &Snapshot,
    first_job: u64,
    own: &StartRecord,
) -> Result<BegunLog, StoreFault> {
    let first = make_first_body(alloc, renewed, own.boot)?;
    let Ok(read) = read_disk(alloc, &mut disk) else {
        return Err(StoreFault::Memory);
    };
    match begin_records(alloc, disk, &read, &Some(first), first_job, own) {
        Ok(begun) => Ok(begun),
        Err(OpenFault::Disk { part, error }) => Err(write_fault(part, error)),
        Err(_) => Err(StoreFault::Memory),
    }
}

/// Returns the body of a channel's record.
fn make_first_body(alloc: Global, renewed: &Snapshot, boot: [u8; 16]) -> Result<Bytes, AllocError> {
    let config = renewed.config();
    let header = ChannelHeader {
        boot,
        base: *config.base(),
    };
    into_bytes(make_channel_body(alloc, config, &header)?)
}

/// Appends the records of all entries of a channel, which several threads make. Their media are stored already.
fn append_entries<T: Threads + Sync>(
    threads: &T,
    alloc: Global,
    log: &mut Log<LogFile>,
    renewed: &Snapshot,
) -> Result<(), StoreFault> {
    let mut position = Position {
        version: 0,
        counts: vec![in alloc; 0u64; RENDITIONS]?,
    };
    'rounds: while position.version < renewed.version() {
        let starts = find_parts(alloc, renewed, &mut position)?;
        for part in make_parts(threads, alloc, renewed, &starts)? {
            append_records(log, alloc, &part?.bodies)?;
        }
    }
    Ok(())
}
