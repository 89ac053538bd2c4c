//! Checks whether a start would take the journal in a folder.

ghost use Rattle.std.specs.Prelude.{OnOk};
ghost use Rattle.hls_journal_store.specs.Starts.{IsOfChannel};

use crate::boot_id::read_boot_id;
use crate::fault::{OpenFault, StorePart, open_fault};
use crate::inspect::read_file;
use crate::kept_time::count_kept_time;
use crate::older_format::check_text;
use crate::start_record::StartRecord;
use crate::store::find_channel;
use crate::store_paths::{StorePaths, is_there};
use crate::sync_mode::SyncMode;
use bytes::Bytes;
use hls_core::config::Config;
use hls_journal::read_channel;
use hls_journal_log::{ReadLog, read_log};
use std::alloc::Global;
use std::fs::{File, TryLockError};
use std::rt::Files;
use std::thread::Threads;

/// Whether a start would take a journal, and how much of it.
#[derive(Drop)]
pub struct StoreCheck {
    /// The time that its records keep in rendition 0, in microseconds; 0 if there is no journal.
    pub kept_us: u64,
    /// Why a start wouldn't take it.
    pub outcome: Result<(), OpenFault>,
}

impl StoreCheck {
    /// What is found of a journal whose records can't be read.
    fn of(outcome: Result<(), OpenFault>) -> StoreCheck {
        StoreCheck {
            kept_us: 0,
            outcome,
        }
    }
}

/// Checks whether a start with this configuration would take the journal in a folder, as `open_store` does. Writes nothing. A folder without
/// a log is taken: a new channel begins there.
///
/// The journal of a running process is compared with the configuration alone: its process has restored it. Otherwise all media are read.
/// Meanwhile nothing is locked; whether another process has the lock is tried for a moment.
pub fn check_store<R: Files<File = File> + Threads + Sync>(
    rt: &R,
    alloc: Global,
    folder: &str,
    config: Config,
) -> StoreCheck {
    let paths = match StorePaths::new(alloc, folder) {
        Ok(paths) => paths,
        Err(_) => return StoreCheck::of(Err(OpenFault::Memory)),
    };
    if !is_there(rt, &paths.log) {
        return StoreCheck::of(Ok(()));
    }
    match read_whole(rt, alloc, &paths) {
        Ok(read) => {
            let kept_us = count_kept_time(alloc, &read.content.bodies).unwrap_or(0);
            let outcome = check_log(rt, alloc, &paths, config, &read);
            StoreCheck { kept_us, outcome }
        }
        Err(fault) => StoreCheck::of(Err(fault)),
    }
}

/// Reads the log.
fn read_whole<R: Files<File = File>>(
    rt: &R,
    alloc: Global,
    paths: &StorePaths,
) -> Result<ReadLog, OpenFault> {
    let text = read_file(rt, alloc, &paths.log)?;
    let content = read_log(alloc, &text)?;
    check_text(&content.bodies, &text)?;
    let dropped = text.len().saturating_sub(content.len);
    Ok(ReadLog { content, dropped })
}

/// Checks whether a start would take a journal with this log.
fn check_log<R: Files<File = File> + Threads + Sync>(
    rt: &R,
    alloc: Global,
    paths: &StorePaths,
    config: Config,
    read: &ReadLog,
) -> Result<(), OpenFault>
    ensures { OnOk result (IsOfChannel config read.now.content.bodies.items) }
{
    if is_served(rt, paths)? {
        return check_channel(alloc, &config, &read.content.bodies);
    }
    if paths.is_marked(rt) {
        return Err(OpenFault::Marked);
    }
    open_to_write(rt, &paths.log, StorePart::Log)?;
    let run = config.base().run();
    let own = StartRecord::new(read_boot_id(rt), SyncMode::Never, run);
    find_channel(rt, alloc, &paths.media, config, read, own)?;
    Ok(())
}

/// Compares the channel of a log with a configuration.
fn check_channel(alloc: Global, config: &Config, bodies: &[Bytes]) -> Result<(), OpenFault>
    ensures { OnOk result (IsOfChannel config.now bodies.now) }
{
    if let Some(first) = bodies.first() {
        read_channel(alloc, first, config)?;
    }
    Ok(())
}

/// Whether another process has the folder.
fn is_served<R: Files<File = File>>(rt: &R, paths: &StorePaths) -> Result<bool, OpenFault> {
    if !is_there(rt, &paths.lock) {
        return Ok(false);
    }
    let lock = open_to_write(rt, &paths.lock, StorePart::Lock)?;
    Ok(matches!(lock.try_lock(), Err(TryLockError::WouldBlock)))
}

/// Opens a file as a start does, but doesn't make it.
fn open_to_write<R: Files<File = File>>(
    rt: &R,
    path: &str,
    part: StorePart,
) -> Result<File, OpenFault> {
    let mut options = File::options();
    options.read(true).write(true);
    match options.open(rt, path) {
        Ok(file) => Ok(file),
        Err(error) => Err(open_fault(part, error)),
    }
}
