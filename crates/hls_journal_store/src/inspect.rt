//! Reports what a journal's folder holds, and closes the journal of a process that has ended.

use crate::batch::{RENDITIONS, into_bytes};
use crate::boot_id::{is_same_boot, read_boot_id};
use crate::fault::{OpenFault, StorePart, open_fault};
use crate::kept_units::{MediaIndex, find_kept_units};
use crate::media_read::{read_pieces, read_unit};
use crate::media_span::find_span;
use crate::media_starts::MediaStarts;
use crate::media_track::{media_path, open_and_sync};
use crate::older_format::{check_format, check_text};
use crate::records::{append_closed, append_point, sync_log};
use crate::start_record::{StartRecord, find_start};
use crate::store_paths::{StorePaths, open_regular};
use crate::sync_mode::SyncMode;
use bytes::Bytes;
use hls_journal::is_closed;
use hls_journal_log::{LogContent, begin_log, read_disk, read_log};
use std::alloc::Global;
use std::fs::{self, File};
use std::io::{self, ErrorKind};
use std::ops::Range;
use std::rt::Files;

/// What a journal's folder holds.
#[derive(Clone, Copy, Debug, Drop)]
pub struct StoreReport {
    /// Whether players have seen more of the channel than the log has.
    pub is_marked: bool,
    /// The number of the log's records.
    pub records: usize,
    /// The bytes of the log's records.
    pub log_bytes: usize,
    /// How many bytes of an incomplete record follow.
    pub dropped: usize,
    /// The number of units that aren't trimmed.
    pub units: usize,
    /// How many of them the media files don't have.
    pub missing: usize,
    /// The bytes of the others.
    pub media_bytes: u64,
    /// Whether the journal was closed.
    pub was_closed: bool,
    /// Whether the last process that wrote to it ran on this boot.
    pub same_boot: bool,
    /// Whether players may have seen more, so that a start takes a new run.
    pub may_lack: bool,
}

/// Reports what the journal in a folder holds. Changes nothing, and takes no lock.
pub fn inspect_store<R: Files<File = File>>(
    rt: &R,
    alloc: Global,
    folder: &str,
) -> Result<StoreReport, OpenFault> {
    let paths = StorePaths::new(alloc, folder)?;
    let text = read_file(rt, alloc, &paths.log)?;
    let content = read_log(alloc, &text)?;
    check_text(&content.bodies, &text)?;
    let index = find_kept_units(alloc, &content.bodies)?;
    let boot = read_boot_id(rt);
    let last = last_start(&content.bodies);
    let was_closed = is_closed(&content.bodies);
    let mut report = StoreReport {
        is_marked: paths.is_marked(rt),
        records: content.bodies.len(),
        log_bytes: content.len,
        dropped: text.len().saturating_sub(content.len),
        units: index.units.len(),
        missing: 0,
        media_bytes: 0,
        was_closed,
        same_boot: is_same_boot(&last.boot, &boot),
        may_lack: last.may_lack(&boot, was_closed),
    };
    let starts = MediaStarts::of_log(&content.bodies);
    check_units(rt, alloc, &paths.media, &index, &starts, &mut report)?;
    Ok(report)
}

/// Returns what the last process that wrote has noted. A log without such a record is of no boot.
pub(crate) fn last_start(bodies: &[Bytes]) -> StartRecord {
    find_start(bodies, StartRecord::new([0; 16], SyncMode::Never, [0; 16]))
}

/// Counts the units that the media files have, and those that they don't have.
fn check_units<R: Files<File = File>>(
    rt: &R,
    alloc: Global,
    folder: &str,
    index: &MediaIndex,
    starts: &MediaStarts,
    report: &mut StoreReport,
) -> Result<(), OpenFault> {
    for unit in &index.units {
        match read_unit(rt, alloc, folder, unit, starts)? {
            Some(piece) if piece.sum == unit.sum => {
                report.media_bytes = report.media_bytes.saturating_add(unit.len as u64);
            }
            _ => report.missing = report.missing.saturating_add(1),
        }
    }
    Ok(())
}

/// Returns the bytes of a file.
pub(crate) fn read_file<R: Files<File = File>>(
    rt: &R,
    alloc: Global,
    path: &str,
) -> Result<Bytes, OpenFault> {
    let (file, len) = match open_to_read(rt, path) {
        Ok(opened) => opened,
        Err(error) => return Err(open_fault(StorePart::Log, error)),
    };
    let mut text = Vec::with_capacity(alloc, len)?;
    match read_pieces(&file, 0, len, &mut text) {
        Ok(()) => Ok(into_bytes(text)?),
        Err(error) => Err(open_fault(StorePart::Log, error)),
    }
}

fn open_to_read<R: Files<File = File>>(rt: &R, path: &str) -> io::Result<(File, usize)> {
    let file = open_regular(rt, path)?;
    let len = file.metadata()?.len() as usize;
    Ok((file, len))
}

/// Closes the journal in a folder, of a process that has ended: writes that it was closed, and makes everything durable. What follows
/// the last complete record is cut off. Does nothing if there is no record, or if the process ran before the machine was restarted: what
/// is missing then is for the next start to find.
///
/// # Errors
/// As for `open_store`; `Disk` with `NotFound` if the folder has no log, and nothing is made then.
pub fn close_store<R: Files<File = File>>(
    rt: &R,
    alloc: Global,
    folder: &str,
) -> Result<(), OpenFault> {
    let paths = StorePaths::new(alloc, folder)?;
    if let Err(error) = fs::metadata(rt, &paths.log) {
        return Err(open_fault(StorePart::Log, error));
    }
    let _lock = paths.lock(rt)?;
    let mut disk = paths.open_log(rt)?;
    let read = read_disk(alloc, &mut disk)?;
    check_format(&mut disk, &read)?;
    if read.content.bodies.is_empty() || is_closed(&read.content.bodies) {
        return Ok(());
    }
    if !is_same_boot(&last_start(&read.content.bodies).boot, &read_boot_id(rt)) {
        return Ok(());
    }
    sync_media(rt, alloc, &paths.media, &read.content)?;
    let mut log = match begin_log(disk, &read) {
        Ok(log) => log,
        Err(error) => return Err(open_fault(StorePart::Log, error)),
    };
    // without a sync point, damage to the last records would look like a torn tail
    sync_log(&mut log)?;
    append_point(&mut log, alloc, &mut 0)?;
    append_closed(&mut log, alloc)?;
    Ok(())
}

/// Makes the media files durable, and their names.
pub(crate) fn sync_media<R: Files<File = File>>(
    rt: &R,
    alloc: Global,
    folder: &str,
    content: &LogContent,
) -> Result<(), OpenFault> {
    let index = find_kept_units(alloc, &content.bodies)?;
    let starts = MediaStarts::of_log(&content.bodies);
    for rendition in 0..RENDITIONS {
        if index.total(rendition) > 0 {
            let folder = format!(in alloc; "{folder}/{rendition}")?;
            let start = starts.get(rendition);
            let end = start.saturating_add(index.total(rendition));
            sync_files(
                rt,
                alloc,
                &folder,
                find_span(start, 0).number..find_span(end, 1).number.saturating_add(1),
            )?;
        }
    }
    Ok(())
}

/// Syncs the media files with these numbers in a folder, and the folder. Those that were removed are passed over.
fn sync_files<R: Files<File = File>>(
    rt: &R,
    alloc: Global,
    folder: &str,
    numbers: Range<u64>,
) -> Result<(), OpenFault> {
    for number in numbers {
        sync_if_there(rt, &media_path(alloc, folder, number)?)?;
    }
    sync_if_there(rt, folder)
}

fn sync_if_there<R: Files<File = File>>(rt: &R, path: &str) -> Result<(), OpenFault> {
    match open_and_sync(rt, path) {
        Ok(()) => Ok(()),
        Err(error) if error.kind() == ErrorKind::NotFound => Ok(()),
        Err(error) => Err(open_fault(StorePart::Media, error)),
    }
}
