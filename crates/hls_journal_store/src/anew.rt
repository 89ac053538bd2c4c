//! Begins a new channel after the one that a folder has.

ghost use Rattle.std.specs.Prelude.{◌≡◌, ◌≤◌, length, true, IfOk, IfSome};

use crate::batch::{RENDITIONS, into_bytes};
use crate::begun_log::begin_records;
use crate::boot_id::read_boot_id;
use crate::fault::{OpenFault, StorePart, open_fault};
use crate::inspect::{last_start, read_file};
use crate::kept_units::{MediaIndex, find_kept_units};
use crate::media_starts::MediaStarts;
use crate::start_record::StartRecord;
use crate::store_paths::{StorePaths, is_there};
use crate::sync_mode::SyncMode;
use byteorder::{ByteOrder, LittleEndian};
use bytes::Bytes;
use hls_core::base::{Base, RUN_LIMIT};
use hls_core::config::Config;
use hls_journal::{ChannelHeader, JournalFault, find_ids, is_closed, make_channel_body};
use hls_journal_log::{LogFault, read_disk, read_log};
use std::alloc::Global;
use std::fs::File;
use std::rt::Files;

/// Where the record of a channel has the numbers of its base, of eight bytes each.
const SEGMENTS_AT: usize = 35;

const MARKS_AT: usize = 43;

const VERSION_AT: usize = 52;

/// Where its base ends.
const BASE_END: usize = 188;

/// What precedes the recordings of a log, by its channel's base.
#[derive(Clone, Copy, Drop)]
struct OldNumbers {
    segments: u64,
    marks: u64,
    version: u64,
}

/// What a folder has of a channel.
#[derive(Drop)]
struct OldChannel {
    /// The bodies of its records; none if the log is damaged.
    bodies: Vec<Bytes>,
    /// Whether players may have seen more than its log has.
    may_lack: bool,
}

/// Replaces the channel in a folder by an empty one with this configuration, which may have another ladder. Its lists count on from a
/// number above all that the old channel can have listed, after a discontinuity, and its paths have the run `new_run`, a name that no
/// other channel has. The number is at least the given base's, and where players may have seen more than the folder has, at least `least`,
/// which no list can have reached. Returns the base of the new channel; `None` if the folder has no log, and nothing is changed then.
///
/// A marked folder, and one with a damaged log, is taken too. A crash leaves the old channel or the new one.
///
/// # Errors
/// `Busy`: another process has the folder. `Channel(NoChannel)`: the numbers would be above the limits of a base. `Disk`: a call on a
/// file failed. `Memory`: an allocation failed.
pub fn begin_anew<R: Files<File = File>>(
    rt: &R,
    alloc: Global,
    folder: &str,
    config: &Config,
    new_run: [u8; 16],
    least: u64,
) -> Result<Option<Base>, OpenFault>
    ensures served { IfOk result (λ begun. IfSome begun (λ base. config.now.base.segments ≤ base.segments)) }
    ensures run { IfOk result (λ begun. IfSome begun (λ base. base.run ≡ new_run)) }
    ensures marked { IfOk result (λ begun. IfSome begun (λ base. base.marked ≡ true)) }
{
    let paths = StorePaths::new(alloc, folder)?;
    if !is_there(rt, &paths.log) {
        return Ok(None);
    }
    let lock = paths.lock_file(rt)?;
    let old = read_old(rt, alloc, &paths)?;
    let index = find_kept_units(alloc, &old.bodies)?;
    let served = config.base().segments();
    let least = if old.may_lack {
        least.max(served)
    } else {
        served
    };
    let renditions = config.renditions().len();
    let Some(base) = make_base(&old.bodies, &index, new_run, least, renditions) else {
        return Err(OpenFault::Channel(JournalFault::NoChannel));
    };
    write_log(
        rt,
        alloc,
        &paths,
        config,
        base,
        find_ids(&old.bodies).max(1),
    )?;
    clear_folder(rt, alloc, &paths, &lock, &old, renditions)?;
    Ok(Some(base))
}

/// Reads what a folder has of a channel.
fn read_old<R: Files<File = File>>(
    rt: &R,
    alloc: Global,
    paths: &StorePaths,
) -> Result<OldChannel, OpenFault> {
    let text = read_file(rt, alloc, &paths.log)?;
    let bodies = match read_log(alloc, &text) {
        Ok(content) => content.bodies,
        Err(LogFault::Damaged { .. }) => Vec::new(alloc),
        Err(fault) => return Err(fault.into()),
    };
    let last = last_start(&bodies);
    let may_lack = bodies.is_empty()
        || paths.is_marked(rt)
        || last.may_lack(&read_boot_id(rt), is_closed(&bodies));
    Ok(OldChannel { bodies, may_lack })
}

/// Returns the base of a channel that follows the one with these records. A channel lists fewer segments than rendition 0 has units.
fn make_base(
    bodies: &[Bytes],
    index: &MediaIndex,
    run: [u8; 16],
    least: u64,
    renditions: usize,
) -> Option<Base>
    ensures served { IfSome result (λ base. least ≤ base.segments) }
    ensures run { IfSome result (λ base. base.run ≡ run) }
    ensures marked { IfSome result (λ base. base.marked ≡ true) }
{
    let old = find_numbers(bodies);
    let more = index.count(0).saturating_add(1);
    let starts = MediaStarts::of_log(bodies);
    let mut bytes = [0; RUN_LIMIT];
    for (rendition, count) in bytes.iter_mut().enumerate() {
        if rendition < renditions {
            *count = starts.get(rendition).saturating_add(index.total(rendition));
        }
    }
    Base::new(
        run,
        old.segments.saturating_add(more).max(least),
        old.marks.saturating_add(more).max(least),
        true,
        bytes,
        old.version.saturating_add(bodies.len() as u64),
    )
}

/// Returns what precedes the recordings of a log; zeros if it has no channel.
fn find_numbers(bodies: &[Bytes]) -> OldNumbers {
    match bodies.first() {
        Some(first) if first.len() >= BASE_END => read_numbers(first),
        _ => OldNumbers {
            segments: 0,
            marks: 0,
            version: 0,
        },
    }
}

/// Reads the numbers of a channel's record.
fn read_numbers(body: &[u8]) -> OldNumbers
    requires { 188 ≤ length body.now }
{
    OldNumbers {
        segments: LittleEndian::read_u64(&body[SEGMENTS_AT..]),
        marks: LittleEndian::read_u64(&body[MARKS_AT..]),
        version: LittleEndian::read_u64(&body[VERSION_AT..]),
    }
}

/// Writes the log of an empty channel, and puts it in the place of the old one.
fn write_log<R: Files<File = File>>(
    rt: &R,
    alloc: Global,
    paths: &StorePaths,
    config: &Config,
    base: Base,
    first_job: u64,
) -> Result<(), OpenFault> {
    let own = StartRecord::new(read_boot_id(rt), SyncMode::Never, base.run());
    let mut disk = match paths.create_new_log(rt) {
        Ok(disk) => disk,
        Err(error) => return Err(open_fault(StorePart::Log, error)),
    };
    let read = read_disk(alloc, &mut disk)?;
    let header = ChannelHeader {
        boot: own.boot,
        base,
    };
    let first = into_bytes(make_channel_body(alloc, config, &header)?)?;
    let _log = begin_records(alloc, disk, &read, &Some(first), first_job, &own)?;
    match paths.replace_log(rt) {
        Ok(()) => Ok(()),
        Err(error) => Err(open_fault(StorePart::Log, error)),
    }
}

/// Removes what only the old channel needs and a start doesn't remove: all media of a damaged log, which may be anywhere, and those of
/// renditions that the new one doesn't have. Then the folder isn't marked any more.
fn clear_folder<R: Files<File = File>>(
    rt: &R,
    alloc: Global,
    paths: &StorePaths,
    lock: &File,
    old: &OldChannel,
    renditions: usize,
) -> Result<(), OpenFault> {
    let kept = if old.bodies.is_empty() { 0 } else { renditions };
    for rendition in kept..RENDITIONS {
        let folder = format!(in alloc; "{}/{rendition}", paths.media)?;
        let _ = rt.remove_dir_all(alloc, &folder);
    }
    match paths.remove_mark(rt, lock) {
        Ok(()) => Ok(()),
        Err(error) => Err(open_fault(StorePart::Marker, error)),
    }
}
