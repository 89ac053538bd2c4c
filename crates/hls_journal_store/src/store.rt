//! Opens the folder of a journal.

ghost use Rattle.std.specs.Prelude.{◌≤◌, ◌<◌, OnErr, OnOk};
ghost use Rattle.hls_journal_store.specs.Numbers.{next_segment};
ghost use Rattle.hls_journal_store.specs.Starts.{IsOfChannel};

use crate::batch::{Position, find_position, into_bytes};
use crate::begun_log::{RESERVED_IDS, begin_records};
use crate::boot_id::{is_same_boot, read_boot_id};
use crate::fault::OpenFault;
use crate::follower::{Follower, StoreFollower};
use crate::inspect::sync_media;
use crate::log_file::LogFile;
use crate::long_log::{is_renewal_due, renew_channel};
use crate::media_files::MediaFiles;
use crate::media_starts::MediaStarts;
use crate::media_track::remove_before;
use crate::next_segment::{is_stale, next_segment};
use crate::older_format::check_format;
use crate::renewal::renew_store;
use crate::restored::{Source, count_bytes, count_synced, restore_prefix};
use crate::start_record::{StartRecord, choose_run, find_start, with_run};
use crate::store_paths::{StorePaths, is_there};
use crate::sync_mode::SyncMode;
use bytes::Bytes;
use hls_core::base::Base;
use hls_core::config::Config;
use hls_core::snapshot::Snapshot;
use hls_journal::{ChannelHeader, find_ids, is_closed, make_channel_body, read_channel};
use hls_journal_log::{Log, ReadLog, read_disk};
use std::alloc::{AllocError, Global};
use std::fs::File;
use std::rt::Files;
use std::sync::Arc;
use std::thread::Threads;

/// An open journal, and its channel.
#[derive(Drop)]
pub struct OpenedStore {
    pub follower: StoreFollower,
    /// The channel's state: the opening one of a new journal, else the restored one.
    pub snapshot: Arc<Snapshot>,
    pub start: StoreStart,
}

/// What a start found.
#[derive(Clone, Copy, Debug, Drop)]
pub struct StoreStart {
    /// Whether the folder had no channel.
    pub is_new: bool,
    /// The number of log entries that were restored.
    pub version: u64,
    /// The bytes of the log's records.
    pub log_bytes: usize,
    /// How many bytes of an incomplete record were cut off.
    pub dropped: usize,
    /// The number of units that were read.
    pub units: usize,
    /// The first job id that no process has given out.
    pub first_job: u64,
    /// Whether the journal had been closed.
    pub was_closed: bool,
    /// Whether the last process that wrote to it ran on this boot.
    pub same_boot: bool,
    /// Whether players may have seen more than was restored. The channel has the new run then.
    pub may_lack: bool,
}

/// The channel of a log.
#[derive(Drop)]
pub(crate) struct LogChannel {
    snapshot: Arc<Snapshot>,
    start: StoreStart,
    /// How many of the log's records it is restored from.
    records: usize,
    /// The body of the first record, which a new log has yet to get.
    first: Option<Bytes>,
}

/// An open log, and its channel.
#[derive(Drop)]
struct OpenLog {
    log: Log<LogFile>,
    point_end: usize,
    snapshot: Arc<Snapshot>,
    start: StoreStart,
}

/// The media files of a channel, and how far its journal has come.
#[derive(Drop)]
struct ChannelFiles {
    media: MediaFiles,
    position: Position,
}

/// Opens the journal in a folder, which is made if it is missing, and restores its channel. `config.base` counts only for a new
/// channel; another one has the base of its first record, with the run of the last process. But its next segment must not have a
/// lower number than the given base says: players have seen those below.
///
/// If the machine ended before the journal was closed, and not everything was synced before it was reported, what players saw last
/// may be lost. The channel then has the run `new_run`, a name that no other channel has: no path names other bytes than before.
///
/// Nothing that the folder has is changed before the channel is restored.
///
/// # Errors
/// `Busy`: another process has the folder. `Marked`: players have seen more than the log has. `Damaged`, `Channel`: the folder doesn't
/// restore a channel with this configuration. `Stale`: its numbers are below those of the given base. `Disk`: a call on a file failed.
/// `Memory`: an allocation failed.
pub fn open_store<R: Files<File = File> + Threads + Sync>(
    rt: &R,
    alloc: Global,
    folder: &str,
    config: Config,
    mode: SyncMode,
    new_run: [u8; 16],
) -> Result<OpenedStore, OpenFault> {
    let paths = StorePaths::new(alloc, folder)?;
    let lock = paths.lock(rt)?;
    paths.remove_new_log(rt);
    let own = StartRecord::new(read_boot_id(rt), mode, new_run);
    let open = open_log(rt, alloc, &paths, config, own)?;
    let files = find_files(rt, alloc, &paths.media, &open.snapshot)?;
    let mut opened = OpenedStore {
        follower: Follower {
            log: open.log,
            point_end: open.point_end,
            media: files.media,
            position: files.position,
            mode,
            ended: None,
            next_ids: open.start.first_job.saturating_add(RESERVED_IDS),
            paths,
            lock,
        },
        snapshot: open.snapshot,
        start: open.start,
    };
    shorten_log(rt, alloc, &mut opened)?;
    Ok(opened)
}

/// Renews a channel whose log is long. One that can't be renewed keeps its log.
fn shorten_log<R: Files<File = File> + Threads + Sync>(
    rt: &R,
    alloc: Global,
    opened: &mut OpenedStore,
) -> Result<(), OpenFault> {
    if !is_renewal_due(&opened.snapshot) {
        return Ok(());
    }
    let Ok(renewed) = renew_channel(alloc, &opened.snapshot) else {
        return Ok(());
    };
    opened.start.first_job = renew_store(rt, rt, alloc, &mut opened.follower, &renewed)?;
    opened.snapshot = renewed;
    Ok(())
}

/// Opens the log, restores its channel, and begins to write.
fn open_log<R: Files<File = File> + Threads + Sync>(
    rt: &R,
    alloc: Global,
    paths: &StorePaths,
    config: Config,
    own: StartRecord,
) -> Result<OpenLog, OpenFault> {
    let mut disk = paths.open_log(rt)?;
    let mut read = read_disk(alloc, &mut disk)?;
    check_format(&mut disk, &read)?;
    let channel = find_channel(rt, alloc, &paths.media, config, &read, own)?;
    if channel.start.same_boot && !channel.start.was_closed {
        // the log says what is synced, and means its media too
        sync_media(rt, alloc, &paths.media, &read.content)?;
    }
    keep_records(&mut read, channel.records);
    let run = channel.snapshot.config().base().run();
    let begun = begin_records(
        alloc,
        disk,
        &read,
        &channel.first,
        channel.start.first_job,
        &StartRecord { run, ..own },
    )?;
    Ok(OpenLog {
        log: begun.log,
        point_end: begun.point_end,
        snapshot: channel.snapshot,
        start: StoreStart {
            log_bytes: read.content.len,
            dropped: read.dropped,
            ..channel.start
        },
    })
}

/// Removes media that only an earlier log needed. Returns the media files and the position of a journal that has the records of a state of a channel.
fn find_files<R: Files<File = File>>(
    rt: &R,
    alloc: Global,
    folder: &str,
    snapshot: &Snapshot,
) -> Result<ChannelFiles, AllocError> {
    let renditions = snapshot.config().renditions().len();
    let starts = MediaStarts::of_base(snapshot.config().base());
    for rendition in 0..renditions {
        let folder = format!(in alloc; "{folder}/{rendition}")?;
        remove_before(rt, alloc, &folder, starts.get(rendition))?;
    }
    Ok(ChannelFiles {
        media: MediaFiles::new(alloc, folder, renditions, &starts)?,
        position: find_position(alloc, snapshot)?,
    })
}

/// Returns the channel of a log: the restored one, or a new one if there is no record. Writes nothing.
pub(crate) fn find_channel<R: Files<File = File> + Threads + Sync>(
    rt: &R,
    alloc: Global,
    media: &str,
    config: Config,
    read: &ReadLog,
    own: StartRecord,
) -> Result<LogChannel, OpenFault>
    ensures channel { OnOk result (IsOfChannel config read.now.content.bodies.items) }
{
    if read.content.bodies.is_empty() {
        check_no_media(rt, alloc, media, config.renditions().len())?;
        return new_channel(alloc, config, read, own.boot);
    }
    let header = read_channel(alloc, &read.content.bodies[0], &config)?;
    let records = &read.content.bodies[1..];
    let was_closed = is_closed(records);
    let last = find_start(records, header_start(&header));
    let may_lack = last.may_lack(&own.boot, was_closed);
    let source = Source {
        media,
        config: &config,
        base: base_of_start(&header, choose_run(may_lack, own.run, &last))?,
    };
    let same_boot = is_same_boot(&last.boot, &own.boot);
    let synced = if was_closed || same_boot {
        records.len()
    } else {
        count_synced(&read.content.bodies).saturating_sub(1)
    };
    let restored = restore_prefix(rt, alloc, &source, records, synced)?;
    check_numbers(&restored.snapshot, config.base())?;
    let start = StoreStart {
        is_new: false,
        version: restored.snapshot.version(),
        log_bytes: read.content.len,
        dropped: read.dropped,
        units: restored.units,
        first_job: find_ids(records).max(1),
        was_closed,
        same_boot,
        may_lack,
    };
    Ok(LogChannel {
        snapshot: restored.snapshot,
        start,
        records: restored.count.saturating_add(1),
        first: None,
    })
}

/// Refuses a restored channel whose lists would fall behind what players have seen: another process has served the channel since.
fn check_numbers(snapshot: &Snapshot, given: &Base) -> Result<(), OpenFault>
    ensures current { OnOk result (given.now.segments ≤ next_segment snapshot.now) }
    ensures stale { OnErr result (next_segment snapshot.now < given.now.segments) }
{
    let served = given.segments();
    if is_stale(snapshot, served) {
        return Err(OpenFault::Stale {
            next: next_segment(snapshot),
            served,
        });
    }
    Ok(())
}

/// What the first record says of the process that wrote it.
fn header_start(header: &ChannelHeader) -> StartRecord {
    StartRecord::new(header.boot, SyncMode::Never, header.base.run())
}

/// Returns the base of a channel with a run; `Damaged` if that isn't the name of one.
fn base_of_start(header: &ChannelHeader, run: [u8; 16]) -> Result<Base, OpenFault> {
    match with_run(&header.base, run) {
        Some(base) => Ok(base),
        None => Err(OpenFault::Damaged { at: 0 }),
    }
}

/// Refuses a log without records beside media: the first record is durable before there are any.
fn check_no_media<R: Files<File = File>>(
    rt: &R,
    alloc: Global,
    media: &str,
    renditions: usize,
) -> Result<(), OpenFault> {
    for rendition in 0..renditions {
        if is_there(rt, &format!(in alloc; "{media}/{rendition}")?) {
            return Err(OpenFault::Damaged { at: 0 });
        }
    }
    Ok(())
}

/// Leaves the first records of a log; what follows counts as dropped.
fn keep_records(read: &mut ReadLog, records: usize) {
    if records < read.content.bodies.len() {
        read.content.bodies.truncate(records);
        let len = count_bytes(&read.content.bodies);
        read.dropped = read
            .dropped
            .saturating_add(read.content.len.saturating_sub(len));
        read.content.len = len;
    }
}

fn new_channel(
    alloc: Global,
    config: Config,
    read: &ReadLog,
    boot: [u8; 16],
) -> Result<LogChannel, OpenFault> {
    let header = ChannelHeader {
        boot,
        base: *config.base(),
    };
    let first = into_bytes(make_channel_body(alloc, &config, &header)?)?;
    let snapshot = open_channel(alloc, config)?;
    let start = StoreStart {
        is_new: true,
        version: 0,
        log_bytes: 0,
        dropped: read.dropped,
        units: 0,
        first_job: 1,
        was_closed: false,
        same_boot: true,
        may_lack: false,
    };
    Ok(LogChannel {
        snapshot,
        start,
        records: 0,
        first: Some(first),
    })
}

/// Returns the channel before any event.
fn open_channel(alloc: Global, config: Config) -> Result<Arc<Snapshot>, AllocError> {
    Ok(Arc::new(alloc, Snapshot::first(alloc, config)?)?)
}
