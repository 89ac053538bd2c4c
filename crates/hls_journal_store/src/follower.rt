//! The follower: writes what a channel has grown by.

ghost use Rattle.std.specs.Prelude.{◌≡◌, ◌<◌, ◌≤◌, length, IfOk, OnOk};
ghost use Rattle.hls_journal_store.specs.declared.sync_mode.SyncMode.TheVariants as sync_mode;
ghost use Rattle.hls_journal_store.specs.Batches.{IsBatch, IsNext};
ghost use Rattle.hls_journal_store.specs.Followed.{Grows, IsDurable};

use crate::batch::{Batch, Position, make_batch};
use crate::fault::{BatchFault, EndCause, StoreFault, StorePart, write_fault};
use crate::log_file::LogFile;
use crate::media_files::MediaFiles;
use crate::media_track::open_and_sync;
use crate::records::{append_closed, append_point, sync_log, write_records};
use crate::store_paths::StorePaths;
use crate::sync_mode::SyncMode;
use hls_core::snapshot::Snapshot;
use hls_journal_log::Log;
use sqlite_disk::Disk;
use std::alloc::Global;
use std::fs::{self, File};
use std::io;
use std::os::unix::fs::FileExt;
use std::rt::Files;
use std::thread::{Threads, join};

/// The most log entries of one write.
pub(crate) const BATCH_ENTRIES: u64 = 4096;

/// The most log entries of the first write of a call, if a write isn't followed by a sync.
const FIRST_ENTRIES: u64 = 8;

/// How many bytes of media a later write of the call has then, roughly.
const WRITE_LEN: u64 = 2097152;

/// How many times more entries a write has than the one before it, if not less: their records take a third of the time of a write.
const GROWTH: u64 = 3;

/// The least bytes of media whose write is worth a thread.
const THREAD_LEN: u64 = 524288;

/// What a locked file has if its folder is marked.
const MARK: &[u8] = b"behind\n";

/// Writes the journal of a channel into its folder, which it has locked.
///
/// The log has the records of a prefix of the channel's events: those of the first `version` entries of its log.
#[derive(Drop)]
pub struct Follower<D: Disk + Drop> {
    /// The log.
    pub(crate) log: Log<D>,
    /// How long the log was when the last sync point was appended.
    pub(crate) point_end: usize,
    pub(crate) media: MediaFiles,
    pub(crate) position: Position,
    pub(crate) mode: SyncMode,
    /// Why the journal has ended.
    pub(crate) ended: Option<EndCause>,
    pub(crate) paths: StorePaths,
    /// The first job id that isn't reserved.
    pub(crate) next_ids: u64,
    /// Holds the folder's lock.
    pub(crate) lock: File,
}

/// A follower of a folder of the system.
pub type StoreFollower = Follower<LogFile>;

impl<D: Disk + Drop> Follower<D> {
    /// Returns how many log entries of the channel have records.
    pub fn version(&self) -> u64 {
        self.position.version
    }

    /// Writes what a state of the channel has grown by since the last call: the media of each entry, then the records. Returns how many
    /// log entries are durable in the follower's mode.
    ///
    /// The state must follow that of the last call.
    pub fn follow<R: Files<File = File>, T: Threads>(
        &mut self,
        rt: &R,
        threads: &T,
        alloc: Global,
        snapshot: &Snapshot,
    ) -> Result<u64, StoreFault>
        ensures version { IfOk result (λ version. version ≡ self.new.position.version) }
        ensures all { OnOk result (self.old.position.version ≤ length snapshot.now.log → self.new.position.version ≡ length snapshot.now.log) }
        ensures grows { OnOk result (Grows snapshot.now self.old.position self.new.position self.old.log.next self.new.log.next self.old.log.end self.new.log.end (D.seen self.old.log.disk) (D.seen self.new.log.disk)) }
        ensures durable { OnOk result (self.old.mode ≡ sync_mode.Each → self.old.position.version < length snapshot.now.log → IsDurable snapshot.now self.old.position self.new.position self.old.log.next self.old.log.end (D.seen self.old.log.disk) (D.may_leave self.new.log.disk)) }
    {
        check_open(rt, &self.paths, &self.lock, &mut self.ended)?;
        let outcome = self.write_news(rt, threads, alloc, snapshot);
        note_end(&mut self.ended, outcome)?;
        Ok(self.position.version)
    }

    fn write_news<R: Files<File = File>, T: Threads>(
        &mut self,
        rt: &R,
        threads: &T,
        alloc: Global,
        snapshot: &Snapshot,
    ) -> Result<(), StoreFault>
        ensures version { OnOk result (self.old.position.version ≤ length snapshot.now.log → self.new.position.version ≡ length snapshot.now.log) }
        ensures grows { OnOk result (Grows snapshot.now self.old.position self.new.position self.old.log.next self.new.log.next self.old.log.end self.new.log.end (D.seen self.old.log.disk) (D.seen self.new.log.disk)) }
        ensures durable { OnOk result (self.old.mode ≡ sync_mode.Each → self.old.position.version < length snapshot.now.log → IsDurable snapshot.now self.old.position self.new.position self.old.log.next self.old.log.end (D.seen self.old.log.disk) (D.may_leave self.new.log.disk)) }
    {
        let version = snapshot.version();
        let most = find_first_most(self.mode);
        let mut batch = make_next(alloc, snapshot, &self.position, most)?;
        'batches: while self.position.version < version {
            batch = self.write_batch(rt, threads, alloc, snapshot, batch)?;
        }
        self.media
            .follow_trims(rt, alloc, snapshot, self.mode, &self.paths.log)?;
        Ok(())
    }

    /// Writes one batch of entries: the media, then the records. Returns the next batch, which is made while the media are written.
    fn write_batch<R: Files<File = File>, T: Threads>(
        &mut self,
        rt: &R,
        threads: &T,
        alloc: Global,
        snapshot: &Snapshot,
        batch: Batch,
    ) -> Result<Batch, StoreFault>
        requires { IsBatch snapshot.now self.old.position batch }
        ensures position { OnOk result (self.new.position ≡ batch.position) }
        ensures next { IfOk result (IsNext snapshot.now batch.position) }
        ensures grows { OnOk result (Grows snapshot.now self.old.position self.new.position self.old.log.next self.new.log.next self.old.log.end self.new.log.end (D.seen self.old.log.disk) (D.seen self.new.log.disk)) }
        ensures durable { OnOk result (self.old.mode ≡ sync_mode.Each → IsDurable snapshot.now self.old.position self.new.position self.old.log.next self.old.log.end (D.seen self.old.log.disk) (D.may_leave self.new.log.disk)) }
        ensures mode { self.new.mode ≡ self.old.mode }
    {
        let next = self.write_media(rt, threads, alloc, snapshot, &batch)?;
        write_records(
            &mut self.log,
            alloc,
            &batch.bodies,
            self.mode,
            &mut self.point_end,
        )?;
        self.position = batch.position;
        Ok(next?)
    }

    /// Writes the media of a batch, and makes the next batch: meanwhile by a thread of its own, if there are many bytes and more to come.
    fn write_media<R: Files<File = File>, T: Threads>(
        &mut self,
        rt: &R,
        threads: &T,
        alloc: Global,
        snapshot: &Snapshot,
        batch: &Batch,
    ) -> Result<Result<Batch, BatchFault>, StoreFault>
        ensures next { IfOk result (λ next. IfOk next (IsNext snapshot.now batch.now.position)) }
        ensures log { self.new.log ≡ self.old.log }
        ensures position { self.new.position ≡ self.old.position }
        ensures mode { self.new.mode ≡ self.old.mode }
    {
        let mode = self.mode;
        let media = &mut self.media;
        let len = count_bytes(batch);
        let most = find_most(mode, batch.bodies.len() as u64, len);
        if len < THREAD_LEN || batch.position.version >= snapshot.version() {
            media.write(rt, alloc, &batch.writes, mode)?;
            return Ok(make_next(alloc, snapshot, &batch.position, most));
        }
        let (next, written) = join(
            threads,
            || -> Result<Batch, BatchFault>
                requires { 0 < most }
                ensures { IfOk result (IsNext snapshot.entry.now batch.entry.now.position) }
            { make_next(alloc, snapshot, &batch.position, most) },
            || -> Result<(), StoreFault> { media.write(rt, alloc, &batch.writes, mode) },
        );
        written?;
        Ok(next)
    }

    /// Makes all that was written durable, and removes the files of trimmed media.
    pub fn sync<R: Files<File = File>>(&mut self, rt: &R, alloc: Global) -> Result<(), StoreFault> {
        check_open(rt, &self.paths, &self.lock, &mut self.ended)?;
        let outcome = self.sync_all(rt, alloc);
        note_end(&mut self.ended, outcome)
    }

    fn sync_all<R: Files<File = File>>(&mut self, rt: &R, alloc: Global) -> Result<(), StoreFault> {
        if self.log.end != self.point_end {
            self.media.sync(rt)?;
            sync_log(&mut self.log)?;
            append_point(&mut self.log, alloc, &mut self.point_end)?;
        }
        self.media.remove_trimmed(rt, alloc)
    }

    /// Writes what a last state of the channel has grown by, and that the channel was closed, and syncs.
    pub fn close<R: Files<File = File>, T: Threads>(
        &mut self,
        rt: &R,
        threads: &T,
        alloc: Global,
        snapshot: &Snapshot,
    ) -> Result<(), StoreFault> {
        self.follow(rt, threads, alloc, snapshot)?;
        self.sync(rt, alloc)?;
        let outcome = append_closed(&mut self.log, alloc);
        note_end(&mut self.ended, outcome)
    }

    /// Marks the folder: players may see more of the channel than the log has. A start refuses a marked folder. The mark is in the locked
    /// file, which is open, whatever became of its name and owner; and it is a name in the folder, which needs no room on the disk. Fails
    /// if both fail.
    pub fn mark<R: Files<File = File>>(&self, rt: &R) -> io::Result<()> {
        let written = write_mark(&self.lock);
        match self.name_mark(rt) {
            Ok(()) => Ok(()),
            Err(_) => written,
        }
    }

    /// Gives the folder the marker's name. Fails if the folder was moved or removed.
    fn name_mark<R: Files<File = File>>(&self, rt: &R) -> io::Result<()> {
        self.paths.find_lock(rt, &self.lock)?;
        // a rename needs no room on the disk
        if fs::rename(rt, &self.paths.spare, &self.paths.marker).is_err() {
            File::create(rt, &self.paths.marker)?.sync_all()?;
        }
        open_and_sync(rt, &self.paths.folder)
    }
}

/// Writes the mark into the locked file, durably.
fn write_mark(lock: &File) -> io::Result<()> {
    lock.write_all_at(MARK, 0)?;
    lock.sync_all()
}

/// Makes the batch of at most `most` entries from a position on; it has some if there are any.
fn make_next(
    alloc: Global,
    snapshot: &Snapshot,
    from: &Position,
    most: u64,
) -> Result<Batch, BatchFault>
    requires { 0 < most }
    ensures { IfOk result (IsNext snapshot.now from.now) }
{
    let batch = make_batch(alloc, snapshot, from, most)?;
    Ok(batch)
}

/// Returns how many bytes of media a batch has.
fn count_bytes(batch: &Batch) -> u64 {
    let mut len: u64 = 0;
    for write in &batch.writes {
        len = len.saturating_add(write.bytes.len() as u64);
    }
    len
}

/// Returns how many entries the first batch of a call has at most. With a sync after each write there is one batch, if it can be.
fn find_first_most(mode: SyncMode) -> u64
    ensures { 0 < result }
{
    match mode {
        SyncMode::Each => BATCH_ENTRIES,
        _ => FIRST_ENTRIES,
    }
}

/// Returns how many entries a batch has at most after one with the given number of entries and bytes of media.
fn find_most(mode: SyncMode, entries: u64, len: u64) -> u64
    ensures { 0 < result }
{
    match mode {
        SyncMode::Each => BATCH_ENTRIES,
        _ => (entries.saturating_mul(WRITE_LEN) / len.max(1))
            .min(entries.saturating_mul(GROWTH))
            .min(BATCH_ENTRIES)
            .max(1),
    }
}

/// Fails if a journal has ended. It ends if its folder was moved or removed.
pub(crate) fn check_open<R: Files<File = File>>(
    rt: &R,
    paths: &StorePaths,
    lock: &File,
    ended: &mut Option<EndCause>,
) -> Result<(), StoreFault> {
    if let Some(cause) = *ended {
        return Err(StoreFault::Ended(cause));
    }
    match paths.find_lock(rt, lock) {
        Ok(()) => Ok(()),
        Err(error) => note_end(ended, Err(write_fault(StorePart::Folder, error))),
    }
}

/// Notes that a journal has ended, if a call failed so.
pub(crate) fn note_end(
    ended: &mut Option<EndCause>,
    outcome: Result<(), StoreFault>,
) -> Result<(), StoreFault>
    ensures { result ≡ outcome }
{
    if let Err(StoreFault::Ended(cause)) = outcome {
        *ended = Some(cause);
    }
    outcome
}
