//! The log on its disk.

ghost use Rattle.std.specs.Prelude.{◌≡◌, ℕ, ◌+◌, ◌<◌, ◌≤◌, ◌^◌, List, ◌∷◌, [], ◌++◌, length, IsTrue, IsOk, ◌↔◌, OnOk, OnErr};
ghost use Rattle.hls_journal_log.specs.Records.{record_bytes, log_bytes};
ghost use Rattle.hls_journal_log.specs.SyncPoints.{sync_point_body};
ghost use Rattle.hls_journal_log.specs.Room.{HasRoom};
ghost use Rattle.hls_journal_log.specs.Crashes.{Survive};

use crate::BODY_LIMIT;
use crate::write::{make_records, make_sync_point};
use bytes::Bytes;
use sqlite_disk::Disk;
use std::alloc::Global;
use std::io::{self, ErrorKind};

/// The bytes after which a log takes no more records: 2^62.
pub const LOG_BYTES_LIMIT: usize = 4611686018427387904;

/// The number from which no record is appended: 2^62.
pub const LOG_RECORDS_LIMIT: u64 = 4611686018427387904;

/// A log that is appended to.
///
/// After a failed sync nothing more may be asked of its disk, since what was written may be lost without a further error; every call
/// then fails.
#[derive(Drop)]
pub struct Log<D: Disk + Drop> {
    /// The disk.
    pub disk: D,
    /// The number of bytes of the log: the place of the next record.
    pub end: usize,
    /// The number of the next record.
    pub next: u64,
    /// How many of the bytes are synced.
    pub synced: usize,
}

impl<D: Disk + Drop> Log<D> {
    /// Appends records with these bodies, by one write. Records that survive a crash still do, whether or not the call fails; after a
    /// failed call the next one writes to the same place.
    ///
    /// `InvalidInput`: a body is above [`BODY_LIMIT`], or the log is at its limit. `Other`: an earlier sync failed.
    pub fn append(&mut self, alloc: Global, bodies: &[Bytes]) -> io::Result<()>
        ensures survive { (kept : List (List ℕ)) → length (log_bytes 0 kept) ≤ self.old.end → Survive kept (D.may_leave self.old.disk) → Survive kept (D.may_leave self.new.disk) }
        ensures seen { OnOk result (length (D.seen self.old.disk) ≡ self.old.end → D.seen self.new.disk ≡ D.seen self.old.disk ++ log_bytes self.old.next bodies.now) }
        ensures end { OnOk result (self.new.end ≡ self.old.end + length (log_bytes self.old.next bodies.now)) }
        ensures next { OnOk result (self.new.next ≡ self.old.next + length bodies.now) }
        ensures failed { OnErr result ((self.new.end ≡ self.old.end) × (self.new.next ≡ self.old.next)) }
        ensures synced { self.new.synced ≡ self.old.synced }
        ensures usable { D.is_usable self.new.disk ≡ D.is_usable self.old.disk }
    {
        if !self.has_room(bodies) {
            return Err(ErrorKind::InvalidInput.into());
        }
        let text = make_records(alloc, self.next, bodies)?;
        self.write_end(&text)?;
        self.next += bodies.len() as u64;
        Ok(())
    }

    /// Whether records with these bodies fit the log.
    fn has_room(&self, bodies: &[Bytes]) -> bool
        ensures { IsTrue result ↔ HasRoom self.now.end self.now.next bodies.now }
    {
        self.end < LOG_BYTES_LIMIT
            && self.next < LOG_RECORDS_LIMIT
            && bodies.iter().all(|body| body.len() <= BODY_LIMIT)
    }

    /// Fails after a failed sync.
    fn check_disk(&self) -> io::Result<()>
        ensures { IsOk result ↔ IsTrue (D.is_usable self.now.disk) }
    {
        if !self.disk.may_be_used() {
            return Err(ErrorKind::Other.into());
        }
        Ok(())
    }

    /// Writes a text at the end.
    fn write_end(&mut self, text: &[u8]) -> io::Result<()>
        requires { self.old.end < 2 ^ 62 }
        ensures survive { (kept : List (List ℕ)) → length (log_bytes 0 kept) ≤ self.old.end → Survive kept (D.may_leave self.old.disk) → Survive kept (D.may_leave self.new.disk) }
        ensures seen { OnOk result (length (D.seen self.old.disk) ≡ self.old.end → D.seen self.new.disk ≡ D.seen self.old.disk ++ text.now) }
        ensures end { OnOk result (self.new.end ≡ self.old.end + length text.now) }
        ensures failed { OnErr result (self.new.end ≡ self.old.end) }
        ensures next { self.new.next ≡ self.old.next }
        ensures synced { self.new.synced ≡ self.old.synced }
        ensures usable { D.is_usable self.new.disk ≡ D.is_usable self.old.disk }
    {
        self.check_disk()?;
        self.disk.write_at(self.end, text)?;
        self.end += text.len();
        Ok(())
    }

    /// Appends a sync point: a record that says how many bytes of the log are synced.
    pub fn append_sync_point(&mut self, alloc: Global) -> io::Result<()>
        ensures survive { (kept : List (List ℕ)) → length (log_bytes 0 kept) ≤ self.old.end → Survive kept (D.may_leave self.old.disk) → Survive kept (D.may_leave self.new.disk) }
        ensures seen { OnOk result (length (D.seen self.old.disk) ≡ self.old.end → D.seen self.new.disk ≡ D.seen self.old.disk ++ record_bytes self.old.next (sync_point_body self.old.next self.old.synced)) }
        ensures end { OnOk result (self.new.end ≡ self.old.end + length (record_bytes self.old.next (sync_point_body self.old.next self.old.synced))) }
        ensures next { OnOk result (self.new.next ≡ self.old.next + 1) }
        ensures failed { OnErr result ((self.new.end ≡ self.old.end) × (self.new.next ≡ self.old.next)) }
        ensures synced { self.new.synced ≡ self.old.synced }
        ensures usable { D.is_usable self.new.disk ≡ D.is_usable self.old.disk }
    {
        let body = make_sync_point(alloc, self.next, self.synced as u64)?;
        let bodies = [Bytes::from_vec(body)?];
        self.append(alloc, &bodies)
    }

    /// Makes all records durable: a crash can't take them from then on.
    pub fn sync(&mut self) -> io::Result<()>
        ensures survive { OnOk result ((kept : List (List ℕ)) → D.seen self.old.disk ≡ log_bytes 0 kept → Survive kept (D.may_leave self.new.disk)) }
        ensures seen { D.seen self.new.disk ≡ D.seen self.old.disk }
        ensures end { self.new.end ≡ self.old.end }
        ensures next { self.new.next ≡ self.old.next }
        ensures synced { OnOk result (self.new.synced ≡ self.old.end) }
        ensures usable { OnOk result (IsTrue (D.is_usable self.new.disk)) }
    {
        self.check_disk()?;
        self.disk.sync()?;
        self.synced = self.end;
        Ok(())
    }
}
