//! Reads the log on a disk, and begins to append to it.

ghost use Rattle.std.specs.Prelude.{◌≡◌, ◌+◌, ℕ, List, length, take, Ok, IsTrue, IfOk, OnOk};
ghost use Rattle.sqlite_disk.specs.Disk.{Only};
ghost use Rattle.hls_journal_log.specs.Opening.{Judges, JudgesDisk, MayFail, Opens};

use crate::fault::LogFault;
use crate::log::Log;
use crate::read::{LogContent, read_records};
use crate::sync_point::has_sync_point_beyond;
use bytes::{Bytes, BytesMut};
use sqlite_disk::Disk;
use std::alloc::{AllocError, Global};
use std::io::{self, ErrorKind};

/// The content of a log on a disk.
#[derive(Drop)]
pub struct ReadLog {
    pub content: LogContent,
    /// How many bytes follow the last record.
    pub dropped: usize,
}

/// Reads a log, whose first record has the number 0. A tail that isn't complete is reported in the content, and synced bytes that
/// are damaged are `Damaged`.
///
/// The memory that is needed is the text's, and that of a `Bytes` for each record.
pub fn read_log(alloc: Global, text: &Bytes) -> Result<LogContent, LogFault>
    ensures { Judges text.now result }
{
    let end = text.len();
    let content = read_records(alloc, text, 0)?;
    if has_sync_point_beyond(&text[content.len..end], content.len as u64) {
        return Err(LogFault::Damaged { at: content.len });
    }
    Ok(content)
}

/// Reads the log on a disk, and changes nothing.
pub fn read_disk<D: Disk>(alloc: Global, disk: &mut D) -> Result<ReadLog, LogFault>
    ensures judges { IsTrue (D.is_clean disk.new) → JudgesDisk (D.seen disk.old) result }
    ensures seen { D.seen disk.new ≡ D.seen disk.old }
    ensures crash { (c : List ℕ) → D.may_leave disk.new c → D.may_leave disk.old c }
    ensures usable { IfOk result (λ _. IsTrue (D.is_usable disk.new)) }
{
    let text = read_whole(alloc, disk)?;
    let content = read_log(alloc, &text)?;
    let dropped = text.len() - content.len;
    Ok(ReadLog { content, dropped })
}

/// Begins to append to the log that was read on a disk: cuts off what follows its last record, and makes the rest durable.
pub fn begin_log<D: Disk + Drop>(mut disk: D, read: &ReadLog) -> io::Result<Log<D>>
    ensures opens { IfOk result (λ log. JudgesDisk (D.seen disk) (Ok read.now) → Opens (D.seen disk) (D.seen log.disk) (D.may_leave log.disk) read.now.content) }
    ensures place { IfOk result (λ log. (log.end ≡ read.now.content.len) × (log.synced ≡ read.now.content.len) × (log.next ≡ length read.now.content.bodies.items)) }
    ensures usable { IfOk result (λ log. IsTrue (D.is_usable log.disk)) }
{
    let len = read.content.len;
    cut_tail(&mut disk, read.dropped, len)?;
    Ok(Log {
        disk,
        end: len,
        next: read.content.bodies.len() as u64,
        synced: len,
    })
}

/// Returns the bytes of a disk.
fn read_whole<D: Disk>(alloc: Global, disk: &mut D) -> Result<Bytes, LogFault>
    ensures read { IfOk result (λ text. IsTrue (D.is_clean disk.new) → text ≡ D.seen disk.old) }
    ensures fault { MayFail result }
    ensures seen { D.seen disk.new ≡ D.seen disk.old }
    ensures crash { (c : List ℕ) → D.may_leave disk.new c → D.may_leave disk.old c }
    ensures usable { IfOk result (λ _. IsTrue (D.is_usable disk.new)) }
{
    if !disk.may_be_used() {
        return Err(LogFault::Disk(ErrorKind::Other.into()));
    }
    let len = disk.len()?;
    let mut text = BytesMut::zeroed(alloc, len)?;
    if len > 0 {
        disk.read_at(0, &mut text)?;
    }
    Ok(freeze(text)?)
}

fn freeze(text: BytesMut) -> Result<Bytes, AllocError>
    ensures { IfOk result (λ bytes. bytes ≡ text.items) }
{
    Ok(text.freeze()?)
}

/// Cuts a file off at `len`, if more bytes follow, and makes the rest durable.
fn cut_tail<D: Disk>(disk: &mut D, dropped: usize, len: usize) -> io::Result<()>
    ensures cut { OnOk result (length (D.seen disk.old) ≡ dropped + len → D.seen disk.new ≡ take len (D.seen disk.old)) }
    ensures durable { OnOk result (Only (D.seen disk.new) (D.may_leave disk.new)) }
    ensures usable { OnOk result (IsTrue (D.is_usable disk.new)) }
{
    if !disk.may_be_used() {
        return Err(ErrorKind::Other.into());
    }
    if dropped > 0 {
        disk.set_len(len)?;
    }
    disk.sync()
}
