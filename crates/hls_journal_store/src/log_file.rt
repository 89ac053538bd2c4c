//! The log's file as a disk: each method makes one call of the system, and notes it with its answer.

ghost use Rattle.std.specs.Prelude.{◌≡◌, ◌<◌, ◌≤◌, ◌^◌, [], ◌∷◌, length, false, IfOk, IsTrue};
ghost use Rattle.sqlite_disk.specs.Events.{settled};
ghost use Rattle.hls_journal_store.specs.LogFiles.{is_usable_file, IsSettled};

use crate::call_record::CallRecord;
use sqlite_disk::{Calls, Modelled, Unknown, is_no_room};
use std::fs::File;
use std::io::{self, ErrorKind};
use std::os::fd::AsRawFd;
use std::os::unix::fs::FileExt;

/// The kinds of calls, as a record numbers them.
const SETTLED: u64 = 0;

const MEASURED: u64 = 1;

const READ: u64 = 2;

const WRITTEN: u64 = 3;

const RESIZED: u64 = 4;

const SYNCED: u64 = 5;

const TESTED: u64 = 6;

/// The last offset that the system takes.
const OFFSET_LIMIT: usize = (1 << 63) - 1;

/// A disk over one file of the system. What it holds is known as far as the system answers as a disk does.
pub type LogFile = Modelled<FileCalls, Unknown>;

/// A file, and the record of the calls on it.
#[derive(Drop)]
pub struct FileCalls {
    file: File,
    record: CallRecord,
}

/// Makes a disk of a file. Syncs the file and its folder, and drops the kernel's copies of its pages, which after a failed sync of an
/// earlier process may not be what the disk has.
pub fn settle_log_file(file: File, folder: &File) -> io::Result<LogFile>
    ensures usable { IfOk result (λ disk. IsTrue (is_usable_file disk)) }
    ensures settled { IfOk result IsSettled }
{
    Ok(Modelled::new(settle(file, folder)?, false, 0))
}

fn settle(file: File, folder: &File) -> io::Result<FileCalls>
    ensures { IfOk result (λ calls. calls.record.calls ≡ settled 0 ∷ []) }
{
    file.sync_all()?;
    let advised = libc::posix_fadvise(file.as_raw_fd(), 0, 0, libc::POSIX_FADV_DONTNEED);
    if advised != 0 {
        return Err(io::Error::from_raw_os_error(advised));
    }
    folder.sync_all()?;
    let mut record = CallRecord::new();
    record.note(&[SETTLED, 0, 0, 1], &[]);
    Ok(FileCalls { file, record })
}

fn measure(file: &File) -> io::Result<usize> {
    Ok(file.metadata()?.len() as usize)
}

/// Reads at least one byte.
fn read(file: &File, at: usize, buf: &mut [u8]) -> io::Result<usize>
    ensures { IfOk result (λ n. (0 < n) × (n ≤ length buf.old) × (at < 2 ^ 63)) }
{
    if at > OFFSET_LIMIT {
        return Err(ErrorKind::InvalidInput.into());
    }
    match file.read_at(buf, at as u64)? {
        0 => Err(ErrorKind::UnexpectedEof.into()),
        count => Ok(count),
    }
}

/// Writes at least one byte.
fn write(file: &File, at: usize, bytes: &[u8]) -> io::Result<usize>
    ensures { IfOk result (λ n. (0 < n) × (n ≤ length bytes.now) × (at < 2 ^ 63)) }
{
    if at > OFFSET_LIMIT {
        return Err(ErrorKind::InvalidInput.into());
    }
    match file.write_at(bytes, at as u64)? {
        0 => Err(ErrorKind::WriteZero.into()),
        count => Ok(count),
    }
}

impl Calls for FileCalls {
    ghost history = { λ f. f.record.calls };

    fn len(&mut self) -> io::Result<usize> {
        let answer = measure(&self.file);
        match answer {
            Ok(len) => self.record.note(&[MEASURED, len as u64, 0, 1], &[]),
            Err(_) => self.record.note(&[MEASURED, 0, 0, 0], &[]),
        }
        answer
    }

    fn read_some(&mut self, at: usize, buf: &mut [u8]) -> io::Result<usize> {
        let (offset, len) = (at as u64, buf.len() as u64);
        let answer = read(&self.file, at, buf);
        match answer {
            Ok(count) => self.record.note(&[READ, offset, len, 1], &buf[..count]),
            Err(_) => self.record.note(&[READ, offset, len, 0], &[]),
        }
        answer
    }

    fn read_under(&mut self, key: u64, want: u64, at: usize, buf: &mut [u8]) -> io::Result<usize> {
        let (offset, len) = (at as u64, buf.len() as u64);
        let answer = read(&self.file, at, buf);
        match answer {
            Ok(count) => self
                .record
                .note(&[TESTED, offset, len, 1, key, want], &buf[..count]),
            Err(_) => self.record.note(&[TESTED, offset, len, 0, key, want], &[]),
        }
        answer
    }

    fn write_some(&mut self, at: usize, bytes: &[u8]) -> io::Result<usize> {
        let answer = write(&self.file, at, bytes);
        match answer {
            Ok(count) => self
                .record
                .note(&[WRITTEN, at as u64, count as u64, 1], bytes),
            Err(error) => self.record.note(
                &[WRITTEN, at as u64, u64::from(is_no_room(&error)), 0],
                bytes,
            ),
        }
        answer
    }

    fn resize(&mut self, len: usize) -> io::Result<()> {
        let answer = self.file.set_len(len as u64);
        match answer {
            Ok(()) => self.record.note(&[RESIZED, len as u64, 0, 1], &[]),
            Err(error) => self.record.note(
                &[RESIZED, len as u64, u64::from(is_no_room(&error)), 0],
                &[],
            ),
        }
        answer
    }

    fn sync(&mut self) -> io::Result<()> {
        let answer = self.file.sync_data();
        match answer {
            Ok(()) => self.record.note(&[SYNCED, 0, 0, 1], &[]),
            Err(error) => self
                .record
                .note(&[SYNCED, 0, u64::from(is_no_room(&error)), 0], &[]),
        }
        answer
    }
}
