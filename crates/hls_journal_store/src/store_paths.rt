//! The names in a journal's folder, and its lock.

use crate::fault::{OpenFault, StorePart, open_fault};
use crate::log_file::{LogFile, settle_log_file};
use crate::media_track::open_and_sync;
use std::alloc::{AllocError, Global};
use std::fs::{self, File, Metadata, TryLockError};
use std::io::{self, ErrorKind};
use std::os::unix::fs::MetadataExt;
use std::rt::Files;

/// The paths of a journal.
#[derive(Drop)]
pub(crate) struct StorePaths {
    pub(crate) folder: String,
    pub(crate) lock: String,
    pub(crate) log: String,
    /// The log of a renewed channel, until it replaces the log.
    pub(crate) new_log: String,
    pub(crate) media: String,
    pub(crate) marker: String,
    /// A file that becomes the marker.
    pub(crate) spare: String,
}

impl StorePaths {
    pub(crate) fn new(alloc: Global, folder: &str) -> Result<StorePaths, AllocError> {
        Ok(StorePaths {
            folder: String::from_str(alloc, folder)?,
            lock: format!(in alloc; "{folder}/lock")?,
            log: format!(in alloc; "{folder}/log")?,
            new_log: format!(in alloc; "{folder}/log.new")?,
            media: format!(in alloc; "{folder}/media")?,
            marker: format!(in alloc; "{folder}/behind")?,
            spare: format!(in alloc; "{folder}/spare")?,
        })
    }

    /// Locks the folder, which is made if it is missing. The lock is held until the file is dropped. A marked folder is refused.
    pub(crate) fn lock<R: Files<File = File>>(&self, rt: &R) -> Result<File, OpenFault> {
        let lock = self.lock_file(rt)?;
        if self.is_marked(rt) {
            return Err(OpenFault::Marked);
        }
        match open_or_create(rt, &self.spare) {
            Ok(_) => Ok(lock),
            Err(error) => Err(open_fault(StorePart::Marker, error)),
        }
    }

    /// The same, also of a marked folder. The file that is locked is empty, unless the folder is marked in it.
    pub(crate) fn lock_file<R: Files<File = File>>(&self, rt: &R) -> Result<File, OpenFault> {
        if let Err(error) = fs::create_dir_all(rt, &self.media) {
            return Err(open_fault(StorePart::Folder, error));
        }
        let lock = match open_or_create(rt, &self.lock) {
            Ok(lock) => lock,
            Err(error) => return Err(open_fault(StorePart::Lock, error)),
        };
        match lock.try_lock() {
            Ok(()) => Ok(lock),
            Err(TryLockError::WouldBlock) => Err(OpenFault::Busy),
            Err(TryLockError::Error(error)) => Err(open_fault(StorePart::Lock, error)),
        }
    }

    /// Whether the folder is marked: by the marker's name, or in the locked file.
    pub(crate) fn is_marked<R: Files<File = File>>(&self, rt: &R) -> bool {
        is_there(rt, &self.marker) || has_bytes(rt, &self.lock)
    }

    /// Takes the mark of a folder away, whose locked file this is.
    pub(crate) fn remove_mark<R: Files<File = File>>(&self, rt: &R, lock: &File) -> io::Result<()> {
        lock.set_len(0)?;
        if is_there(rt, &self.marker) {
            fs::rename(rt, &self.marker, &self.spare)?;
        }
        Ok(())
    }

    /// Fails if the locked file isn't in the folder any more: what has this path now may be another process's.
    pub(crate) fn find_lock<R: Files<File = File>>(&self, rt: &R, lock: &File) -> io::Result<()> {
        let (mine, found) = (lock.metadata()?, fs::symlink_metadata(rt, &self.lock)?);
        if mine.dev() == found.dev() && mine.ino() == found.ino() {
            Ok(())
        } else {
            Err(ErrorKind::NotFound.into())
        }
    }

    /// Opens the log, which is made if it is missing.
    pub(crate) fn open_log<R: Files<File = File>>(&self, rt: &R) -> Result<LogFile, OpenFault> {
        match self.settle_log(rt) {
            Ok(disk) => Ok(disk),
            Err(error) => Err(open_fault(StorePart::Log, error)),
        }
    }

    fn settle_log<R: Files<File = File>>(&self, rt: &R) -> io::Result<LogFile> {
        let file = open_or_create(rt, &self.log)?;
        check_regular(&file.metadata()?)?;
        let folder = File::open(rt, &self.folder)?;
        settle_log_file(file, &folder)
    }

    /// Removes what an attempt to replace the log has left.
    pub(crate) fn remove_new_log<R: Files<File = File>>(&self, rt: &R) {
        let _ = fs::remove_file(rt, &self.new_log);
    }

    /// Makes an empty log beside the log. One that an earlier attempt left is lost.
    pub(crate) fn create_new_log<R: Files<File = File>>(&self, rt: &R) -> io::Result<LogFile> {
        let mut options = File::options();
        options.read(true).write(true).create(true).truncate(true);
        let file = options.open(rt, &self.new_log)?;
        let folder = File::open(rt, &self.folder)?;
        settle_log_file(file, &folder)
    }

    /// Replaces the log by the one beside it, which was synced. A crash leaves the one or the other.
    pub(crate) fn replace_log<R: Files<File = File>>(&self, rt: &R) -> io::Result<()> {
        fs::rename(rt, &self.new_log, &self.log)?;
        open_and_sync(rt, &self.folder)
    }
}

fn open_or_create<R: Files<File = File>>(rt: &R, path: &str) -> io::Result<File> {
    let mut options = File::options();
    options.read(true).write(true).create(true);
    options.open(rt, path)
}

/// Opens a regular file to read it. Anything else is refused before it is opened: to open a FIFO waits for a writer.
pub(crate) fn open_regular<R: Files<File = File>>(rt: &R, path: &str) -> io::Result<File> {
    check_regular(&fs::metadata(rt, path)?)?;
    File::open(rt, path)
}

/// Refuses what isn't a regular file.
pub(crate) fn check_regular(found: &Metadata) -> io::Result<()> {
    if found.is_file() {
        Ok(())
    } else {
        Err(ErrorKind::InvalidData.into())
    }
}

/// Whether a file has bytes. One that can't be looked up has none.
fn has_bytes<R: Files<File = File>>(rt: &R, path: &str) -> bool {
    match fs::symlink_metadata(rt, path) {
        Ok(found) => found.is_file() && found.len() > 0,
        Err(_) => false,
    }
}

/// Whether something has this name. What can't be looked up counts as there.
pub(crate) fn is_there<R: Files<File = File>>(rt: &R, path: &str) -> bool {
    match fs::symlink_metadata(rt, path) {
        Ok(_) => true,
        Err(error) => error.kind() != ErrorKind::NotFound,
    }
}
