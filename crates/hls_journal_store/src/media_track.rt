//! The media files of one rendition.

ghost use Rattle.std.specs.Prelude.{◌≡◌};

use crate::fault::{StoreFault, StorePart, sync_fault, write_fault};
use crate::media_span::find_span;
use crate::store_paths::check_regular;
use std::alloc::{AllocError, Global};
use std::fs::{self, File};
use std::io::{self, ErrorKind};
use std::os::unix::fs::FileExt;
use std::rt::Files;

/// The most files of a rendition that wait for a sync after the next one was begun. Connections leave some files for the rest.
const MOST_LEFT: usize = 8;

/// A file that isn't written to any more, and has bytes that aren't synced.
#[derive(Drop)]
struct LeftFile {
    number: u64,
    file: File,
}

/// The media files of a rendition: those that a journal writes, in ascending order.
#[derive(Drop)]
pub(crate) struct MediaTrack {
    /// The folder.
    folder: String,
    /// The place of the resource's first byte: how many bytes of units precede those of the channel's log.
    start: u64,
    /// The file that was written to last.
    file: Option<File>,
    /// Its number.
    number: u64,
    /// Whether it has bytes that aren't synced.
    unsynced: bool,
    /// The files before it that have such bytes, in ascending order. To sync each one when the next is begun would hold back writes.
    left: Vec<LeftFile>,
    /// Whether the folder has a file whose name isn't synced.
    renamed: bool,
    /// The first file that may still be there.
    first: u64,
    /// The last file that is there; those after the one that is written to wait for later bytes.
    last: u64,
    /// How many files were begun since trimmed ones were last removed.
    begun: u64,
}

impl MediaTrack {
    /// The files of a channel whose log begins after `start` bytes of units.
    pub(crate) fn new(alloc: Global, folder: String, start: u64) -> MediaTrack {
        MediaTrack {
            folder,
            start,
            file: None,
            number: 0,
            unsynced: false,
            left: Vec::new(alloc),
            renamed: false,
            first: find_span(start, 0).number,
            last: 0,
            begun: 0,
        }
    }

    /// Continues with a log that begins after `start` bytes of units: what is stored stays in its place.
    pub(crate) fn continue_from(&mut self, start: u64) {
        self.start = start;
    }

    /// Stores bytes at an offset of the resource.
    pub(crate) fn write<R: Files<File = File>>(
        &mut self,
        rt: &R,
        alloc: Global,
        at: u64,
        bytes: &[u8],
    ) -> Result<(), StoreFault> {
        let mut done = 0;
        'spans: while done < bytes.len() {
            let place = self.start.saturating_add(at).saturating_add(done as u64);
            let span = find_span(place, bytes.len() - done);
            self.select_file(rt, alloc, span.number)?;
            self.write_span(span.place, &bytes[done..done + span.len])?;
            done += span.len;
        }
        Ok(())
    }

    fn write_span(&mut self, place: u64, bytes: &[u8]) -> Result<(), StoreFault> {
        let Some(file) = &self.file else {
            return Err(StoreFault::Memory);
        };
        self.unsynced = true;
        match file.write_all_at(bytes, place) {
            Ok(()) => Ok(()),
            Err(error) => Err(write_fault(StorePart::Media, error)),
        }
    }

    /// Makes the file of a number the one that is written to.
    fn select_file<R: Files<File = File>>(
        &mut self,
        rt: &R,
        alloc: Global,
        number: u64,
    ) -> Result<(), StoreFault> {
        if self.file.is_some() && self.number == number {
            return Ok(());
        }
        self.leave_file()?;
        let path = media_path(alloc, &self.folder, number)?;
        let file = match open_to_write(rt, &self.folder, &path) {
            Ok(file) => file,
            Err(error) => return Err(write_fault(StorePart::Media, error)),
        };
        self.file = Some(file);
        self.number = number;
        self.last = self.last.max(number);
        self.begun = self.begun.saturating_add(1);
        self.renamed = true;
        Ok(())
    }

    /// Ends the writes to a file. If it has bytes that aren't synced, it stays open until they are; if too many do, the first one is
    /// synced.
    fn leave_file(&mut self) -> Result<(), StoreFault> {
        if !self.unsynced {
            return Ok(());
        }
        if self.left.len() >= MOST_LEFT {
            sync_media(&self.left.remove(0).file)?;
        }
        self.push_left()?;
        self.unsynced = false;
        Ok(())
    }

    fn push_left(&mut self) -> Result<(), AllocError> {
        // without memory the file stays the one that is written to
        self.left.reserve(1)?;
        if let Some(file) = self.file.take() {
            let number = self.number;
            self.left.push(LeftFile { number, file })?;
        }
        Ok(())
    }

    fn sync_file(&mut self) -> Result<(), StoreFault> {
        if !self.unsynced {
            return Ok(());
        }
        if let Some(file) = &self.file {
            sync_media(file)?;
        }
        self.unsynced = false;
        Ok(())
    }

    /// Makes the files durable that aren't written to any more, and closes them.
    pub(crate) fn sync_left(&mut self) -> Result<(), StoreFault> {
        for left in &self.left {
            sync_media(&left.file)?;
        }
        self.left.clear();
        Ok(())
    }

    /// Makes what was written durable, but for files that end before the offset `kept`, which no start needs: and the names of new files,
    /// also in the folder above.
    pub(crate) fn sync<R: Files<File = File>>(
        &mut self,
        rt: &R,
        parent: &str,
        kept: u64,
    ) -> Result<(), StoreFault> {
        self.drop_left(kept);
        self.sync_left()?;
        self.sync_file()?;
        if self.renamed {
            sync_folder(rt, &self.folder)?;
            sync_folder(rt, parent)?;
            self.renamed = false;
        }
        Ok(())
    }

    /// Whether there may be a file that ends before an offset.
    pub(crate) fn has_below(&self, at: u64) -> bool {
        self.first < self.end_below(at)
    }

    /// Returns the number after that of the last file that ends before an offset. The file that is written to counts as later.
    fn end_below(&self, at: u64) -> u64 {
        let place = self.start.saturating_add(at);
        find_span(place, 0).number.min(self.number)
    }

    /// Closes the files that end before an offset.
    fn drop_left(&mut self, at: u64) {
        let end = self.end_below(at);
        self.left.retain(|left| left.number >= end);
    }

    /// Removes the files that end before an offset. One that can't be removed is tried again in the next call.
    pub(crate) fn remove_below<R: Files<File = File>>(
        &mut self,
        rt: &R,
        alloc: Global,
        at: u64,
    ) -> Result<(), StoreFault> {
        self.drop_left(at);
        let end = self.end_below(at);
        'files: while self.first < end {
            if !self.remove_first(rt, alloc)? {
                return Ok(());
            }
            self.first += 1;
        }
        self.begun = 0;
        Ok(())
    }

    /// Removes the first file. Where several were begun since the last removal, as many but one get the next names instead: to write over
    /// a file takes half as long as to write a new one. Returns whether it is gone.
    fn remove_first<R: Files<File = File>>(
        &mut self,
        rt: &R,
        alloc: Global,
    ) -> Result<bool, AllocError>
        ensures { self.new.first ≡ self.old.first }
    {
        let path = media_path(alloc, &self.folder, self.first)?;
        let next = self.last.saturating_add(1);
        if next.saturating_sub(self.number) >= self.begun {
            return Ok(is_removed(fs::remove_file(rt, &path)));
        }
        let outcome = fs::rename(rt, &path, &media_path(alloc, &self.folder, next)?);
        if outcome.is_ok() {
            self.last = next;
        }
        Ok(is_removed(outcome))
    }
}

/// Removes the files before the one with the place `start`, which an earlier log of the channel needed, from the last to the first that
/// is there. One that can't be removed stays.
pub(crate) fn remove_before<R: Files<File = File>>(
    rt: &R,
    alloc: Global,
    folder: &str,
    start: u64,
) -> Result<(), AllocError> {
    for number in (0..find_span(start, 0).number).rev() {
        let path = media_path(alloc, folder, number)?;
        if fs::remove_file(rt, &path).is_err() {
            return Ok(());
        }
    }
    Ok(())
}

/// Whether a file is gone after a call that removes it.
fn is_removed(outcome: io::Result<()>) -> bool {
    match outcome {
        Ok(()) => true,
        Err(error) => error.kind() == ErrorKind::NotFound,
    }
}

/// Returns the path of a media file.
pub(crate) fn media_path(alloc: Global, folder: &str, number: u64) -> Result<String, AllocError> {
    format!(in alloc; "{folder}/{number:05}")
}

/// Opens a media file, and makes it and its folder if they are missing.
fn open_to_write<R: Files<File = File>>(rt: &R, folder: &str, path: &str) -> io::Result<File> {
    let mut options = File::options();
    options.read(true).write(true).create(true);
    match options.open(rt, path) {
        Err(error) if error.kind() == ErrorKind::NotFound => {
            fs::create_dir_all(rt, folder)?;
            options.open(rt, path)
        }
        opened => opened,
    }
}

/// Makes the bytes of a media file durable.
fn sync_media(file: &File) -> Result<(), StoreFault> {
    match file.sync_data() {
        Ok(()) => Ok(()),
        Err(error) => Err(sync_fault(StorePart::Media, error)),
    }
}

/// Makes the names in a folder durable.
fn sync_folder<R: Files<File = File>>(rt: &R, folder: &str) -> Result<(), StoreFault> {
    match open_and_sync(rt, folder) {
        Ok(()) => Ok(()),
        Err(error) => Err(sync_fault(StorePart::Media, error)),
    }
}

/// Syncs a regular file or a folder. Anything else is refused.
pub(crate) fn open_and_sync<R: Files<File = File>>(rt: &R, path: &str) -> io::Result<()> {
    let found = fs::metadata(rt, path)?;
    if !found.is_dir() {
        check_regular(&found)?;
    }
    File::open(rt, path)?.sync_all()
}
