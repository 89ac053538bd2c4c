//! The media files of some units, and the units in them.

ghost use Rattle.std.specs.Prelude.{◌-◌, ◌<◌, ◌≤◌};

use crate::batch::into_bytes;
use crate::fault::{OpenFault, StorePart, open_fault};
use crate::kept_units::KeptUnit;
use crate::media_read::read_pieces;
use crate::media_span::{MediaSpan, find_span};
use crate::media_starts::MediaStarts;
use crate::media_track::media_path;
use crate::store_paths::open_regular;
use hls_boxes::kinds::UNIT_LIMIT;
use hls_journal_laws::stored_media::MediaPiece;
use std::alloc::{AllocError, Global};
use std::fs::File;
use std::io::{self, ErrorKind};
use std::rt::Files;

/// Media files that were opened to read. What a unit's bytes are read from is open before, so a thread that reads needs no runtime.
#[derive(Drop)]
pub(crate) struct OpenMedia<'a> {
    folder: &'a str,
    /// Where the channel begins in its files.
    starts: &'a MediaStarts,
    files: Vec<OpenFile>,
}

/// A media file, or why it can't be opened.
#[derive(Drop)]
struct OpenFile {
    rendition: usize,
    number: u64,
    opened: io::Result<File>,
}

impl<'a> OpenMedia<'a> {
    /// No files yet, of a channel that begins at these places.
    pub(crate) fn new(alloc: Global, folder: &'a str, starts: &'a MediaStarts) -> OpenMedia<'a> {
        OpenMedia {
            folder,
            starts,
            files: Vec::new(alloc),
        }
    }

    /// Opens the files of a unit that aren't open yet.
    pub(crate) fn open_files<R: Files<File = File>>(
        &mut self,
        rt: &R,
        alloc: Global,
        unit: &KeptUnit,
    ) -> Result<(), AllocError> {
        if unit.len as u64 > UNIT_LIMIT {
            return Ok(());
        }
        let mut done = 0;
        'spans: while done < unit.len {
            let span = find_rest(self.starts, unit, done);
            self.open_file(rt, alloc, unit.rendition, span.number)?;
            done += span.len;
        }
        Ok(())
    }

    fn open_file<R: Files<File = File>>(
        &mut self,
        rt: &R,
        alloc: Global,
        rendition: usize,
        number: u64,
    ) -> Result<(), AllocError> {
        if self.find(rendition, number).is_some() {
            return Ok(());
        }
        let folder = format!(in alloc; "{}/{rendition}", self.folder)?;
        let opened = open_regular(rt, &media_path(alloc, &folder, number)?);
        self.files.push(OpenFile {
            rendition,
            number,
            opened,
        })?;
        Ok(())
    }

    fn find(&self, rendition: usize, number: u64) -> Option<&OpenFile> {
        for file in &self.files {
            if file.rendition == rendition && file.number == number {
                return Some(file);
            }
        }
        None
    }

    /// Reads a unit whose files were opened, and computes its checksum; `None` if the files don't have it all.
    pub(crate) fn read_unit(
        &self,
        alloc: Global,
        unit: &KeptUnit,
    ) -> Result<Option<MediaPiece>, OpenFault> {
        if unit.len as u64 > UNIT_LIMIT {
            return Ok(None);
        }
        let mut bytes = Vec::with_capacity(alloc, unit.len)?;
        match self.read_spans(unit, &mut bytes) {
            Ok(()) => Ok(Some(MediaPiece::new(unit.at, into_bytes(bytes)?))),
            Err(error) if error.kind() == ErrorKind::NotFound => Ok(None),
            Err(error) if error.kind() == ErrorKind::UnexpectedEof => Ok(None),
            Err(error) => Err(open_fault(StorePart::Media, error)),
        }
    }

    /// Appends the bytes of a unit.
    fn read_spans(&self, unit: &KeptUnit, bytes: &mut Vec<u8>) -> io::Result<()> {
        let mut done = 0;
        'spans: while done < unit.len {
            let span = find_rest(self.starts, unit, done);
            let Some(file) = self.find(unit.rendition, span.number) else {
                return Err(ErrorKind::NotFound.into());
            };
            match &file.opened {
                Ok(file) => read_pieces(file, span.place, span.len, bytes)?,
                Err(error) => return Err(*error),
            }
            done += span.len;
        }
        Ok(())
    }
}

/// Returns where the bytes of a unit from the given number on are, as far as they are in one file.
fn find_rest(starts: &MediaStarts, unit: &KeptUnit, done: usize) -> MediaSpan
    requires { done < unit.now.len }
    ensures some { 0 < result.len }
    ensures len { result.len ≤ unit.now.len - done }
{
    let place = starts.get(unit.rendition).saturating_add(unit.at);
    find_span(place.saturating_add(done as u64), unit.len - done)
}
