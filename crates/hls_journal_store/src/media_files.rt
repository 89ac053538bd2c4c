//! The media files of all renditions.

use crate::batch::MediaWrite;
use crate::fault::{EndCause, StoreFault, StorePart, sync_fault};
use crate::media_starts::MediaStarts;
use crate::media_track::{MediaTrack, open_and_sync};
use crate::sync_mode::SyncMode;
use hls_core::snapshot::Snapshot;
use std::alloc::{AllocError, Global};
use std::fs::File;
use std::rt::Files;

/// The media files of a journal.
#[derive(Drop)]
pub(crate) struct MediaFiles {
    folder: String,
    /// Those of each rendition.
    tracks: Vec<MediaTrack>,
    /// The offset below which each rendition's media aren't needed any more.
    kept: Vec<u64>,
}

impl MediaFiles {
    /// The media files below a folder, of a channel that begins at these places.
    pub(crate) fn new(
        alloc: Global,
        folder: &str,
        renditions: usize,
        starts: &MediaStarts,
    ) -> Result<MediaFiles, AllocError> {
        let mut tracks = Vec::new(alloc);
        let mut kept = Vec::new(alloc);
        for rendition in 0..renditions {
            let folder = format!(in alloc; "{folder}/{rendition}")?;
            tracks.push(MediaTrack::new(alloc, folder, starts.get(rendition)))?;
            kept.push(0)?;
        }
        Ok(MediaFiles {
            folder: String::from_str(alloc, folder)?,
            tracks,
            kept,
        })
    }

    /// Continues with a log of a channel that begins at these places.
    pub(crate) fn continue_from(&mut self, starts: &MediaStarts) {
        for (rendition, track) in self.tracks.iter_mut().enumerate() {
            track.continue_from(starts.get(rendition));
        }
        for kept in &mut self.kept {
            *kept = 0;
        }
    }

    /// Stores the media of records. In the mode `Each` they are durable then.
    pub(crate) fn write<R: Files<File = File>>(
        &mut self,
        rt: &R,
        alloc: Global,
        writes: &[MediaWrite],
        mode: SyncMode,
    ) -> Result<(), StoreFault> {
        for write in writes {
            let Some(track) = self.tracks.get_mut(write.rendition) else {
                return Err(StoreFault::Ended(EndCause::NoRecord));
            };
            track.write(rt, alloc, write.at, &write.bytes)?;
        }
        match mode {
            SyncMode::Each => self.sync(rt),
            SyncMode::Timed => Ok(()),
            SyncMode::Never => self.sync_left(),
        }
    }

    /// Without a sync of its own a mode keeps no file open that is full.
    fn sync_left(&mut self) -> Result<(), StoreFault> {
        for track in &mut self.tracks {
            track.sync_left()?;
        }
        Ok(())
    }

    /// Makes what was written durable, but for trimmed media.
    pub(crate) fn sync<R: Files<File = File>>(&mut self, rt: &R) -> Result<(), StoreFault> {
        for (track, kept) in self.tracks.iter_mut().zip(self.kept.iter()) {
            track.sync(rt, &self.folder, *kept)?;
        }
        Ok(())
    }

    /// Notes which media a channel has trimmed. In the mode `Each` their files are removed; in the mode `Timed` by a later call, once the
    /// records of the trims are durable. In the mode `Never` the log, at this path, is synced first: a start needs each unit that no
    /// record trims.
    pub(crate) fn follow_trims<R: Files<File = File>>(
        &mut self,
        rt: &R,
        alloc: Global,
        snapshot: &Snapshot,
        mode: SyncMode,
        log: &str,
    ) -> Result<(), StoreFault> {
        self.note_trims(snapshot);
        match mode {
            SyncMode::Timed => Ok(()),
            SyncMode::Each => self.remove_trimmed(rt, alloc),
            SyncMode::Never => self.remove_after_sync(rt, alloc, log),
        }
    }

    /// Removes the files of trimmed media, if there are any, after a log was synced.
    fn remove_after_sync<R: Files<File = File>>(
        &mut self,
        rt: &R,
        alloc: Global,
        log: &str,
    ) -> Result<(), StoreFault> {
        if !self.has_trimmed() {
            return Ok(());
        }
        if let Err(error) = open_and_sync(rt, log) {
            return Err(sync_fault(StorePart::Log, error));
        }
        self.remove_trimmed(rt, alloc)
    }

    /// Whether a file has only trimmed media.
    fn has_trimmed(&self) -> bool {
        self.tracks
            .iter()
            .zip(self.kept.iter())
            .any(|(track, kept)| track.has_below(*kept))
    }

    /// Notes which media a channel has trimmed.
    fn note_trims(&mut self, snapshot: &Snapshot) {
        for (rendition, kept) in self.kept.iter_mut().enumerate() {
            if let Some(recording) = snapshot.recording(rendition) {
                *kept = recording.offset(recording.floor());
            }
        }
    }

    /// Removes the files of trimmed media.
    pub(crate) fn remove_trimmed<R: Files<File = File>>(
        &mut self,
        rt: &R,
        alloc: Global,
    ) -> Result<(), StoreFault> {
        for (track, kept) in self.tracks.iter_mut().zip(self.kept.iter()) {
            track.remove_below(rt, alloc, *kept)?;
        }
        Ok(())
    }
}
