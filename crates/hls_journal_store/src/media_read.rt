//! Reads stored media.

use crate::fault::OpenFault;
use crate::kept_units::{KeptUnit, MediaIndex};
use crate::media_starts::MediaStarts;
use crate::open_media::OpenMedia;
use hls_journal::push_zeros;
use hls_journal_laws::stored_media::{MediaPiece, StoredMedia};
use rayon::prelude::*;
use std::alloc::{AllocError, Global};
use std::fs::File;
use std::io;
use std::os::unix::fs::FileExt;
use std::rt::Files;
use std::thread::Threads;

/// The most bytes that are read by one call.
const PIECE_LEN: usize = 131072;

/// The number of units that are read in parallel before the next ones are begun: a unit is in two files at most, and all are open.
/// After a fault no further unit is read.
const ROUND_UNITS: usize = 256;

/// The minimum number of units for a thread.
const MIN_UNITS: usize = 16;

/// What was read of a unit; `None` if the files don't have it.
type UnitOutcome = Result<Option<MediaPiece>, OpenFault>;

/// Reads the units of an index, of each of the given number of renditions, of a channel that begins at these places. What the files don't
/// have is left out. The first unit that can't be read decides, whichever thread read it.
pub(crate) fn read_media<R: Files<File = File> + Threads + Sync>(
    rt: &R,
    alloc: Global,
    folder: &str,
    index: &MediaIndex,
    renditions: usize,
    starts: &MediaStarts,
) -> Result<Vec<StoredMedia>, OpenFault> {
    let mut media = make_media(alloc, renditions)?;
    for units in index.units.chunks(ROUND_UNITS) {
        let files = open_files(rt, alloc, OpenMedia::new(alloc, folder, starts), units)?;
        let outcomes = read_units(rt, alloc, &files, units, renditions)?;
        add_units(&mut media, units, outcomes)?;
    }
    Ok(media)
}

/// Opens the files of units.
fn open_files<'a, R: Files<File = File>>(
    rt: &R,
    alloc: Global,
    mut files: OpenMedia<'a>,
    units: &[KeptUnit],
) -> Result<OpenMedia<'a>, AllocError> {
    for unit in units {
        files.open_files(rt, alloc, unit)?;
    }
    Ok(files)
}

/// Reads units whose files are open, with one thread for each processor. Those of no rendition are left out.
fn read_units<R: Threads + Sync>(
    rt: &R,
    alloc: Global,
    files: &OpenMedia<'_>,
    units: &[KeptUnit],
    renditions: usize,
) -> Result<Vec<UnitOutcome>, AllocError> {
    units
        .par_iter()
        .with_min_len(MIN_UNITS)
        .map(|unit: &KeptUnit| -> UnitOutcome {
            if unit.rendition < renditions {
                files.read_unit(alloc, unit)
            } else {
                Ok(None)
            }
        })
        .collect(rt, alloc)
}

/// Adds what was read of units to their renditions.
fn add_units(
    media: &mut [StoredMedia],
    units: &[KeptUnit],
    outcomes: Vec<UnitOutcome>,
) -> Result<(), OpenFault> {
    for (unit, outcome) in units.iter().zip(outcomes) {
        if let Some(piece) = outcome?
            && let Some(stored) = media.get_mut(unit.rendition)
        {
            push_piece(stored, piece)?;
        }
    }
    Ok(())
}

fn push_piece(stored: &mut StoredMedia, piece: MediaPiece) -> Result<(), AllocError> {
    stored.pieces.push(piece)?;
    Ok(())
}

fn make_media(alloc: Global, renditions: usize) -> Result<Vec<StoredMedia>, AllocError> {
    let mut media = Vec::new(alloc);
    for _ in 0..renditions {
        media.push(StoredMedia {
            pieces: Vec::new(alloc),
        })?;
    }
    Ok(media)
}

/// Reads a unit of a channel that begins at these places; `None` if the files don't have it all.
pub(crate) fn read_unit<R: Files<File = File>>(
    rt: &R,
    alloc: Global,
    folder: &str,
    unit: &KeptUnit,
    starts: &MediaStarts,
) -> Result<Option<MediaPiece>, OpenFault> {
    let mut files = OpenMedia::new(alloc, folder, starts);
    files.open_files(rt, alloc, unit)?;
    files.read_unit(alloc, unit)
}

/// Appends `len` bytes at a place of a file. Each piece is read while the zeros that make room for it are in the processor's cache, so
/// memory is written once.
pub(crate) fn read_pieces(
    file: &File,
    place: u64,
    len: usize,
    bytes: &mut Vec<u8>,
) -> io::Result<()> {
    let mut done = 0;
    'pieces: while done < len {
        let more = PIECE_LEN.min(len - done);
        let start = bytes.len();
        push_zeros(bytes, more)?;
        file.read_exact_at(&mut bytes[start..], place.saturating_add(done as u64))?;
        done += more;
    }
    Ok(())
}
