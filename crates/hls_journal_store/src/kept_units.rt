//! The stored units that a restart needs.

ghost use Rattle.std.specs.Prelude.{◌≤◌, length};

use crate::batch::RENDITIONS;
use byteorder::{ByteOrder, LittleEndian};
use bytes::Bytes;
use hls_journal::{ACCEPTED, BEGUN, UNIT_HEAD_AT, find_floors};
use std::alloc::{AllocError, Global};

/// A unit whose bytes are in the media files.
#[derive(Clone, Copy, Drop)]
pub struct KeptUnit {
    pub rendition: usize,
    /// Its offset in the rendition's resource.
    pub at: u64,
    pub len: usize,
    /// Its checksum, which covers the offset.
    pub sum: u64,
}

/// Where the units of a journal's records are.
#[derive(Drop)]
pub struct MediaIndex {
    /// The units that no record trims, in the order of their records.
    pub units: Vec<KeptUnit>,
    /// The number of units of each of 256 renditions.
    counts: Vec<u64>,
    /// The bytes of each rendition's resource.
    totals: Vec<u64>,
}

/// Finds the units that the records of a journal leave untrimmed, and their places.
pub fn find_kept_units(alloc: Global, bodies: &[Bytes]) -> Result<MediaIndex, AllocError> {
    let floors = find_floors(alloc, bodies)?;
    let mut index = MediaIndex {
        units: Vec::new(alloc),
        counts: vec![in alloc; 0u64; RENDITIONS]?,
        totals: vec![in alloc; 0u64; RENDITIONS]?,
    };
    for body in bodies {
        index.add_record(body, &floors)?;
    }
    Ok(index)
}

impl MediaIndex {
    fn add_record(&mut self, body: &[u8], floors: &[u64]) -> Result<(), AllocError> {
        if body.len() < 4 {
            return Ok(());
        }
        let rendition = body[3] as usize;
        if body[0] == BEGUN {
            self.add_bytes(rendition, body.len() as u64 - 4);
        }
        if body[0] == ACCEPTED && body.len() >= UNIT_HEAD_AT {
            let floor = floors.get(rendition).copied().unwrap_or(0);
            return self.add_unit(rendition, body, floor);
        }
        Ok(())
    }

    /// Adds a unit, given the body of its record.
    fn add_unit(&mut self, rendition: usize, body: &[u8], floor: u64) -> Result<(), AllocError>
        requires { 16 ≤ length body.now }
    {
        let unit = KeptUnit {
            rendition,
            at: self.total(rendition),
            len: LittleEndian::read_u32(&body[4..]) as usize,
            sum: LittleEndian::read_u64(&body[8..]),
        };
        self.add_bytes(rendition, unit.len as u64);
        if self.count_unit(rendition) >= floor {
            self.units.push(unit)?;
        }
        Ok(())
    }

    /// Returns the number of units of a rendition, also of those that are trimmed.
    pub(crate) fn count(&self, rendition: usize) -> u64 {
        self.counts.get(rendition).copied().unwrap_or(0)
    }

    /// Returns the bytes of a rendition's resource.
    pub fn total(&self, rendition: usize) -> u64 {
        self.totals.get(rendition).copied().unwrap_or(0)
    }

    fn add_bytes(&mut self, rendition: usize, len: u64) {
        if let Some(total) = self.totals.get_mut(rendition) {
            *total = total.saturating_add(len);
        }
    }

    /// Counts a unit, and returns its number.
    fn count_unit(&mut self, rendition: usize) -> u64 {
        match self.counts.get_mut(rendition) {
            Some(count) => {
                let number = *count;
                *count = number.saturating_add(1);
                number
            }
            None => 0,
        }
    }
}
