//! A recording of two sample units.

ghost use Rattle.std.specs.Prelude.{◌≤◌, ◌<◌, ◌^◌, length, IfOk};
ghost use Rattle.hls_record.specs.IsRecorded.{IsRecorded};

use super::samples::{begin_recording, sync_unit, with_unit};
use hls_fakes::{init_bytes, unit_bytes};
use hls_record::{RecordFault, Recording};
use std::alloc::{AllocError, Global};

/// Makes a recording without units.
fn empty_recording(alloc: Global) -> Result<Recording, RecordFault>
    ensures { IfOk result IsRecorded }
{
    match begin_recording(alloc, 90000) {
        Ok(recording) => Ok(recording),
        Err(_) => Err(RecordFault::Memory),
    }
}

/// Appends a sample unit of 4 s and `len` bytes at `start` ticks to the recording.
pub fn with_sample(
    alloc: Global,
    recording: &Recording,
    start: u64,
    len: u32,
) -> Result<Recording, RecordFault>
    requires { 108 ≤ len }
    ensures { IfOk result IsRecorded }
{
    with_unit(alloc, recording, sync_unit(start, 360000), len)
}

/// Makes a recording of the init section of 600 bytes, and units of 116 and 120 bytes at 0 and 4 s.
pub fn two_units(alloc: Global) -> Result<Recording, RecordFault>
    ensures { IfOk result IsRecorded }
{
    let one = with_sample(alloc, &empty_recording(alloc)?, 0, 116)?;
    with_sample(alloc, &one, 360000, 120)
}

/// Returns their whole resource, from the builders.
pub fn resource_bytes(alloc: Global) -> Result<Vec<u8>, AllocError>
    ensures { IfOk result (λ all. length all.items < 2 ^ 64) }
{
    let mut all = init_bytes(alloc, b"vide", 90000)?;
    all.extend_from_slice(&unit_bytes(alloc, 0, 360000, true, 116)?)?;
    all.extend_from_slice(&unit_bytes(alloc, 360000, 360000, true, 120)?)?;
    Ok(all)
}

/// What identifies a recording here: its units, the first whose bytes it has, the length of its resource, and its end.
#[derive(Clone, Copy, Debug, PartialEq, Eq)]
pub struct Observed {
    pub count: u64,
    pub floor: u64,
    pub total: u64,
    pub last_end: u64,
}

pub fn observe(recording: &Recording) -> Observed {
    Observed {
        count: recording.count(),
        floor: recording.floor(),
        total: recording.total(),
        last_end: recording.last_end(),
    }
}

pub const TWO: Observed = Observed {
    count: 2,
    floor: 0,
    total: 836,
    last_end: 720000,
};
