//! Recordings with the sample init section of 600 bytes.

ghost use Rattle.std.specs.Prelude.{◌≤◌, IfOk};
ghost use Rattle.hls_record.specs.IsRecorded.{IsRecorded};

use bytes::Bytes;
use hls_fakes::{init_bytes, unit_bytes};
use hls_media::{read_facts, read_init};
use hls_media_laws::fault::MediaFault;
use hls_record::{RecordFault, Recording};
use std::alloc::{AllocError, Global};
use std::test::Fail;

/// A unit of a sample recording, in ticks.
#[derive(Clone, Copy)]
pub struct SampleUnit {
    pub start: u64,
    pub ticks: u32,
    pub sync: bool,
}

/// A sync unit.
pub fn sync_unit(start: u64, ticks: u32) -> SampleUnit {
    SampleUnit {
        start,
        ticks,
        sync: true,
    }
}

/// Makes a recording without units, with `scale` ticks per second.
pub fn begin_recording(alloc: Global, scale: u32) -> Result<Recording, MediaFault>
    ensures { IfOk result IsRecorded }
{
    let Ok(head) = init_bytes(alloc, b"vide", scale) else {
        return Err(MediaFault::Memory);
    };
    let init = read_init(alloc, &head)?;
    match Bytes::from_vec(head) {
        Ok(head) => Ok(Recording::begin(alloc, init, head)),
        Err(_) => Err(MediaFault::Memory),
    }
}

fn unit_of(alloc: Global, unit: SampleUnit, len: u32) -> Result<Bytes, AllocError>
    requires { 108 ≤ len }
{
    let bytes = unit_bytes(alloc, unit.start, unit.ticks, unit.sync, len)?;
    Ok(Bytes::from_vec(bytes)?)
}

/// Appends a unit of `len` bytes to the recording.
pub fn with_unit(
    alloc: Global,
    recording: &Recording,
    unit: SampleUnit,
    len: u32,
) -> Result<Recording, RecordFault>
    requires { 108 ≤ len }
    ensures { IfOk result IsRecorded }
{
    let Ok(bytes) = unit_of(alloc, unit, len) else {
        return Err(RecordFault::Memory);
    };
    let Ok(facts) = read_facts(recording.init(), &bytes) else {
        return Err(RecordFault::Overlap);
    };
    if recording.count() == 16777216 {
        return Err(RecordFault::Full);
    }
    recording.appended(alloc, facts, bytes)
}

/// Makes a recording of these units, with `scale` ticks per second.
pub fn record_units(alloc: Global, scale: u32, units: &[SampleUnit]) -> Result<Recording, Fail>
    ensures { IfOk result IsRecorded }
{
    let mut recording = begin_recording(alloc, scale)?;
    for unit in units {
        recording = with_unit(alloc, &recording, *unit, 108)?;
    }
    Ok(recording)
}
