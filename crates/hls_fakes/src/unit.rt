//! A unit.

ghost use Rattle.std.specs.Prelude.{◌≡◌, ◌≤◌, length, IfOk};
ghost use Rattle.hls_fakes.specs.UnitBytes.{unit_bytes};

use crate::boxes::{box_bytes, number_box};
use std::alloc::{AllocError, Global};

/// A unit of one sample, `len` bytes: a `moof` of 100 bytes and an `mdat` whose content is
/// `len - 108` bytes of value 0xaa. `start` and `ticks` (its duration) are in ticks.
pub fn unit_bytes(
    alloc: Global,
    start: u64,
    ticks: u32,
    sync: bool,
    len: u32,
) -> Result<Vec<u8>, AllocError>
    requires { 108 ≤ len }
    ensures bytes { IfOk result (λ v. v.items ≡ unit_bytes start ticks sync len) }
    ensures len { IfOk result (λ v. length v.items ≡ len) }
{
    let size = len - 108;
    let flags = if sync { 0x0200_0000 } else { 0x0101_0000 };
    let sequence = number_box(alloc, b"mfhd", &[0, 1])?;
    let header = number_box(alloc, b"tfhd", &[0x0002_0000, 1])?;
    let time = box_bytes(alloc, b"tfdt", &[&[1, 0, 0, 0], &start.to_be_bytes()])?;
    let run = number_box(alloc, b"trun", &[0x0701, 1, 108, ticks, size, flags])?;
    let fragment = box_bytes(alloc, b"traf", &[&header, &time, &run])?;
    let movie_fragment = box_bytes(alloc, b"moof", &[&sequence, &fragment])?;
    let media = box_bytes(alloc, b"mdat", &[&vec![in alloc; 0xaa; size as usize]?])?;
    let mut bytes = movie_fragment;
    bytes.extend_from_slice(&media)?;
    Ok(bytes)
}
