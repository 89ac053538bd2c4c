//! An init section.

ghost use Rattle.std.specs.Prelude.{◌≡◌, length, IfOk};
ghost use Rattle.hls_fakes.specs.Init.{ftyp, tkhd, mdia, trak, trex, free, moov, init_bytes};

use crate::boxes::{box_bytes, number_box, number_bytes};
use std::alloc::{AllocError, Global};

/// An init section of 600 bytes: `ftyp`, a `free` box of zeros, and a `moov` with one track, number 1, with this four-letter handler and
/// timescale (ticks per second).
pub fn init_bytes(alloc: Global, handler: &[u8; 4], scale: u32) -> Result<Vec<u8>, AllocError>
    ensures bytes { IfOk result (λ v. v.items ≡ init_bytes handler.now scale) }
    ensures len { IfOk result (λ v. length v.items ≡ 600) }
{
    let mut bytes = ftyp_box(alloc)?;
    bytes.extend_from_slice(&free_box(alloc)?)?;
    bytes.extend_from_slice(&moov_box(alloc, handler, scale)?)?;
    Ok(bytes)
}

/// The `trak` box with a track's number, four-letter handler and timescale (ticks per second).
pub fn trak_box(
    alloc: Global,
    track: u32,
    handler: &[u8; 4],
    scale: u32,
) -> Result<Vec<u8>, AllocError>
    ensures bytes { IfOk result (λ v. v.items ≡ trak track handler.now scale) }
    ensures len { IfOk result (λ v. length v.items ≡ 173) }
{
    let header = tkhd_box(alloc, track)?;
    let media = mdia_box(alloc, handler, scale)?;
    box_bytes(alloc, b"trak", &[&header, &media])
}

/// The `trex` box of a track without defaults.
pub fn trex_box(alloc: Global, track: u32) -> Result<Vec<u8>, AllocError>
    ensures bytes { IfOk result (λ v. v.items ≡ trex track) }
    ensures len { IfOk result (λ v. length v.items ≡ 32) }
{
    number_box(alloc, b"trex", &[0, track, 1, 0, 0, 0])
}

fn ftyp_box(alloc: Global) -> Result<Vec<u8>, AllocError>
    ensures bytes { IfOk result (λ v. v.items ≡ ftyp) }
    ensures len { IfOk result (λ v. length v.items ≡ 16) }
{
    box_bytes(alloc, b"ftyp", &[b"isom", &[0; 4]])
}

fn free_box(alloc: Global) -> Result<Vec<u8>, AllocError>
    ensures bytes { IfOk result (λ v. v.items ≡ free) }
    ensures len { IfOk result (λ v. length v.items ≡ 363) }
{
    box_bytes(alloc, b"free", &[&[0; 355]])
}

fn moov_box(alloc: Global, handler: &[u8; 4], scale: u32) -> Result<Vec<u8>, AllocError>
    ensures bytes { IfOk result (λ v. v.items ≡ moov handler.now scale) }
    ensures len { IfOk result (λ v. length v.items ≡ 221) }
{
    let track = trak_box(alloc, 1, handler, scale)?;
    let defaults = trex_box(alloc, 1)?;
    let extends = box_bytes(alloc, b"mvex", &[&defaults])?;
    box_bytes(alloc, b"moov", &[&track, &extends])
}

fn tkhd_box(alloc: Global, track: u32) -> Result<Vec<u8>, AllocError>
    ensures bytes { IfOk result (λ v. v.items ≡ tkhd track) }
    ensures len { IfOk result (λ v. length v.items ≡ 92) }
{
    let numbers = number_bytes(alloc, &[3, 0, 0, track])?;
    box_bytes(alloc, b"tkhd", &[&numbers, &[0; 68]])
}

fn mdia_box(alloc: Global, handler: &[u8; 4], scale: u32) -> Result<Vec<u8>, AllocError>
    ensures bytes { IfOk result (λ v. v.items ≡ mdia handler.now scale) }
    ensures len { IfOk result (λ v. length v.items ≡ 73) }
{
    let times = number_box(alloc, b"mdhd", &[0, 0, 0, scale, 0, 0x55c4_0000])?;
    let kind = box_bytes(alloc, b"hdlr", &[&[0; 8], handler, &[0; 13]])?;
    box_bytes(alloc, b"mdia", &[&times, &kind])
}
