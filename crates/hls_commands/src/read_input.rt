//! Reads a stream to its end.
ghost use Rattle.std.specs.Prelude.{◌≡◌, ◌<◌, ◌≤◌, length};
ghost use Rattle.hls_io.specs.Counted.{failures_of};
ghost use Rattle.hls_io.specs.Streams.{RelatesInput};
ghost use Rattle.hls_commands.specs.ReadInput.{CountsReading, Reads, held_len};

use crate::buffers::new_buffer;
use hls_io::Counted;
use std::alloc::Global;
use std::io::Read;

/// Why a stream wasn't read to its end.
#[derive(Clone, Copy)]
pub enum ReadFault {
    /// A read failed.
    ReadFailed,
    /// Out of memory.
    Memory,
}

/// Returns how many of `len` more bytes are held after `held` ones, given that at most `most` are held.
fn count_held(most: Option<usize>, held: usize, len: usize) -> usize
    ensures value { result ≡ held_len most held len }
    ensures bound { result ≤ len }
{
    match most {
        None => len,
        Some(most) => most.saturating_sub(held).min(len),
    }
}

/// Reads a stream to its end or a failed read, in pieces that fit `piece`.
fn read_pieces<R: Read>(
    alloc: Global,
    input: &mut Counted<R>,
    piece: &mut [u8],
    most: Option<usize>,
) -> Result<Vec<u8>, ReadFault>
    requires { 0 < length piece.old }
    ensures reads { RelatesInput R.remaining input.old input.new (Reads most) result }
    ensures counts { CountsReading result (failures_of input.old) (failures_of input.new) }
{
    let mut bytes = Vec::new(alloc);
    'pieces: loop {
        let len = match input.read(piece) {
            Some(len) => len,
            None => return Err(ReadFault::ReadFailed),
        };
        if len == 0 {
            break 'pieces;
        }
        let held = count_held(most, bytes.len(), len);
        match bytes.extend_from_slice(&piece[..held]) {
            Ok(()) => {}
            Err(_) => return Err(ReadFault::Memory),
        }
    }
    Ok(bytes)
}

/// Reads a stream to its end or a failed read. If `most` is given, at most that many of the first bytes are held; those after them
/// are read and dropped.
pub fn read_whole<R: Read>(
    alloc: Global,
    input: &mut Counted<R>,
    most: Option<usize>,
) -> Result<Vec<u8>, ReadFault>
    ensures reads { RelatesInput R.remaining input.old input.new (Reads most) result }
    ensures counts { CountsReading result (failures_of input.old) (failures_of input.new) }
{
    match new_buffer(alloc) {
        Ok(mut piece) => read_pieces(alloc, input, &mut piece, most),
        Err(_) => Err(ReadFault::Memory),
    }
}
