//! Reads and records a stream to its end, part by part.
ghost use Rattle.std.specs.Prelude.{◌<◌, length};
ghost use Rattle.hls_io.specs.Counted.{failures_of};
ghost use Rattle.hls_io.specs.Streams.{RelatesInput};
ghost use Rattle.hls_commands.specs.RecordStream.{CountsReads, RecordsStream};

use crate::buffers::new_buffer;
use crate::cut::fault::CutFault;
use crate::cut::recorder::{Recorder, RecorderSink};
use hls_boxes::UnitReader;
use hls_core::{finish_stream, ingest_piece};
use hls_io::Counted;
use std::alloc::Global;
use std::io::Read;

/// Reads a stream in pieces that fit `piece`, until its end, a failed read or the first refusal, and records its parts. At the end
/// `Truncated` is refused.
fn read_parts<R: Read>(
    alloc: Global,
    input: &mut Counted<R>,
    recorder: &mut Recorder,
    piece: &mut [u8],
) -> Result<(), CutFault>
    requires { 0 < length piece.old }
    ensures records { RelatesInput R.remaining input.old input.new (λ stream left. RecordsStream recorder.old stream left recorder.new) result }
    ensures counts { CountsReads result (failures_of input.old) (failures_of input.new) }
{
    let recording = RecorderSink { alloc };
    let mut reader = UnitReader::new(alloc);
    'pieces: loop {
        let len = match input.read(piece) {
            Some(len) => len,
            None => return Err(CutFault::ReadFailed),
        };
        if len == 0 {
            break 'pieces;
        }
        ingest_piece(&mut reader, &recording, &mut (), recorder, &piece[..len])?;
    }
    match finish_stream(&reader) {
        Ok(()) => Ok(()),
        Err(fault) => Err(CutFault::Stream(fault)),
    }
}

/// Reads a whole stream and records its parts. At the end `Truncated` is refused; every other
/// refusal is the first in the stream.
pub fn record_stream<R: Read>(
    alloc: Global,
    input: &mut Counted<R>,
    recorder: &mut Recorder,
) -> Result<(), CutFault>
    ensures records { RelatesInput R.remaining input.old input.new (λ stream left. RecordsStream recorder.old stream left recorder.new) result }
    ensures counts { CountsReads result (failures_of input.old) (failures_of input.new) }
{
    match new_buffer(alloc) {
        Ok(mut piece) => read_parts(alloc, input, recorder, &mut piece),
        Err(_) => Err(CutFault::Memory),
    }
}
