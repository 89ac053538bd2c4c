//! `lint`, from its input to its output.
ghost use Rattle.hls_io.specs.Counted.{failures_of};
ghost use Rattle.hls_io.specs.Streams.{RelatesInput, RelatesInputAndOutput, RelatesOutput};
ghost use Rattle.hls_commands.specs.LintParts.{CountsReadFailures, CountsText, IsLine, PrintsText, ReportsLine, lint_end_of, line_bytes};
ghost use Rattle.hls_commands.specs.LintRun.{CountsFailures, RunsLint};

use crate::lint::printing::{write_fault_line, write_list_line};
use crate::read_input::{ReadFault, read_whole};
use hls_io::{Counted, write_whole};
use hls_m3u8::{ListFault, TEXT_LIMIT, read_media};
use std::alloc::Global;
use std::io::{Read, Write};

/// How many bytes of a text are held: one more than `read_media` accepts, so that a longer text is refused for its length.
const HELD_BYTES: usize = TEXT_LIMIT + 1;

/// The result of `lint`.
#[derive(Clone, Copy)]
pub enum LintEnd {
    /// The text is a media playlist, and its summary was written: status 0.
    Readable,
    /// The text was refused, and the reason was written: status 1.
    Refused,
    /// A read failed, and nothing was written: status 1.
    ReadFailed,
    /// A write of the line failed: status 1.
    WriteFailed,
}

/// Returns the line of a text, or why it is refused.
fn lint_text(alloc: Global, text: &[u8]) -> Result<Vec<u8>, ListFault>
    ensures { IsLine text.now result }
{
    match read_media(alloc, text) {
        Ok(list) => Ok(write_list_line(alloc, &list)?),
        Err(fault) => Err(fault),
    }
}

/// Returns the line of a whole stream; `None` if a read failed.
fn lint_stream<R: Read>(alloc: Global, input: &mut Counted<R>) -> Option<Result<Vec<u8>, ListFault>>
    ensures reports { RelatesInput R.remaining input.old input.new ReportsLine result }
    ensures counts { CountsReadFailures result (failures_of input.old) (failures_of input.new) }
{
    match read_whole(alloc, input, Some(HELD_BYTES)) {
        Ok(text) => Some(lint_text(alloc, &text)),
        Err(ReadFault::ReadFailed) => None,
        Err(ReadFault::Memory) => Some(Err(ListFault::Memory)),
    }
}

/// Writes a text, and returns `done` unless a write failed.
fn print_text<W: Write>(output: &mut Counted<W>, text: &[u8], done: LintEnd) -> LintEnd
    ensures prints { RelatesOutput W.contents output.old output.new (PrintsText text.now done) result }
    ensures counts { CountsText done result (failures_of output.old) (failures_of output.new) }
{
    if write_whole(output, text) {
        done
    } else {
        LintEnd::WriteFailed
    }
}

/// Writes a line, which is complete before the first write.
fn print_line<W: Write>(output: &mut Counted<W>, line: Result<Vec<u8>, ListFault>) -> LintEnd
    ensures prints { RelatesOutput W.contents output.old output.new (PrintsText (line_bytes line) (lint_end_of line)) result }
    ensures counts { CountsText (lint_end_of line) result (failures_of output.old) (failures_of output.new) }
{
    match line {
        Ok(line) => print_text(output, line.as_slice(), LintEnd::Readable),
        Err(fault) => {
            let line = write_fault_line(fault);
            print_text(output, line.as_str().as_bytes(), LintEnd::Refused)
        }
    }
}

/// Reads a media playlist's text to the end of the input, and writes one line: its summary if the text is readable as a media
/// playlist (RFC 8216 section 4), else `refused`, the name of its first fault, and the number of the faulty line, if there is one.
///
/// At most one byte more of the text is held than the reader of playlists accepts. Nothing is written before the whole line is
/// complete. `refused Memory` is the answer only if an allocation failed, possibly before the end of the input; writing it doesn't
/// allocate.
pub fn run_lint<R: Read, W: Write>(
    alloc: Global,
    input: &mut Counted<R>,
    output: &mut Counted<W>,
) -> LintEnd
    ensures runs { RelatesInputAndOutput R.remaining input.old input.new W.contents output.old output.new RunsLint result }
    ensures counts { CountsFailures result (failures_of input.old) (failures_of input.new) (failures_of output.old) (failures_of output.new) }
{
    match lint_stream(alloc, input) {
        Some(line) => print_line(output, line),
        None => LintEnd::ReadFailed,
    }
}
