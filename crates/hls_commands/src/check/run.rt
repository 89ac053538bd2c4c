//! `check`, from its input to its output.
ghost use Rattle.hls_io.specs.Counted.{failures_of};
ghost use Rattle.hls_io.specs.Streams.{RelatesInput, RelatesInputAndOutput, RelatesOutput};
ghost use Rattle.hls_commands.specs.CheckParts.{AnswersText, CountsPrinting, CountsReadFailures, PrintsAnswer, ReportsAnswer};
ghost use Rattle.hls_commands.specs.CheckRun.{CountsFailures, RunsCheck};

use crate::check::printing::write_check_line;
use crate::read_input::{ReadFault, read_whole};
use hls_check_tables::{CertFault, Verdict};
use hls_io::{Counted, write_whole};
use std::alloc::Global;
use std::io::{Read, Write};
use std::thread::Threads;

/// The result of `check`.
#[derive(Clone, Copy)]
pub enum CheckEnd {
    /// The certificate is valid, and its verdict was written: status 0.
    Yes,
    /// The certificate was refused, and the reason was written: status 1.
    Refused,
    /// A read failed, and nothing was written: status 1.
    ReadFailed,
    /// A write of the line of this answer failed: status 1.
    WriteFailed(Result<Verdict, CertFault>),
}

/// Returns the answer to a text.
fn check_text(rt: &(impl Threads + Sync), alloc: Global, bytes: &[u8]) -> Result<Verdict, CertFault>
    ensures { AnswersText bytes.now result }
{
    match hls_check::read(alloc, bytes) {
        Ok(certificate) => hls_check::check_rows(rt, alloc, &certificate),
        Err(fault) => Err(fault),
    }
}

/// Returns the answer to a whole stream; `None` if a read failed.
fn check_stream<R: Read>(
    rt: &(impl Threads + Sync),
    alloc: Global,
    input: &mut Counted<R>,
) -> Option<Result<Verdict, CertFault>>
    ensures reports { RelatesInput R.remaining input.old input.new ReportsAnswer result }
    ensures counts { CountsReadFailures result (failures_of input.old) (failures_of input.new) }
{
    match read_whole(alloc, input, None) {
        Ok(bytes) => Some(check_text(rt, alloc, &bytes)),
        Err(ReadFault::ReadFailed) => None,
        Err(ReadFault::Memory) => Some(Err(CertFault::Memory)),
    }
}

/// Writes the line of an answer, which is complete before the first write.
fn print_answer<W: Write>(output: &mut Counted<W>, answer: Result<Verdict, CertFault>) -> CheckEnd
    ensures prints { RelatesOutput W.contents output.old output.new (PrintsAnswer answer) result }
    ensures counts { CountsPrinting result (failures_of output.old) (failures_of output.new) }
{
    let line = write_check_line(answer);
    if !write_whole(output, line.as_str().as_bytes()) {
        return CheckEnd::WriteFailed(answer);
    }
    match answer {
        Ok(_) => CheckEnd::Yes,
        Err(_) => CheckEnd::Refused,
    }
}

/// Reads a certificate's text to the end of the input, and writes the answer to it as one line: `cut` and the cost in microseconds
/// for a valid certificate of a plan, `none` for a valid one that there is no plan, else `refused`, the name of its first fault, and
/// the fault's numbers.
///
/// Nothing is written before the whole line is complete. `refused Memory` is the answer only if an allocation failed, possibly before
/// the end of the input; writing it doesn't allocate. If a write fails, the result has the answer whose line wasn't written
/// completely. A large certificate is checked on several threads, if they can be started. May wait for them.
pub fn run_check<R: Read, W: Write>(
    rt: &(impl Threads + Sync),
    alloc: Global,
    input: &mut Counted<R>,
    output: &mut Counted<W>,
) -> CheckEnd
    ensures runs { RelatesInputAndOutput R.remaining input.old input.new W.contents output.old output.new RunsCheck result }
    ensures counts { CountsFailures result (failures_of input.old) (failures_of input.new) (failures_of output.old) (failures_of output.new) }
{
    match check_stream(rt, alloc, input) {
        Some(answer) => print_answer(output, answer),
        None => CheckEnd::ReadFailed,
    }
}
