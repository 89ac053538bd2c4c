//! `cut`, from its arguments and its input to its output.
ghost use Rattle.std.specs.Prelude.{◌≡◌, Ok, map, IfOk, false, true};
ghost use Rattle.hls_io.specs.Counted.{failures_of};
ghost use Rattle.hls_io.specs.Streams.{RelatesInput, RelatesInputAndOutput, RelatesOutput};
ghost use Rattle.hls_commands.specs.Channel.{opening_of};
ghost use Rattle.hls_commands.specs.RecordStream.{CountsReads};
ghost use Rattle.hls_commands.specs.RecordedState.{state_at_end};
ghost use Rattle.hls_commands.specs.CutRun.{CountsFailures, IsUsageFault, RunsCut, is_usage};
ghost use Rattle.hls_commands.specs.CutParts.{CountsPrint, ListsAtEnd, Prints, ListsStream};
ghost use Rattle.hls_settings.specs.Options.{options_of};

use crate::channel_listing::list_channel;
use crate::cut::channel_config::{listing_mode, make_config};
use crate::cut::fault::CutFault;
use crate::cut::record_stream::record_stream;
use crate::cut::recorder::Recorder;
use crate::listing_fault::ListingFault;
use crate::listing_mode::ListingOutput;
use hls_io::{Counted, write_whole};
use hls_settings::{CutOptions, CutOptionsFault, read_options};
use std::alloc::{AllocError, Global};
use std::convert::AsStr;
use std::io::{Read, Write};

/// The result of `cut`.
#[derive(Clone, Copy)]
pub enum CutEnd {
    /// The playlist, or the certificate, was written: status 0.
    Done,
    /// There is no plan: status 3. The certificate of that was written, if it was requested.
    NoCut,
    /// The stream was refused, or a read or write failed: status 1.
    Refused(CutFault),
    /// An argument is invalid; nothing was read or written: status 2.
    Usage(CutOptionsFault),
}

/// Creates a recorder of the channel that the options ask for.
fn make_recorder(alloc: Global, options: &CutOptions<'_>) -> Result<Recorder, AllocError>
    ensures { IfOk result (λ recorder. recorder ≡ opening_of options.now) }
{
    Recorder::new(alloc, make_config(alloc, options)?)
}

/// Ends a recorded stream, and lists it.
fn list_recorded(
    alloc: Global,
    options: &CutOptions<'_>,
    recorder: &mut Recorder,
) -> Result<ListingOutput, CutFault>
    ensures { ListsAtEnd options.now (state_at_end recorder.old) result }
{
    recorder.finish(alloc)?;
    match list_channel(
        alloc,
        recorder.snapshot(),
        options.uri(),
        listing_mode(options),
    ) {
        Ok(listed) => Ok(listed),
        Err(ListingFault::Memory) => Err(CutFault::Memory),
        Err(fault) => Err(CutFault::Listing(fault)),
    }
}

/// Reads a stream, and lists it.
fn list_stream<R: Read>(
    alloc: Global,
    options: &CutOptions<'_>,
    input: &mut Counted<R>,
) -> Result<ListingOutput, CutFault>
    ensures takes { RelatesInput R.remaining input.old input.new (ListsStream options.now) result }
    ensures counts { CountsReads result (failures_of input.old) (failures_of input.new) }
{
    let Ok(mut recorder) = make_recorder(alloc, options) else {
        return Err(CutFault::Memory);
    };
    match record_stream(alloc, input, &mut recorder) {
        Ok(()) => list_recorded(alloc, options, &mut recorder),
        Err(fault) => Err(fault),
    }
}

/// Writes the listing, and returns `end`, or that a write failed.
fn write_listing<W: Write>(output: &mut Counted<W>, text: &[u8], end: CutEnd) -> CutEnd
    ensures writes { RelatesOutput W.contents output.old output.new (λ held contents. Prints held text.now contents end) result }
    ensures counts { CountsPrint end result (failures_of output.old) (failures_of output.new) }
{
    if write_whole(output, text) {
        end
    } else {
        CutEnd::Refused(CutFault::WriteFailed)
    }
}

/// Reads a stream and writes its listing, which is complete before the first write.
fn cut_stream<R: Read, W: Write>(
    alloc: Global,
    options: &CutOptions<'_>,
    input: &mut Counted<R>,
    output: &mut Counted<W>,
) -> CutEnd
    ensures runs { RelatesInputAndOutput R.remaining input.old input.new W.contents output.old output.new (RunsCut (Ok options.now)) result }
    ensures counts { CountsFailures result (failures_of input.old) (failures_of input.new) (failures_of output.old) (failures_of output.new) }
    ensures used { is_usage result ≡ false }
{
    match list_stream(alloc, options, input) {
        Ok(ListingOutput::Text(text)) => write_listing(output, &text, CutEnd::Done),
        Ok(ListingOutput::NoCut(text)) => write_listing(output, &text, CutEnd::NoCut),
        Err(fault) => CutEnd::Refused(fault),
    }
}

/// Runs `cut`: reads a stream of one rendition, fragmented MP4 in pieces of any lengths, and writes its playlist (RFC 8216 section 4)
/// or the certificate of its least plan.
///
/// The arguments are those after `cut`, as the system passed them; an invalid one ends in `Usage` before anything is read or written.
/// Without a preferred length each place begins a segment; with one the plan is least, and `NoCut` means that there is none. Reading
/// ends at the end of the input, a failed read or the first refusal in the stream's order; at the end, the order is `Truncated`,
/// `NoInit`, `LedgerFull`, `NoPlace`, `ProgrammeTooLong`, `NotAllowed`. Nothing is written before the whole text is complete.
/// `Memory` is returned only if an allocation failed.
pub fn run_cut<'a, S: AsStr, R: Read, W: Write>(
    alloc: Global,
    arguments: &'a [S],
    input: &mut Counted<R>,
    output: &mut Counted<W>,
) -> CutEnd
    ensures runs { RelatesInputAndOutput R.remaining input.old input.new W.contents output.old output.new
        (RunsCut (options_of (map S.text arguments.entry.now))) result }
    ensures counts { CountsFailures result (failures_of input.old) (failures_of input.new) (failures_of output.old) (failures_of output.new) }
    ensures arguments { IsUsageFault result (options_of (map S.text arguments.entry.now)) }
    ensures untouched { is_usage result ≡ true → (input.new ≡ input.old) × (output.new ≡ output.old) }
{
    match read_options(alloc, arguments) {
        Ok(options) => cut_stream(alloc, &options, input, output),
        Err(CutOptionsFault::Memory) => CutEnd::Refused(CutFault::Memory),
        Err(fault) => CutEnd::Usage(fault),
    }
}
