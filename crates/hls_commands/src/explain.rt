//! The command `explain`, from its argument to its output.

ghost use Rattle.std.specs.Prelude.{option_map};
ghost use Rattle.hls_io.specs.Counted.{failures_of};
ghost use Rattle.hls_io.specs.Streams.{RelatesOutput};
ghost use Rattle.hls_commands.specs.Explanations.{explanation_of};
ghost use Rattle.hls_commands.specs.ExplainRun.{CountsFailures, Explains, Prints};

use crate::explanations::find_explanation;
use hls_io::{Counted, write_whole};
use std::alloc::Global;
use std::io::Write;

/// The result of `explain`.
#[derive(Clone, Copy, PartialEq, Eq)]
pub enum ExplainEnd {
    /// The explanation was written: status 0.
    Explained,
    /// No refusal has the name, and nothing was written: status 1.
    Unknown,
    /// A write failed: status 1.
    WriteFailed,
    /// Out of memory, and nothing was written: status 1.
    Memory,
}

/// Writes an explanation.
fn print_explanation<W: Write>(output: &mut Counted<W>, explanation: &[u8]) -> ExplainEnd
    ensures prints { RelatesOutput W.contents output.old output.new (Prints explanation.now) result }
    ensures counts { CountsFailures result (failures_of output.old) (failures_of output.new) }
{
    if write_whole(output, explanation) {
        ExplainEnd::Explained
    } else {
        ExplainEnd::WriteFailed
    }
}

/// Writes the explanation of a name: its line; without a name, all names, one per line. Nothing is written before the whole text is
/// complete.
pub fn run_explain<W: Write>(
    alloc: Global,
    text: &[u8],
    name: Option<&[u8]>,
    output: &mut Counted<W>,
) -> ExplainEnd
    ensures explains { RelatesOutput W.contents output.old output.new (Explains (explanation_of text.now (option_map (λ n. n.now) name.entry))) result }
    ensures counts { CountsFailures result (failures_of output.old) (failures_of output.new) }
{
    match find_explanation(alloc, text, name) {
        Ok(Some(explanation)) => print_explanation(output, &explanation),
        Ok(None) => ExplainEnd::Unknown,
        Err(_) => ExplainEnd::Memory,
    }
}
