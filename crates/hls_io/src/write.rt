//! Writes a whole text.
ghost use Rattle.hls_io.specs.{Counted.failures_of, Streams.RelatesOutput, Writing.{CountsWrite, Writes}};

use crate::counted::Counted;
use std::io::Write;

/// Writes a whole text by as many calls as necessary. Returns false after a failed call, which is counted; then a prefix of the text was
/// written.
pub fn write_whole<W: Write>(output: &mut Counted<W>, text: &[u8]) -> bool
    ensures writes { RelatesOutput W.contents output.old output.new (λ held. Writes held text.now) result }
    ensures counts { CountsWrite result (failures_of output.old) (failures_of output.new) }
{
    let mut rest = text;
    while !rest.is_empty() {
        match output.write(rest) {
            Some(written) => rest = &rest[written..],
            None => return false,
        }
    }
    true
}
