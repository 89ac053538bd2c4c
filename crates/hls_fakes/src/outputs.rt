//! Drains the output that waits to be sent.

ghost use Rattle.std.specs.Prelude.{◌<◌, ◌^◌, length, IfOk};

use hls_io::{Resource, SendBuffer};
use std::alloc::{AllocError, Global};

/// Whether exactly these bytes are sent.
pub fn sends_exactly<R: Resource + Drop>(output: SendBuffer<R>, text: &[u8]) -> bool {
    let mut output = output;
    let mut rest = text;
    while !output.is_empty() {
        let chunk = output.chunk();
        let count = chunk.len();
        let Some(tail) = rest.strip_prefix(chunk) else {
            return false;
        };
        rest = tail;
        output.advance(count);
    }
    rest.is_empty()
}

/// Collects all bytes that are sent.
pub fn collect_sent<R: Resource + Drop>(
    alloc: Global,
    output: SendBuffer<R>,
) -> Result<Vec<u8>, AllocError>
    ensures { IfOk result (λ bytes. length bytes.items < 2 ^ 64) }
{
    let mut sent = Vec::with_capacity(alloc, 8192)?;
    let mut output = output;
    while !output.is_empty() {
        let chunk = output.chunk();
        let count = chunk.len();
        sent.extend_from_slice(chunk)?;
        output.advance(count);
    }
    Ok(sent)
}
