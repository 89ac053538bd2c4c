//! A reader with a buffer of the bytes that were read and not yet taken.

ghost use Rattle.std.specs.Prelude.{◌≡◌, IfOk};

use crate::input_buffer::InputBuffer;
use hls_io::Counted;
use std::alloc::{AllocError, Global};

/// A counted reader and its input buffer, which holds the bytes that were read and not yet taken. The buffer has its full size, so a read
/// never allocates.
#[derive(Drop)]
pub struct BufferedReader<R> {
    pub reader: Counted<R>,
    /// The bytes that were read and not yet taken, and those that were taken last.
    pub input: InputBuffer,
    ghost whole: { input.room ≡ 65536 },
}

impl<R: Drop> BufferedReader<R> {
    ghost use Rattle.hls_http.specs.BufferedReader.{IsFresh};

    /// Wraps a reader, with nothing held. Allocates the buffer; nothing is allocated later.
    pub fn new(alloc: Global, reader: R) -> Result<BufferedReader<R>, AllocError>
        ensures { IfOk result (IsFresh reader) }
    {
        let input = InputBuffer::new(alloc)?;
        Ok(BufferedReader {
            reader: Counted::new(reader),
            input,
        })
    }
}
