//! A writer that accepts small chunks.

use crate::call_counter::CallCounter;
use std::alloc::Global;
use std::io::{self, ErrorKind, Write};

/// A writer that accepts at most `step` bytes per call, and none at the call with one given number, from 1; later calls succeed again. If
/// that number is even, the call accepts nothing; if it is odd, it fails as a broken pipe.
#[derive(Drop)]
pub struct ChunkedWriter {
    written: Vec<u8>,
    step: usize,
    calls: CallCounter,
}

impl ChunkedWriter {
    /// A writer without contents; memory is allocated as bytes arrive.
    pub fn new(alloc: Global, step: usize, fails_at: usize) -> ChunkedWriter {
        ChunkedWriter {
            written: Vec::new(alloc),
            step,
            calls: CallCounter::failing_at(fails_at),
        }
    }

    /// What was written.
    pub fn as_bytes(&self) -> &[u8] {
        &self.written
    }

    /// The number of calls so far.
    pub fn calls(&self) -> usize {
        self.calls.count
    }
}

impl Write for ChunkedWriter {
    fn write(&mut self, buf: &[u8]) -> io::Result<usize> {
        if self.calls.count_call() {
            return if self.calls.is_even() {
                Ok(0)
            } else {
                Err(ErrorKind::BrokenPipe.into())
            };
        }
        let len = buf.len().min(self.step);
        self.written.extend_from_slice(&buf[..len])?;
        Ok(len)
    }

    fn flush(&mut self) -> io::Result<()> {
        Ok(())
    }
}
