//! A reader that returns small chunks.

use crate::call_counter::CallCounter;
use std::io::{self, ErrorKind, Read};

/// A reader that returns at most `step` bytes per call, and fails at the call with one given number, from 1; later calls return the rest.
/// If that number is even, the call is interrupted; if it is odd, the connection is reset.
#[derive(Drop)]
pub struct ChunkedReader<'a> {
    calls: CallCounter,
    rest: &'a [u8],
    step: usize,
}

impl<'a> ChunkedReader<'a> {
    /// A reader of the text.
    pub fn new(text: &'a [u8], step: usize, fails_at: usize) -> ChunkedReader<'a> {
        ChunkedReader {
            calls: CallCounter::failing_at(fails_at),
            rest: text,
            step,
        }
    }

    /// The number of bytes that weren't returned yet.
    pub fn rest_len(&self) -> usize {
        self.rest.len()
    }

    /// The number of calls so far.
    pub fn calls(&self) -> usize {
        self.calls.count
    }
}

impl<'a> Read for ChunkedReader<'a> {
    fn read(&mut self, buf: &mut [u8]) -> io::Result<usize> {
        if self.calls.count_call() {
            let kind = if self.calls.is_even() {
                ErrorKind::Interrupted
            } else {
                ErrorKind::ConnectionReset
            };
            return Err(kind.into());
        }
        let len = self.rest.len().min(self.step).min(buf.len());
        buf[..len].copy_from_slice(&self.rest[..len]);
        self.rest = &self.rest[len..];
        Ok(len)
    }
}
