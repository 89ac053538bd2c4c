//! A writer that doesn't allocate.

use crate::call_counter::CallCounter;
use std::io::{self, Write};

const LEN: usize = 32768;

/// A writer with room for a page of 32768 bytes, which doesn't allocate. It accepts nothing at the call with one given number, from 1.
#[derive(Drop)]
pub struct PageWriter {
    bytes: [u8; LEN],
    len: usize,
    calls: CallCounter,
}

impl PageWriter {
    /// An empty page; no call fails.
    pub fn new() -> PageWriter {
        PageWriter::failing_at(crate::NEVER)
    }

    /// An empty page; the call with the given number fails.
    pub fn failing_at(call: usize) -> PageWriter {
        PageWriter {
            bytes: [0; LEN],
            len: 0,
            calls: CallCounter::failing_at(call),
        }
    }

    /// What was written.
    pub fn as_bytes(&self) -> &[u8] {
        self.bytes.get(..self.len).unwrap_or(b"")
    }

    /// Whether exactly this text was written.
    pub fn holds_text(&self, text: &[u8]) -> bool {
        self.as_bytes() == text
    }

    /// The number of bytes that were written.
    pub fn len(&self) -> usize {
        self.len
    }

    /// The number of calls so far.
    pub fn calls(&self) -> usize {
        self.calls.count
    }
}

impl Write for PageWriter {
    fn write(&mut self, buf: &[u8]) -> io::Result<usize> {
        if self.calls.count_call() {
            return Ok(0);
        }
        let Some(room) = self.bytes.get_mut(self.len..) else {
            return Ok(0);
        };
        let len = buf.len().min(room.len());
        room[..len].copy_from_slice(&buf[..len]);
        self.len = self.len.wrapping_add(len);
        Ok(len)
    }

    fn flush(&mut self) -> io::Result<()> {
        Ok(())
    }
}
