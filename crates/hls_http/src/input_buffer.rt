//! The buffer of a connection's input: bytes that were read and not yet taken.

ghost use Rattle.std.specs.Prelude.{◌≡◌, ◌≢◌, ◌<◌, ◌≤◌, ◌==◌, length, take, drop, slice_range, IfOk, OnOk, OnErr};
ghost use Rattle.std.specs.Io.KnownBytes.{Consumes, IsAtEnd, Keeps};
ghost use Rattle.hls_io.specs.Counted.{calls_left, failures_of, inner_of};
ghost use Rattle.hls_http.specs.Input.{IsAppended, IsAppendedWithin, CountsFill, ReadsMore};

use hls_io::Counted;
use std::alloc::{AllocError, Global};
use std::io;
use std::io::Read;
use std::marker::Model;

/// The maximum size of an input buffer; it exceeds the limit of everything that must be held as a whole.
pub const BUFFER: usize = 65536;

/// The size of a buffer that is allocated for a first read.
const FIRST: usize = 1024;

/// The contents of new room before a read. It is copied at once: setting byte after byte took a twelfth of the time of a playlist.
const ZEROS: [u8; BUFFER] = [0; BUFFER];

/// What one read yielded.
#[derive(Clone, Copy, Drop)]
pub enum ReadOutcome {
    /// Some bytes.
    Data,
    /// The end of the input.
    Eof,
    /// The read failed, and was counted; nothing was read.
    Failed,
}

/// The bytes that were read and not yet taken, and those that were taken last. Clauses see these two texts, and the room left.
///
/// Both are in one buffer. Either it has 65536 bytes from the start, so that no read allocates; or it is allocated for the next read,
/// grows after a read has filled it, and is freed once nothing is unread.
#[derive(Drop)]
pub struct InputBuffer {
    buffer: Vec<u8>,
    /// Where the bytes that were taken last begin.
    from: usize,
    /// Where they end, and the unread bytes begin.
    start: usize,
    /// Where the unread bytes end.
    end: usize,
}

impl Model for InputBuffer {
    ghost use Rattle.std.specs.Prelude.{◌≡◌, ◌≤◌, slice_range, vec_len};
    ghost use Rattle.hls_http.specs.Buffers.{BufferTexts};

    ghost Value = { BufferTexts };

    ghost view = { λ i. record {
      taken = slice_range i.buffer.items i.from i.start;
      unread = slice_range i.buffer.items i.start i.end;
      room = vec_len i.buffer;
    } };

    ghost invariant = { λ i. (i.from ≤ i.start) × (i.start ≤ i.end) × (i.end ≤ vec_len i.buffer) × (vec_len i.buffer ≤ 65536) };
}

/// Returns `count` zeros. No other function sees the table itself, since a proof would go through its bytes.
fn zeros(count: usize) -> &'static [u8]
    requires { count ≤ 65536 }
    ensures { length result.now ≡ count }
{
    &ZEROS[..count]
}

/// Makes room after a range of the buffer, and returns where the range then is. It is moved to the front of the buffer only if there
/// is no room after it, or if it is empty.
fn make_room(buffer: &mut [u8], start: usize, end: usize) -> (usize, usize)
    requires ordered { start ≤ end }
    requires within { end ≤ length buffer.old }
    requires few { length (slice_range buffer.old start end) < length buffer.old }
    ensures same { slice_range buffer.new result.0 result.1 ≡ slice_range buffer.old start end }
    ensures ordered { result.0 ≤ result.1 }
    ensures room { result.1 < length buffer.new }
{
    if start < end && end < buffer.len() {
        return (start, end);
    }
    buffer.copy_within(start..end, 0);
    (0, end - start)
}

/// Reads into the buffer after its first `end` bytes, and returns what the reader returns.
fn read_into_room<R: Read>(reader: &mut R, buffer: &mut [u8], end: usize) -> io::Result<usize>
    requires { end < length buffer.old }
    ensures front { take end buffer.new ≡ take end buffer.old }
    ensures bound { IfOk result (λ n. n ≤ length (drop end buffer.new)) }
    ensures bytes { IfOk result (λ n. Consumes (R.remaining reader.old) (R.remaining reader.new) (take n (drop end buffer.new))) }
    ensures end { IfOk result (λ n. n ≡ 0 → IsAtEnd (R.remaining reader.new)) }
    ensures kept { OnErr result (Keeps (R.remaining reader.old) (R.remaining reader.new)) }
{
    reader.read(&mut buffer[end..])
}

/// Reads once into the buffer after a range, and returns what the reader returns and where the extended range then is.
fn read_after_unread<R: Read>(
    reader: &mut R,
    buffer: &mut [u8],
    start: usize,
    end: usize,
) -> (io::Result<usize>, usize, usize)
    requires ordered { start ≤ end }
    requires within { end ≤ length buffer.old }
    requires few { length (slice_range buffer.old start end) < length buffer.old }
    ensures appends { IsAppendedWithin (slice_range buffer.old start end) buffer.new result.1 result.2 (R.remaining reader.old) (R.remaining reader.new) result.0 }
    ensures ordered { result.1 ≤ result.2 }
    ensures within { result.2 ≤ length buffer.new }
{
    let (start, end) = make_room(buffer, start, end);
    match read_into_room(reader, buffer, end) {
        Ok(read) => (Ok(read), start, end + read),
        Err(error) => (Err(error), start, end),
    }
}

impl InputBuffer {
    ghost use Rattle.hls_http.specs.Buffers.{texts_after_consume, no_texts};

    /// Returns an empty buffer. Allocates its full size; nothing is allocated later.
    pub fn new(alloc: Global) -> Result<InputBuffer, AllocError>
        ensures { IfOk result (λ input. input ≡ no_texts 65536) }
    {
        let buffer = vec![in alloc; 0u8; BUFFER]?;
        Ok(InputBuffer {
            buffer,
            from: 0,
            start: 0,
            end: 0,
        })
    }

    /// Returns an empty buffer without room. Doesn't allocate until room is reserved.
    pub fn empty(alloc: Global) -> InputBuffer
        ensures { result ≡ no_texts 0 }
    {
        InputBuffer {
            buffer: Vec::new(alloc),
            from: 0,
            start: 0,
            end: 0,
        }
    }

    /// Makes room for a read. The buffer is allocated if there is none, and grows fourfold, up to 65536 bytes, if the last read
    /// filled it: then more input is likely to be available than fits at once. On an allocation failure nothing has changed.
    pub fn reserve(&mut self) -> Result<(), AllocError>
        requires { length self.old.unread < 65536 }
        ensures unread { self.new.unread ≡ self.old.unread }
        ensures room { OnOk result (length self.new.unread < self.new.room) }
        ensures err { OnErr result (self.new ≡ self.old) }
    {
        let len = self.buffer.len();
        if self.end < len || len == BUFFER {
            return Ok(());
        }
        let room = (len * 4).clamp(FIRST, BUFFER);
        let grown = self.buffer.extend_from_slice(zeros(room - len));
        if self.end - self.start < len {
            return Ok(());
        }
        grown
    }

    /// Frees the buffer if nothing is unread.
    pub fn release(&mut self)
        ensures unread { self.new.unread ≡ self.old.unread }
        ensures empty { length self.old.unread ≡ 0 → self.new ≡ no_texts 0 }
    {
        if self.start < self.end {
            return;
        }
        self.from = 0;
        self.start = 0;
        self.end = 0;
        self.buffer.clear();
        self.buffer.shrink_to_fit();
    }

    /// Returns the bytes that were read and not yet taken.
    pub fn unread(&self) -> &[u8]
        ensures unread { result.now ≡ self.now.unread }
        ensures few { length result.now ≤ 65536 }
    {
        &self.buffer[self.start..self.end]
    }

    /// Returns the bytes that were taken last, if nothing was read since.
    pub fn last_taken(&self) -> &[u8]
        ensures taken { result.now ≡ self.now.taken }
        ensures few { length result.now ≤ 65536 }
    {
        &self.buffer[self.from..self.start]
    }

    /// Whether there is no room for more.
    pub fn is_full(&self) -> bool
        ensures { result ≡ (length self.now.unread == 65536) }
    {
        self.end - self.start == BUFFER
    }

    /// Takes `len` of the unread bytes.
    pub fn consume(&mut self, len: usize)
        requires { len ≤ length self.old.unread }
        ensures { self.new ≡ texts_after_consume self.old len }
    {
        self.from = self.start;
        self.start += len;
    }

    /// Reads once, appends to the unread bytes, and returns what the reader returns: 0 is the end; after an error nothing has changed.
    pub fn read_some<R: Read>(&mut self, reader: &mut R) -> io::Result<usize>
        requires { length self.old.unread < self.old.room }
        ensures appends { IsAppended self.old.unread self.new.unread (R.remaining reader.old) (R.remaining reader.new) result }
        ensures room { self.new.room ≡ self.old.room }
        ensures few { length self.new.unread ≤ 65536 }
    {
        let (read, start, end) = read_after_unread(reader, &mut self.buffer, self.start, self.end);
        self.from = start;
        self.start = start;
        self.end = end;
        read
    }

    /// Reads once, and appends to the unread bytes.
    pub fn read_from<R: Read>(&mut self, reader: &mut Counted<R>) -> ReadOutcome
        requires { length self.old.unread < self.old.room }
        ensures room { self.new.room ≡ self.old.room }
        ensures reads { ReadsMore self.old.unread self.new.unread (R.remaining (inner_of reader.old)) (R.remaining (inner_of reader.new)) result }
        ensures few { length self.new.unread ≤ 65536 }
        ensures counts { CountsFill result (failures_of reader.old) (failures_of reader.new) }
        ensures progress { result ≢ ReadOutcome.Failed → calls_left reader.new < calls_left reader.old }
    {
        if !reader.begin_call() {
            self.from = self.start;
            return ReadOutcome::Failed;
        }
        match self.read_some(&mut reader.inner) {
            Ok(0) => ReadOutcome::Eof,
            Ok(_) => ReadOutcome::Data,
            Err(_) => {
                reader.count_failure();
                ReadOutcome::Failed
            }
        }
    }
}
