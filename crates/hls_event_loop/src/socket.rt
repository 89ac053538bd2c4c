//! A connection's reader and writer, which never block, and their readiness as the system reports it.

ghost use Rattle.std.specs.{Prelude.{◌≤◌, length, take, IfOk, OnErr}, Io.KnownBytes.{Appends, Keeps}};

use mio::event::Event;
use std::io::{self, ErrorKind, Read, Write};

/// The most bytes of one write: a longer one delays the worker's other connections.
const MOST_WRITTEN: usize = 262_144;

/// After a read of this many bytes, more have mostly arrived by the time they are handled.
const MANY: usize = 32_768;

/// Why a call on a socket moved nothing.
#[derive(Clone, Copy, PartialEq, Eq, Drop)]
pub(crate) enum SocketStop {
    /// The socket isn't ready.
    WouldBlock,
    /// A signal interrupted the call, which is repeated.
    Interrupted,
    /// Out of memory for the bytes to read.
    Memory,
    /// The socket failed.
    Lost,
}

/// The readiness of a socket, as the kernel reported it.
#[derive(Clone, Copy, Drop)]
pub(crate) struct Readiness {
    /// Whether a read may return bytes.
    pub readable: bool,
    /// Whether a write may take bytes.
    pub writable: bool,
    /// Whether the peer ended its side.
    hung_up: bool,
    /// Whether all that the peer sent was read, up to its end.
    pub is_at_end: bool,
}

/// A reader that doesn't block, and its readiness.
#[derive(Drop)]
pub(crate) struct SocketReader<R> {
    pub reader: R,
    pub readable: bool,
    /// Whether the peer ended its side.
    pub hung_up: bool,
    is_at_end: bool,
}

/// A writer that doesn't block, and whether a write may take bytes.
#[derive(Drop)]
pub(crate) struct SocketWriter<W> {
    pub writer: W,
    pub writable: bool,
}

/// The reader and the writer of a connection.
#[derive(Drop)]
pub(crate) struct Socket<R, W> {
    pub input: SocketReader<R>,
    pub output: SocketWriter<W>,
}

/// What a failed call means.
pub(crate) fn stop_of(error: &io::Error) -> SocketStop {
    match error.kind() {
        ErrorKind::WouldBlock => SocketStop::WouldBlock,
        ErrorKind::Interrupted => SocketStop::Interrupted,
        ErrorKind::OutOfMemory => SocketStop::Memory,
        _ => SocketStop::Lost,
    }
}

impl Readiness {
    /// The readiness of a new socket: reads and writes are tried.
    pub fn unknown() -> Readiness {
        Readiness {
            readable: true,
            writable: true,
            hung_up: false,
            is_at_end: false,
        }
    }

    /// Notes what the kernel reports.
    pub fn update(&mut self, event: &Event) {
        let failed = event.is_error();
        if event.is_read_closed() || failed {
            self.hung_up = true;
        }
        if event.is_readable() || self.hung_up {
            self.readable = true;
        }
        if event.is_writable() || event.is_write_closed() || failed {
            self.writable = true;
        }
    }

    /// Has reads and writes tried again, whatever the kernel reported.
    pub fn try_again(&mut self) {
        self.readable = true;
        self.writable = true;
    }
}

impl<R, W> Socket<R, W> {
    /// A reader and a writer with this readiness.
    pub fn new(reader: R, writer: W, readiness: Readiness) -> Socket<R, W> {
        Socket {
            input: SocketReader {
                reader,
                readable: readiness.readable,
                hung_up: readiness.hung_up,
                is_at_end: readiness.is_at_end,
            },
            output: SocketWriter {
                writer,
                writable: readiness.writable,
            },
        }
    }

    /// Their readiness.
    pub fn readiness(&self) -> Readiness {
        Readiness {
            readable: self.input.readable,
            writable: self.output.writable,
            hung_up: self.input.hung_up,
            is_at_end: self.input.is_at_end,
        }
    }
}

impl<W: Write> SocketWriter<W> {
    /// Writes the first bytes, as many as the writer takes now.
    pub fn send(&mut self, bytes: &[u8]) -> Result<usize, SocketStop>
        ensures fits { IfOk result (λ count. count ≤ length bytes.now) }
        ensures taken { IfOk result (λ count. Appends (W.contents self.old.writer) (W.contents self.new.writer) (take count bytes.now)) }
        ensures kept { OnErr result (Keeps (W.contents self.old.writer) (W.contents self.new.writer)) }
    {
        let most = bytes.len().min(MOST_WRITTEN);
        match self.writer.write(&bytes[..most]) {
            Ok(count) => {
                self.writable = count >= most;
                Ok(count)
            }
            Err(error) => {
                let stop = stop_of(&error);
                if stop == SocketStop::WouldBlock {
                    self.writable = false;
                }
                Err(stop)
            }
        }
    }
}

impl<R: Read> SocketReader<R> {
    /// Reads and discards bytes. The buffer is small, since it is zeroed each time and mostly only the end of input remains.
    pub fn discard_some(&mut self) -> Result<usize, SocketStop> {
        let mut buffer = [0; 1024];
        match self.read(&mut buffer) {
            Ok(count) => Ok(count),
            Err(error) => Err(stop_of(&error)),
        }
    }
}

impl<R: Read> Read for SocketReader<R> {
    ghost remaining = { λ socket_reader. R.remaining socket_reader.reader };

    /// After a short read nothing more has arrived, unless the peer ended its side: the end of input is still to be read (epoll(7)).
    /// After many bytes another read is tried all the same, which mostly saves an event.
    fn read(&mut self, buf: &mut [u8]) -> io::Result<usize> {
        let read = self.reader.read(buf);
        match &read {
            Ok(count) => {
                self.is_at_end = *count == 0;
                if *count < buf.len().min(MANY) && !self.hung_up {
                    self.readable = false;
                }
            }
            Err(error) => {
                if error.kind() == ErrorKind::WouldBlock {
                    self.readable = false;
                }
            }
        }
        read
    }
}
