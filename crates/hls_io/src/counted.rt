//! Readers and writers that count their failed calls.
ghost use Rattle.std.specs.Prelude.{◌≡◌, ◌+◌, ◌^◌, ◌<◌, ◌≤◌, length, take, IsSome, IfSome, IfNone, true, false};
ghost use Rattle.std.specs.Io.KnownBytes.{Appends, Consumes, IsAtEnd, Keeps};
ghost use Rattle.hls_io.specs.Failures.{FailuresRose};

use std::io::{Read, Write};

/// The number of calls that a counted reader or writer forwards; each later one fails.
const MAX_CALLS: u64 = 1 << 62;

const MAX_FAILURES: u64 = 1 << 63;

/// A reader or writer that counts its failed calls: those that fail, those that are interrupted, writes that accept no byte, and every call
/// after the 2^62nd.
#[derive(Drop)]
pub struct Counted<T> {
    /// The inner reader or writer. A caller of it must [begin a call](Counted::begin_call) first, and count a failed call.
    pub inner: T,
    calls: u64,
    failures: u64,
    ghost calls_in_range: { calls ≤ 2 ^ 62 },
    ghost failures_in_range: { failures ≤ 2 ^ 63 },
}

impl<T> Counted<T> {
    ghost use Rattle.hls_io.specs.Counted.{calls_left, failures_of, inner_of};

    /// Wraps a reader or writer, with no call counted.
    pub fn new(inner: T) -> Counted<T>
        ensures inside { inner_of result ≡ inner }
        ensures none { failures_of result ≡ 0 }
        ensures all_left { calls_left result ≡ 2 ^ 62 }
    {
        Counted {
            inner,
            calls: 0,
            failures: 0,
        }
    }

    /// Unwraps the reader or writer.
    pub fn into_inner(self) -> T
        ensures { result ≡ inner_of self }
    {
        let Counted {
            inner,
            calls: _,
            failures: _,
        } = self;
        inner
    }

    /// Whether another call may be forwarded. If so the call is counted, otherwise a failure.
    pub fn begin_call(&mut self) -> bool
        ensures inside { inner_of self.new ≡ inner_of self.old }
        ensures quiet { result ≡ true → failures_of self.new ≡ failures_of self.old }
        ensures progress { result ≡ true → calls_left self.new < calls_left self.old }
        ensures rose { result ≡ false → FailuresRose (failures_of self.old) (failures_of self.new) }
    {
        if self.calls >= MAX_CALLS {
            self.count_failure();
            return false;
        }
        self.calls += 1;
        true
    }

    /// Counts a failed call.
    pub fn count_failure(&mut self)
        ensures inside { inner_of self.new ≡ inner_of self.old }
        ensures calls { calls_left self.new ≡ calls_left self.old }
        ensures rose { FailuresRose (failures_of self.old) (failures_of self.new) }
    {
        if self.failures < MAX_FAILURES {
            self.failures += 1;
        }
    }
}

impl<R: Read> Counted<R> {
    ghost use Rattle.hls_io.specs.Counted.{calls_left, failures_of, inner_of};

    /// Reads into `buf`, which isn't empty, by one call. Returns the number of bytes; 0 is the end of the input. A failed call is counted
    /// and returns `None`.
    pub fn read(&mut self, buf: &mut [u8]) -> Option<usize>
        requires { 0 < length buf.old }
        ensures quiet { IsSome result → failures_of self.new ≡ failures_of self.old }
        ensures progress { IsSome result → calls_left self.new < calls_left self.old }
        ensures bound { IfSome result (λ n. n ≤ length buf.new) }
        ensures bytes { IfSome result (λ n. Consumes (R.remaining (inner_of self.old)) (R.remaining (inner_of self.new)) (take n buf.new)) }
        ensures end { IfSome result (λ n. n ≡ 0 → IsAtEnd (R.remaining (inner_of self.new))) }
        ensures rose { IfNone result (FailuresRose (failures_of self.old) (failures_of self.new)) }
        ensures kept { IfNone result (Keeps (R.remaining (inner_of self.old)) (R.remaining (inner_of self.new))) }
    {
        if !self.begin_call() {
            return None;
        }
        match self.inner.read(buf) {
            Ok(read) => Some(read),
            Err(_) => {
                self.count_failure();
                None
            }
        }
    }
}

impl<W: Write> Counted<W> {
    ghost use Rattle.hls_io.specs.Counted.{calls_left, failures_of, inner_of};

    /// Writes the start of `buf`, which isn't empty, by one call. Returns the number of bytes written, which is never 0. A failed call, or
    /// one that wrote no byte, is counted and returns `None`.
    pub fn write(&mut self, buf: &[u8]) -> Option<usize>
        requires { 0 < length buf.now }
        ensures quiet { IsSome result → failures_of self.new ≡ failures_of self.old }
        ensures progress { IsSome result → calls_left self.new < calls_left self.old }
        ensures some { IfSome result (λ n. (0 < n) × (n ≤ length buf.now)) }
        ensures bytes { IfSome result (λ n. Appends (W.contents (inner_of self.old)) (W.contents (inner_of self.new)) (take n buf.now)) }
        ensures rose { IfNone result (FailuresRose (failures_of self.old) (failures_of self.new)) }
        ensures kept { IfNone result (Keeps (W.contents (inner_of self.old)) (W.contents (inner_of self.new))) }
    {
        if !self.begin_call() {
            return None;
        }
        match self.inner.write(buf) {
            Ok(0) => {
                self.count_failure();
                None
            }
            Ok(written) => Some(written),
            Err(_) => {
                self.count_failure();
                None
            }
        }
    }
}
