//! The listener of a server, and the limits on open files.

ghost use Rattle.std.specs.Prelude.{◌≡◌, ◌≤◌};
ghost use Rattle.hls_event_loop.specs.FileLimits.{connection_limit};

use std::net::TcpListener;
use std::os::fd::AsRawFd;

/// The most connections that the kernel queues for the workers.
const QUEUE: i32 = 4096;

/// Half of the bytes that the kernel buffers for a client that doesn't read: it doubles this value for its bookkeeping.
const SEND_BUFFER: i32 = 131_072;

/// Open files of a server other than those of connections and workers: standard streams, the listener, files read at the start.
const OTHERS: u64 = 32;

/// An option's value in the form that setsockopt(2) takes.
fn option_value(value: i32) -> [u8; 16] {
    let mut bytes = [0u8; 16];
    bytes[..4].copy_from_slice(&value.to_ne_bytes());
    bytes
}

/// Lengthens a listener's queue, limits the send buffers of its connections, and disables Nagle's algorithm for them: a socket
/// inherits both options. What the kernel refuses stays unchanged.
pub fn tune_listener(listener: &TcpListener) {
    let fd = listener.as_raw_fd();
    let _ = libc::net::listen(fd, QUEUE);
    let most = option_value(SEND_BUFFER);
    let yes = option_value(1);
    let _ = unsafe {
        libc::net::setsockopt(fd, libc::net::SOL_SOCKET, libc::net::SO_SNDBUF, &most, 4)
    };
    let _ = unsafe {
        libc::net::setsockopt(fd, libc::net::IPPROTO_TCP, libc::net::TCP_NODELAY, &yes, 4)
    };
}

/// How many files the process may have open; the maximum if the kernel doesn't say.
pub fn open_file_limit() -> u64 {
    let mut limit = libc::types::rlimit {
        rlim_cur: 0,
        rlim_max: 0,
    };
    if libc::getrlimit(libc::RLIMIT_NOFILE, &mut limit) != 0 {
        return u64::MAX;
    }
    limit.rlim_cur
}

/// How many of the `wanted` connections a process may hold that may have `files` files open. A worker uses four: its listener, its
/// poll, its waker, and the connection for which another is evicted.
pub fn connection_limit(files: u64, wanted: u64, workers: u64) -> u64
    requires { workers ≤ 63 }
    ensures { result ≡ connection_limit files wanted workers }
{
    wanted.min(files.saturating_sub(4 * workers + OTHERS).max(1))
}

/// How many of the `wanted` workers a process may have that may have `files` files open: at most a third of the files are for
/// workers, and there is at least one.
pub fn worker_limit(files: u64, wanted: u64) -> u64
    ensures { result ≤ wanted }
{
    wanted.min((files / 12).max(1))
}
