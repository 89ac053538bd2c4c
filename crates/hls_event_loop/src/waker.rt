//! How a worker is woken: by the kernel for a new connection, or by another thread.

use mio::net::TcpListener;
use mio::{Interest, Poll, Token};
use os::FromRawFd;
use std::io;
use std::os::fd::{AsRawFd, OwnedFd};
use std::sync::atomic::{AtomicBool, Ordering};

/// The kernel wakes one of the threads that wait for a file with this flag, the first that isn't busy (epoll_ctl(2)).
const EPOLLEXCLUSIVE: u32 = 1 << 28;

/// The error of the last failed call.
fn last_error() -> io::Error {
    io::Error::from_raw_os_error(os::errno())
}

/// Has the kernel report each new event of a file to a worker, with the given flags. Returns false if the kernel refuses.
fn epoll_add(poll: &Poll, file: i32, flags: u32, token: Token) -> bool {
    let events = libc::net::EPOLLIN | libc::net::EPOLLET | flags;
    let set = poll.as_raw_fd();
    os::epoll_ctl(set, libc::net::EPOLL_CTL_ADD, file, events, token.0 as u64) == 0
}

/// Why another thread wakes a worker.
#[derive(Clone, Copy)]
pub(crate) enum WakeReason {
    /// It leaves a connection to the worker.
    Connection,
    /// What the worker's connections wait for may have happened.
    Change,
}

/// The reasons for which a worker was woken: one or both.
#[derive(Clone, Copy, Drop)]
pub(crate) struct WakeReasons {
    pub connection: bool,
    pub change: bool,
}

/// A worker's waker: an eventfd that is never read, so that each write is an event (eventfd(2)).
#[derive(Drop)]
pub(crate) struct WorkerWaker {
    counter: OwnedFd,
    /// The reasons since the worker last took them.
    connection: AtomicBool,
    change: AtomicBool,
}

impl WorkerWaker {
    /// A waker without a worker.
    pub fn new() -> io::Result<WorkerWaker> {
        let counter = libc::net::eventfd(0, libc::net::EFD_CLOEXEC | libc::net::EFD_NONBLOCK);
        if counter < 0 {
            return Err(last_error());
        }
        Ok(WorkerWaker {
            counter: unsafe { OwnedFd::from_raw_fd(counter) },
            connection: AtomicBool::new(false),
            change: AtomicBool::new(false),
        })
    }

    /// Has each wake end the worker's poll.
    pub fn register(&self, poll: &Poll, token: Token) -> io::Result<()> {
        if epoll_add(poll, self.counter.as_raw_fd(), 0, token) {
            return Ok(());
        }
        Err(last_error())
    }

    /// Ends the worker's current or next poll. A reason that it hasn't taken yet was written before.
    pub fn wake(&self, reason: WakeReason) {
        let given = match reason {
            WakeReason::Connection => &self.connection,
            WakeReason::Change => &self.change,
        };
        if !given.swap(true, Ordering::SeqCst) {
            let _ = libc::write(self.counter.as_raw_fd(), &1u64.to_ne_bytes());
        }
    }

    /// Takes the reasons of a wake. A later one is an event again.
    pub fn take_reasons(&self) -> WakeReasons {
        WakeReasons {
            connection: self.connection.swap(false, Ordering::SeqCst),
            change: self.change.swap(false, Ordering::SeqCst),
        }
    }
}

/// Has the kernel report a listener's connections to a worker, each to one worker only; to all, if the kernel doesn't support that.
pub(crate) fn register_listener(
    poll: &Poll,
    listener: &mut TcpListener,
    token: Token,
) -> io::Result<()> {
    if epoll_add(poll, listener.as_raw_fd(), EPOLLEXCLUSIVE, token) {
        return Ok(());
    }
    poll.registry()
        .register(listener, token, Interest::READABLE)
}
