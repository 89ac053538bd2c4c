//! A worker's system resources.

use mio::net::TcpListener;
use mio::{Events, Poll};
use std::alloc::Global;
use std::io;
use std::net::{self, Net};

/// The most events of one poll.
const MOST_EVENTS: usize = 256;

/// A worker's system resources: its poll with a buffer for events, and the listener, which it shares with the other workers.
#[derive(Drop)]
pub struct WorkerIo {
    pub(crate) poll: Poll,
    pub(crate) listener: TcpListener,
    pub(crate) events: Events,
}

impl WorkerIo {
    /// The resources of a worker of this listener, whose accepts don't block from now on.
    pub fn listen_on<N: Net>(
        system: &N,
        alloc: Global,
        listener: &net::TcpListener,
    ) -> io::Result<WorkerIo> {
        let own = listener.try_clone()?;
        own.set_nonblocking(true)?;
        Ok(WorkerIo {
            poll: Poll::new(system)?,
            listener: TcpListener::from_std(own),
            events: Events::with_capacity(alloc, MOST_EVENTS)?,
        })
    }
}
