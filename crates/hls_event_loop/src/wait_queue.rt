//! The connections of a worker that wait for a change of the channel.

ghost use Rattle.std.specs.Prelude.{◌≡◌, ◌++◌, ◌-◌, ◌<◌, ◌∷◌, [], None, option_to_list, IfOk, OnErr};
ghost use Rattle.hls_event_loop.specs.{WaitQueue.IsWoken, declared.wait_queue.WaitEntry.WaitEntry};

use std::alloc::{AllocError, Global};
use std::collections::VecDeque;

/// An entry of a wait queue. Keys of closed connections are reused, so an entry is valid only while the connection with its key
/// holds its ticket.
#[derive(Clone, Copy, Drop)]
pub(crate) struct WaitEntry {
    pub key: usize,
    pub ticket: u64,
}

/// A worker's waiting connections, in the order in which they began to wait. They use no thread, and get a turn once woken.
#[derive(Drop)]
pub(crate) struct WaitQueue {
    entries: VecDeque<WaitEntry>,
    /// How many entries, from the first on, get a turn.
    woken: usize,
    /// The ticket issued last.
    last_ticket: u64,
}

impl WaitQueue {
    /// An empty queue.
    pub fn new(alloc: Global) -> WaitQueue
        ensures { result.entries.items ≡ [] }
    {
        WaitQueue {
            entries: VecDeque::new(alloc),
            woken: 0,
            last_ticket: 0,
        }
    }

    /// Whether nothing waits.
    pub fn is_empty(&self) -> bool {
        self.entries.is_empty()
    }

    /// Whether a woken connection hasn't had its turn.
    pub fn has_woken(&self) -> bool {
        self.woken > 0
    }

    /// Appends a connection. Returns its ticket.
    pub fn push(&mut self, key: usize) -> Result<u64, AllocError>
        ensures ok { IfOk result (λ ticket. self.new.entries.items ≡ self.old.entries.items ++ record { key = key; ticket = ticket } ∷ []) }
        ensures err { OnErr result (self.new.entries.items ≡ self.old.entries.items) }
        ensures woken { self.new.woken ≡ self.old.woken }
    {
        let ticket = self.last_ticket.wrapping_add(1);
        self.last_ticket = ticket;
        self.entries.push_back(WaitEntry { key, ticket })?;
        Ok(ticket)
    }

    /// Wakes all.
    pub fn wake(&mut self)
        ensures all { IsWoken self.new }
        ensures entries { self.new.entries ≡ self.old.entries }
    {
        self.woken = self.entries.len();
    }

    /// Removes the first entry if it was woken.
    pub fn pop_woken(&mut self) -> Option<WaitEntry>
        ensures none { self.old.woken ≡ 0 → (result ≡ None) × (self.new ≡ self.old) }
        ensures first { 0 < self.old.woken → self.old.entries.items ≡ option_to_list result ++ self.new.entries.items }
        ensures woken { self.new.woken ≡ self.old.woken - 1 }
    {
        if self.woken == 0 {
            return None;
        }
        self.woken -= 1;
        self.entries.pop_front()
    }
}
