//! Whether a worker accepts connections.

/// Whether a connection may be queued at the listener.
#[derive(Clone, Copy, PartialEq, Eq, Drop)]
pub(crate) enum Backlog {
    /// None was reported since an accept found none.
    Empty,
    /// There may be one.
    Maybe,
    /// There may be one. The other workers go first until this time, while this one has more than its share.
    Others(u64),
    /// There may be one. Another worker evicts a connection for it first, until this time.
    First(u64),
    /// There may be one. Accepting is paused until this time.
    Later(u64),
    /// This worker accepts no more.
    Stopped,
}

impl Backlog {
    /// Whether the worker may accept at this time.
    pub fn is_due(self, now: u64, has_more: bool) -> bool {
        match self {
            Backlog::Empty | Backlog::Stopped => false,
            Backlog::Maybe => true,
            Backlog::Others(time) => now >= time || !has_more,
            Backlog::First(time) | Backlog::Later(time) => now >= time,
        }
    }

    /// How many milliseconds are left until the worker accepts; none if it doesn't.
    pub fn time_left(self, now: u64) -> Option<u64> {
        match self {
            Backlog::Empty | Backlog::Stopped => None,
            Backlog::Maybe => Some(0),
            Backlog::Others(time) | Backlog::First(time) | Backlog::Later(time) => {
                Some(time.saturating_sub(now))
            }
        }
    }

    /// Whether accepting was deferred or paused for another reason than the worker's share.
    pub fn has_waited(self) -> bool {
        matches!(self, Backlog::First(_) | Backlog::Later(_))
    }
}
