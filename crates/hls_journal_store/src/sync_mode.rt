//! When a journal is synced.

/// When a journal is synced.
#[derive(Clone, Copy, Debug, PartialEq, Eq, Drop)]
pub enum SyncMode {
    /// Never: what was written survives the process, but not the machine.
    Never,
    /// From time to time, by a call.
    Timed,
    /// Whenever something was written.
    Each,
}
