//! When a channel begins a new log.

ghost use Rattle.std.specs.Prelude.{◌≡◌};
ghost use Rattle.hls_journal_store.specs.RenewalPolicy.{has_shrunk, is_full, is_log_due, is_recording_due, may_begin};

use hls_core::snapshot::LOG_LIMIT;
use hls_record::recording::RECORDING_LIMIT;

/// The entries from which a log is long: a restart takes a second or two then. It is a sixteenth of the most that a log can have.
const LONG_LOG: u64 = LOG_LIMIT / 16;

/// The bytes from which a recording is long: half of the most that it can have.
const LONG_RECORDING: u64 = RECORDING_LIMIT / 2;

/// A log or a recording: how much it has, how much of that is kept, and how much a new one has at least. All in entries, or in bytes.
#[derive(Clone, Copy, Debug, PartialEq, Eq, Drop)]
pub struct LogUse {
    pub whole: u64,
    pub kept: u64,
    /// What can't be dropped: it is in the live line, or in no place yet.
    pub least: u64,
}

impl LogUse {
    /// Whether a log is replaced: it is long, and at most half of it is kept; or it is nearly full, and a new one is at most half as long.
    pub fn is_log_due(self) -> bool
        ensures { result ≡ is_log_due self }
    {
        self.has_shrunk(LONG_LOG) || self.is_nearly_full(LOG_LIMIT)
    }

    /// Whether a log is replaced because of a recording.
    pub fn is_recording_due(self) -> bool
        ensures { result ≡ is_recording_due self }
    {
        self.has_shrunk(LONG_RECORDING) || self.is_nearly_full(RECORDING_LIMIT)
    }

    /// Whether it is long, and at most half of it is kept.
    fn has_shrunk(self, long: u64) -> bool
        ensures { result ≡ has_shrunk long self }
    {
        long <= self.whole && self.kept <= self.whole / 2
    }

    /// Whether three quarters of the limit are used, and at most half of that must stay.
    fn is_nearly_full(self, limit: u64) -> bool
        ensures { result ≡ is_full limit self }
    {
        limit - limit / 4 <= self.whole && self.least <= self.whole / 2
    }
}

/// From when on a channel may begin a new log.
#[derive(Clone, Copy, Debug, PartialEq, Eq, Drop)]
pub struct RenewalGate {
    /// The entries of its log.
    pub entries: u64,
    /// The milliseconds of the monotonic clock.
    pub at_ms: u64,
}

impl RenewalGate {
    /// Whether a channel with this number of entries may begin a new log now.
    pub fn is_open(self, entries: u64, now_ms: u64) -> bool
        ensures { result ≡ may_begin self entries now_ms }
    {
        self.entries <= entries && self.at_ms <= now_ms
    }
}
