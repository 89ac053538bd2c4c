//! Limits a log line that many workers may write to one per minute.

use crate::alert::is_alert_due;
use std::sync::atomic::{AtomicU64, Ordering};

/// When the line was last logged, in milliseconds of the clock; 0 if never.
#[derive(Drop)]
pub struct LogThrottle {
    pub failed_accept: AtomicU64,
    pub slow_response: AtomicU64,
    pub slowed_body: AtomicU64,
}

impl LogThrottle {
    /// Returns a throttle whose line was never logged.
    pub fn new() -> LogThrottle {
        LogThrottle {
            failed_accept: AtomicU64::new(0),
            slow_response: AtomicU64::new(0),
            slowed_body: AtomicU64::new(0),
        }
    }
}

/// Whether to log a line now: the first one, and then one a minute. Of workers that ask at the same time, one gets `true`.
pub fn may_log(last: &AtomicU64, now: u64) -> bool {
    let now = now.max(1);
    let logged_at_ms = last.load(Ordering::SeqCst);
    is_alert_due(logged_at_ms, now) && last.swap(now, Ordering::SeqCst) == logged_at_ms
}
