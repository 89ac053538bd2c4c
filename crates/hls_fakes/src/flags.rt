//! Flags that other threads set.

use std::sync::atomic::{AtomicBool, Ordering};
use std::thread;

/// The maximum number of polls before a test fails.
pub const MAX_POLLS: u64 = 100_000_000;

/// Waits until the flag is set. Returns false after `MAX_POLLS` polls.
pub fn wait_until_set(flag: &AtomicBool) -> bool {
    for _ in 0..MAX_POLLS {
        if flag.load(Ordering::SeqCst) {
            return true;
        }
        thread::yield_now();
    }
    false
}
