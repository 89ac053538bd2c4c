//! A clock in milliseconds.

use std::time::Clock;

/// The clock's time in milliseconds; 0 if the clock can't be read.
pub fn monotonic_ms(clock: &impl Clock) -> u64 {
    match clock.monotonic() {
        Ok(time) => u64::try_from(time.as_millis()).unwrap_or(u64::MAX),
        Err(_) => 0,
    }
}
