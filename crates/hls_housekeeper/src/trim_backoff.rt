//! How long the housekeeper backs off from trims.

ghost use Rattle.std.specs.Prelude.{◌≡◌, ◌≤◌, ◌&&◌, nat_lt};
ghost use Rattle.hls_housekeeper.specs.Backoff.{backoff_after, backoff_ms};

/// The longest backoff, in milliseconds.
const LONGEST_MS: u64 = 10_000;

/// The kept time is at least this many times the backoff.
const SHARE: u64 = 360;

/// Returns the backoff in milliseconds: ten seconds, or a 360th of the kept time if that is less. `keep` is in microseconds.
pub fn backoff_ms(keep: u64) -> u64
    ensures value { result ≡ backoff_ms keep }
    ensures bound { result ≤ 10000 }
{
    (keep / (SHARE * 1000)).min(LONGEST_MS)
}

/// Trims wait while both moments are in the future: one of the clock, in milliseconds, and one of the channel, in microseconds. Due
/// to the clock, trims resume even if no unit can be accepted; due to the channel's time, they resume soon if encoders send faster than
/// real time.
#[derive(Clone, Copy)]
pub struct TrimBackoff {
    pub clock: u64,
    pub channel: u64,
}

impl TrimBackoff {
    /// Returns no backoff.
    pub fn none() -> TrimBackoff
        ensures { result ≡ record { clock = 0; channel = 0 } }
    {
        TrimBackoff {
            clock: 0,
            channel: 0,
        }
    }

    /// Starts a backoff after trims, at a moment of the clock and of the channel.
    pub fn start(keep: u64, now: u64, time: u64) -> TrimBackoff
        ensures { result ≡ backoff_after keep now time }
    {
        let length = backoff_ms(keep);
        TrimBackoff {
            clock: now.saturating_add(length),
            channel: time.saturating_add(length * 1000),
        }
    }

    /// Whether trims wait at a moment of the clock and of the channel.
    pub fn is_active(self, now: u64, time: u64) -> bool
        ensures { result ≡ (nat_lt now self.clock && nat_lt time self.channel) }
    {
        now < self.clock && time < self.channel
    }
}
