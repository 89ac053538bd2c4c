//! What was heard of the encoders of a channel, by all the threads that serve them.

use std::sync::atomic::{AtomicU64, Ordering};

/// The most renditions of a channel.
const MOST_RENDITIONS: usize = 16;

/// When something was last heard of each rendition's encoder, as readings of the monotonic clock in milliseconds; 0 if never. It is
/// outside the channel's state: a restart begins without it, and no contract is about it.
#[derive(Drop)]
pub struct EncoderSigns {
    heard: [AtomicU64; MOST_RENDITIONS],
    claimed: [AtomicU64; MOST_RENDITIONS],
    /// When a unit was ahead of the channel for the first time since every encoder is silent for too long; 0 if never.
    lone_claim: AtomicU64,
}

/// The clock that nothing was noted by.
fn never() -> [AtomicU64; MOST_RENDITIONS] {
    [(); MOST_RENDITIONS].map(|_| AtomicU64::new(0))
}

impl EncoderSigns {
    /// Nothing was heard of any encoder.
    pub fn new() -> EncoderSigns {
        EncoderSigns {
            heard: never(),
            claimed: never(),
            lone_claim: AtomicU64::new(0),
        }
    }

    /// Notes that a unit of the rendition arrived that isn't ahead of the channel, whether or not it was recorded.
    pub fn note_unit(&self, rendition: usize, now_ms: u64) {
        if let Some(heard) = self.heard.get(rendition) {
            heard.store(now_ms.max(1), Ordering::SeqCst);
        }
    }

    /// Notes that a unit of the rendition was refused since it is ahead of the channel.
    pub fn note_ahead(&self, rendition: usize, now_ms: u64) {
        if let Some(claimed) = self.claimed.get(rendition) {
            claimed.store(now_ms.max(1), Ordering::SeqCst);
        }
    }

    /// When a unit of the rendition last arrived that wasn't ahead of the channel; 0 if never.
    pub fn last_heard_ms(&self, rendition: usize) -> u64 {
        self.heard
            .get(rendition)
            .map_or(0, |heard| heard.load(Ordering::SeqCst))
    }

    /// Whether the last unit of the rendition was refused since it is ahead of the channel.
    pub fn is_ahead(&self, rendition: usize) -> bool {
        let claimed = self
            .claimed
            .get(rendition)
            .map_or(0, |claimed| claimed.load(Ordering::SeqCst));
        claimed > 0 && claimed >= self.last_heard_ms(rendition)
    }

    /// When a unit last arrived that wasn't ahead of the channel, of any rendition; 0 if never.
    pub fn newest_heard_ms(&self) -> u64 {
        let mut newest = 0;
        for rendition in 0..MOST_RENDITIONS {
            newest = self.last_heard_ms(rendition).max(newest);
        }
        newest
    }

    /// Whether encoders that are silent may be taken for away, at a unit that is ahead of the channel while every encoder is silent for
    /// more than `wait_ms`: only if another such unit came at least `wait_ms` before. After an outage of all encoders the first one to
    /// come back doesn't speak for the others, which may follow within a second.
    pub fn is_lone_claim_due(&self, now_ms: u64, wait_ms: u64) -> bool {
        let newest = self.newest_heard_ms();
        if now_ms <= newest.saturating_add(wait_ms) {
            return false;
        }
        let first = self.lone_claim.load(Ordering::SeqCst);
        if first <= newest {
            self.lone_claim.store(now_ms.max(1), Ordering::SeqCst);
            return false;
        }
        now_ms.saturating_sub(first) >= wait_ms
    }
}
