//! What holds trims back.

ghost use Rattle.std.specs.Prelude.{◌≡◌, ◌≤◌, ◌<◌, length};
ghost use Rattle.hls_core_laws.specs.State.{State};
ghost use Rattle.hls_housekeeper.specs.TrimHolds.{holds_back, no_limit};

use crate::progress::MOST_RENDITIONS;
use hls_core::snapshot::Snapshot;

/// Which trims wait: during a backoff each; and each of a unit that the channel's journal doesn't have.
#[derive(Clone, Copy)]
pub struct TrimHold {
    pub resting: bool,
    /// How many units of each rendition the journal has, at least.
    pub written: [u64; MOST_RENDITIONS],
}

impl TrimHold {
    /// Whether the trim of a rendition's units below a number waits.
    pub fn holds_back(&self, rendition: usize, floor: u64) -> bool
        ensures { result ≡ holds_back self.now rendition floor }
    {
        self.resting || self.written.get(rendition).copied().unwrap_or(0) < floor
    }
}

/// How many units of each rendition a channel's journal has.
#[derive(Clone, Copy)]
pub struct WrittenUnits {
    /// That many at least.
    pub counts: [u64; MOST_RENDITIONS],
    /// The units of a later state.
    next: [u64; MOST_RENDITIONS],
    /// The version of that state.
    version: u64,
}

impl WrittenUnits {
    /// Nothing is known.
    pub fn new() -> WrittenUnits {
        WrittenUnits {
            counts: [0; MOST_RENDITIONS],
            next: [0; MOST_RENDITIONS],
            version: 0,
        }
    }

    /// Notes a state of the channel, which is later than those before, and how many versions the journal has; `u64::MAX` without one. Once
    /// the journal has a noted state, it has its units.
    pub fn update(&mut self, written: u64, snapshot: &Snapshot)
        ensures earlier { written < self.old.version → self.new ≡ self.old }
        ensures none { self.old.version ≤ written → written ≡ 18446744073709551615 → self.new.counts ≡ no_limit }
        ensures later { self.old.version ≤ written → written < 18446744073709551615 → self.new.counts ≡ self.old.next }
        ensures version { self.old.version ≤ written → self.new.version ≡ length snapshot.now.log }
    {
        if written < self.version {
            return;
        }
        self.counts = if written == u64::MAX {
            [u64::MAX; MOST_RENDITIONS]
        } else {
            self.next
        };
        self.next = count_units(snapshot);
        self.version = snapshot.version();
    }
}

/// Returns how many units each rendition has.
fn count_units(snapshot: &Snapshot) -> [u64; MOST_RENDITIONS] {
    let mut counts = [0; MOST_RENDITIONS];
    for (rendition, count) in counts.iter_mut().enumerate() {
        if let Some(recording) = snapshot.recording(rendition) {
            *count = recording.count();
        }
    }
    counts
}
