//! A rendition's lane as the threads share it.

ghost use Rattle.std.specs.Prelude.{◌≡◌};
ghost use Rattle.hls_rates.specs.Lanes.{HeldAtSome, LeavesSome, TakesAtSome};

use crate::lane::Lane;
use crate::lane_limits::LaneLimits;
use crate::share::{BodyShare, BodyTurn};
use std::sync::atomic::{AtomicU64, Ordering};
use std::sync::{Mutex, Wait};

/// A rendition's lane as the threads share it. Each call is one change of the lane; between two, other threads may have changed it.
#[derive(Drop)]
pub struct SharedLane {
    pub limits: LaneLimits,
    /// The bytes that the channel keeps of the rendition.
    kept: AtomicU64,
    /// How many it may keep before its bodies are slowed down.
    pub most_kept: u64,
    lane: Mutex<Lane>,
}

impl SharedLane {
    /// A lane before anything is taken.
    pub fn new(limits: LaneLimits, most_kept: u64) -> SharedLane
        ensures limits { result.limits ≡ limits }
        ensures most { result.most_kept ≡ most_kept }
    {
        SharedLane {
            limits,
            kept: AtomicU64::new(0),
            most_kept,
            lane: Mutex::new(Lane::new()),
        }
    }

    /// Notes how many bytes of the rendition the channel keeps.
    pub fn note_kept(&self, bytes: u64) {
        self.kept.store(bytes, Ordering::SeqCst);
    }

    /// Whether the channel keeps too many bytes of the rendition. Once the other renditions' time advances, what is too old is dropped.
    fn is_full(&self) -> bool {
        self.kept.load(Ordering::SeqCst) > self.most_kept
    }

    /// Takes what a turn received of a body, and gives it the place that it needs. Returns whether a body that waits may take one now.
    pub fn take_turn<R: Wait>(&self, rt: &R, share: &mut BodyShare, turn: BodyTurn) -> bool
        ensures { TakesAtSome self.now.limits turn share.old share.new result }
    {
        let is_full = self.is_full();
        let mut lane = self.lane.lock(rt);
        lane.take_turn(self.limits, share, turn, is_full)
    }

    /// Whether a body waits before it is read, for its turn or for a place; and whether another one that waits may take a place now. One that
    /// waits for a place takes it if it may.
    pub fn holds<R: Wait>(&self, rt: &R, share: &mut BodyShare, now_ms: u64) -> (bool, bool)
        ensures { HeldAtSome self.now.limits.patience_ms now_ms share.old share.new result.0 result.1 }
    {
        let mut lane = self.lane.lock(rt);
        lane.holds(self.limits, share, now_ms)
    }

    /// Frees what a body has that is over, or whose client is given up. Returns whether a body that waits may take its place now.
    pub fn leave<R: Wait>(&self, rt: &R, share: &mut BodyShare, now_ms: u64) -> bool
        ensures { LeavesSome now_ms share.old share.new result }
    {
        let mut lane = self.lane.lock(rt);
        lane.leave(share, now_ms)
    }
}
