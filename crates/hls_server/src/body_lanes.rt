//! Where encoders' bodies are slowed down: a lane for each rendition. Above its rates, or without a place for an incomplete unit, a body
//! isn't read for a while. Its encoder feels that through TCP; other renditions and viewers don't.

ghost use Rattle.std.specs.Prelude.{◌≡◌, IfSome, None, false, slice_get};
ghost use Rattle.hls_rates.specs.Lanes.{HeldAtSome, LeavesSome, TakesAtSome};

use hls_rates::{BodyShare, BodyTurn, LaneLimits, Rate, SharedLane};
use hls_settings::{Settings, WindowSettings};
use std::alloc::{AllocError, Global};
use std::sync::Wait;

/// Returns how many bytes a rate yields over the time that media are kept.
fn bytes_kept(rate: Rate, timing: WindowSettings) -> u64 {
    let kept_s = timing.keep.saturating_add(timing.window) / 1_000_000;
    let ahead_s = timing.target.saturating_mul(2).saturating_add(10);
    rate.per_second
        .saturating_mul(kept_s.saturating_add(ahead_s))
        .saturating_add(rate.at_once)
}

/// The lanes of a channel's renditions; none if the rates aren't limited.
#[derive(Drop)]
pub struct BodyLanes {
    lanes: Vec<SharedLane>,
}

impl BodyLanes {
    /// The lanes of a channel by its settings.
    pub fn new(alloc: Global, settings: &Settings) -> Result<BodyLanes, AllocError> {
        let mut lanes = Vec::new(alloc);
        if settings.server.unit_rate == 0 {
            return Ok(BodyLanes { lanes });
        }
        let units = Rate::of_units(settings.server.unit_rate);
        for rendition in settings.config.renditions() {
            let bytes = Rate::of_bytes(rendition.bandwidth);
            let limits = LaneLimits {
                units,
                bytes,
                patience_ms: settings.server.workers.idle_timeout_s.saturating_mul(1000),
            };
            lanes.push(SharedLane::new(limits, bytes_kept(bytes, settings.server.timing)))?;
        }
        Ok(BodyLanes { lanes })
    }

    /// Takes what a turn received of a body. Returns whether a body that waits may take a place now.
    pub fn take_turn<R: Wait>(&self, rt: &R, share: &mut BodyShare, turn: BodyTurn) -> bool
        ensures limited { IfSome (slice_get self.now.lanes.items turn.rendition) (λ lane. TakesAtSome lane.limits turn share.old share.new result) }
        ensures unlimited { slice_get self.now.lanes.items turn.rendition ≡ None → (share.new ≡ share.old) × (result ≡ false) }
    {
        match self.lanes.get(turn.rendition) {
            Some(lane) => lane.take_turn(rt, share, turn),
            None => false,
        }
    }

    /// Whether a body waits before it is read, for its turn or for a place; and whether another one that waits may take a place now. One that
    /// waits for a place takes it if it may.
    pub fn holds<R: Wait>(&self, rt: &R, share: &mut BodyShare, now_ms: u64) -> (bool, bool)
        ensures limited { IfSome (slice_get self.now.lanes.items share.old.rendition) (λ lane. HeldAtSome lane.limits.patience_ms now_ms share.old share.new result.0 result.1) }
        ensures unlimited { slice_get self.now.lanes.items share.old.rendition ≡ None → (share.new ≡ share.old) × (result ≡ (false, false)) }
    {
        match self.lanes.get(share.rendition) {
            Some(lane) => lane.holds(rt, share, now_ms),
            None => (false, false),
        }
    }

    /// Notes how many bytes of a rendition the channel keeps.
    pub fn note_kept(&self, rendition: usize, bytes: u64) {
        if let Some(lane) = self.lanes.get(rendition) {
            lane.note_kept(bytes);
        }
    }

    /// Frees what a body has that is over, or whose connection is given up. Returns whether a body that waits may take its place now.
    pub fn leave<R: Wait>(&self, rt: &R, share: &mut BodyShare, now_ms: u64) -> bool
        ensures limited { IfSome (slice_get self.now.lanes.items share.old.rendition) (λ lane. LeavesSome now_ms share.old share.new result) }
        ensures unlimited { slice_get self.now.lanes.items share.old.rendition ≡ None → (share.new ≡ share.old) × (result ≡ false) }
    {
        match self.lanes.get(share.rendition) {
            Some(lane) => lane.leave(rt, share, now_ms),
            None => false,
        }
    }
}
