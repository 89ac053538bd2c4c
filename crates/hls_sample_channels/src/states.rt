//! Channels after some events, all of worker 0.

ghost use Rattle.std.specs.Prelude.{◌≡◌, ◌+◌, ◌*◌, length, codes, true, IfOk};
ghost use Rattle.hls_fakes.specs.Init.{init_bytes};
ghost use Rattle.hls_fakes.specs.UnitBytes.{unit_bytes};
ghost use Rattle.hls_core_laws.specs.declared.event.Event.TheVariants.{Finish};
ghost use Rattle.hls_core_laws.specs.Moves.{state_with_entry, IsFitting};
ghost use Rattle.hls_sample_channels.specs.Samples.{IsBeginEvent, IsAcceptEvent, FollowsByEvent};

use crate::events::{accept_event, begin_event};
use crate::fault::SampleFault;
use hls_core::snapshot::Snapshot;
use hls_core::step::step;
use hls_core::stepped::Stepped;
use hls_core_laws::event::Event;
use std::alloc::Global;
use std::sync::Arc;

/// Returns the channel after an event that is new in it.
pub fn apply_event(
    alloc: Global,
    snapshot: &Snapshot,
    event: Event,
) -> Result<Arc<Snapshot>, SampleFault>
    requires { IsFitting snapshot.now event }
    ensures { IfOk result (λ next. next.value ≡ state_with_entry snapshot.now 0 event) }
{
    match step(snapshot, alloc, 0, event)? {
        Stepped::New(next) => Ok(next),
        Stepped::Repeat => Err(SampleFault::NotNew),
    }
}

/// Adds the init section of a video rendition with this timescale (ticks per second).
pub fn begin_rendition(
    alloc: Global,
    snapshot: &Snapshot,
    rendition: usize,
    scale: u32,
) -> Result<Arc<Snapshot>, SampleFault>
    ensures { IfOk result (λ next. FollowsByEvent snapshot.now (IsBeginEvent rendition (init_bytes (codes "vide") scale)) next.value) }
{
    let event = begin_event(alloc, rendition, b"vide", scale)?;
    apply_event(alloc, snapshot, event)
}

/// Adds a unit of a rendition that has begun; its start and duration are in ticks.
pub fn with_unit(
    alloc: Global,
    snapshot: &Snapshot,
    rendition: usize,
    start: u64,
    ticks: u32,
) -> Result<Arc<Snapshot>, SampleFault>
    ensures { IfOk result (λ next. FollowsByEvent snapshot.now (IsAcceptEvent rendition (unit_bytes start ticks true 1000)) next.value) }
{
    let event = accept_event(alloc, snapshot, rendition, start, ticks)?;
    apply_event(alloc, snapshot, event)
}

/// Adds the init section of a video rendition, and units from one second to another.
pub fn with_units(
    alloc: Global,
    snapshot: &Snapshot,
    rendition: usize,
    seconds: &[(u32, u32)],
) -> Result<Arc<Snapshot>, SampleFault>
    ensures { IfOk result (λ next. length next.value.log ≡ length snapshot.now.log + 1 + length seconds.now) }
{
    let mut state = begin_rendition(alloc, snapshot, rendition, 90_000)?;
    for &(from, to) in seconds {
        let ticks = to.saturating_sub(from).saturating_mul(90_000);
        state = with_unit(alloc, &state, rendition, u64::from(from) * 90_000, ticks)?;
    }
    Ok(state)
}

/// Ten units of four seconds.
pub const TEN_UNITS: [(u32, u32); 10] = [
    (0, 4),
    (4, 8),
    (8, 12),
    (12, 16),
    (16, 20),
    (20, 24),
    (24, 28),
    (28, 32),
    (32, 36),
    (36, 40),
];

/// Finishes a rendition that has begun.
pub fn finish_rendition(
    alloc: Global,
    snapshot: &Snapshot,
    rendition: usize,
) -> Result<Arc<Snapshot>, SampleFault>
    ensures { IfOk result (λ next. next.value ≡ state_with_entry snapshot.now 0 (Finish rendition)) }
{
    apply_event(alloc, snapshot, Event::Finish { rendition })
}
