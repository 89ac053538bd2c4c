//! Replays a run of events. No program calls this; each event of the program goes through `Turn::submit`.

ghost use Rattle.std.specs.Prelude.{◌≡◌, IfOk};
ghost use Rattle.hls_core_laws.specs.Runs.{first_state, next_state, replayed_state, AreFitting};
ghost use Rattle.hls_core_laws.specs.Moves.{IsFitting};

use crate::config::Config;
use crate::snapshot::Snapshot;
use crate::step::apply;
use hls_core_laws::done::Done;
use hls_core_laws::event::Event;
use hls_core_laws::refusal::Refusal;
use std::alloc::{AllocError, Global};
use std::sync::Arc;

/// Returns the last state of a run: each event, with the worker that submitted it, is applied in sequence from the opening state.
///
/// A refused event leaves the state unchanged. An allocation failure ends the call.
pub fn replay(
    alloc: Global,
    config: Config,
    events: &[(u16, Event)],
) -> Result<Arc<Snapshot>, AllocError>
    requires { AreFitting (first_state config) events.now }
    ensures { IfOk result (λ s. s.value ≡ replayed_state (first_state config) events.now) }
{
    let mut state = Arc::new(alloc, Snapshot::first(alloc, config)?)?;
    for pair in events {
        state = apply_event(alloc, state, pair.0, &pair.1)?;
    }
    Ok(state)
}

/// Returns the state after an event: unchanged after a repeat or a refusal. An allocation failure ends the call.
pub fn apply_event(
    alloc: Global,
    mut state: Arc<Snapshot>,
    by: u16,
    event: &Event,
) -> Result<Arc<Snapshot>, AllocError>
    requires { IsFitting state.value event.now }
    ensures { IfOk result (λ next. next.value ≡ next_state state.value by event.now) }
{
    match apply(&mut state, alloc, by, event.share()?) {
        Ok(Done::New { .. }) => Ok(state),
        Ok(Done::Repeat) => Ok(state),
        Err(Refusal::Memory) => Err(AllocError),
        Err(_) => Ok(state),
    }
}
