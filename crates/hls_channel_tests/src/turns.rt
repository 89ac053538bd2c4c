//! A turn and its two passes: after an allocation failure the state is back in the turn, unchanged, and the same call again succeeds.

ghost use Rattle.std.specs.Prelude.{◌≡◌, IfSome};
ghost use Rattle.hls_core_laws.specs.Moves.{IsFittingAsSeen};

use crate::channel::first_snapshot;
use hls_core::snapshot::Snapshot;
use hls_core_laws::event::Event;
use hls_core_laws::refusal::Refusal;
use hls_sample_channels::{accept_event, begin_event};
use hls_turn::{Done, Pass, Turn};
use std::alloc::Global;
use std::sync::Wait;
use std::test::Fail;

/// What the passes submit.
#[derive(Clone, Copy)]
enum PassEvent {
    Begin,
    Accept(u32),
    Finish,
}

/// Returns the event of an act in a state; `None` if an allocation failed.
fn event_of(alloc: Global, state: &Snapshot, pass_event: PassEvent) -> Option<Event>
    ensures { IfSome result (λ event. IsFittingAsSeen state.now event) }
{
    match pass_event {
        PassEvent::Begin => begin_event(alloc, 0, b"vide", 90_000).ok(),
        PassEvent::Accept(number) => {
            accept_event(alloc, state, 0, u64::from(number) * 360_000, 360_000).ok()
        }
        PassEvent::Finish => Some(Event::Finish { rendition: 0 }),
    }
}

/// Submits an event with a pass.
fn submit_event<T: Wait>(
    rt: &T,
    alloc: Global,
    turn: &Turn,
    pass: &mut Pass,
    pass_event: PassEvent,
) -> Result<Done, Refusal>
    requires { pass.old.turn ≡ turn.now }
    ensures { pass.new.turn ≡ turn.now }
{
    let Ok(state) = turn.look(rt, alloc, pass) else {
        return Err(Refusal::Memory);
    };
    match event_of(alloc, &state, pass_event) {
        Some(event) => turn.submit(rt, alloc, pass, event),
        None => Err(Refusal::Memory),
    }
}

/// What a pass sees: the version, the bytes of the recording, and how many entries each pass has.
type SnapshotCounts = (u64, u64, u64, u64);

fn counts_of(state: &Snapshot) -> SnapshotCounts {
    let total = match state.recording(0) {
        Some(recording) => recording.total(),
        None => 0,
    };
    (
        state.version(),
        total,
        state.count_entries_by(0),
        state.count_entries_by(1),
    )
}

/// Returns what a pass sees when it looks; `None` if an allocation failed.
fn look_at_counts<T: Wait>(
    rt: &T,
    alloc: Global,
    turn: &Turn,
    pass: &mut Pass,
) -> Option<SnapshotCounts>
    requires { pass.old.turn ≡ turn.now }
    ensures { pass.new.turn ≡ turn.now }
{
    let state = turn.look(rt, alloc, pass).ok()?;
    Some(counts_of(&state))
}

/// Returns the same, and retries once if an allocation failed.
fn look_at_counts_with_retry<T: Wait>(
    rt: &T,
    alloc: Global,
    turn: &Turn,
    pass: &mut Pass,
) -> Option<SnapshotCounts>
    requires { pass.old.turn ≡ turn.now }
    ensures { pass.new.turn ≡ turn.now }
{
    match look_at_counts(rt, alloc, turn, pass) {
        Some(seen) => Some(seen),
        None => look_at_counts(rt, alloc, turn, pass),
    }
}

/// Whether a pass's event is new, in a second call if the first failed to allocate and left the state unchanged, as the other pass
/// sees.
fn submits_with_retry<T: Wait>(
    rt: &T,
    alloc: Global,
    turn: &Turn,
    pass: &mut Pass,
    other: &mut Pass,
    pass_event: PassEvent,
    from: SnapshotCounts,
    to: SnapshotCounts,
) -> bool
    requires ours { pass.old.turn ≡ turn.now }
    requires others { other.old.turn ≡ turn.now }
    ensures ours { pass.new.turn ≡ turn.now }
    ensures others { other.new.turn ≡ turn.now }
{
    let done = Ok(Done::New { version: to.0 });
    let first = submit_event(rt, alloc, turn, pass, pass_event);
    if first == Err(Refusal::Memory) {
        let stays = look_at_counts_with_retry(rt, alloc, turn, other) == Some(from);
        let again = submit_event(rt, alloc, turn, pass, pass_event);
        return stays && again == done && look_at_counts(rt, alloc, turn, other) == Some(to);
    }
    first == done && look_at_counts_with_retry(rt, alloc, turn, other) == Some(to)
}

/// Whether the first pass submits an init section and a unit, and the second one another unit and the end.
fn all_submit_with_retry<T: Wait>(
    rt: &T,
    alloc: Global,
    turn: &Turn,
    first: &mut Pass,
    second: &mut Pass,
) -> bool
    requires ours { first.old.turn ≡ turn.now }
    requires others { second.old.turn ≡ turn.now }
    ensures ours { first.new.turn ≡ turn.now }
    ensures others { second.new.turn ≡ turn.now }
{
    let seen = [
        (0, 0, 0, 0),
        (1, 600, 1, 0),
        (2, 1600, 2, 0),
        (3, 2600, 2, 1),
        (4, 2600, 2, 2),
    ];
    submits_with_retry(
        rt,
        alloc,
        turn,
        first,
        second,
        PassEvent::Begin,
        seen[0],
        seen[1],
    ) && submits_with_retry(
        rt,
        alloc,
        turn,
        first,
        second,
        PassEvent::Accept(0),
        seen[1],
        seen[2],
    ) && submits_with_retry(
        rt,
        alloc,
        turn,
        second,
        first,
        PassEvent::Accept(1),
        seen[2],
        seen[3],
    ) && submits_with_retry(
        rt,
        alloc,
        turn,
        second,
        first,
        PassEvent::Finish,
        seen[3],
        seen[4],
    )
}

/// Whether all of them succeed on a new turn; `None` if the turn couldn't be allocated.
fn runs_all_events<T: Wait>(rt: &T, alloc: Global) -> Option<bool> {
    let (turn, mut passes) = Turn::new(rt, alloc, first_snapshot(alloc, false)?, 2).ok()?;
    let mut second = passes.pop()?;
    let mut first = passes.pop()?;
    Some(all_submit_with_retry(rt, alloc, &turn, &mut first, &mut second))
}

#[test]
fn out_of_memory_puts_the_state_back(rt: HostRuntime) -> Result<(), Fail> {
    let alloc = rt.alloc();
    let all = match runs_all_events(&rt, alloc) {
        Some(all) => all,
        None => runs_all_events(&rt, alloc).ok_or("no turn")?,
    };
    assert!(rt; all);
    Ok(())
}

/// Whether two passes meet after an event of the first one; `None` if an allocation failed in the turn, the event or the meeting.
fn meets_after_begin<T: Wait>(rt: &T, alloc: Global) -> Option<bool> {
    let (turn, mut passes) = Turn::new(rt, alloc, first_snapshot(alloc, false)?, 2).ok()?;
    let first = passes.first_mut()?;
    if submit_event(rt, alloc, &turn, first, PassEvent::Begin) != Ok(Done::New { version: 1 }) {
        return None;
    }
    let met = turn.meet(rt, alloc, &mut passes).ok()?;
    Some(counts_of(&met) == (1, 600, 1, 0))
}

#[test]
fn out_of_memory_then_meets_again(rt: HostRuntime) -> Result<(), Fail> {
    let alloc = rt.alloc();
    let met = match meets_after_begin(&rt, alloc) {
        Some(met) => met,
        None => meets_after_begin(&rt, alloc).ok_or("no turn")?,
    };
    assert!(rt; met);
    Ok(())
}
