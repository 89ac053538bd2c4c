//! A step that fails to allocate leaves the snapshot unchanged, and the same step again returns the next one.
ghost use Rattle.std.specs.Prelude.{IfSome};
ghost use Rattle.hls_core_laws.specs.Moves.{IsFitting};

use hls_core::snapshot::Snapshot;
use hls_core::step::step;
use hls_core::stepped::Stepped;
use hls_core_laws::event::Event;
use hls_core_laws::refusal::Refusal;
use hls_sample_channels::{accept_event, begin_event, open_channel_with, rendition};
use std::alloc::Global;
use std::sync::Arc;

/// The events of the tests: rendition 0 or 1 begins, a unit of 4 s is added to rendition 0 at a number of ticks, a rendition ends,
/// segments slide out, or rendition 0 is trimmed.
#[derive(Clone, Copy)]
enum TestEvent {
    Begin(usize),
    Accept(u64),
    Finish(usize),
    Slide(u64),
    Trim(u64),
}

/// Makes a channel of one or two renditions; `None` if an allocation failed.
fn open_sample_channel(alloc: Global, two: bool) -> Option<Arc<Snapshot>> {
    let mut renditions = Vec::new(alloc);
    renditions
        .push(rendition(alloc, b"v1", true, 0).ok()?)
        .ok()?;
    if two {
        renditions
            .push(rendition(alloc, b"en", true, 0).ok()?)
            .ok()?;
    }
    open_channel_with(alloc, renditions, None).ok()
}

fn event_of(alloc: Global, snapshot: &Snapshot, test_event: TestEvent) -> Option<Event>
    ensures { IfSome result (λ event. IsFitting snapshot.now event) }
{
    match test_event {
        TestEvent::Begin(rendition) => begin_event(alloc, rendition, b"vide", 90000).ok(),
        TestEvent::Accept(start) => accept_event(alloc, snapshot, 0, start, 360000).ok(),
        TestEvent::Finish(rendition) => Some(Event::Finish { rendition }),
        TestEvent::Slide(count) => Some(Event::Slide { count }),
        TestEvent::Trim(floor) => Some(Event::Trim {
            rendition: 0,
            floor,
        }),
    }
}

fn step_event(
    alloc: Global,
    snapshot: &Snapshot,
    test_event: TestEvent,
) -> Result<Stepped, Refusal> {
    match event_of(alloc, snapshot, test_event) {
        Some(event) => step(snapshot, alloc, 0, event),
        None => Err(Refusal::Memory),
    }
}

/// Returns the next snapshot; `None` if an allocation failed, or the event isn't new.
fn snapshot_after(
    alloc: Global,
    snapshot: &Snapshot,
    test_event: TestEvent,
) -> Option<Arc<Snapshot>> {
    match step_event(alloc, snapshot, test_event) {
        Ok(Stepped::New(next)) => Some(next),
        _ => None,
    }
}

/// Makes a channel whose first rendition has begun, with one unit.
fn one_unit(alloc: Global) -> Option<Arc<Snapshot>> {
    let none = open_sample_channel(alloc, true)?;
    let begun = snapshot_after(alloc, &none, TestEvent::Begin(0))?;
    snapshot_after(alloc, &begun, TestEvent::Accept(0))
}

/// Makes the same, and retries once if an allocation failed.
fn one_unit_with_retry(alloc: Global) -> Option<Arc<Snapshot>> {
    match one_unit(alloc) {
        Some(snapshot) => Some(snapshot),
        None => one_unit(alloc),
    }
}

/// Makes a channel of one finished rendition with two units, without the first of its two segments.
fn one_segment(alloc: Global) -> Option<Arc<Snapshot>> {
    let none = open_sample_channel(alloc, false)?;
    let begun = snapshot_after(alloc, &none, TestEvent::Begin(0))?;
    let one = snapshot_after(alloc, &begun, TestEvent::Accept(0))?;
    let two = snapshot_after(alloc, &one, TestEvent::Accept(360000))?;
    let ended = snapshot_after(alloc, &two, TestEvent::Finish(0))?;
    snapshot_after(alloc, &ended, TestEvent::Slide(1))
}

/// Makes the same, and retries once if an allocation failed.
fn one_segment_with_retry(alloc: Global) -> Option<Arc<Snapshot>> {
    match one_segment(alloc) {
        Some(snapshot) => Some(snapshot),
        None => one_segment(alloc),
    }
}

/// What identifies a snapshot: its version, the bytes of the first rendition's resource, its floor, and how many segments the line
/// has lost.
#[derive(Clone, Copy, PartialEq, Eq)]
struct Observed {
    version: u64,
    total: u64,
    floor: u64,
    removed: u64,
}

fn observe(snapshot: &Snapshot) -> Observed {
    let (total, floor) = match snapshot.recording(0) {
        Some(recording) => (recording.total(), recording.floor()),
        None => (0, 0),
    };
    Observed {
        version: snapshot.version(),
        total,
        floor,
        removed: snapshot.line().removed(),
    }
}

/// Whether the event leads from the snapshot to the next one and leaves the snapshot itself unchanged, in a second step if the first
/// failed to allocate.
fn steps_with_retry(
    alloc: Global,
    snapshot: &Snapshot,
    test_event: TestEvent,
    expected: Observed,
) -> bool {
    let before = observe(snapshot);
    let first = step_event(alloc, snapshot, test_event);
    if observe(snapshot) != before {
        return false;
    }
    match first {
        Ok(Stepped::New(next)) => observe(&next) == expected,
        Err(Refusal::Memory) => {
            snapshot_after(alloc, snapshot, test_event).is_some_and(|next| observe(&next)
                == expected)
        }
        _ => false,
    }
}

#[test]
fn out_of_memory_changes_no_snapshot(rt: HostRuntime) {
    let alloc = rt.alloc();
    let snapshot = one_unit_with_retry(alloc).expect(&rt, "a snapshot with one unit");
    for (test_event, total) in [
        (TestEvent::Accept(360000), 2600),
        (TestEvent::Begin(1), 1600),
        (TestEvent::Finish(0), 1600),
    ] {
        let expected = Observed {
            version: 3,
            total,
            floor: 0,
            removed: 0,
        };
        assert!(rt; steps_with_retry(alloc, &snapshot, test_event, expected));
    }
}

#[test]
fn out_of_memory_slides_and_trims_nothing(rt: HostRuntime) {
    let alloc = rt.alloc();
    let snapshot = one_segment_with_retry(alloc).expect(&rt, "a snapshot with one segment");
    for (test_event, floor, removed) in [(TestEvent::Slide(1), 0, 2), (TestEvent::Trim(1), 1, 1)] {
        let expected = Observed {
            version: 6,
            total: 2600,
            floor,
            removed,
        };
        assert!(rt; steps_with_retry(alloc, &snapshot, test_event, expected));
    }
}
