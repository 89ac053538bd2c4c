//! Configurations, events, and the states to which they lead.

ghost use Rattle.std.specs.Prelude.{IfSome};
ghost use Rattle.hls_media_laws.specs.IsInitOrUnit.{IsInit};

use crate::channel::{config, renditions};
use bytes::Bytes;
use hls_core::config::{Config, ConfigFault};
use hls_core::replay::replay;
use hls_core::snapshot::Snapshot;
use hls_core_laws::event::Event;
use hls_core_laws::rendition::Rendition;
use hls_fakes::{CallOutcome, init_bytes};
use hls_media::read_init;
use hls_media_laws::init::Init;
use hls_record::Recording;
use hls_sample_channels::{THREE_UNITS, end_channel_with_retry, record_channel_with_retry};
use std::alloc::Global;

fn are_renditions(renditions: &[Rendition]) -> bool {
    match renditions {
        [video, audio] => video.name.starts_with(b"v1") && audio.name.starts_with(b"en"),
        _ => false,
    }
}

fn is_config(config: &Config) -> bool {
    are_renditions(config.renditions()) && config.target() == 6 && config.preferred() == 4_000_000
}

pub fn outcome_of_config(alloc: Global) -> CallOutcome {
    let Some(renditions) = renditions(alloc, true) else {
        return CallOutcome::OutOfMemory;
    };
    match Config::new(alloc, 6, 4_000_000, renditions) {
        Ok(config) => CallOutcome::from_answer(is_config(&config)),
        Err(ConfigFault::Memory) => CallOutcome::OutOfMemory,
        Err(_) => CallOutcome::Wrong,
    }
}

/// The outcome of an invalid preferred length, for which only the renditions are allocated.
pub fn outcome_of_preferred(alloc: Global) -> CallOutcome {
    let Some(renditions) = renditions(alloc, true) else {
        return CallOutcome::OutOfMemory;
    };
    match Config::new(alloc, 6, 6_000_001, renditions) {
        Err(ConfigFault::BadPreferred) => CallOutcome::Right,
        _ => CallOutcome::Wrong,
    }
}

/// Whether it is the opening state of the configuration that was shared.
fn is_opening(state: &Snapshot, shared: &Config) -> bool {
    state.version() == 0 && is_config(state.config()) && is_config(shared)
}

/// The outcome of the opening state of a configuration, and of sharing the configuration.
pub fn outcome_of_opening(alloc: Global) -> CallOutcome {
    let Some(config) = config(alloc, true) else {
        return CallOutcome::OutOfMemory;
    };
    let Ok(shared) = config.share() else {
        return CallOutcome::from_refusal(is_config(&config));
    };
    match Snapshot::first(alloc, config) {
        Ok(state) => CallOutcome::from_answer(is_opening(&state, &shared)),
        Err(_) => CallOutcome::from_refusal(is_config(&shared)),
    }
}

/// Whether it is the state after two events, one of each worker: the video rendition's begin and its end.
fn is_replayed(state: &Snapshot) -> bool {
    state.version() == 2
        && state.count_entries_by(0) == 1
        && state.count_entries_by(1) == 1
        && state.is_finished(0) == Some(true)
        && state.is_finished(1) == Some(false)
}

/// Makes an init section of 600 bytes, and its bytes.
fn init(alloc: Global) -> Option<(Init, Bytes)>
    ensures { IfSome result (λ r. IsInit r.1 r.0) }
{
    let bytes = init_bytes(alloc, b"vide", 90000).ok()?;
    let init = read_init(alloc, &bytes).ok()?;
    let bytes = Bytes::copy_from_slice(alloc, &bytes).ok()?;
    Some((init, bytes))
}

/// The outcome of a run of three events by two workers, whose first event is refused.
pub fn outcome_of_replay(alloc: Global) -> CallOutcome {
    let Some(config) = config(alloc, true) else {
        return CallOutcome::OutOfMemory;
    };
    let Some((init, bytes)) = init(alloc) else {
        return CallOutcome::OutOfMemory;
    };
    let video = Event::Begin {
        rendition: 0,
        init,
        bytes,
    };
    let events = [
        (1, Event::Finish { rendition: 1 }),
        (0, video),
        (1, Event::Finish { rendition: 0 }),
    ];
    match replay(alloc, config, &events) {
        Ok(state) => CallOutcome::from_answer(is_replayed(&state)),
        Err(_) => CallOutcome::OutOfMemory,
    }
}

/// Whether it is the second rendition's begin.
fn is_begin(event: &Event) -> bool {
    match event {
        Event::Begin {
            rendition,
            bytes,
            ..
        } => *rendition == 1 && bytes.len() == 600,
        _ => false,
    }
}

/// The outcome of sharing an event.
pub fn outcome_of_shared(alloc: Global) -> CallOutcome {
    let Some((init, bytes)) = init(alloc) else {
        return CallOutcome::OutOfMemory;
    };
    let event = Event::Begin {
        rendition: 1,
        init,
        bytes,
    };
    match event.share() {
        Ok(shared) => CallOutcome::from_answer(is_begin(&shared)),
        Err(_) => CallOutcome::OutOfMemory,
    }
}

#[test]
fn out_of_memory_then_opens_channels_again(rt: HostRuntime) {
    let alloc = rt.alloc();
    assert!(rt; outcome_of_config(alloc).is_consistent_with(outcome_of_config(alloc)));
    assert!(rt; outcome_of_preferred(alloc).is_consistent_with(outcome_of_preferred(alloc)));
    assert!(rt; outcome_of_opening(alloc).is_consistent_with(outcome_of_opening(alloc)));
    assert!(rt; outcome_of_replay(alloc).is_consistent_with(outcome_of_replay(alloc)));
}

#[test]
fn out_of_memory_then_shares_events_again(rt: HostRuntime) {
    let alloc = rt.alloc();
    assert!(rt; outcome_of_shared(alloc).is_consistent_with(outcome_of_shared(alloc)));
}

/// Whether it is a recording of three units.
fn is_recording(recording: &Recording) -> bool {
    recording.count() == 3 && recording.total() == 3600
}

/// The outcome of sharing a recording of three units.
pub fn outcome_of_recording(alloc: Global, state: &Snapshot) -> CallOutcome {
    let Some(recording) = state.recording(0) else {
        return CallOutcome::Wrong;
    };
    match recording.share(alloc) {
        Ok(shared) => CallOutcome::from_answer(is_recording(&shared)),
        Err(_) => CallOutcome::from_refusal(is_recording(recording)),
    }
}

#[test]
fn out_of_memory_then_shares_recordings_again(rt: HostRuntime) {
    let alloc = rt.alloc();
    let state = end_channel_with_retry(alloc, &THREE_UNITS).expect(&rt, "a channel");
    let first = outcome_of_recording(alloc, &state);
    assert!(rt; first.is_consistent_with(outcome_of_recording(alloc, &state)));
}

#[test]
fn out_of_memory_then_makes_channels_again(rt: HostRuntime) {
    let alloc = rt.alloc();
    let more = record_channel_with_retry(alloc, &THREE_UNITS).expect(&rt, "a channel");
    let ended = end_channel_with_retry(alloc, &THREE_UNITS).expect(&rt, "an ended channel");
    assert!(rt; more.version() == 4 && ended.version() == 5);
}
