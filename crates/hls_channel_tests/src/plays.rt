//! A run of events and requests: each request is answered from the state that it meets.

ghost use Rattle.std.specs.Prelude.{IfOk};
ghost use Rattle.hls_core_laws.specs.Moves.{IsFitting};
ghost use Rattle.hls_catchup.specs.Play.{IsRunTo};

use crate::requests::request;
use hls_catchup::{Action, CatchFault, Reply, play};
use hls_core::config::Config;
use hls_core::replay::apply_event;
use hls_core::snapshot::Snapshot;
use hls_core_laws::event::Event;
use hls_sample_channels::{SECOND, SampleFault, accept_event, begin_event, open_channel};
use std::alloc::Global;
use std::sync::Arc;

/// Actions, and the state to which their events lead.
#[derive(Drop)]
struct TestRun {
    actions: Vec<Action>,
    state: Arc<Snapshot>,
}

fn with_event(
    alloc: Global,
    config: &Config,
    run: TestRun,
    event: Event,
) -> Result<TestRun, SampleFault>
    requires is_run { IsRunTo config.now run.actions.items run.state.value }
    requires fits { IsFitting run.state.value event }
    ensures { IfOk result (λ run. IsRunTo config.now run.actions.items run.state.value) }
{
    let TestRun { mut actions, state } = run;
    let state = apply_event(alloc, state, 0, &event)?;
    actions.push(Action::Event(0, event))?;
    Ok(TestRun { actions, state })
}

/// Appends a request for the first four seconds.
fn with_request(config: &Config, run: TestRun) -> Result<TestRun, SampleFault>
    requires { IsRunTo config.now run.actions.items run.state.value }
    ensures { IfOk result (λ run. IsRunTo config.now run.actions.items run.state.value) }
{
    let TestRun { mut actions, state } = run;
    actions.push(Action::Ask(request(0, 4 * SECOND)))?;
    Ok(TestRun { actions, state })
}

/// Starts a run with only the init section.
fn begin_run(alloc: Global, config: &Config) -> Result<TestRun, SampleFault>
    ensures { IfOk result (λ run. IsRunTo config.now run.actions.items run.state.value) }
{
    let state = Snapshot::first(alloc, config.share()?)?;
    let run = TestRun {
        actions: Vec::new(alloc),
        state: Arc::new(alloc, state)?,
    };
    let event = begin_event(alloc, 0, b"vide", 90000)?;
    with_event(alloc, config, run, event)
}

/// Builds a run: a unit of four seconds, and a request for it before the end, after it, and once the unit is trimmed.
fn build_run(alloc: Global, config: &Config) -> Result<TestRun, SampleFault>
    ensures { IfOk result (λ run. IsRunTo config.now run.actions.items run.state.value) }
{
    let run = begin_run(alloc, config)?;
    let event = accept_event(alloc, &run.state, 0, 0, 360_000)?;
    let run = with_request(config, with_event(alloc, config, run, event)?)?;
    let run = with_event(alloc, config, run, Event::Finish { rendition: 0 })?;
    let run = with_request(config, run)?;
    let run = with_event(alloc, config, run, Event::Slide { count: 1 })?;
    let trim = Event::Trim {
        rendition: 0,
        floor: 1,
    };
    with_request(config, with_event(alloc, config, run, trim)?)
}

/// Returns the last state and the answers; `None` if an allocation failed.
fn play_run(alloc: Global) -> Option<(Arc<Snapshot>, Vec<Result<Reply, CatchFault>>)> {
    let config = open_channel(alloc).ok()?.config().share().ok()?;
    let run = build_run(alloc, &config).ok()?;
    play(alloc, config, &run.actions).ok()
}

#[test]
fn out_of_memory_changes_no_run(rt: HostRuntime) {
    let alloc = rt.alloc();
    let (state, answers) = match play_run(alloc) {
        Some(run) => run,
        None => play_run(alloc).expect(&rt, "a run"),
    };
    assert_eq!(rt; state.version(), 5);
    assert_eq!(rt; answers.len(), 3);
    let faults = [
        Some(CatchFault::NotYet),
        None,
        Some(CatchFault::BeforeRecording),
    ];
    for (answer, fault) in answers.iter().zip(&faults) {
        assert!(rt;
            answer.as_ref().err() == fault.as_ref(),
            "the fault of each request"
        );
    }
}
