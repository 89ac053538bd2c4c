//! The steps of a connection, from one state to the next. They make no system call, and wait for the keeper alone.

ghost use Rattle.hls_api.specs.declared.route.ServedChannel.{ServedChannel};
ghost use Rattle.std.specs.Prelude.{◌≡◌, ◌≢◌, ℕ, List, [], ◌<◌, ◌≤◌, Bool, Ok, Option, Some, None, true, false};
ghost use Rattle.httparse.specs.Grammar.{RequestHead};
ghost use Rattle.hls_http.specs.Heads.{ReadsLimitedHead};
ghost use Rattle.hls_api.specs.{Acts.ActsExtend, Exchanges.continue_prefix};
ghost use Rattle.hls_connection.specs.States.{BeginsBody, HasNoActs, IsHandled, Proceeds, StepStaysConsistent, ReportsProgress, acts_of_step, awaited_state, step_cut_short, step_without_output, steps_of};
ghost use Rattle.hls_connection.specs.{RequestContexts.IsContextOf, WithinBody.IsDiscardable, WithinBody.IsDiscarded, WithinBody.IsForTarget, WithinBody.ReceivesFrom};
ghost use Rattle.hls_connection.specs.Waits.{IsDeadline, may_wait};
ghost use Rattle.hls_api.specs.declared.route.Route.TheVariants as routes;
ghost use Rattle.hls_connection.specs.declared.state.ConnectionState.TheVariants as states;
ghost use Rattle.hls_connection.specs.declared.receive.BodyProgress.TheVariants as progresses;

use crate::act_log::ActLog;
use crate::events::{Observer, SessionEvent, report_some};
use crate::handlers::{ProgrammeStep, begin_programme, handle_request};
use crate::ingest_sink::IngestState;
use crate::keeper::Keeper;
use crate::receive::{BodyTarget, ReceivingBody};
use crate::request_context::{RequestContext, action_for, make_context};
use crate::respond::{refuse_head, refuse_request, respond};
use crate::state::{
    Awaited, AwaitedPlan, ConnectionState, Transition, WaitingResponse, WritingResponse,
};
use crate::wait::{PlanWait, awaited_job, awaited_programme};
use hls_api::ingest::IngestStop;
use hls_api::route::{Route, ServedChannel};
use hls_api::{ingest_refused_response, ingested_response};
use hls_boxes::UnitReader;
use hls_http::limits::MOST_DISCARDED;
use hls_http::response_parts::continue_text;
use hls_http::{
    BodyEnd, BodyFraming, HeadFault, HttpFault, InputBuffer, RequestAction, SessionEnd,
    announced_len, find_head, is_over, sends_continue,
};
use hls_io::SendBuffer;
use std::alloc::{AllocError, Global};
use std::mem;

/// The most parts of a response that are made each in a step of its own. The rest is made with its head.
const MOST_PARTS: u32 = 65536;

// ---- read head

/// No head is at the front yet: waits for more, or ends with the input.
fn await_head(empty: bool, ended: bool) -> Transition
    ensures { result ≡ step_without_output (awaited_state empty ended) false }
{
    let state = match (empty, ended) {
        (_, false) => ConnectionState::Head,
        (true, true) => ConnectionState::Ended(SessionEnd::Closed),
        (false, true) => ConnectionState::Ended(SessionEnd::CutShort),
    };
    Transition::without_output(state, false)
}

/// Receives a body next. 100 Continue is sent first if the client waits for it.
fn begin_body(
    context: RequestContext,
    route: Route,
    body: BodyFraming,
    target: BodyTarget,
    action: RequestAction,
) -> Transition
    ensures is { BeginsBody context route body target result }
    ensures first { (channel : ServedChannel) (h : RequestHead) → IsContextOf channel h context → result.output ≡ continue_prefix h action }
{
    let output = if sends_continue(&context.head, action) {
        SendBuffer::from_static(continue_text())
    } else {
        SendBuffer::new()
    };
    let receiving = ReceivingBody {
        context,
        route,
        body,
        target,
        taken: IngestState::new(),
    };
    Transition {
        state: ConnectionState::Receive(receiving),
        output,
        acts: ActLog::new(),
        more: true,
    }
}

/// Begins a request after its head.
fn start_request<O: Observer>(alloc: Global, observer: &O, context: RequestContext) -> Transition
    ensures consistent { (channel : ServedChannel) (ended : Bool) (before unread : List ℕ) (h : RequestHead) → ReadsLimitedHead before h unread → IsContextOf channel h context
        → StepStaysConsistent channel ended states.Head before result unread }
    ensures asks { HasNoActs states.Head result }
    ensures continues { result.more ≡ true }
    ensures few { steps_of result.state ≤ 65539 }
{
    let action = action_for(&context);
    match action {
        RequestAction::Refuse { fault, closing } => {
            refuse_request(alloc, observer, &context, fault, closing, ActLog::new())
        }
        RequestAction::Ingest(body) => match context.route {
            Some(Route::Ingest(encoder)) => {
                let reader = UnitReader::new(alloc);
                let target = BodyTarget::Encoder { encoder, reader };
                begin_body(context, Route::Ingest(encoder), body, target, action)
            }
            _ => unreachable!(),
        },
        RequestAction::Discard(body) => match context.route {
            Some(route) => {
                let room = MOST_DISCARDED - announced_len(body);
                begin_body(context, route, body, BodyTarget::Nothing { room }, action)
            }
            None => unreachable!(),
        },
    }
}

/// Looks for the next head.
fn step_head<O: Observer>(
    channel: ServedChannel,
    input: &mut InputBuffer,
    ended: bool,
    alloc: Global,
    observer: &O,
) -> Transition
    ensures consistent { StepStaysConsistent channel ended states.Head input.old.unread result input.new.unread }
    ensures room { input.new.room ≡ input.old.room }
    ensures asks { HasNoActs states.Head result }
    ensures turns { ReportsProgress ended states.Head input.old.unread result.state input.new.unread result.more }
{
    match find_head(input.unread()) {
        Ok((head, len)) => {
            input.consume(len);
            let context = make_context(alloc, input.last_taken(), channel, head);
            observer.report(&SessionEvent::HeadRead {
                method: context.head.method,
                route: context.route,
            });
            start_request(alloc, observer, context)
        }
        Err(HeadFault::Invalid) => refuse_head(alloc, observer, HttpFault::BadHead),
        Err(HeadFault::TooLarge) => refuse_head(alloc, observer, HttpFault::HeadTooLarge),
        Err(HeadFault::Partial) => await_head(input.unread().is_empty(), ended),
    }
}

// ---- handle

/// Handles a request for a programme whose body was discarded: its response is sent, or waits until the programme is planned.
fn step_programme<K: Keeper, O: Observer>(
    context: RequestContext,
    wait: PlanWait,
    mut acts: ActLog,
    keeper: &mut K,
    observer: &O,
) -> Transition
    requires { may_wait context.head.method ≡ true }
    ensures handles { acts ≡ [] → (channel : ServedChannel) (stream first unread : List ℕ) (last : BodyFraming) → IsDiscarded channel stream first context (routes.Programme wait.start wait.stop wait.file) last unread (Ok tt)
        → IsHandled channel stream first unread result }
    ensures act_steps { ActsExtend K.other_actors (K.known keeper.old) acts (K.known keeper.new) (acts_of_step result) }
    ensures proceeds { (now : Option ℕ) → IsDeadline now None (Some wait.deadline_ms) → Proceeds now 65538 result }
{
    let begun = begin_programme(
        keeper,
        &mut acts,
        context.head.client,
        context.query,
        wait.file,
    );
    let alloc = keeper.alloc();
    match begun {
        Ok(ProgrammeStep::Await(request)) => {
            let awaited = AwaitedPlan {
                start: wait.start,
                stop: wait.stop,
                file: wait.file,
                request,
            };
            let waiting = WaitingResponse {
                context,
                awaited: Awaited::Plan(awaited),
                acts,
                deadline_ms: wait.deadline_ms,
            };
            Transition::without_output(ConnectionState::Wait(waiting), true)
        }
        Ok(ProgrammeStep::Respond(response)) => {
            respond(alloc, observer, &context, Ok(response), false, acts)
        }
        Err(error) => respond(alloc, observer, &context, Err(error), false, acts),
    }
}

/// Handles a request whose body was discarded: its response is sent, made in parts first, or waits. None waits where no time is
/// given.
fn step_handle<K: Keeper, O: Observer>(
    context: RequestContext,
    route: Route,
    mut acts: ActLog,
    keeper: &mut K,
    now: Option<u64>,
    observer: &O,
) -> Transition
    requires { IsDiscardable route context }
    ensures handles { acts ≡ [] → (channel : ServedChannel) (stream first unread : List ℕ) (last : BodyFraming) → IsDiscarded channel stream first context route last unread (Ok tt)
        → IsHandled channel stream first unread result }
    ensures act_steps { ActsExtend K.other_actors (K.known keeper.old) acts (K.known keeper.new) (acts_of_step result) }
    ensures proceeds { Proceeds now 65538 result }
{
    if let Some((id, deadline_ms)) = awaited_job(&context, route, now) {
        let waiting = WaitingResponse {
            context,
            awaited: Awaited::Job(id),
            acts,
            deadline_ms,
        };
        return Transition::without_output(ConnectionState::Wait(waiting), true);
    }
    let plan_wait_ms = keeper.plan_wait_ms();
    if let Some(wait) = awaited_programme(&context, route, now, plan_wait_ms) {
        return step_programme(context, wait, acts, keeper, observer);
    }
    match handle_request(keeper, &mut acts, &context, route) {
        Ok(response) if !response.is_complete() => {
            let writing = WritingResponse {
                context,
                route,
                acts,
                response,
                parts: MOST_PARTS,
            };
            Transition::without_output(ConnectionState::Write(writing), true)
        }
        response => respond(keeper.alloc(), observer, &context, response, false, acts),
    }
}

// ---- after a body

/// Responds after a body that ended, or that isn't received any further for this reason.
pub(crate) fn end_body<K: Keeper, O: Observer>(
    receiving: &mut ReceivingBody,
    end: Result<(), IngestStop>,
    keeper: &mut K,
    now: Option<u64>,
    observer: &O,
) -> Transition
    requires { IsForTarget receiving.old.target receiving.old.route receiving.old.context }
    ensures consistent { (channel : ServedChannel) (ended : Bool) (old : ReceivingBody) (before unread : List ℕ) → ReceivesFrom old before receiving.old unread (progresses.Done end)
        → StepStaysConsistent channel ended (states.Receive old) before result unread }
    ensures act_steps { ActsExtend K.other_actors (K.known keeper.old) receiving.old.taken.acts (K.known keeper.new) (acts_of_step result) }
    ensures proceeds { Proceeds now 65538 result }
{
    report_some(observer, receiving.ingest_event(end));
    let (alloc, counts) = (keeper.alloc(), receiving.taken.counts);
    let acts = mem::replace(&mut receiving.taken.acts, ActLog::new());
    let context = &receiving.context;
    match end {
        Ok(()) => match &receiving.target {
            BodyTarget::Nothing { .. } => {
                step_handle(*context, receiving.route, acts, keeper, now, observer)
            }
            BodyTarget::Encoder { encoder, .. } => {
                let response = ingested_response(alloc, encoder.mending.is_some(), counts);
                respond(alloc, observer, context, response, false, acts)
            }
        },
        Err(IngestStop::Refused(fault)) => {
            let is_mended = receiving.target.is_mended();
            let response = ingest_refused_response(alloc, fault, is_mended, counts);
            respond(
                alloc,
                observer,
                context,
                response,
                !is_over(receiving.body),
                acts,
            )
        }
        Err(IngestStop::Memory) => respond(alloc, observer, context, Err(AllocError), true, acts),
        Err(IngestStop::Stopped(_)) => {
            refuse_request(alloc, observer, context, HttpFault::BadFraming, true, acts)
        }
    }
}

/// Refuses a request whose body announces more than is discarded.
pub(crate) fn end_large_body<O: Observer>(
    alloc: Global,
    receiving: &mut ReceivingBody,
    observer: &O,
) -> Transition
    ensures consistent { (channel : ServedChannel) (ended : Bool) (old : ReceivingBody) (before unread : List ℕ) → ReceivesFrom old before receiving.old unread progresses.TooLarge
        → StepStaysConsistent channel ended (states.Receive old) before result unread }
    ensures acts { acts_of_step result ≡ receiving.old.taken.acts }
    ensures proceeds { Proceeds None 1 result }
{
    let acts = mem::replace(&mut receiving.taken.acts, ActLog::new());
    refuse_request(
        alloc,
        observer,
        &receiving.context,
        HttpFault::TooLarge,
        true,
        acts,
    )
}

/// Ends a connection whose input ends within a body.
pub(crate) fn cut_body_short<O: Observer>(receiving: &mut ReceivingBody, observer: &O) -> Transition
    ensures { result ≡ step_cut_short receiving.old.taken.acts }
{
    let end = Err(IngestStop::Stopped(BodyEnd::CutShort));
    report_some(observer, receiving.ingest_event(end));
    Transition {
        state: ConnectionState::Ended(SessionEnd::CutShort),
        output: SendBuffer::new(),
        acts: mem::replace(&mut receiving.taken.acts, ActLog::new()),
        more: false,
    }
}

// ---- respond

/// Makes one more part of a response. It is sent if none is left, if there is no memory for one, or if enough were made.
fn step_writing<O: Observer>(writing: WritingResponse, alloc: Global, observer: &O) -> Transition
    ensures consistent { (channel : ServedChannel) (ended : Bool) (unread : List ℕ) → StepStaysConsistent channel ended (states.Write writing) unread result unread }
    ensures asks { HasNoActs (states.Write writing) result }
    ensures continues { result.more ≡ true }
    ensures lowers { steps_of result.state < steps_of (states.Write writing) }
{
    let WritingResponse {
        context,
        route,
        acts,
        response,
        parts,
    } = writing;
    if parts == 0 || response.is_complete() {
        return respond(alloc, observer, &context, Ok(response), false, acts);
    }
    match response.write_some(alloc) {
        Ok(response) => {
            let writing = WritingResponse {
                context,
                route,
                acts,
                response,
                parts: parts - 1,
            };
            Transition::without_output(ConnectionState::Write(writing), true)
        }
        Err(error) => respond(alloc, observer, &context, Err(error), false, acts),
    }
}

/// One step from a state in which no body is received and no response waits, where nothing waits to be sent.
pub(crate) fn step_state<O: Observer>(
    state: ConnectionState,
    channel: ServedChannel,
    input: &mut InputBuffer,
    ended: bool,
    alloc: Global,
    observer: &O,
) -> Transition
    requires receives { (receiving : ReceivingBody) → state ≢ states.Receive receiving }
    requires waits { (waiting : WaitingResponse) → state ≢ states.Wait waiting }
    ensures consistent { StepStaysConsistent channel ended state input.old.unread result input.new.unread }
    ensures room { input.new.room ≡ input.old.room }
    ensures asks { HasNoActs state result }
    ensures turns { ReportsProgress ended state input.old.unread result.state input.new.unread result.more }
{
    match state {
        ConnectionState::Head => step_head(channel, input, ended, alloc, observer),
        ConnectionState::Receive(_) | ConnectionState::Wait(_) => unreachable!(),
        ConnectionState::Write(writing) => step_writing(writing, alloc, observer),
        ConnectionState::Ended(end) => {
            Transition::without_output(ConnectionState::Ended(end), false)
        }
    }
}
