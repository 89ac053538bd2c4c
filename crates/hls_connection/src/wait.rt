//! Responses that wait: for a job to be finished, which a client asks for by a Prefer field (RFC 7240 4.3), or for a programme to be planned.

ghost use Rattle.hls_api.specs.declared.route.ServedChannel.{ServedChannel};
ghost use Rattle.std.specs.Prelude.{◌≡◌, ◌&&◌, ℕ, List, Bool, None, IfOk, IfSome};
ghost use Rattle.hls_connection.specs.RequestContexts.{ForContext};
ghost use Rattle.hls_connection.specs.States.{SendsResponse, StepStaysConsistent};
ghost use Rattle.hls_connection.specs.Waits.{AnswersWait, IsFound, ShowsAwaited, awaited_by, deadline_by, has_time, is_unfinished, may_wait, plan_wait_by};
ghost use Rattle.hls_connection.specs.declared.state.ConnectionState.TheVariants as states;

use crate::act_log::ActLog;
use crate::events::Observer;
use crate::handlers::found_job_response;
use crate::keeper::Keeper;
use crate::request_context::RequestContext;
use crate::respond::respond;
use crate::state::{Awaited, Transition, WaitingResponse};
use hls_api::catchup_query::TimePoint;
use hls_api::route::{ProgrammeFile, Route};
use hls_api::{Response, found_plan_response};
use hls_catchup::{Job, JobFault};
use hls_http::Method;
use hls_jobs::FoundPlan;
use std::alloc::{AllocError, Global};
use std::mem;

/// The longest that a response waits, in seconds, whatever the client prefers and the server allows. No byte is sent meanwhile, and
/// clients and proxies give up a response that stays silent, nginx by default after 60 s.
const LONGEST_WAIT_S: u64 = 30;

/// A request for a programme whose response may wait, and until when.
#[derive(Clone, Copy)]
pub(crate) struct PlanWait {
    pub start: TimePoint,
    pub stop: TimePoint,
    pub file: ProgrammeFile,
    pub deadline_ms: u64,
}

/// What was found of what a response waits for.
#[derive(Drop)]
pub(crate) enum Found {
    Job(Result<Job, JobFault>),
    Plan(Result<FoundPlan, AllocError>),
}

/// Whether a method's response may wait. HEAD waits as GET does (RFC 9110 9.3.2).
fn may_wait(method: Method) -> bool
    ensures { result ≡ may_wait method }
{
    matches!(method, Method::Get | Method::Head)
}

/// Until when a response waits, if it does: for as long as its head asks for, within the limit. None waits where no time is given.
fn wait_deadline(context: &RequestContext, now: Option<u64>) -> Option<u64>
    ensures { result ≡ deadline_by context.now.head.method context.now.head.wait now }
{
    let (Some(seconds), Some(now)) = (context.head.wait, now) else {
        return None;
    };
    if !may_wait(context.head.method) {
        return None;
    }
    Some(now.saturating_add(seconds.min(LONGEST_WAIT_S) * 1000))
}

/// The job for which a request's response waits, and until when: only the response that shows a job waits.
pub(crate) fn awaited_job(
    context: &RequestContext,
    route: Route,
    now: Option<u64>,
) -> Option<(u64, u64)>
    ensures { result ≡ awaited_by route (deadline_by context.now.head.method context.now.head.wait now) }
{
    match route {
        Route::Job(id) => match wait_deadline(context, now) {
            Some(deadline_ms) => Some((id, deadline_ms)),
            None => None,
        },
        _ => None,
    }
}

/// The programme whose plan a request's response may wait for, and until when: for `wait_ms` milliseconds, within the limit. None
/// waits where no time is given.
pub(crate) fn awaited_programme(
    context: &RequestContext,
    route: Route,
    now: Option<u64>,
    wait_ms: u64,
) -> Option<PlanWait>
    ensures { result ≡ plan_wait_by route context.now.head.method now wait_ms }
{
    let (Route::Programme(start, stop, file), Some(now)) = (route, now) else {
        return None;
    };
    if !may_wait(context.head.method) {
        return None;
    }
    Some(PlanWait {
        start,
        stop,
        file,
        deadline_ms: now.saturating_add(wait_ms.min(LONGEST_WAIT_S * 1000)),
    })
}

/// Whether a deadline is still to come. Without a time it isn't.
fn has_time(now: Option<u64>, deadline_ms: u64) -> bool
    ensures { result ≡ has_time now deadline_ms }
{
    matches!(now, Some(now) if now < deadline_ms)
}

/// Whether a job or a plan was found that still waits for a planner, or runs.
fn is_unfinished(found: &Found) -> bool
    ensures { result ≡ is_unfinished found.now }
{
    matches!(
        found,
        Found::Job(Ok(Job::Waiting | Job::Running)) | Found::Plan(Ok(FoundPlan::Unfinished))
    )
}

/// Whether a response continues to wait: what it waits for is unfinished, and its deadline is still to come.
fn waits_on(now: Option<u64>, deadline_ms: u64, found: &Found) -> bool
    ensures { result ≡ (has_time now deadline_ms && is_unfinished found.now) }
{
    has_time(now, deadline_ms) && is_unfinished(found)
}

/// Looks for what a response waits for.
fn find_awaited<K: Keeper>(keeper: &K, awaited: Awaited) -> Found
    ensures { IsFound awaited result }
{
    match awaited {
        Awaited::Job(id) => Found::Job(keeper.get_job(id)),
        Awaited::Plan(plan) => Found::Plan(keeper.find_plan(plan.request)),
    }
}

/// The response that shows what a response waited for as it was found.
fn awaited_response(
    alloc: Global,
    context: &RequestContext,
    awaited: Awaited,
    found: Found,
) -> Result<Response, AllocError>
    requires { IsFound awaited found }
    ensures { ForContext context.now (λ h q. IfOk result (ShowsAwaited awaited q found)) }
{
    match (awaited, found) {
        (Awaited::Job(id), Found::Job(found)) => {
            found_job_response(alloc, context, Route::Job(id), id, found)
        }
        (Awaited::Plan(plan), Found::Plan(found)) => {
            found_plan_response(alloc, &found?, plan.file)
        }
        _ => unreachable!(),
    }
}

/// Answers a request whose response waits, unless what it waits for is unfinished and its deadline is still to come. The answer shows the
/// job or the plan as it was found here.
pub(crate) fn step_waiting<K: Keeper, O: Observer>(
    waiting: &mut WaitingResponse,
    now: Option<u64>,
    keeper: &K,
    observer: &O,
) -> Option<Transition>
    ensures answers { AnswersWait now waiting.old result }
    ensures same { result ≡ None → waiting.new ≡ waiting.old }
    ensures consistent { IfSome result (λ step. (channel : ServedChannel) (ended : Bool) (unread : List ℕ) → StepStaysConsistent channel ended (states.Wait waiting.old) unread step unread) }
    ensures sends { IfSome result (SendsResponse waiting.old.acts) }
{
    let found = find_awaited(keeper, waiting.awaited);
    if waits_on(now, waiting.deadline_ms, &found) {
        return None;
    }
    let alloc = keeper.alloc();
    let acts = mem::replace(&mut waiting.acts, ActLog::new());
    let context = &waiting.context;
    let response = awaited_response(alloc, context, waiting.awaited, found);
    Some(respond(alloc, observer, context, response, false, acts))
}
