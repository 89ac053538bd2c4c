//! Handlers: from a request whose body was discarded, and the channel's keeper, to a response.

ghost use Rattle.std.specs.Prelude.{◌≡◌, Some, None, IfOk, true, false};
ghost use Rattle.hls_api.specs.Exchanges.{AddsCatchupJob, HandlesCatchup, HandlesProgramme, FinishesRendition, IsForPlayer, IsServedBy, ServesJob, shown_if, shown_to_player};
ghost use Rattle.hls_api.specs.{Exchanges.IsJobResponse, Acts.ActsExtend};
ghost use Rattle.hls_connection.specs.Plans.{BeginsProgramme};
ghost use Rattle.hls_connection.specs.RequestContexts.{IsResponse, IsMadeResponse, RespondsBy, ForContext, ForContextAt, ForQuery};
ghost use Rattle.hls_api.specs.Routes as spec;
ghost use Rattle.hls_api.specs.Exchanges as exchange;

use crate::act_log::{ActLog, add_job, look, remove_job, submit};
use crate::keeper::Keeper;
use crate::request_context::{QueryResult, RequestContext};
use hls_api::catchup_query::{CatchupQuery, QueryFault};
use hls_api::parse_route::{allows_method, is_head_request, job_at, removes_job};
use hls_api::route::{ProgrammeFile, Route};
use hls_api::{
    ProgrammeStart, Response, SegmentSpan, added_response, fault_response, file_response,
    finish_response, found_plan_response, init_response, invalid_programme_response, job_response,
    live_master_response, make_request, media_response, method_not_allowed_response,
    path_master_response, query_response, recent_playlist_response, removed_response,
    resolve_query, run_response, segment_response, since_response, status_response,
};
use hls_catchup::{Job, JobFault, Request};
use hls_core::snapshot::Snapshot;
use hls_core_laws::event::Event;
use hls_core_laws::refusal::Refusal;
use hls_http::HttpFault;
use hls_http::range_spec::RangeSpec;
use hls_jobs::{FoundPlan, served_version};
use hls_playlists::MediaUris;
use std::alloc::{AllocError, Global};
use std::sync::Arc;

/// Ends a rendition.
fn finish_rendition<K: Keeper>(
    keeper: &mut K,
    acts: &mut ActLog,
    rendition: usize,
) -> Result<Response, AllocError>
    ensures act_steps { ActsExtend K.other_actors (K.known keeper.old) acts.old (K.known keeper.new) acts.new }
    ensures answers { RespondsBy (λ a b. FinishesRendition a rendition b) acts.old acts.new result }
{
    match submit(keeper, acts, Event::Finish { rendition }) {
        Ok(done) => finish_response(keeper.alloc(), Ok(done)),
        Err(Refusal::Memory) => Err(AllocError),
        Err(refusal) => finish_response(keeper.alloc(), Err(refusal)),
    }
}

/// HEAD is answered as GET without a Range (RFC 9110 9.3.2).
fn requested_range(context: &RequestContext) -> RangeSpec
    ensures { ForContext context.now (λ h q. result ≡ exchange.range_for (spec.is_to_head q.method) q.range) }
{
    if is_head_request(context.head.method) {
        RangeSpec::All
    } else {
        context.head.range
    }
}

/// Adds the job of a query for the current state, or responds with the query's fault.
fn add_resolved_job<K: Keeper>(
    keeper: &mut K,
    acts: &mut ActLog,
    query: CatchupQuery,
) -> Result<Response, AllocError>
    ensures act_steps { ActsExtend K.other_actors (K.known keeper.old) acts.old (K.known keeper.new) acts.new }
    ensures answers { IsMadeResponse (AddsCatchupJob query acts.old acts.new) acts.old acts.new result }
{
    let state = look(keeper, acts)?;
    match resolve_query(state.config().epoch(), query) {
        Ok(params) => {
            let version = served_version(&state);
            let request = make_request(&state, params);
            let added = add_job(keeper, acts, state, request);
            added_response(keeper.alloc(), version, added)
        }
        Err(fault) => query_response(keeper.alloc(), fault),
    }
}

/// Responds to a catch-up request, whose query was read with its head.
fn add_catchup_job<K: Keeper>(
    keeper: &mut K,
    acts: &mut ActLog,
    query: QueryResult,
) -> Result<Response, AllocError>
    ensures act_steps { ActsExtend K.other_actors (K.known keeper.old) acts.old (K.known keeper.new) acts.new }
    ensures answers { ForQuery query (λ parsed_query. RespondsBy (HandlesCatchup parsed_query) acts.old acts.new result) }
{
    match query {
        Ok(Some(query)) => add_resolved_job(keeper, acts, query),
        Ok(None) => query_response(keeper.alloc(), QueryFault::BadQuery),
        Err(error) => Err(error),
    }
}

/// Responds about a job that exists: with its status or a file, or that its route doesn't have the method.
fn show_job(
    alloc: Global,
    context: &RequestContext,
    route: Route,
    id: u64,
    job: Job,
) -> Result<Response, AllocError>
    requires { exchange.job_at route ≡ Some id }
    ensures { ForContext context.now (λ h q. IfOk result (λ a. Some a ≡ shown_if q route (spec.allows route q.method) job)) }
{
    if !allows_method(route, context.head.method) {
        return method_not_allowed_response(alloc, route);
    }
    match route {
        Route::Job(_) => job_response(alloc, &job),
        Route::JobFile(_, file) => file_response(alloc, job, file, requested_range(context)),
        _ => unreachable!(),
    }
}

/// Responds with a job as it was found; an unknown one is 404.
pub(crate) fn found_job_response(
    alloc: Global,
    context: &RequestContext,
    route: Route,
    id: u64,
    found: Result<Job, JobFault>,
) -> Result<Response, AllocError>
    requires { exchange.job_at route ≡ Some id }
    ensures { ForContext context.now (λ h q. IfOk result (IsJobResponse found (shown_if q route (spec.allows route q.method)))) }
{
    match found {
        Ok(job) => show_job(alloc, context, route, id, job),
        Err(JobFault::UnknownJob) => fault_response(alloc, HttpFault::NotFound),
        Err(_) => Err(AllocError),
    }
}

/// Handles a route of a job, which may be removed. An unknown job comes before a method that the route doesn't have.
fn handle_job<K: Keeper>(
    keeper: &mut K,
    acts: &mut ActLog,
    context: &RequestContext,
    route: Route,
    id: u64,
) -> Result<Response, AllocError>
    requires { exchange.job_at route ≡ Some id }
    ensures act_steps { ActsExtend K.other_actors (K.known keeper.old) acts.old (K.known keeper.new) acts.new }
    ensures answers { ForContext context.now (λ h q. RespondsBy (λ a b answer. ServesJob q route id a answer b (spec.removes_job route q.method)) acts.old acts.new result) }
{
    if removes_job(route, context.head.method) {
        let removed = remove_job(keeper, acts, id);
        return removed_response(keeper.alloc(), removed);
    }
    let found = keeper.get_job(id);
    found_job_response(keeper.alloc(), context, route, id, found)
}

/// What a request for a programme leads to.
#[derive(Drop)]
pub(crate) enum ProgrammeStep {
    /// Its response.
    Respond(Response),
    /// Its plan, for this request, isn't finished.
    Await(Request),
}

/// Looks, and returns the response to a client's query for a programme, unless its plan is unfinished. It is planned if nothing is known of
/// it.
fn begin_query<K: Keeper>(
    keeper: &mut K,
    acts: &mut ActLog,
    client: u64,
    query: CatchupQuery,
    file: ProgrammeFile,
) -> Result<ProgrammeStep, AllocError>
    ensures act_steps { ActsExtend K.other_actors (K.known keeper.old) acts.old (K.known keeper.new) acts.new }
    ensures begins { BeginsProgramme client (Some query) file acts.old acts.new result }
{
    let state = look(keeper, acts)?;
    let alloc = keeper.alloc();
    let request = match keeper.start_programme(&state, query)? {
        ProgrammeStart::Planned(request) => request,
        ProgrammeStart::Refused(response) => return Ok(ProgrammeStep::Respond(response)),
    };
    match keeper.find_or_plan(&state, request, client)? {
        FoundPlan::Unfinished => Ok(ProgrammeStep::Await(request)),
        found => Ok(ProgrammeStep::Respond(found_plan_response(alloc, &found, file)?)),
    }
}

/// Begins to respond to a request for a programme, whose query was read with its head. An invalid one needs no look.
pub(crate) fn begin_programme<K: Keeper>(
    keeper: &mut K,
    acts: &mut ActLog,
    client: u64,
    query: QueryResult,
    file: ProgrammeFile,
) -> Result<ProgrammeStep, AllocError>
    ensures act_steps { ActsExtend K.other_actors (K.known keeper.old) acts.old (K.known keeper.new) acts.new }
    ensures begins { ForQuery query (λ said. BeginsProgramme client said file acts.old acts.new result) }
{
    match query? {
        Some(query) => begin_query(keeper, acts, client, query, file),
        None => Ok(ProgrammeStep::Respond(invalid_programme_response(keeper.alloc())?)),
    }
}

/// Responds to a request for a programme at once: 503 if its plan is unfinished.
fn show_programme<K: Keeper>(
    keeper: &mut K,
    acts: &mut ActLog,
    client: u64,
    query: QueryResult,
    file: ProgrammeFile,
) -> Result<Response, AllocError>
    ensures act_steps { ActsExtend K.other_actors (K.known keeper.old) acts.old (K.known keeper.new) acts.new }
    ensures answers { ForQuery query (λ said. RespondsBy (HandlesProgramme client said file) acts.old acts.new result) }
{
    match begin_programme(keeper, acts, client, query, file)? {
        ProgrammeStep::Respond(response) => Ok(response),
        ProgrammeStep::Await(_) => {
            found_plan_response(keeper.alloc(), &FoundPlan::Unfinished, file)
        }
    }
}

/// Handles a route that is no job's, by one of its methods: ends a rendition, adds a job, or responds from one snapshot.
fn handle_route<K: Keeper>(
    keeper: &mut K,
    acts: &mut ActLog,
    context: &RequestContext,
    route: Route,
) -> Result<Response, AllocError>
    requires of_none { exchange.job_at route ≡ None }
    requires discarded { spec.takes_ingest (Some route) context.now.head.method ≡ false }
    requires allowed { spec.allows route context.now.head.method ≡ true }
    ensures act_steps { ActsExtend K.other_actors (K.known keeper.old) acts.old (K.known keeper.new) acts.new }
    ensures answers { ForContextAt route context.now
        (λ h q. RespondsBy (λ a b answer. IsServedBy q route a answer b) acts.old acts.new result) }
{
    match route {
        Route::Finish(rendition) => return finish_rendition(keeper, acts, rendition),
        Route::CatchUp => return add_catchup_job(keeper, acts, context.query),
        Route::Programme(_, _, file) => {
            return show_programme(keeper, acts, context.head.client, context.query, file);
        }
        _ => {}
    }
    let state = look(keeper, acts)?;
    match route {
        Route::LiveMaster => live_master_response(keeper.alloc(), &state),
        Route::LiveList(rendition) => {
            keeper.live_playlist_response(state, rendition, MediaUris::Ranges)
        }
        Route::Media(rendition) => media_response(
            keeper.alloc(),
            state,
            rendition,
            requested_range(context),
        ),
        Route::Status => {
            let jobs = keeper.job_count();
            status_response(keeper.alloc(), &state, jobs)
        }
        Route::Metrics => keeper.metrics_response(&state),
        _ => show_player(keeper, context, route, state),
    }
}

/// What players load: a playlist by paths, an init section, or a segment.
fn show_player<K: Keeper>(
    keeper: &mut K,
    context: &RequestContext,
    route: Route,
    state: Arc<Snapshot>,
) -> Result<Response, AllocError>
    requires state { state.value ≡ (K.known keeper.old).seen }
    requires route { IsForPlayer route }
    ensures known { K.known keeper.new ≡ K.known keeper.old }
    ensures answers { ForContextAt route context.now (λ h q. IfOk result (λ a. shown_to_player q route state.value ≡ Some a)) }
{
    let alloc = keeper.alloc();
    match route {
        Route::PathMaster => path_master_response(alloc, &state),
        Route::PathList(rendition) => {
            keeper.live_playlist_response(state, rendition, MediaUris::Paths)
        }
        Route::RecentList(rendition, us) => recent_playlist_response(alloc, state, rendition, us),
        Route::Run => run_response(alloc, &state),
        Route::InitSection(run, rendition) => init_response(
            alloc,
            state,
            run,
            rendition,
            requested_range(context),
        ),
        Route::Segment(run, rendition, first, last) => {
            let span = SegmentSpan { first, last };
            segment_response(alloc, state, run, rendition, span, requested_range(context))
        }
        Route::Since(start, file) => since_response(alloc, state, start, file),
        _ => unreachable!(),
    }
}

/// Returns the response to a request whose body was discarded, or an allocation failure. An unknown job comes before a method that the
/// route doesn't have.
pub fn handle_request<K: Keeper>(
    keeper: &mut K,
    acts: &mut ActLog,
    context: &RequestContext,
    route: Route,
) -> Result<Response, AllocError>
    requires { spec.takes_ingest (Some route) context.now.head.method ≡ false }
    ensures act_steps { ActsExtend K.other_actors (K.known keeper.old) acts.old (K.known keeper.new) acts.new }
    ensures answers { ForContextAt route context.now
        (λ h q. RespondsBy (IsResponse q route) acts.old acts.new result) }
{
    if let Some(id) = job_at(route) {
        return handle_job(keeper, acts, context, route, id);
    }
    if !allows_method(route, context.head.method) {
        return method_not_allowed_response(keeper.alloc(), route);
    }
    handle_route(keeper, acts, context, route)
}
