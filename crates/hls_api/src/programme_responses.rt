//! Responses with a programme by its address: its playlists and its certificate, of the texts that a planner made.

ghost use Rattle.std.specs.Prelude.{◌≡◌, Err, IfOk, MatchResult, Ok, Some};
ghost use Rattle.hls_catchup.specs.Canonical.{IsCanonicalOrFault};
ghost use Rattle.hls_catchup.specs.Replies.{IsAnswered, ReplyData};
ghost use Rattle.hls_api.specs.Programmes as spec;

use crate::catchup_params::CatchupParams;
use crate::catchup_query::{CatchupQuery, QueryFault};
use crate::job_responses::query_response;
use crate::playlist_responses::shared_playlist_response;
use crate::query::{make_request, resolve_query};
use crate::response::Response;
use crate::route::ProgrammeFile;
use crate::text_responses::{fault_response, refusal_response, shared_text_response};
use hls_catchup::{CatchFault, Request, canonical_request};
use hls_core::snapshot::Snapshot;
use hls_http::fault::HttpFault;
use hls_http::refusal_body;
use hls_http::response_parts::{CachePolicy, ExtraField, Status};
use hls_jobs::{FoundPlan, ProgrammeTexts};
use hls_places::time_of;
use std::alloc::{AllocError, Global};

/// What a request for a programme comes to in a snapshot.
#[derive(Drop)]
pub enum ProgrammeStart {
    /// The snapshot has the programme of this canonical request.
    Planned(Request),
    /// It doesn't: the response says why.
    Refused(Response),
}

/// A file of a programme: a playlist, which is 404 if there is no plan, or the certificate.
fn programme_file_response(
    alloc: Global,
    texts: &ProgrammeTexts,
    file: ProgrammeFile,
) -> Result<Response, AllocError>
    ensures { (reply : ReplyData) → texts.now ≡ Some reply → IfOk result (λ a. a ≡ spec.programme_file_answer file reply) }
{
    match file {
        ProgrammeFile::Master => shared_playlist_response(alloc, texts.master()),
        ProgrammeFile::List(rendition) => shared_playlist_response(alloc, texts.list(rendition)),
        ProgrammeFile::Certificate => {
            let text = texts.certificate().clone()?;
            Ok(shared_text_response(Status::Done, text))
        }
    }
}

/// The response while a programme isn't planned.
fn busy_response(alloc: Global) -> Result<Response, AllocError>
    ensures { IfOk result (λ a. a ≡ spec.busy_answer) }
{
    let body = refusal_body(alloc, "Busy")?;
    let busy = Response::from_text(Status::Unavailable, ExtraField::Retry(1), body);
    Ok(busy.with_policy(CachePolicy::Brief))
}

/// The response with a file of a programme, as a table of plans has it: 503 if there are no texts yet.
pub fn found_plan_response(
    alloc: Global,
    found: &FoundPlan,
    file: ProgrammeFile,
) -> Result<Response, AllocError>
    ensures { IfOk result (λ a. spec.ShowsFound file found.now a) }
{
    match found {
        FoundPlan::Ready(texts) => {
            let made = programme_file_response(alloc, texts, file)?;
            Ok(made.with_policy(CachePolicy::Brief))
        }
        FoundPlan::Unfinished | FoundPlan::Missing => busy_response(alloc),
    }
}

/// Whether some place was at or before a time, in microseconds, whatever was trimmed since.
pub(crate) fn has_begun_by(snapshot: &Snapshot, us: u64) -> bool
    ensures { result ≡ spec.has_begun_by snapshot.now us }
{
    match snapshot.places().get(0) {
        Some(first) => time_of(first) <= us,
        None => false,
    }
}

/// The response for a programme that begins before all kept places: 410 if its beginning is trimmed, else 404 with the refusal's name.
fn early_response(
    alloc: Global,
    snapshot: &Snapshot,
    request: Request,
) -> Result<Response, AllocError>
    ensures { IfOk result (λ a. a ≡ spec.programme_refusal snapshot.now request CatchFault.BeforeRecording) }
{
    if has_begun_by(snapshot, request.start_us) {
        return fault_response(alloc, HttpFault::Gone);
    }
    refusal_response(alloc, Status::NotFound, CatchFault::BeforeRecording.name())
}

/// Why a snapshot doesn't have a programme: 410 if its beginning is trimmed, else 404 with the refusal's name.
fn programme_refusal_response(
    alloc: Global,
    snapshot: &Snapshot,
    request: Request,
    fault: CatchFault,
) -> Result<Response, AllocError>
    ensures { IfOk result (λ a. a ≡ spec.programme_refusal snapshot.now request fault) }
{
    match fault {
        CatchFault::BeforeRecording => early_response(alloc, snapshot, request),
        _ => refusal_response(alloc, Status::NotFound, fault.name()),
    }
}

/// Returns the canonical request, if a snapshot has the programme, whether that has a plan or not, or why the snapshot refuses the request.
/// Plans nothing, and copies no place.
fn find_canonical(
    snapshot: &Snapshot,
    request: Request,
) -> Result<Result<Request, CatchFault>, AllocError>
    ensures { IfOk result (λ found. MatchResult found (λ canonical. IsCanonicalOrFault snapshot.now request (Ok canonical)) (λ fault. IsAnswered snapshot.now request (Some (Err fault)))) }
{
    match canonical_request(snapshot, request) {
        Ok(canonical) => Ok(Ok(canonical)),
        Err(CatchFault::Memory) => Err(AllocError),
        Err(fault) => Ok(Err(fault)),
    }
}

/// Returns the canonical request, if a snapshot has the programme, or else the response that refuses it.
fn start_request(
    alloc: Global,
    snapshot: &Snapshot,
    request: Request,
) -> Result<ProgrammeStart, AllocError>
    ensures { IfOk result (λ start. spec.StartsRequest snapshot.now request start) }
{
    match find_canonical(snapshot, request)? {
        Ok(canonical) => Ok(ProgrammeStart::Planned(canonical)),
        Err(fault) => {
            let made = programme_refusal_response(alloc, snapshot, request, fault)?;
            Ok(ProgrammeStart::Refused(made.with_policy(CachePolicy::Brief)))
        }
    }
}

/// Returns the canonical request by what a client asks for, if the channel has its times and a snapshot its programme, or else the response that
/// refuses it.
fn start_resolved(
    alloc: Global,
    snapshot: &Snapshot,
    resolved: Result<CatchupParams, QueryFault>,
) -> Result<ProgrammeStart, AllocError>
    ensures { IfOk result (λ start. spec.StartsParams snapshot.now resolved start) }
{
    match resolved {
        Ok(params) => {
            let request = make_request(snapshot, params);
            start_request(alloc, snapshot, request)
        }
        Err(fault) => {
            let made = query_response(alloc, fault)?;
            Ok(ProgrammeStart::Refused(made.with_policy(CachePolicy::Brief)))
        }
    }
}

/// Returns the canonical request of a query, if a snapshot has its programme. Otherwise the response is 410 if the programme's beginning is trimmed,
/// 404 with the refusal's name if there is no such programme, and 400 for an instant that the channel doesn't have. Plans nothing.
pub fn start_programme(
    alloc: Global,
    snapshot: &Snapshot,
    query: CatchupQuery,
) -> Result<ProgrammeStart, AllocError>
    ensures { IfOk result (λ begun. spec.StartsProgramme snapshot.now query begun) }
{
    let resolved = resolve_query(snapshot.config().epoch(), query);
    start_resolved(alloc, snapshot, resolved)
}

/// The response to a query that is invalid in any channel.
pub fn invalid_programme_response(alloc: Global) -> Result<Response, AllocError>
    ensures { IfOk result (λ a. a ≡ spec.invalid_answer) }
{
    Ok(query_response(alloc, QueryFault::BadQuery)?.with_policy(CachePolicy::Brief))
}
