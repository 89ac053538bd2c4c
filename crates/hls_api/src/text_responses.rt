//! Responses with a short text: refusals, and what was done.

ghost use Rattle.std.specs.Prelude.{◌≡◌, ◌++◌, ◌∷◌, codes, string_bytes, IfOk};
ghost use Rattle.hls_http.specs.ResponseText.{refusal_body};
ghost use Rattle.hls_core.specs.FaultName.{name_of};
ghost use Rattle.hls_api.specs.{Faults.{core_status, status_of}, Ingest.{counts_before, counts_text, mended_counts_text}, Responses.text_answer, Routes.methods_of};
ghost use Rattle.hls_core_laws.specs.RefusalName as core_names;
ghost use Rattle.hls_api.specs.Responses as spec;

use crate::fault::{refusal_status, stream_fault_status};
use crate::ingest::IngestCounts;
use crate::response::Response;
use crate::response_content::ResponseContent;
use crate::route::Route;
use bytes::Bytes;
use hls_core::StreamFault;
use hls_core_laws::done::Done;
use hls_core_laws::refusal::Refusal;
use hls_http::fault::HttpFault;
use hls_http::refusal_body;
use hls_http::response_parts::{ContentType, ExtraField, Status};
use std::alloc::{AllocError, Global};

/// A response whose body is a text.
pub(crate) fn text_response(status: Status, body: Vec<u8>) -> Response
    ensures { result ≡ text_answer status body.items }
{
    Response::from_text(status, ExtraField::Nothing, body)
}

/// A response whose body is a text that is shared.
pub(crate) fn shared_text_response(status: Status, body: Bytes) -> Response
    ensures { result ≡ text_answer status body }
{
    Response::from_content(
        status,
        ContentType::Text,
        ExtraField::Nothing,
        ResponseContent::from_shared(body),
    )
}

/// A refusal by its name.
pub(crate) fn refusal_response(
    alloc: Global,
    status: Status,
    name: &str,
) -> Result<Response, AllocError>
    ensures { IfOk result (λ a. a ≡ text_answer status (refusal_body name.now)) }
{
    let body = refusal_body(alloc, name)?;
    Ok(text_response(status, body))
}

/// The response to a request that HTTP alone refuses: the fault's status, and `refused <Name>`.
pub fn fault_response(alloc: Global, fault: HttpFault) -> Result<Response, AllocError>
    ensures { IfOk result (λ a. a ≡ spec.fault_answer fault) }
{
    refusal_response(alloc, fault.status(), fault.name())
}

/// Returns the methods of a route, separated by a comma and a space.
fn methods_of(route: Route) -> &'static [u8]
    ensures { result.now ≡ methods_of route }
{
    match route {
        Route::Ingest(_) => b"PUT, POST",
        Route::Finish(_) | Route::CatchUp => b"POST",
        Route::Job(_) => b"GET, HEAD, DELETE",
        _ => b"GET, HEAD",
    }
}

/// The response to a method that the route doesn't allow: 405 with `Allow` (RFC 9110 15.5.6).
pub fn method_not_allowed_response(alloc: Global, route: Route) -> Result<Response, AllocError>
    ensures { IfOk result (λ a. a ≡ spec.method_answer route) }
{
    let fault = HttpFault::BadMethod;
    let body = refusal_body(alloc, fault.name())?;
    Ok(Response::from_text(fault.status(), ExtraField::Allow(methods_of(route)), body))
}

/// The result of finishing a rendition: `finished`, `repeated`, or a refusal by its name.
pub fn finish_response(alloc: Global, done: Result<Done, Refusal>) -> Result<Response, AllocError>
    ensures { IfOk result (λ a. a ≡ spec.finish_answer done) }
{
    match done {
        Ok(Done::New { .. }) => done_response(alloc, b"finished\n"),
        Ok(Done::Repeat) => done_response(alloc, b"repeated\n"),
        Err(refusal) => refusal_response(alloc, refusal_status(refusal), refusal.name()),
    }
}

fn done_response(alloc: Global, text: &[u8]) -> Result<Response, AllocError>
    ensures { IfOk result (λ a. a ≡ text_answer Status.Done text.now) }
{
    let body = Vec::from_slice(alloc, text)?;
    Ok(text_response(Status::Done, body))
}

/// Writes what was accepted of an encoder's body as it was sent, and after it this text.
fn counts_before(
    alloc: Global,
    text: &str,
    ingest_counts: IngestCounts,
) -> Result<String, AllocError>
    ensures { IfOk result (λ all. string_bytes all ≡ counts_before text.entry.now ingest_counts) }
{
    let (inits, units, repeats) = (
        ingest_counts.inits,
        ingest_counts.units,
        ingest_counts.repeats,
    );
    format!(in alloc; "init {inits} accepted {units} repeated {repeats}{text}")
}

/// Writes what was mended of an encoder's body.
fn mended_counts_text(alloc: Global, ingest_counts: IngestCounts) -> Result<String, AllocError>
    ensures { IfOk result (λ text. string_bytes text ≡ mended_counts_text ingest_counts) }
{
    let (mended, filled, dropped) = (
        ingest_counts.mended,
        ingest_counts.filled,
        ingest_counts.dropped,
    );
    format!(in alloc; " mended {mended} filled {filled} dropped {dropped}\n")
}

/// Writes the counts of an encoder's body.
fn counts_text(
    alloc: Global,
    is_mended: bool,
    ingest_counts: IngestCounts,
) -> Result<String, AllocError>
    ensures { IfOk result (λ text. string_bytes text ≡ counts_text is_mended ingest_counts) }
{
    if !is_mended {
        return counts_before(alloc, "\n", ingest_counts);
    }
    let text = mended_counts_text(alloc, ingest_counts)?;
    counts_before(alloc, text.as_str(), ingest_counts)
}

/// The response to an encoder's body that was accepted completely: `init 1 accepted 4 repeated 0`, and more counts if its units are mended.
pub fn ingested_response(
    alloc: Global,
    is_mended: bool,
    ingest_counts: IngestCounts,
) -> Result<Response, AllocError>
    ensures { IfOk result (λ a. a ≡ text_answer Status.Done (counts_text is_mended ingest_counts)) }
{
    let text = counts_text(alloc, is_mended, ingest_counts)?;
    Ok(text_response(Status::Done, text.into_bytes()))
}

/// The response to an encoder's body with a refused part: `refused Overlap init 1 accepted 4 repeated 0`, with what was accepted before.
pub fn ingest_refused_response(
    alloc: Global,
    fault: StreamFault,
    is_mended: bool,
    ingest_counts: IngestCounts,
) -> Result<Response, AllocError>
    ensures { IfOk result (λ a. a ≡ text_answer (status_of fault) (codes "refused " ++ (name_of fault ++ (32 ∷ counts_text is_mended ingest_counts)))) }
{
    let mut body = Vec::from_slice(alloc, b"refused ")?;
    body.extend_from_slice(fault.name().as_bytes())?;
    body.push(b' ')?;
    let ingest_counts = counts_text(alloc, is_mended, ingest_counts)?;
    body.extend_from_slice(ingest_counts.as_bytes())?;
    Ok(text_response(stream_fault_status(fault), body))
}
