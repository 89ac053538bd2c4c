//! Responses about jobs: that one was added or removed, its status, and its files.

ghost use Rattle.std.specs.Prelude.{◌≡◌, IfOk, Some};
ghost use Rattle.hls_api.specs.Responses.{text_answer};
ghost use Rattle.hls_catchup.specs.Jobs.Files.{certificate_file};
ghost use Rattle.hls_api.specs.JobResponses as spec;

use crate::catchup_query::QueryFault;
use crate::media_responses::job_media_response;
use crate::playlist_responses::optional_playlist_response;
use crate::response::Response;
use crate::response_content::ResponseContent;
use crate::route::JobFile;
use crate::text_responses::{fault_response, refusal_response, text_response};
use hls_catchup::{Job, JobFault, Reply};
use hls_http::fault::HttpFault;
use hls_http::range_spec::RangeSpec;
use hls_http::response_parts::{ContentType, ExtraField, Status};
use hls_jobs::{CertificateWriter, master_text, playlist_text, write_job_line};
use std::alloc::{AllocError, Global};
use std::sync::Arc;

/// The response to a catch-up request with an invalid query: 400.
pub fn query_response(alloc: Global, fault: QueryFault) -> Result<Response, AllocError>
    ensures { IfOk result (λ a. a ≡ spec.query_answer fault) }
{
    refusal_response(alloc, Status::BadRequest, fault.name())
}

/// The result of adding a job for a snapshot of this version (the number of its log entries): 202 with the job's id and location, or
/// 503 if the table is full. Fails if out of memory.
pub fn added_response(
    alloc: Global,
    version: u64,
    added: Result<u64, JobFault>,
) -> Result<Response, AllocError>
    ensures { IfOk result (λ a. a ≡ spec.added_answer version added) }
{
    match added {
        Ok(id) => {
            let text = format!(in alloc; "job {id} version {version}\n")?;
            Ok(Response::from_text(Status::Accepted, ExtraField::Job(id), text.into_bytes()))
        }
        Err(JobFault::Memory) => Err(AllocError),
        Err(fault) => refusal_response(alloc, Status::Unavailable, fault.name()),
    }
}

/// The result of removing a job: 204, or 404 for an unknown one.
pub fn removed_response(
    alloc: Global,
    removed: Result<(), JobFault>,
) -> Result<Response, AllocError>
    ensures { IfOk result (λ a. a ≡ spec.removed_answer removed) }
{
    match removed {
        Ok(()) => Ok(text_response(Status::NoContent, Vec::new(alloc))),
        Err(_) => fault_response(alloc, HttpFault::NotFound),
    }
}

/// The status of a job, as one line. A job that ran out of memory gets the out-of-memory response.
pub fn job_response(alloc: Global, job: &Job) -> Result<Response, AllocError>
    ensures { IfOk result (λ a. Some a ≡ spec.job_answer job.now) }
{
    match write_job_line(alloc, job)? {
        Some(line) => Ok(text_response(Status::Done, line.into_bytes())),
        None => Err(AllocError),
    }
}

/// A reply's certificate, which may be partly written.
pub(crate) fn certificate_response(alloc: Global, reply: Arc<Reply>) -> Result<Response, AllocError>
    ensures { IfOk result (λ a. a ≡ text_answer Status.Done (certificate_file reply.value)) }
{
    let text = CertificateWriter::new(alloc, reply)?;
    let content = ResponseContent::from_certificate(text)?;
    Ok(Response::from_content(
        Status::Done,
        ContentType::Text,
        ExtraField::Nothing,
        content,
    ))
}

/// A file of a job: a playlist, a certificate, or a part of a rendition's resource, each from the job's own reply. 409 if the job
/// isn't finished; 404 if it was refused, and for every file but the certificate if there is no plan. A job that ran out of memory
/// gets the out-of-memory response.
pub fn file_response(
    alloc: Global,
    job: Job,
    file: JobFile,
    asked: RangeSpec,
) -> Result<Response, AllocError>
    ensures { IfOk result (λ a. Some a ≡ spec.file_answer file asked job) }
{
    let answer = match &job {
        Job::Finished(answer) => answer,
        Job::Waiting | Job::Running => return fault_response(alloc, HttpFault::Conflict),
        Job::Failed => return Err(AllocError),
    };
    let Ok(reply) = answer.result() else {
        return fault_response(alloc, HttpFault::NotFound);
    };
    match file {
        JobFile::Master => optional_playlist_response(alloc, master_text(alloc, reply)?),
        JobFile::List(rendition) => {
            optional_playlist_response(alloc, playlist_text(alloc, reply, rendition)?)
        }
        JobFile::Media(rendition) => job_media_response(alloc, reply, rendition, asked),
        JobFile::Certificate => certificate_response(alloc, Arc::try_clone(reply)?),
    }
}
