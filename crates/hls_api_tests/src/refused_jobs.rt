//! Under allocation failures a job's replies are unchanged, or there are none. The channel has two units of 4 s.

use crate::refused_responses::record_two_units;
use hls_api::route::JobFile;
use hls_api::{
    Response, added_response, file_response, into_send_buffer, job_response, make_request,
    read_query, resolve_query,
};
use hls_catchup::Job;
use hls_fakes::collect_sent;
use hls_http::range_spec::RangeSpec;
use hls_jobs::{JobTable, run_job};
use std::alloc::Global;
use std::sync::Arc;

/// Returns the state of a job for the first unit after it ran; `None` if an allocation failed.
fn run_one_job(alloc: Global) -> Option<Job> {
    let state = record_two_units(alloc)?;
    let query = read_query(alloc, b"from=0&to=4000000").ok()??;
    let params = resolve_query(state.config().epoch(), query).ok()?;
    let request = make_request(&state, params);
    let mut jobs = JobTable::new(alloc).ok()?;
    let id = jobs.add(Arc::try_clone(&state).ok()?, request).ok()?;
    let _answer = added_response(alloc, state.version(), Ok(id)).ok()?;
    let work = jobs.take_work()?;
    jobs.finish(run_job(alloc, work)).ok()?;
    jobs.get(id).ok()
}

/// Returns a job that has an answer, and retries once if an allocation failed.
fn run_with_retry(alloc: Global) -> Option<Job> {
    match run_one_job(alloc) {
        Some(Job::Finished(answered)) => Some(Job::Finished(answered)),
        _ => run_one_job(alloc),
    }
}

/// Returns the bytes that are sent for a response; `None` if its head or they couldn't be allocated.
fn collect_response(alloc: Global, response: Response) -> Option<Vec<u8>> {
    let output = into_send_buffer(alloc, response, false, false).ok()?;
    collect_sent(alloc, output).ok()
}

/// Returns what is sent for the line of a job, and for its media.
fn collect_replies(alloc: Global) -> Option<(Vec<u8>, Vec<u8>)> {
    let job = run_with_retry(alloc)?;
    let line = collect_response(alloc, job_response(alloc, &job).ok()?)?;
    let media = file_response(alloc, job, JobFile::Media(0), RangeSpec::All).ok()?;
    Some((line, collect_response(alloc, media)?))
}

const LINE: &[u8] =
    b"HTTP/1.1 200 OK\r\nContent-Type: text/plain\r\nContent-Length: 16\r\n\r\ncut 0 version 3\n";

const MEDIA_HEAD: &[u8] =
    b"HTTP/1.1 200 OK\r\nContent-Type: video/mp4\r\nContent-Length: 1600\r\n\r\n";

#[test]
fn out_of_memory_gives_the_reply_or_none(rt: HostRuntime) {
    let alloc = rt.alloc();
    let (line, media) = match collect_replies(alloc) {
        Some(both) => both,
        None => collect_replies(alloc).expect(&rt, "replies"),
    };
    assert!(rt; line.as_slice() == LINE);
    assert!(rt; media.starts_with(MEDIA_HEAD) && media.len() == MEDIA_HEAD.len() + 1600);
}
