//! The line and the files of a job for a whole channel of three units.

use crate::jobs::REQUEST;
use hls_catchup::{Job, Reply};
use hls_core::snapshot::Snapshot;
use hls_fakes::CallOutcome;
use hls_jobs::{CertificateWriter, JobTable, master_text, playlist_text, run_job, write_job_line};
use hls_sample_channels::{THREE_UNITS, end_channel_with_retry};
use std::alloc::{AllocError, Global};
use std::sync::Arc;

const LINE: &str = "cut 0 version 5\n";

fn master() -> &'static [u8] {
    b"#EXTM3U\n#EXT-X-VERSION:6\n#EXT-X-STREAM-INF:BANDWIDTH=3000000\n0.m3u8\n"
}

fn playlist() -> &'static [u8] {
    b"#EXTM3U\n#EXT-X-VERSION:6\n#EXT-X-TARGETDURATION:6\n#EXT-X-MEDIA-SEQUENCE:0\n#EXT-X-DISCONTINUITY-SEQUENCE:0\n#EXT-X-PLAYLIST-TYPE:VOD\n#EXT-X-MAP:URI=\"0.mp4\",BYTERANGE=\"600@0\"\n#EXTINF:4.000000,\n#EXT-X-BYTERANGE:1000@600\n0.mp4\n#EXTINF:4.000000,\n#EXT-X-BYTERANGE:1000@1600\n0.mp4\n#EXTINF:4.000000,\n#EXT-X-BYTERANGE:1000@2600\n0.mp4\n#EXT-X-ENDLIST\n"
}

fn certificate() -> &'static [u8] {
    b"HLS-CUT-CERTIFICATE 1\ntarget 6\npreferred 4000000\nrenditions 1\nplaces 4\n0 0 0 0 0\n1 4000000 4000000 0 0\n2 8000000 8000000 0 0\n3 12000000 12000000 0 0\ncut 0\nplan 0 1 2 3\nprice 0 0\nprice 1 0\nprice 2 0\nprice 3 0\nend\n"
}

/// Makes a job that has an answer; `None` if an allocation failed.
pub fn finish_job(alloc: Global, state: &Arc<Snapshot>) -> Option<Job> {
    let mut jobs = JobTable::new(alloc).ok()?;
    let id = jobs.add(Arc::try_clone(state).ok()?, REQUEST).ok()?;
    let work = jobs.take_work()?;
    jobs.finish(run_job(alloc, work)).ok()?;
    match jobs.get(id) {
        Ok(Job::Finished(answered)) => Some(Job::Finished(answered)),
        _ => None,
    }
}

fn job_with_retry(alloc: Global, state: &Arc<Snapshot>) -> Option<Job> {
    match finish_job(alloc, state) {
        Some(job) => Some(job),
        None => finish_job(alloc, state),
    }
}

fn reply_of(job: &Job) -> Option<&Arc<Reply>> {
    match job {
        Job::Finished(answer) => answer.result().ok(),
        _ => None,
    }
}

fn is_text(text: &Option<Vec<u8>>, expected: &[u8]) -> bool {
    match text {
        Some(text) => text.as_slice() == expected,
        None => false,
    }
}

pub fn outcome_of_master(alloc: Global, job: &Job) -> CallOutcome {
    let Some(reply) = reply_of(job) else {
        return CallOutcome::Wrong;
    };
    match master_text(alloc, reply) {
        Ok(text) => CallOutcome::from_answer(is_text(&text, master())),
        Err(_) => CallOutcome::OutOfMemory,
    }
}

pub fn outcome_of_playlist(alloc: Global, job: &Job) -> CallOutcome {
    let Some(reply) = reply_of(job) else {
        return CallOutcome::Wrong;
    };
    match playlist_text(alloc, reply, 0) {
        Ok(text) => CallOutcome::from_answer(is_text(&text, playlist())),
        Err(_) => CallOutcome::OutOfMemory,
    }
}

/// The outcome for a rendition that doesn't exist, which needs no allocation.
pub fn outcome_of_no_playlist(alloc: Global, job: &Job) -> CallOutcome {
    let Some(reply) = reply_of(job) else {
        return CallOutcome::Wrong;
    };
    match playlist_text(alloc, reply, 1) {
        Ok(text) => CallOutcome::from_answer(text.is_none()),
        Err(_) => CallOutcome::Wrong,
    }
}

fn write_certificate(alloc: Global, reply: &Arc<Reply>) -> Result<Vec<u8>, AllocError> {
    CertificateWriter::new(alloc, Arc::try_clone(reply)?)?.finish()
}

pub fn outcome_of_certificate(alloc: Global, job: &Job) -> CallOutcome {
    let Some(reply) = reply_of(job) else {
        return CallOutcome::Wrong;
    };
    match write_certificate(alloc, reply) {
        Ok(text) => CallOutcome::from_answer(text.as_slice() == certificate()),
        Err(_) => CallOutcome::OutOfMemory,
    }
}

pub fn outcome_of_line(alloc: Global, job: &Job) -> CallOutcome {
    match write_job_line(alloc, job) {
        Ok(Some(line)) => CallOutcome::from_answer(line.as_str() == LINE),
        Ok(None) => CallOutcome::Wrong,
        Err(_) => CallOutcome::OutOfMemory,
    }
}

#[test]
fn out_of_memory_then_writes_the_files_again(rt: HostRuntime) {
    let alloc = rt.alloc();
    let state = end_channel_with_retry(alloc, &THREE_UNITS).expect(&rt, "a channel");
    let job = job_with_retry(alloc, &state).expect(&rt, "a job");
    assert!(rt; outcome_of_line(alloc, &job).is_consistent_with(outcome_of_line(alloc, &job)));
    assert!(rt; outcome_of_master(alloc, &job).is_consistent_with(outcome_of_master(alloc, &job)));
    assert!(rt;
        outcome_of_playlist(alloc, &job).is_consistent_with(outcome_of_playlist(alloc, &job))
    );
    assert!(rt;
        outcome_of_no_playlist(alloc, &job).is_consistent_with(outcome_of_no_playlist(alloc, &job))
    );
    assert!(rt;
        outcome_of_certificate(alloc, &job).is_consistent_with(outcome_of_certificate(alloc, &job))
    );
}
