//! The status of a channel, as a few numbers.

ghost use Rattle.std.specs.Prelude.{◌≡◌, ◌+◌, ◌++◌, IfOk, length};
ghost use Rattle.hls_places_laws.specs.Line.Live.{segments_of};
ghost use Rattle.hls_core_laws.specs.Line.{line};
ghost use Rattle.hls_api.specs.Responses.{status_row};
ghost use Rattle.hls_api.specs.Responses as spec;

use crate::response::Response;
use crate::text_responses::text_response;
use hls_core::place_search::kept_place_count;
use hls_core::snapshot::Snapshot;
use hls_http::response_parts::Status;
use hls_jobs::served_version;
use hls_live::LiveLine;
use hls_text::push_number;
use std::alloc::{AllocError, Global};

/// Returns how many segments a live line keeps.
fn count_live_segments(line: &LiveLine) -> u64
    ensures { result ≡ length (segments_of line.now) }
{
    let segments = line.segments();
    segments.next() - segments.first()
}

/// Appends a line with a name and a number.
fn push_status_row(out: &mut Vec<u8>, name: &[u8], number: u64) -> Result<(), AllocError>
    ensures { IfOk result (λ done. out.new.items ≡ out.old.items ++ status_row name.now number) }
{
    out.extend_from_slice(name)?;
    out.push(b' ')?;
    push_number(out, number)?;
    out.push(b'\n')?;
    Ok(())
}

/// Returns how many segments have slid out of the live line, those that precede this process included.
#[tactic(auto, using(crate::proofs::Statuses::removed_small))]
fn served_removed(snapshot: &Snapshot) -> u64
    ensures { result ≡ snapshot.now.config.base.segments + (line snapshot.now).removed }
{
    let removed = snapshot.line().removed();
    snapshot.config().base().segments() + removed
}

/// The status of a channel with `jobs` jobs: five lines with the numbers of log entries, places with no trimmed fragment, segments of
/// the live line, segments that slid out, and jobs. Log entries and segments that precede this process count.
pub fn status_response(
    alloc: Global,
    snapshot: &Snapshot,
    jobs: usize,
) -> Result<Response, AllocError>
    ensures { IfOk result (λ a. a ≡ spec.status_answer snapshot.now jobs) }
{
    let line = snapshot.line();
    let mut out = Vec::new(alloc);
    push_status_row(&mut out, b"version", served_version(snapshot))?;
    push_status_row(&mut out, b"places", kept_place_count(snapshot))?;
    push_status_row(&mut out, b"segments", count_live_segments(line))?;
    push_status_row(&mut out, b"removed", served_removed(snapshot))?;
    push_status_row(&mut out, b"jobs", jobs as u64)?;
    Ok(text_response(Status::Done, out))
}
