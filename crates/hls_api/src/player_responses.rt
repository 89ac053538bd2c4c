//! Responses with the media that players load: init sections and segments, each a part of a rendition's recording.

ghost use Rattle.std.specs.Prelude.{◌≡◌, ◌+◌, ◌<◌, ◌≤◌, ◌^◌, length, bytes_eq, IfOk, Some};
ghost use Rattle.hls_time.specs.Times.{longest_length_us};
ghost use Rattle.hls_record.specs.RecordingData.{RecordingData as RecordedData, total_of};
ghost use Rattle.hls_core_laws.specs.Base.{base_limit, bytes_before_base};
ghost use Rattle.hls_core.specs.Getters.{recording_of};
ghost use Rattle.hls_playlists_laws.specs.NamedUnits.{may_be_segment, named_units};
ghost use Rattle.hls_api.specs.NamedSpans as spans;
ghost use Rattle.hls_api.specs.NamedSpans.{IsNamedIn, IsNamedSpan};
ghost use Rattle.hls_api.specs.Players as spec;

use crate::media_responses::{
    choose_media_range, kept_range, range_not_satisfiable_response, range_response,
};
use crate::response::Response;
use crate::text_responses::fault_response;
use hls_core::snapshot::Snapshot;
use hls_http::fault::HttpFault;
use hls_http::range_spec::RangeSpec;
use hls_http::response_parts::CachePolicy;
use hls_record::Recording;
use std::alloc::{AllocError, Global};
use std::sync::Arc;

/// The longest segment of a channel, in microseconds.
fn longest_us(target: u64) -> u64
    requires { target ≤ 3600 }
    ensures { result ≡ longest_length_us target }
{
    target * 1_000_000 + 499_999
}

/// Bytes of a recording: an offset and a length.
#[derive(Clone, Copy)]
struct Span {
    start: u64,
    len: u64,
}

/// What a path names.
#[derive(Clone, Copy)]
enum NamedSpan {
    /// Nothing.
    Nothing,
    /// Units whose first is trimmed.
    Trimmed,
    /// Kept units.
    Kept(Span),
}

/// Whether the units from number `from` to the one before `to` may be a segment.
fn may_be_segment(recording: &Recording, target: u64, from: u64, to: u64) -> bool
    requires target { target ≤ 3600 }
    requires to { to ≤ length recording.now.facts }
    ensures { result ≡ may_be_segment target recording.now.facts from to }
{
    if from >= to {
        return false;
    }
    let Some(first) = recording.facts(from) else {
        return false;
    };
    let Some(last) = recording.facts(to - 1) else {
        return false;
    };
    last.end_us.saturating_sub(first.start_us) <= longest_us(target)
}

/// Finds the units that begin at byte `first` and end at byte `last` of a recording.
#[tactic(auto, using(crate::proofs::NamedSpans::no_first, crate::proofs::NamedSpans::no_last, crate::proofs::NamedSpans::no_segment, crate::proofs::NamedSpans::trimmed_segment))]
fn find_units(recording: &Recording, target: u64, first: u64, last: u64) -> NamedSpan
    requires target { target ≤ 3600 }
    requires order { first ≤ last }
    requires last { last + 1 < 2 ^ 64 }
    requires first { length recording.now.head ≤ first }
    ensures { IsNamedSpan recording.now result (spans.units_between_bytes target recording.now first last) }
{
    let Some(from) = recording.unit_starting_at(first) else {
        return NamedSpan::Nothing;
    };
    let Some(to) = recording.unit_starting_at(last + 1) else {
        return NamedSpan::Nothing;
    };
    if !may_be_segment(recording, target, from, to) {
        return NamedSpan::Nothing;
    }
    if from < recording.floor() {
        return NamedSpan::Trimmed;
    }
    NamedSpan::Kept(Span {
        start: first,
        len: last + 1 - first,
    })
}

/// Finds what the bytes from number `first` to number `last` of a rendition name, which count `before` bytes that precede its recording.
#[tactic(auto, using(crate::proofs::NamedSpans::in_head, crate::proofs::NamedSpans::precedes, crate::proofs::NamedSpans::backwards, crate::proofs::NamedSpans::past_end, crate::proofs::NamedSpans::moved))]
fn find_named(recording: &Recording, before: u64, target: u64, first: u64, last: u64) -> NamedSpan
    requires target { target ≤ 3600 }
    requires before { before ≤ base_limit }
    ensures { IsNamedSpan recording.now result (named_units before target (length recording.now.head) recording.now.facts recording.now.floor first last) }
{
    let size = recording.init_section_bytes().len() as u64;
    let total = recording.total();
    if first < size {
        return NamedSpan::Nothing;
    }
    if first < size + before {
        return NamedSpan::Trimmed;
    }
    if last < first {
        return NamedSpan::Nothing;
    }
    if total + before <= last {
        return NamedSpan::Nothing;
    }
    find_units(recording, target, first - before, last - before)
}

/// The requested part of some bytes of a recording: 200 for all of them, 206 for a part, and 416 if the part begins at or past their
/// end.
fn slice_response(
    alloc: Global,
    snapshot: Arc<Snapshot>,
    rendition: usize,
    span: Span,
    asked: RangeSpec,
) -> Result<Response, AllocError>
    requires within { (rec : RecordedData) → Some rec ≡ recording_of snapshot.value rendition → span.start + span.len ≤ total_of rec }
    requires small { span.start + span.len < 2 ^ 64 }
    ensures { (rec : RecordedData) → Some rec ≡ recording_of snapshot.value rendition → IfOk result (λ a. a ≡ spec.slice_answer rec span.start span.len asked) }
{
    let Some(piece) = choose_media_range(asked, span.len) else {
        return range_not_satisfiable_response(alloc, span.len);
    };
    let media = kept_range(snapshot, rendition, span.start + piece.from, piece.len);
    range_response(alloc, piece, media)
}

/// Returns a response with media, or that there is none: media is kept by caches for a day, since its path never names other bytes.
fn shared_media(response: Response) -> Response
    ensures { result ≡ spec.shared_media response }
{
    if response.status().is_success() {
        response.with_policy(CachePolicy::Immutable)
    } else {
        response.with_policy(CachePolicy::Revalidate)
    }
}

/// Whether a path's run is the channel's.
fn is_own_run(snapshot: &Snapshot, run: [u8; 16]) -> bool
    ensures { result ≡ bytes_eq run snapshot.now.config.base.run }
{
    run == snapshot.config().base().run()
}

fn init_of_run(
    alloc: Global,
    snapshot: Arc<Snapshot>,
    rendition: usize,
    asked: RangeSpec,
) -> Result<Response, AllocError>
    ensures { IfOk result (λ a. a ≡ spec.init_section_answer (recording_of snapshot.value rendition) asked) }
{
    let len = match snapshot.recording(rendition) {
        Some(recording) => recording.init_section_bytes().len() as u64,
        None => return fault_response(alloc, HttpFault::NotFound),
    };
    slice_response(alloc, snapshot, rendition, Span { start: 0, len }, asked)
}

/// The init section of a rendition in a run: 200, 206 for a part, 416 if the part begins at or past the end, and 404 before it is there,
/// or for another run.
pub fn init_response(
    alloc: Global,
    snapshot: Arc<Snapshot>,
    run: [u8; 16],
    rendition: usize,
    asked: RangeSpec,
) -> Result<Response, AllocError>
    ensures { IfOk result (λ a. a ≡ spec.init_answer snapshot.value run rendition asked) }
{
    if !is_own_run(&snapshot, run) {
        return Ok(shared_media(fault_response(alloc, HttpFault::NotFound)?));
    }
    Ok(shared_media(init_of_run(alloc, snapshot, rendition, asked)?))
}

/// The first and the last byte of a segment, as its path counts them.
#[derive(Clone, Copy)]
pub struct SegmentSpan {
    pub first: u64,
    pub last: u64,
}

/// Finds what a path names in a rendition.
fn find_in_rendition(snapshot: &Snapshot, rendition: usize, span: SegmentSpan) -> NamedSpan
    ensures { IsNamedIn (recording_of snapshot.now rendition) result (bytes_before_base snapshot.now.config.base rendition) snapshot.now.config.target span.first span.last }
{
    let target = snapshot.config().target();
    let before = snapshot.config().base().bytes(rendition);
    match snapshot.recording(rendition) {
        Some(recording) => find_named(recording, before, target, span.first, span.last),
        None => NamedSpan::Nothing,
    }
}

#[tactic(auto, using(crate::proofs::NamedSpans::span_within, crate::proofs::NamedSpans::span_small, crate::proofs::NamedSpans::trimmed_answer, crate::proofs::NamedSpans::nothing_answer))]
fn segment_of_run(
    alloc: Global,
    snapshot: Arc<Snapshot>,
    rendition: usize,
    span: SegmentSpan,
    asked: RangeSpec,
) -> Result<Response, AllocError>
    ensures { IfOk result (λ a. a ≡ spec.recorded_units_answer snapshot.value.config.target (bytes_before_base snapshot.value.config.base rendition) (recording_of snapshot.value rendition) span.first span.last asked) }
{
    match find_in_rendition(&snapshot, rendition, span) {
        NamedSpan::Kept(kept) => slice_response(alloc, snapshot, rendition, kept, asked),
        NamedSpan::Trimmed => fault_response(alloc, HttpFault::Gone),
        NamedSpan::Nothing => fault_response(alloc, HttpFault::NotFound),
    }
}

/// A segment of a rendition in a run, by its first and last byte: 200, 206 for a part, 416 if the part begins at or past its end, 410 if
/// a unit of it is trimmed, and 404 unless units begin and end there that last no longer than a segment may, or for another run.
pub fn segment_response(
    alloc: Global,
    snapshot: Arc<Snapshot>,
    run: [u8; 16],
    rendition: usize,
    span: SegmentSpan,
    asked: RangeSpec,
) -> Result<Response, AllocError>
    ensures { IfOk result (λ a. a ≡ spec.segment_answer snapshot.value run rendition span.first span.last asked) }
{
    if !is_own_run(&snapshot, run) {
        return Ok(shared_media(fault_response(alloc, HttpFault::NotFound)?));
    }
    Ok(shared_media(segment_of_run(alloc, snapshot, rendition, span, asked)?))
}
