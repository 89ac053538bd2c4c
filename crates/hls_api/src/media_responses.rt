//! Responses with media: a part of a rendition's recording, or of a job's resource.

ghost use Rattle.std.specs.Prelude.{◌≡◌, ◌+◌, ◌<◌, ◌≤◌, ◌^◌, drop, max, min, length, take, true, false, Some, IfOk, IfSome, option_map};
ghost use Rattle.std.specs.List.{concat};
ghost use Rattle.hls_record.specs.RecordingData.{RecordingData as RecordedData, offset_at, total_of};
ghost use Rattle.hls_core_laws.specs.Base.{base_limit, bytes_before_base};
ghost use Rattle.hls_core.specs.Getters.{recording_of};
ghost use Rattle.hls_catchup.specs.Resources.{parts_in};
ghost use Rattle.hls_api.specs.{JobResponses.resource_answer, JobResponses.resource_of, Responses.media_part_answer};
ghost use Rattle.hls_api.specs.ResponseContents.{IsMediaRangeFor, IsPositionFor, based_range_bytes, kept_range_bytes, kept_offset, media_slices, own_offset};
ghost use Rattle.hls_api.specs.Responses as spec;

use crate::response::Response;
use crate::response_body::ResponseBody;
use crate::response_content::ResponseContent;
use crate::text_responses::fault_response;
use hls_catchup::{Reply, find_reply_units, locate_resource_byte, resource_slice, resource_total};
use hls_core::snapshot::Snapshot;
use hls_http::fault::HttpFault;
use hls_http::range_spec::{RangeSelection, RangeSpec};
use hls_http::response_parts::{ContentType, ExtraField, Status};
use hls_http::{refusal_body, select_range};
use hls_io::{Resource, ResourceRange};
use hls_record::Recording;
use std::alloc::{AllocError, Global};
use std::sync::Arc;

/// The bytes of a resource that a response returns, and the range in its head.
#[derive(Clone, Copy)]
pub(crate) struct MediaRange {
    /// The offset of the first byte.
    pub from: u64,
    /// The number of bytes.
    pub len: u64,
    status: Status,
    extra: ExtraField<'static>,
}

/// Selects what to return of a resource of `total` bytes: 200 for all of it, and 206 for a part; `None` if the requested part begins at
/// or past the end.
pub(crate) fn choose_media_range(asked: RangeSpec, total: u64) -> Option<MediaRange>
    ensures { IsMediaRangeFor asked total result }
{
    match select_range(asked, total) {
        RangeSelection::Outside => None,
        RangeSelection::Whole => Some(MediaRange {
            from: 0,
            len: total,
            status: Status::Done,
            extra: ExtraField::Nothing,
        }),
        RangeSelection::Slice { from, len } => Some(MediaRange {
            from,
            len,
            status: Status::PartialContent,
            extra: ExtraField::Range(from, from + len - 1, total),
        }),
    }
}

/// Returns the piece if its bytes are there; else 410.
pub(crate) fn range_response(
    alloc: Global,
    piece: MediaRange,
    media: Option<ResourceRange<ResponseBody>>,
) -> Result<Response, AllocError>
    ensures { IfOk result (λ a. a ≡ media_part_answer piece.status piece.extra media) }
{
    let Some(media) = media else {
        return fault_response(alloc, HttpFault::Gone);
    };
    let body = ResponseContent::Whole(media);
    Ok(Response::from_content(piece.status, ContentType::Media, piece.extra, body))
}

/// The response to a range without a byte of the resource: 416 with the total (RFC 9110 15.5.17).
pub(crate) fn range_not_satisfiable_response(
    alloc: Global,
    total: u64,
) -> Result<Response, AllocError>
    ensures { IfOk result (λ a. a ≡ spec.outside_answer total) }
{
    let fault = HttpFault::RangeOutside;
    let body = refusal_body(alloc, fault.name())?;
    Ok(Response::from_text(fault.status(), ExtraField::NoRange(total), body))
}

/// The resource of a rendition in a shared state: its init section, and then the kept ones of the units from number `first` to the
/// one before `end`. A recording's has all of its units, a job's those of its programme.
#[derive(Drop)]
pub struct MediaResource {
    snapshot: Arc<Snapshot>,
    rendition: usize,
    first: u64,
    end: u64,
}

impl MediaResource {
    /// Returns the number of bytes.
    fn len(&self) -> u64
        ensures { result ≡ length (concat (media_slices self.now)) }
    {
        match self.snapshot.recording(self.rendition) {
            Some(recording) => {
                resource_total(recording, self.first.max(recording.floor()), self.end)
            }
            None => 0,
        }
    }

    /// Returns the position of `len` bytes from an offset on: the number of their slice, and the offset in it.
    fn locate(&self, at: u64, len: u64) -> (u64, u64)
        requires { at + len ≤ length (concat (media_slices self.now)) }
        ensures { IsPositionFor (media_slices self.now) at len result }
    {
        let found = match self.snapshot.recording(self.rendition) {
            Some(recording) => {
                locate_resource_byte(recording, self.first.max(recording.floor()), self.end, at)
            }
            None => None,
        };
        // at the end no byte is asked for
        found.unwrap_or((0, 0))
    }

    /// Returns the `len` bytes from an offset on. Copies nothing.
    fn range(self, from: u64, len: u64) -> ResourceRange<ResponseBody>
        requires room { from + len < 2 ^ 64 }
        requires within { from + len ≤ length (concat (media_slices self)) }
        ensures { result ≡ take len (drop from (concat (media_slices self))) }
    {
        let (number, within) = self.locate(from, len);
        ResourceRange::new(ResponseBody::Media(self), number, within, len)
    }
}

impl Resource for MediaResource {
    ghost use Rattle.hls_api.specs.ResponseContents.{media_slices};

    ghost slices = { media_slices };

    fn slice(&self, number: u64) -> &[u8] {
        match self.snapshot.recording(self.rendition) {
            Some(recording) => {
                let first = self.first.max(recording.floor());
                resource_slice(recording, first, self.end, number)
            }
            None => b"",
        }
    }
}

/// Whether a byte in a range of offsets is trimmed.
fn is_trimmed(recording: &Recording, from: u64, end: u64) -> bool
    ensures yes { result ≡ true → max from (length recording.now.head) < min end (offset_at recording.now recording.now.floor) }
    ensures no { result ≡ false → min end (offset_at recording.now recording.now.floor) ≤ max from (length recording.now.head) }
{
    let start = from.max(recording.init_section_bytes().len() as u64);
    let stop = end.min(recording.offset(recording.floor()));
    start < stop
}

/// Returns the offset of an untrimmed byte among the untrimmed ones.
fn kept_offset(recording: &Recording, at: u64) -> u64
    ensures { result ≡ kept_offset recording.now at }
{
    let head = recording.init_section_bytes().len() as u64;
    let kept = head.max(recording.offset(recording.floor()));
    at.min(head) + at.saturating_sub(kept)
}

/// Returns `len` bytes of a rendition's recording from an offset on; `None` if one of them is trimmed. Copies nothing.
#[tactic(auto, using(crate::proofs::Parts::part_gone, crate::proofs::Parts::part_fits, crate::proofs::Parts::part_kept))]
pub(crate) fn kept_range(
    snapshot: Arc<Snapshot>,
    rendition: usize,
    from: u64,
    len: u64,
) -> Option<ResourceRange<ResponseBody>>
    requires { (rec : RecordedData) → Some rec ≡ recording_of snapshot.value rendition → from + len ≤ total_of rec }
    ensures { result ≡ kept_range_bytes snapshot.value rendition from len }
{
    let recording = snapshot.recording(rendition)?;
    // its contract bounds the offsets
    let _ = recording.total();
    if is_trimmed(recording, from, from + len) {
        return None;
    }
    let at = kept_offset(recording, from);
    let end = recording.count();
    let resource = MediaResource {
        snapshot,
        rendition,
        first: 0,
        end,
    };
    Some(resource.range(at, len))
}

/// Whether a range of offsets has a byte of the units that precede a recording.
fn has_preceding(recording: &Recording, before: u64, from: u64, end: u64) -> bool
    requires { before ≤ base_limit }
    ensures yes { result ≡ true → max from (length recording.now.head) < min end (length recording.now.head + before) }
    ensures no { result ≡ false → min end (length recording.now.head + before) ≤ max from (length recording.now.head) }
{
    let size = recording.init_section_bytes().len() as u64;
    let start = from.max(size);
    let stop = end.min(size + before);
    start < stop
}

/// Returns the offset in a recording of a byte that doesn't precede it.
fn own_offset(recording: &Recording, before: u64, at: u64) -> u64
    requires { before ≤ base_limit }
    ensures { result ≡ own_offset before recording.now at }
{
    let size = recording.init_section_bytes().len() as u64;
    at.min(size) + at.saturating_sub(size + before)
}

/// Returns `len` bytes of a rendition's resource from an offset on; `None` if one of them is trimmed. Copies nothing.
#[tactic(auto, using(crate::proofs::Parts::based_gone, crate::proofs::Parts::based_fits, crate::proofs::Parts::based_kept))]
fn based_range(
    snapshot: Arc<Snapshot>,
    rendition: usize,
    from: u64,
    len: u64,
) -> Option<ResourceRange<ResponseBody>>
    requires { (rec : RecordedData) → Some rec ≡ recording_of snapshot.value rendition → from + len ≤ bytes_before_base snapshot.value.config.base rendition + total_of rec }
    ensures { result ≡ based_range_bytes snapshot.value rendition from len }
{
    let before = snapshot.config().base().bytes(rendition);
    let recording = snapshot.recording(rendition)?;
    // its contract bounds the offsets
    let _ = recording.total();
    if has_preceding(recording, before, from, from + len) {
        return None;
    }
    let at = own_offset(recording, before, from);
    kept_range(snapshot, rendition, at, len)
}

/// Returns the length of a rendition's resource; `None` before its init section.
fn resource_len(snapshot: &Snapshot, rendition: usize) -> Option<u64>
    ensures value { result ≡ option_map (λ rec. bytes_before_base snapshot.now.config.base rendition + total_of rec) (recording_of snapshot.now rendition) }
    ensures bound { IfSome result (λ total. total ≤ base_limit + 2 ^ 40) }
{
    let before = snapshot.config().base().bytes(rendition);
    Some(before + snapshot.recording(rendition)?.total())
}

/// The requested part of a rendition's resource, in which the units that precede the recording count as trimmed: 200 for all of it, 206 for a part, 416 if the part begins at or past the end, 410 if
/// a byte of it is trimmed, and 404 before the rendition's init section.
pub fn media_response(
    alloc: Global,
    snapshot: Arc<Snapshot>,
    rendition: usize,
    asked: RangeSpec,
) -> Result<Response, AllocError>
    ensures { IfOk result (λ a. a ≡ spec.media_answer snapshot.value rendition asked) }
{
    let Some(total) = resource_len(&snapshot, rendition) else {
        return fault_response(alloc, HttpFault::NotFound);
    };
    let Some(piece) = choose_media_range(asked, total) else {
        return range_not_satisfiable_response(alloc, total);
    };
    let media = based_range(snapshot, rendition, piece.from, piece.len);
    range_response(alloc, piece, media)
}

/// Returns the resource of a rendition in a reply; `None` if the programme has no plan, or there is no such rendition.
#[tactic(auto, using(crate::proofs::Parts::reply_slices))]
fn reply_resource(reply: &Reply, rendition: usize) -> Result<Option<MediaResource>, AllocError>
    ensures { IfOk result (λ found. option_map media_slices found ≡ parts_in reply.now rendition) }
{
    let Some(units) = find_reply_units(reply, rendition) else {
        return Ok(None);
    };
    Ok(Some(MediaResource {
        snapshot: reply.share_snapshot()?,
        rendition,
        first: units.first,
        end: units.end,
    }))
}

/// The requested part of the resource of a job's rendition: 200 for all of it, 206 for a part, 416 if the part begins at or past the
/// end, and 404 if there is no such resource. It is sent from the reply's own snapshot.
pub(crate) fn job_media_response(
    alloc: Global,
    reply: &Reply,
    rendition: usize,
    asked: RangeSpec,
) -> Result<Response, AllocError>
    ensures { IfOk result (λ a. a ≡ resource_answer (resource_of reply.now rendition) asked) }
{
    let Some(resource) = reply_resource(reply, rendition)? else {
        return fault_response(alloc, HttpFault::NotFound);
    };
    let len = resource.len();
    let Some(piece) = choose_media_range(asked, len) else {
        return range_not_satisfiable_response(alloc, len);
    };
    range_response(alloc, piece, Some(resource.range(piece.from, piece.len)))
}
