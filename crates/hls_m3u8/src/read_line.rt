//! Reads one line. The state is kept in one place and changed there, so the cost of a line is that of its content, and an empty line costs
//! nothing. After a fault the state is unspecified, since the text is rejected.

ghost use Rattle.std.specs.Prelude.{◌≡◌, ◌<◌, ℕ, List, Some, None, ◌||◌, ◌==◌, if◌then◌else◌, true, false, is_some, option_map, IfSome, IfNone};
ghost use Rattle.hls_m3u8.specs.TextLines.{split_at};
ghost use Rattle.hls_m3u8.specs.Tags.{tag_of};
ghost use Rattle.std.specs.Borrow.{Bor};
ghost use Rattle.hls_m3u8.specs.ReadLines.{set_absent, before_first_segment, required_number, with_media_sequence, with_discontinuity_sequence, length_value, same_range, same_resource, with_map, with_mark, date_value, with_date, with_end, state_after_tag, range_after, range_after_last, resolved_range, segment_range, result_after_segment, segment_within, uri_step, tag_step, line_step};
ghost use Rattle.hls_m3u8.specs.Scans.{tag_result, line_result};
ghost use Rattle.hls_m3u8.specs.Limits.{segment_limit};

use crate::fault::ListFault;
use crate::limits::{NUMBER_LIMIT, SEGMENT_LIMIT};
use crate::map_tag::parse_map_tag;
use crate::playlist::ByteRange;
use crate::split::split_at_byte;
use crate::tag::{Tag, parse_tag};
use crate::tag_state::{SegmentTags, TagState};
use crate::uri_range::{UriRange, UriRef};
use crate::value::{RangeTag, parse_number, parse_playlist_kind, parse_range_tag, parse_seconds};
use hls_instants::parse_instant;

fn require_number(value: Option<&str>) -> Option<u64>
    ensures { result ≡ required_number (option_map (λ (v : Bor (List ℕ)). v.now) value.entry) }
{
    parse_number(value?)
}

// Sets a value that may be given once.
fn set_absent<T: Copy>(place: &mut Option<T>, value: T) -> Option<()>
    ensures given { IfSome result (λ _. (place.old ≡ None) × (place.new ≡ Some value)) }
    ensures again { IfNone result (is_some place.old ≡ true) }
{
    if place.is_some() {
        return None;
    }
    *place = Some(value);
    Some(())
}

// Records a tag without a value, which may occur once.
fn set_once(place: &mut bool, value: Option<&str>) -> Option<()>
    ensures set { IfSome result (λ _. (is_some value.entry ≡ false) × (place.old ≡ false) × (place.new ≡ true)) }
    ensures refused { IfNone result ((is_some value.entry || place.old) ≡ true) }
{
    if value.is_some() || *place {
        return None;
    }
    *place = true;
    Some(())
}

// A number that may be given only before the first segment.
fn require_before_segments(state: &TagState<'_>, number: Option<u64>) -> Option<u64>
    ensures { result ≡ (if state.now.count == 0 then number else None) }
{
    if state.count != 0 {
        return None;
    }
    number
}

fn set_media_sequence(state: &mut TagState<'_>, number: Option<u64>) -> Option<()>
    ensures { tag_result result state.new ≡ with_media_sequence state.old number }
{
    let n = require_before_segments(state, number)?;
    set_absent(&mut state.media_sequence, n)
}

fn set_discontinuity_sequence(state: &mut TagState<'_>, number: Option<u64>) -> Option<()>
    ensures { tag_result result state.new ≡ with_discontinuity_sequence state.old number }
{
    let n = require_before_segments(state, number)?;
    set_absent(&mut state.discontinuity_sequence, n)
}

fn parse_length(value: Option<&str>) -> Option<u64>
    ensures { result ≡ length_value (option_map (λ (v : Bor (List ℕ)). v.now) value.entry) }
{
    parse_seconds(split_at_byte(b',', value?).front)
}

fn same_range(a: Option<ByteRange>, b: Option<ByteRange>) -> bool
    ensures { result ≡ same_range a b }
{
    match (a, b) {
        (None, None) => true,
        (Some(first), Some(second)) => {
            first.length == second.length && first.offset == second.offset
        }
        _ => false,
    }
}

fn same_resource(a: &UriRange<'_>, b: &UriRange<'_>) -> bool
    ensures { result ≡ same_resource a.now b.now }
{
    a.uri.text() == b.uri.text() && same_range(a.range, b.range)
}

fn set_map<'a>(state: &mut TagState<'a>, map: Option<UriRange<'a>>) -> Option<()>
    ensures { tag_result result state.new ≡ with_map state.old map.entry }
{
    let named = map?;
    if let Some(first) = &state.map {
        if same_resource(first, &named) {
            return Some(());
        }
        return None;
    }
    if state.count != 0 {
        return None;
    }
    state.map = Some(named);
    Some(())
}

fn set_mark(state: &mut TagState<'_>, value: Option<&str>) -> Option<()>
    ensures { tag_result result state.new ≡ with_mark state.old (option_map (λ (v : Bor (List ℕ)). v.now) value.entry) }
{
    set_once(&mut state.mark, value)
}

// An instant in whole milliseconds, if the text is one.
fn parse_date(value: Option<&str>) -> Option<i64>
    ensures { result ≡ date_value (option_map (λ (v : Bor (List ℕ)). v.now) value.entry) }
{
    let us = parse_instant(value?.as_bytes())?;
    Some(us.div_euclid(1000) * 1000)
}

fn set_date(state: &mut TagState<'_>, date: Option<i64>) -> Option<()>
    ensures { tag_result result state.new ≡ with_date state.old date }
{
    let Some(us) = date else {
        return Some(());
    };
    set_absent(&mut state.date, us)
}

fn set_end(state: &mut TagState<'_>, value: Option<&str>) -> Option<()>
    ensures { tag_result result state.new ≡ with_end state.old (option_map (λ (v : Bor (List ℕ)). v.now) value.entry) }
{
    set_once(&mut state.ended, value)
}

// Applies a tag and the text after its colon.
fn apply_tag<'a>(state: &mut TagState<'a>, tag: Tag, value: Option<&'a str>) -> Option<()>
    ensures { tag_result result state.new ≡ state_after_tag state.old tag (option_map (λ (v : Bor (List ℕ)). v.now) value.entry) }
{
    match tag {
        Tag::Version => set_absent(&mut state.version, require_number(value)?),
        Tag::TargetDuration => set_absent(&mut state.target, require_number(value)?),
        Tag::MediaSequence => set_media_sequence(state, require_number(value)),
        Tag::DiscontinuitySequence => set_discontinuity_sequence(state, require_number(value)),
        Tag::PlaylistType => set_absent(&mut state.kind, parse_playlist_kind(value?)?),
        Tag::Extinf => set_absent(&mut state.us, parse_length(value)?),
        Tag::Byterange => set_absent(&mut state.range, parse_range_tag(value?)?),
        Tag::Map => set_map(state, parse_map_tag(value?)),
        Tag::Discontinuity => set_mark(state, value),
        Tag::ProgramDateTime => set_date(state, parse_date(value)),
        Tag::Endlist => set_end(state, value),
        Tag::Refused => None,
        Tag::Unknown => Some(()),
    }
}

// The range of `length` bytes after a range.
fn range_after(last: Option<ByteRange>, length: u64) -> Option<ByteRange>
    ensures { result ≡ range_after last length }
{
    let range = last?;
    let offset = range.offset.checked_add(range.length)?;
    if offset >= NUMBER_LIMIT {
        return None;
    }
    Some(ByteRange { length, offset })
}

// The range of `length` bytes after that of the last segment, if it is in the same resource.
fn range_after_last(last: &Option<UriRange<'_>>, uri: &str, length: u64) -> Option<ByteRange>
    ensures { result ≡ range_after_last last.now uri.now length }
{
    match last {
        None => None,
        Some(segment) => {
            if segment.uri.text() == uri {
                range_after(segment.range, length)
            } else {
                None
            }
        }
    }
}

fn resolve_range(
    last: &Option<UriRange<'_>>,
    uri: &str,
    length: u64,
    offset: Option<u64>,
) -> Option<ByteRange>
    ensures { result ≡ resolved_range last.now uri.now length offset }
{
    match offset {
        None => range_after_last(last, uri, length),
        Some(at) => Some(ByteRange { length, offset: at }),
    }
}

// The range of a segment, if its tag is valid; the tag may omit the offset.
fn segment_range(
    last: &Option<UriRange<'_>>,
    uri: &str,
    tag: Option<RangeTag>,
) -> Option<Option<ByteRange>>
    ensures { result ≡ segment_range last.now uri.now tag }
{
    match tag {
        None => Some(None),
        Some(range) => Some(Some(resolve_range(last, uri, range.length, range.offset)?)),
    }
}

fn finish_segment<'a>(
    state: &mut TagState<'a>,
    uri: &'a str,
    us: u64,
    range: Option<ByteRange>,
) -> SegmentTags
    requires { state.old.count < segment_limit }
    ensures { record { state = state.new; found = Some result } ≡ result_after_segment state.old uri.entry.now us range }
{
    let found = SegmentTags {
        mark: state.mark,
        date: state.date,
        us,
        range,
    };
    state.us = None;
    state.range = None;
    state.mark = false;
    state.date = None;
    state.last = Some(UriRange {
        uri: UriRef::new(uri),
        range,
    });
    state.count += 1;
    found
}

fn apply_uri_line<'a>(
    line: usize,
    state: &mut TagState<'a>,
    uri: &'a str,
) -> Result<Option<SegmentTags>, ListFault>
    ensures { line_result state.new result ≡ uri_step line state.old uri.entry.now state.old.us }
{
    let Some(us) = state.us else {
        return Err(ListFault::MissingTag);
    };
    let Some(range) = segment_range(&state.last, uri, state.range) else {
        return Err(ListFault::BadTag { line });
    };
    if state.count >= SEGMENT_LIMIT {
        return Err(ListFault::TooLong);
    }
    Ok(Some(finish_segment(state, uri, us, range)))
}

// Applies the line of a tag or a comment.
fn apply_tag_line<'a>(
    line: usize,
    state: &mut TagState<'a>,
    tag: &'a str,
) -> Result<Option<SegmentTags>, ListFault>
    ensures { line_result state.new result ≡ tag_step line
        (state_after_tag state.old (tag_of (split_at 58 tag.entry.now).front) (split_at 58 tag.entry.now).remainder) }
{
    let cut = split_at_byte(b':', tag);
    match apply_tag(state, parse_tag(cut.front), cut.remainder) {
        None => Err(ListFault::BadTag { line }),
        Some(()) => Ok(None),
    }
}

// Applies line `n`, counted from 1: an empty line, a tag or a comment, or a URI.
pub(crate) fn apply_line<'a>(
    number: usize,
    state: &mut TagState<'a>,
    line: &'a str,
) -> Result<Option<SegmentTags>, ListFault>
    ensures { line_result state.new result ≡ line_step number state.old line.entry.now }
{
    match line.as_bytes() {
        [] => Ok(None),
        [b'#', ..] => apply_tag_line(number, state, line),
        _ => apply_uri_line(number, state, line),
    }
}
