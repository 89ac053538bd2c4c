//! Byte ranges.

ghost use Rattle.std.specs.Prelude.{◌≡◌};
ghost use Rattle.hls_http.specs.Range.{range_of_value, by_texts, range_selection, slice_from};

use crate::bounded_digits::{find_byte, parse_capped};
use crate::range_spec::{RangeSelection, RangeSpec};
use hls_text::are_digits;

/// Parses the digits before and after the hyphen; either text may be empty.
fn parse_range_parts(front: &[u8], following: &[u8]) -> RangeSpec
    ensures { result ≡ by_texts front.now following.now }
{
    if !are_digits(front) || !are_digits(following) {
        return RangeSpec::All;
    }
    let (first, last) = (parse_capped(front), parse_capped(following));
    match (front.is_empty(), following.is_empty()) {
        (true, true) => RangeSpec::All,
        (true, false) => RangeSpec::Suffix(last),
        (false, true) => RangeSpec::From(first),
        (false, false) if first <= last => RangeSpec::Between(first, last),
        (false, false) => RangeSpec::All,
    }
}

/// Parses the value of a Range field (RFC 9110 14.1.2): `bytes=a-b`, `bytes=a-` or `bytes=-n`; any other form is ignored.
#[tactic(auto, unfolding(crate::specs::Range::range_of_value))]
pub fn parse_range(value: &[u8]) -> RangeSpec
    ensures { result ≡ range_of_value value.now }
{
    let Some(spec) = value.strip_prefix(b"bytes=") else {
        return RangeSpec::All;
    };
    let Some(hyphen) = find_byte(spec, b'-') else {
        return RangeSpec::All;
    };
    parse_range_parts(&spec[..hyphen], &spec[hyphen + 1..])
}

/// Selects at most `len` bytes from an offset on; `Outside` if the offset is at or past the total.
fn clamp_range(total: u64, from: u64, len: u64) -> RangeSelection
    ensures { result ≡ slice_from total from len }
{
    if from < total {
        RangeSelection::Slice {
            from,
            len: len.min(total - from),
        }
    } else {
        RangeSelection::Outside
    }
}

/// Selects the part of a resource of `total` bytes that a range asks for.
pub fn select_range(range: RangeSpec, total: u64) -> RangeSelection
    ensures { result ≡ range_selection range total }
{
    match range {
        RangeSpec::All => RangeSelection::Whole,
        RangeSpec::Between(first, last) if first < total => RangeSelection::Slice {
            from: first,
            len: (last.min(total - 1) + 1).saturating_sub(first),
        },
        RangeSpec::Between(..) => RangeSelection::Outside,
        RangeSpec::From(first) => clamp_range(total, first, total),
        RangeSpec::Suffix(0) => RangeSelection::Outside,
        RangeSpec::Suffix(len) => clamp_range(total, total.saturating_sub(len), len),
    }
}
