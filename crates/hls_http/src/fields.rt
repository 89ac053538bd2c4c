//! The header fields that matter for framing, for the connection, for ranges, for waiting, and for fairness between clients.

ghost use Rattle.std.specs.Prelude.{◌≡◌, length, All, option_map, codes};
ghost use Rattle.httparse.specs.Spans.{IsHeaderWithin, header_bytes};
ghost use Rattle.hls_http.specs.{Fields.{client_of_value, client_of_values, closes_connection, expects, has_word, is_word, length_of, values, wait_of_value, wait_of_values}, Range.range_of_values};
ghost use Rattle.hls_http.specs.Framing.{checked_framing, is_chunked, has_host, framing_of_lengths};
ghost use Rattle.hls_http.specs.Values.{IsSingleField, NextValue, fields_at, named_value, values_from};

use crate::fault::HttpFault;
use crate::framing::BodyFraming;
use crate::limits::MOST_LENGTH_DIGITS;
use crate::range_field::parse_range;
use crate::range_spec::RangeSpec;
use hls_text::parse_digits;
use httparse::spans::HeaderSpan;

/// The factor by which a client's number is made of its name.
const CLIENT_FACTOR: u64 = 1_099_511_628_211;

/// Returns the value of a field, if it has this name.
fn value_named<'a>(text: &'a [u8], header: &HeaderSpan, name: &[u8]) -> Option<&'a [u8]>
    requires { IsHeaderWithin (length text.now) header.now }
    ensures { option_map (λ v. v.now) result ≡ named_value name.now (header_bytes text.entry.now header.now) }
{
    if header.name.of(text).eq_ignore_ascii_case(name) {
        Some(header.value.of(text))
    } else {
        None
    }
}

/// Returns the first value of this name among the fields from an index on, and the index after that field.
#[tactic(auto, using(crate::proofs::Values::none_comes, crate::proofs::Values::none_left, crate::proofs::Values::value_comes))]
fn find_value<'a>(
    text: &'a [u8],
    headers: &[HeaderSpan],
    name: &[u8],
    at: usize,
) -> Option<(usize, &'a [u8])>
    requires { All (IsHeaderWithin (length text.now)) headers.now }
    ensures { NextValue text.entry.now headers.now name.now at (option_map (λ f. (f.0, f.1.now)) result) }
{
    for i in at..headers.len() {
        if let Some(value) = value_named(text, &headers[i], name) {
            return Some((i + 1, value));
        }
    }
    None
}

/// The value of a field that must occur at most once.
#[derive(Clone, Copy)]
enum SingleField<'a> {
    Missing,
    One(&'a [u8]),
    Several,
}

fn find_single_field<'a>(text: &'a [u8], headers: &[HeaderSpan], name: &[u8]) -> SingleField<'a>
    requires { All (IsHeaderWithin (length text.now)) headers.now }
    ensures { IsSingleField (values name.now (fields_at text.entry.now headers.now)) result }
{
    let Some((next, value)) = find_value(text, headers, name, 0) else {
        return SingleField::Missing;
    };
    match find_value(text, headers, name, next) {
        None => SingleField::One(value),
        Some(_) => SingleField::Several,
    }
}

/// Parses Content-Length from its first value and those among the fields from an index on; equal lengths count as one.
fn parse_equal_lengths(
    text: &[u8],
    headers: &[HeaderSpan],
    first: &[u8],
    second: usize,
) -> Result<BodyFraming, HttpFault>
    requires { All (IsHeaderWithin (length text.now)) headers.now }
    ensures { result ≡ framing_of_lengths (length_of first.now) (values_from text.now headers.now (codes "content-length") second) }
{
    let Some(len) = parse_digits(first, MOST_LENGTH_DIGITS) else {
        return Err(HttpFault::BadFraming);
    };
    let mut at = second;
    while let Some((next, value)) = find_value(text, headers, b"content-length", at) {
        if parse_digits(value, MOST_LENGTH_DIGITS) != Some(len) {
            return Err(HttpFault::BadFraming);
        }
        at = next;
    }
    Ok(BodyFraming::Length(len))
}

fn has_host(text: &[u8], headers: &[HeaderSpan], minor: u8) -> bool
    requires { All (IsHeaderWithin (length text.now)) headers.now }
    ensures { result ≡ has_host minor (fields_at text.now headers.now) }
{
    minor == 0
        || matches!(
            find_single_field(text, headers, b"host"),
            SingleField::One(_)
        )
}

/// Whether this is `chunked`, the only coding that is supported, in HTTP/1.1.
fn is_chunked_coding(coding: &[u8], minor: u8) -> bool
    ensures { result ≡ is_chunked minor coding.now }
{
    minor == 1 && coding.eq_ignore_ascii_case(b"chunked")
}

/// Returns the framing of the body, or the first fault of the fields: Host first, then the framing.
pub fn parse_framing(
    text: &[u8],
    headers: &[HeaderSpan],
    minor: u8,
) -> Result<BodyFraming, HttpFault>
    requires { All (IsHeaderWithin (length text.now)) headers.now }
    ensures { result ≡ checked_framing minor (fields_at text.now headers.now) }
{
    if !has_host(text, headers, minor) {
        return Err(HttpFault::BadHead);
    }
    match (
        find_value(text, headers, b"content-length", 0),
        find_single_field(text, headers, b"transfer-encoding"),
    ) {
        (None, SingleField::Missing) => Ok(BodyFraming::Length(0)),
        (Some((second, first)), SingleField::Missing) => parse_equal_lengths(
            text, headers, first, second,
        ),
        (None, SingleField::One(coding)) if is_chunked_coding(coding, minor) => Ok(
            BodyFraming::Size,
        ),
        _ => Err(HttpFault::BadFraming),
    }
}

/// Whether an Expect field asks for 100 Continue.
pub fn expects_continue(text: &[u8], headers: &[HeaderSpan], minor: u8) -> bool
    requires { All (IsHeaderWithin (length text.now)) headers.now }
    ensures { result ≡ expects minor (fields_at text.now headers.now) }
{
    if minor != 1 {
        return false;
    }
    let mut at = 0;
    while let Some((next, value)) = find_value(text, headers, b"expect", at) {
        if value.eq_ignore_ascii_case(b"100-continue") {
            return true;
        }
        at = next;
    }
    false
}

/// Whether the text is this token, in any case, with or without blanks around it.
fn is_token_in(piece: &[u8], word: &[u8]) -> bool
    ensures { result ≡ is_word word.now piece.now }
{
    piece.trim_ascii().eq_ignore_ascii_case(word)
}

/// Whether a comma-separated list contains this token, in any case.
fn has_token(value: &[u8], word: &[u8]) -> bool
    ensures { result ≡ has_word word.now value.now }
{
    value
        .split(|byte| *byte == b',')
        .any(|piece| is_token_in(piece, word))
}

/// Whether the connection ends after this request.
pub fn closes_connection(text: &[u8], headers: &[HeaderSpan], minor: u8) -> bool
    requires { All (IsHeaderWithin (length text.now)) headers.now }
    ensures { result ≡ closes_connection minor (fields_at text.now headers.now) }
{
    if minor == 0 {
        return true;
    }
    let mut at = 0;
    while let Some((next, value)) = find_value(text, headers, b"connection", at) {
        if has_token(value, b"close") {
            return true;
        }
        at = next;
    }
    false
}

/// Returns the range that the Range field asks for.
pub fn parse_range_field(text: &[u8], headers: &[HeaderSpan]) -> RangeSpec
    requires { All (IsHeaderWithin (length text.now)) headers.now }
    ensures { result ≡ range_of_values (values (codes "range") (fields_at text.now headers.now)) }
{
    match find_single_field(text, headers, b"range") {
        SingleField::One(value) => parse_range(value),
        _ => RangeSpec::All,
    }
}

/// Parses the value of a Prefer field (RFC 7240 4.3): `wait=S`, in seconds; any other form is ignored.
#[tactic(auto, unfolding(crate::specs::Fields::wait_of_value))]
fn parse_wait(value: &[u8]) -> Option<u64>
    ensures { result ≡ wait_of_value value.now }
{
    let Some(digits) = value.strip_prefix(b"wait=") else {
        return None;
    };
    parse_digits(digits, MOST_LENGTH_DIGITS)
}

/// Returns how many seconds the Prefer field lets the response wait; `None` if it says nothing of that.
pub fn parse_wait_field(text: &[u8], headers: &[HeaderSpan]) -> Option<u64>
    requires { All (IsHeaderWithin (length text.now)) headers.now }
    ensures { result ≡ wait_of_values (values (codes "prefer") (fields_at text.now headers.now)) }
{
    match find_single_field(text, headers, b"prefer") {
        SingleField::One(value) => parse_wait(value),
        _ => None,
    }
}

/// Returns the number of a client's name. Two names with one number are taken for one client.
fn number_client(name: &[u8]) -> u64
    ensures { result ≡ client_of_value name.now }
{
    name.iter().fold(0u64, |number, byte| {
        number
            .wrapping_mul(CLIENT_FACTOR)
            .wrapping_add(u64::from(*byte))
    })
}

/// Returns the number of the client that the X-Client field names; 0 if there is no such field, or several.
pub fn parse_client_field(text: &[u8], headers: &[HeaderSpan]) -> u64
    requires { All (IsHeaderWithin (length text.now)) headers.now }
    ensures { result ≡ client_of_values (values (codes "x-client") (fields_at text.now headers.now)) }
{
    match find_single_field(text, headers, b"x-client") {
        SingleField::One(name) => number_client(name),
        _ => 0,
    }
}
