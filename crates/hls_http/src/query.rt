//! Request targets and their queries.

ghost use Rattle.std.specs.{Prelude.{◌≡◌, ◌==◌, ◌+◌, drop, take, map, option_copied, IfOk}, List.position_or_len};
ghost use Rattle.form_urlencoded.specs.Form.{decode, parse, plus_to_space};
ghost use Rattle.hls_http.specs.Query.{first_pair_value, pair_bytes};

use crate::bounded_digits::find_byte;
use form_urlencoded::raw_pairs;
use percent_encoding::percent_decode;
use std::alloc::{AllocError, Global};

/// Splits a target into its path and its query, which follows the first `?`.
pub fn split_target(target: &[u8]) -> (&[u8], &[u8])
    ensures path { result.0.now ≡ take (position_or_len (λ b. b == 63) target.entry.now) target.entry.now }
    ensures query { result.1.now ≡ drop (position_or_len (λ b. b == 63) target.entry.now + 1) target.entry.now }
{
    match find_byte(target, b'?') {
        Some(mark) => (&target[..mark], &target[mark + 1..]),
        None => (target, b""),
    }
}

/// Replaces each `+` with a space.
fn replace_plus(alloc: Global, bytes: &[u8]) -> Result<Vec<u8>, AllocError>
    ensures { IfOk result (λ v. v.items ≡ map plus_to_space bytes.now) }
{
    bytes
        .iter()
        .map(|byte| if *byte == b'+' { b' ' } else { *byte })
        .collect(alloc)
}

/// Decodes a key or a value of a query.
fn decode_component(alloc: Global, bytes: &[u8]) -> Result<Vec<u8>, AllocError>
    ensures { IfOk result (λ v. v.items ≡ decode bytes.now) }
{
    let plain = replace_plus(alloc, bytes)?;
    let mut out = Vec::new(alloc);
    percent_decode(&plain).append_to(&mut out)?;
    Ok(out)
}

/// Parses the pairs of a query, in order. Keys and values are percent-decoded, and `+` is a space. Allocates each of them.
pub fn parse_query(alloc: Global, query: &[u8]) -> Result<Vec<(Vec<u8>, Vec<u8>)>, AllocError>
    ensures { IfOk result (λ pairs. map pair_bytes pairs.items ≡ parse query.now) }
{
    let mut pairs = Vec::new(alloc);
    for (name, value) in raw_pairs(query) {
        let decoded_name = decode_component(alloc, name)?;
        let decoded_value = decode_component(alloc, value)?;
        pairs.push((decoded_name, decoded_value))?;
    }
    Ok(pairs)
}

/// Returns the value of the first pair with this key.
pub fn find_query_value<'a>(pairs: &'a [(Vec<u8>, Vec<u8>)], key: &[u8]) -> Option<&'a [u8]>
    ensures { option_copied result ≡ first_pair_value key.now (map pair_bytes pairs.now) }
{
    for pair in pairs {
        if pair.0.as_slice() == key {
            return Some(pair.1.as_slice());
        }
    }
    None
}
