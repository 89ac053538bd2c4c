//! The shape of an instant's text.

ghost use Rattle.std.specs.Prelude.{◌≡◌, option_map, List, ℕ};
ghost use Rattle.std.specs.Borrow.{Bor};
ghost use Rattle.hls_instants.specs.Pattern as shape;

// Whether a byte matches a byte of a pattern: a digit matches every digit up to itself, and a plus sign matches either sign.
fn matches_byte(pattern: u8, byte: u8) -> bool
    ensures { result ≡ shape.matches_byte pattern byte }
{
    if pattern.is_ascii_digit() {
        b'0' <= byte && byte <= pattern
    } else if pattern == b'+' {
        byte == b'+' || byte == b'-'
    } else {
        byte == pattern
    }
}

// The text after the pattern, if the text begins with it.
fn strip_pattern<'a>(pattern: &[u8], text: &'a [u8]) -> Option<&'a [u8]>
    ensures { option_map (λ (rest : Bor (List ℕ)). rest.now) result ≡ shape.rest_after_pattern pattern.now text.entry.now }
{
    let Some((place, places)) = pattern.split_first() else {
        return Some(text);
    };
    let Some((byte, bytes)) = text.split_first() else {
        return None;
    };
    if matches_byte(*place, *byte) {
        strip_pattern(places, bytes)
    } else {
        None
    }
}

fn matches_pattern(pattern: &[u8], text: &[u8]) -> bool
    ensures { result ≡ shape.matches_pattern pattern.now text.now }
{
    match strip_pattern(pattern, text) {
        None => false,
        Some(rest) => rest.is_empty(),
    }
}

// `Z`, or an offset whose hours are up to 19, or 20 to 23.
fn is_zone(text: &[u8]) -> bool
    ensures { result ≡ shape.is_zone text.now }
{
    matches_pattern(b"Z", text)
        || matches_pattern(b"+19:59", text)
        || matches_pattern(b"+23:59", text)
}

// Whether the text is a zone after at most `digits` digits.
fn is_fraction_and_zone(digits: usize, text: &[u8]) -> bool
    ensures { result ≡ shape.is_fraction_and_zone digits text.now }
{
    if digits == 0 {
        return is_zone(text);
    }
    let Some((byte, bytes)) = text.split_first() else {
        return false;
    };
    is_zone(text) || (byte.is_ascii_digit() && is_fraction_and_zone(digits - 1, bytes))
}

/// Whether the text is `YYYY-MM-DDTHH:MM:SS` with seconds up to 59, then nothing or a point and 1 to 9 digits, then `Z`, `+hh:mm` or
/// `-hh:mm` with hours up to 23 and minutes up to 59.
pub(crate) fn has_shape(text: &[u8]) -> bool
    ensures { result ≡ shape.has_shape text.now }
{
    let Some(rest) = strip_pattern(b"9999-99-99T99:99:59", text) else {
        return false;
    };
    if is_zone(rest) {
        return true;
    }
    match strip_pattern(b".9", rest) {
        None => false,
        Some(more) => is_fraction_and_zone(8, more),
    }
}
