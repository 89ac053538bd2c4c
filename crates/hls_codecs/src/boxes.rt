//! Finds boxes and bits in a text.

ghost use Rattle.std.specs.Prelude.{◌≡◌, ◌^◌, ◌<◌, ◌≤◌, Some, drop, length, is_some, option_map, IfSome};
ghost use Rattle.hls_boxes.specs.Boxes.{header_at, box_at, children, IsWithin};
ghost use Rattle.hls_codecs.specs.Boxes.{box_in, byte_at, bit_at, bits_at};

use hls_boxes::box_header::BoxHeader;

/// The header at the start of the bytes, if its box is complete.
#[tactic(auto, unfolding(hls_boxes::specs::Boxes::box_at))]
fn check_fits(bytes: &[u8], header: BoxHeader) -> Option<BoxHeader>
    requires at_front { header_at bytes.now ≡ Some header }
    requires head { 8 ≤ header.head }
    ensures value { result ≡ box_at bytes.now }
    ensures within { IfSome result (λ h. IsWithin (length bytes.now) h) }
{
    if header.size < header.head || (bytes.len() as u64) < header.size {
        return None;
    }
    Some(header)
}

/// The header of the complete box at the start of the bytes.
#[tactic(auto, unfolding(hls_boxes::specs::Boxes::box_at))]
pub fn read_box_header(bytes: &[u8]) -> Option<BoxHeader>
    ensures value { result ≡ box_at bytes.now }
    ensures within { IfSome result (λ h. IsWithin (length bytes.now) h) }
{
    let header = BoxHeader::read(bytes)?;
    check_fits(bytes, header)
}

/// Whether boxes fill the bytes.
fn are_boxes(bytes: &[u8]) -> bool
    ensures { result ≡ is_some (children bytes.now) }
{
    let mut rest = bytes;
    'boxes: while !rest.is_empty() {
        let Some(header) = read_box_header(rest) else {
            return false;
        };
        rest = &rest[header.size as usize..];
    }
    true
}

/// The content of box `n` of a type, from 0. None if there is no such box, or no boxes fill the bytes. It looks at each header once.
pub fn find_box(bytes: &[u8], kind: u32, n: usize) -> Option<&[u8]>
    ensures { option_map (λ content. content.now) result ≡ box_in kind n bytes.now }
{
    let mut left = n;
    let mut rest = bytes;
    'boxes: while !rest.is_empty() {
        let Some(header) = read_box_header(rest) else {
            return None;
        };
        let size = header.size as usize;
        if header.kind == kind {
            if left == 0 {
                if !are_boxes(&rest[size..]) {
                    return None;
                }
                return Some(&rest[header.head as usize..size]);
            }
            left -= 1;
        }
        rest = &rest[size..];
    }
    None
}

/// The bit at `at`, counted from the first byte's highest; 0 after the end.
fn bit_at(bytes: &[u8], at: usize) -> u32
    ensures value { result ≡ bit_at at bytes.now }
    ensures bound { result < 2 }
{
    let Some(byte) = bytes.get(at / 8) else {
        return 0;
    };
    u32::from(*byte >> (7 - at % 8)) % 2
}

/// The number in `count` bits from `at` on; bits after the end count as 0.
pub fn bits_at(bytes: &[u8], count: u32, at: usize) -> u32
    requires few { count ≤ 32 }
    requires near { at < 2 ^ 62 }
    ensures value { result ≡ bits_at count at bytes.now }
    ensures bound { result < 2 ^ count }
{
    let mut value = 0u32;
    for done in 0..count {
        value = value * 2 + bit_at(bytes, at + done as usize);
    }
    value
}

/// The byte at `at`, or 0 after the end.
pub fn byte_or_zero(bytes: &[u8], at: usize) -> u8
    ensures { result ≡ byte_at at bytes.now }
{
    match bytes.get(at) {
        Some(byte) => *byte,
        None => 0,
    }
}

/// The bytes from `at` on.
pub fn bytes_from(bytes: &[u8], at: usize) -> &[u8]
    ensures { result.now ≡ drop at bytes.now }
{
    if at > bytes.len() {
        return &[];
    }
    &bytes[at..]
}
