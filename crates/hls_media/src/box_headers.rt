//! The header of the complete box at the start of bytes.

ghost use Rattle.std.specs.Prelude.{◌≡◌, ◌+◌, ◌^◌, ◌<◌, ◌≤◌, Some, length, IfSome};
ghost use Rattle.hls_boxes.specs.Boxes.{header_at, box_at, IsWithin};

use hls_boxes::box_header::BoxHeader;
use hls_time::Ticks;

/// The header at the start of the bytes, if its box is complete.
#[tactic(auto, unfolding(hls_boxes::specs::Boxes::box_at))]
fn check_fits(bytes: &[u8], header: BoxHeader) -> Option<BoxHeader>
    requires at_front { header_at bytes.now ≡ Some header }
    requires head { 8 ≤ header.head }
    ensures value { result ≡ box_at bytes.now }
    ensures within { IfSome result (λ h. IsWithin (length bytes.now) h) }
{
    if header.size < header.head || (bytes.len() as u64) < header.size {
        return None;
    }
    Some(header)
}

/// The header, if its box is complete.
#[tactic(auto, unfolding(hls_boxes::specs::Boxes::box_at))]
pub fn read_uncounted_box_header(bytes: &[u8]) -> Option<BoxHeader>
    ensures value { result ≡ box_at bytes.now }
    ensures within { IfSome result (λ h. IsWithin (length bytes.now) h) }
{
    let header = BoxHeader::read(bytes)?;
    check_fits(bytes, header)
}

/// The same, counting each field of the header: size and type, and the 64-bit size if there is one.
#[tactic(auto, unfolding(hls_boxes::specs::Boxes::box_at, hls_boxes::specs::Boxes::header_at))]
pub fn read_box_header(bytes: &[u8], ticks: &mut Ticks) -> Option<BoxHeader>
    requires { ticks.old < 2 ^ 62 + 2 ^ 61 }
    ensures value { result ≡ box_at bytes.now }
    ensures within { IfSome result (λ h. IsWithin (length bytes.now) h) }
    ensures rises { ticks.old ≤ ticks.new }
    ensures few { ticks.new ≤ ticks.old + 3 }
    ensures bound { ticks.new ≤ ticks.old + length bytes.now }
{
    if bytes.len() < 8 {
        return None;
    }
    ticks.tick();
    ticks.tick();
    let header = BoxHeader::read(bytes)?;
    if header.head > 8 {
        ticks.tick();
    }
    check_fits(bytes, header)
}
