//! Fields of the boxes inside a `trak` and an `mvex` (ISO/IEC 14496-12 8.3.2, 8.4.2, 8.4.3, 8.8.3).

ghost use Rattle.std.specs.Prelude.{◌≡◌, ◌≤◌, length, IfSome};
ghost use Rattle.hls_media_laws.specs.Inits.{versioned_field as field_by_version, handler_field as handler_at_offset, trex_at as trex_by_fields};

use hls_boxes::numbers::u32_at;
use hls_media_laws::track::{Trex, TrexDefaults};

/// The `track_ID` of a `tkhd` or the `timescale` of an `mdhd` with this content, if its version is known and the field is within it.
#[tactic(auto, unfolding(hls_media_laws::specs::Inits::versioned_field))]
pub fn read_versioned_field(content: &[u8]) -> Option<u32>
    ensures value { result ≡ field_by_version content.now }
    ensures least { IfSome result (λ _. 16 ≤ length content.now) }
{
    if content.len() < 16 {
        return None;
    }
    if content[0] == 0 {
        return Some(u32_at(content, 12));
    }
    if content[0] != 1 || content.len() < 24 {
        return None;
    }
    Some(u32_at(content, 20))
}

/// The `handler_type` of an `hdlr` with this content, if it is within it.
#[tactic(auto, unfolding(hls_media_laws::specs::Inits::handler_field))]
pub fn read_handler(content: &[u8]) -> Option<u32>
    ensures value { result ≡ handler_at_offset content.now }
    ensures least { IfSome result (λ _. 12 ≤ length content.now) }
{
    if content.len() < 12 {
        return None;
    }
    Some(u32_at(content, 8))
}

/// The `trex` with this content, if its fields are within it.
#[tactic(auto, unfolding(hls_media_laws::specs::Inits::trex_at))]
pub fn parse_trex(content: &[u8]) -> Option<Trex>
    ensures { result ≡ trex_by_fields content.now }
{
    if content.len() < 24 {
        return None;
    }
    Some(Trex {
        id: u32_at(content, 4),
        defaults: TrexDefaults {
            duration: u32_at(content, 12),
            size: u32_at(content, 16),
            flags: u32_at(content, 20),
        },
    })
}
