//! Track fragment decode times (ISO/IEC 14496-12 8.8.12).

ghost use Rattle.std.specs.Prelude.{◌≡◌, ◌+◌, ◌^◌, ◌<◌, length};
ghost use Rattle.hls_media.specs.Boxes.{tfdt_of};
ghost use Rattle.hls_media.specs.RisesBy.{RisesBy};

use crate::fields::{read_u32_field, read_u64_field};
use hls_time::Ticks;

/// The decode time in a `tfdt` with this content, if its version is known and the field is within it.
#[tactic(auto, unfolding(hls_media_laws::specs::Fields::tfdt_fits, hls_media_laws::specs::Fields::decode_time, crate::specs::Boxes::tfdt_of))]
pub fn parse_tfdt(content: &[u8], ticks: &mut Ticks) -> Option<u64>
    requires { ticks.old < 2 ^ 62 + 2 ^ 61 }
    ensures value { result ≡ tfdt_of content.now }
    ensures counted { RisesBy (length content.now) ticks.old ticks.new }
{
    if content.len() < 8 {
        return None;
    }
    ticks.tick();
    if content[0] == 0 {
        return Some(u64::from(read_u32_field(content, 4, ticks)));
    }
    if content[0] != 1 || content.len() < 12 {
        return None;
    }
    Some(read_u64_field(content, 4, ticks))
}
