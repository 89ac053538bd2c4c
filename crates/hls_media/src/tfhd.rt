//! Track fragment headers (ISO/IEC 14496-12 8.8.7).

ghost use Rattle.std.specs.Prelude.{◌≡◌, ◌+◌, ◌^◌, ◌<◌, length};
ghost use Rattle.hls_media.specs.Boxes.{tfhd_of};
ghost use Rattle.hls_media.specs.RisesBy.{RisesBy};

use crate::fields::read_u32_field;
use crate::flags::{field_len, read_optional_field};
use hls_media_laws::flags::{
    BASE_DATA_OFFSET_PRESENT, DEFAULT_SAMPLE_DURATION_PRESENT, DEFAULT_SAMPLE_FLAGS_PRESENT,
    DEFAULT_SAMPLE_SIZE_PRESENT, SAMPLE_DESCRIPTION_INDEX_PRESENT,
};
use hls_time::Ticks;

/// The fields of a `tfhd` that are used.
#[derive(Clone, Copy)]
pub struct Tfhd {
    pub track: u32,
    pub flags: u32,
    pub duration: Option<u32>,
    pub size: Option<u32>,
    pub sample_flags: Option<u32>,
}

/// The header with this content, if its fields are within it.
#[tactic(auto, unfolding(hls_media_laws::specs::Fields::duration_offset, hls_media_laws::specs::Fields::size_offset, hls_media_laws::specs::Fields::flags_offset, hls_media_laws::specs::Fields::tfhd_fits, hls_media_laws::specs::Fields::default_duration, hls_media_laws::specs::Fields::default_size, hls_media_laws::specs::Fields::default_flags, crate::specs::Boxes::tfhd_of, crate::specs::Boxes::tfhd_fields))]
pub fn parse_tfhd(content: &[u8], ticks: &mut Ticks) -> Option<Tfhd>
    requires { ticks.old < 2 ^ 62 + 2 ^ 61 }
    ensures value { result ≡ tfhd_of content.now }
    ensures counted { RisesBy (length content.now) ticks.old ticks.new }
{
    if content.len() < 8 {
        return None;
    }
    let flags = read_u32_field(content, 0, ticks);
    let base = if flags & BASE_DATA_OFFSET_PRESENT != 0 {
        8
    } else {
        0
    };
    let duration_at = 8 + base + field_len(flags, SAMPLE_DESCRIPTION_INDEX_PRESENT);
    let size_at = duration_at + field_len(flags, DEFAULT_SAMPLE_DURATION_PRESENT);
    let flags_at = size_at + field_len(flags, DEFAULT_SAMPLE_SIZE_PRESENT);
    if content.len() < flags_at + field_len(flags, DEFAULT_SAMPLE_FLAGS_PRESENT) {
        return None;
    }
    Some(Tfhd {
        track: read_u32_field(content, 4, ticks),
        flags,
        duration: read_optional_field(
            content,
            flags,
            DEFAULT_SAMPLE_DURATION_PRESENT,
            duration_at,
            ticks,
        ),
        size: read_optional_field(content, flags, DEFAULT_SAMPLE_SIZE_PRESENT, size_at, ticks),
        sample_flags: read_optional_field(
            content,
            flags,
            DEFAULT_SAMPLE_FLAGS_PRESENT,
            flags_at,
            ticks,
        ),
    })
}
