//! Track runs (ISO/IEC 14496-12 8.8.8).

ghost use Rattle.std.specs.Prelude.{◌≡◌, ◌+◌, ◌^◌, ◌<◌, ◌≤◌, length, option_map, IfSome};
ghost use Rattle.std.specs.Int.{w32, cast_signed};
ghost use Rattle.hls_media.specs.Boxes.{trun_of, IsRun};
ghost use Rattle.hls_media.specs.RisesBy.{RisesBy};

use crate::fields::read_u32_field;
use crate::flags::{field_len, read_optional_field};
use hls_media_laws::flags::{
    DATA_OFFSET_PRESENT, FIRST_SAMPLE_FLAGS_PRESENT, SAMPLE_COMPOSITION_TIME_OFFSETS_PRESENT,
    SAMPLE_DURATION_PRESENT, SAMPLE_FLAGS_PRESENT, SAMPLE_SIZE_PRESENT,
};
use hls_time::Ticks;

/// The fields of a `trun` that are used, and the position of its rows.
#[derive(Clone, Copy)]
pub struct Trun {
    pub flags: u32,
    pub count: u32,
    pub offset: Option<i32>,
    pub first_flags: Option<u32>,
    /// The offset of the first row.
    pub rows: usize,
    /// The length of a row.
    pub row: usize,
}

/// The run with this content, if its fields are within it.
#[tactic(auto, unfolding(hls_media_laws::specs::Fields::sample_count, hls_media_laws::specs::Fields::first_flags_offset, hls_media_laws::specs::Fields::rows_offset, hls_media_laws::specs::Fields::row_len, hls_media_laws::specs::Fields::trun_fits, hls_media_laws::specs::Fields::data_offset, hls_media_laws::specs::Fields::first_flags_of, crate::specs::Boxes::trun_of))]
pub fn parse_trun(content: &[u8], ticks: &mut Ticks) -> Option<Trun>
    requires { ticks.old < 2 ^ 62 + 2 ^ 61 }
    ensures value { result ≡ trun_of content.now }
    ensures is_run { IfSome result (λ run. IsRun run content.now) }
    ensures counted { RisesBy (length content.now) ticks.old ticks.new }
    ensures few { ticks.new ≤ ticks.old + 4 }
{
    if content.len() < 8 {
        return None;
    }
    let flags = read_u32_field(content, 0, ticks);
    let count = read_u32_field(content, 4, ticks);
    let first_flags_at = 8 + field_len(flags, DATA_OFFSET_PRESENT);
    let rows = first_flags_at + field_len(flags, FIRST_SAMPLE_FLAGS_PRESENT);
    let row = field_len(flags, SAMPLE_DURATION_PRESENT)
        + field_len(flags, SAMPLE_SIZE_PRESENT)
        + field_len(flags, SAMPLE_FLAGS_PRESENT)
        + field_len(flags, SAMPLE_COMPOSITION_TIME_OFFSETS_PRESENT);
    if content.len() < rows + count as usize * row {
        return None;
    }
    Some(Trun {
        flags,
        count,
        offset: to_signed(read_optional_field(content, flags, DATA_OFFSET_PRESENT, 8, ticks)),
        first_flags: read_optional_field(
            content,
            flags,
            FIRST_SAMPLE_FLAGS_PRESENT,
            first_flags_at,
            ticks,
        ),
        rows,
        row,
    })
}

/// The same 32 bits as a signed number.
fn to_signed(number: Option<u32>) -> Option<i32>
    ensures { result ≡ option_map (cast_signed w32) number }
{
    number.map(|n| n.cast_signed())
}
