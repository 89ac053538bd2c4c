//! Optional fields of four bytes, whose presence a box's flags declare.

ghost use Rattle.std.specs.Prelude.{◌≡◌, ◌+◌, ◌^◌, ◌<◌, ◌≤◌, ◌==◌, true, not, bit_and, length};
ghost use Rattle.hls_media_laws.specs.Fields.{field_width, field_if as field_if_present};
ghost use Rattle.hls_media.specs.RisesBy.{RisesBy};

use crate::fields::read_u32_field;
use hls_time::Ticks;

/// The length of a field that is present if `flag` is set.
pub fn field_len(flags: u32, flag: u32) -> usize
    ensures { result ≡ field_width (not (bit_and flags flag == 0)) }
{
    if flags & flag != 0 { 4 } else { 0 }
}

/// The field at `at`, if `flag` is set.
pub fn read_optional_field(
    content: &[u8],
    flags: u32,
    flag: u32,
    at: usize,
    ticks: &mut Ticks,
) -> Option<u32>
    requires within { not (bit_and flags flag == 0) ≡ true → at + 4 ≤ length content.now }
    requires room { ticks.old < 2 ^ 63 }
    ensures value { result ≡ field_if_present (not (bit_and flags flag == 0)) at content.now }
    ensures counted { RisesBy 1 ticks.old ticks.new }
{
    if flags & flag != 0 {
        Some(read_u32_field(content, at, ticks))
    } else {
        None
    }
}
