//! Fields of a unit; each is counted when it is read.

ghost use Rattle.std.specs.Prelude.{◌≡◌, ◌+◌, ◌^◌, ◌<◌, ◌≤◌, length};
ghost use Rattle.std.specs.Int.{w32, w64};
ghost use Rattle.hls_boxes.specs.Boxes.{number_at};

use hls_boxes::numbers::{u32_at, u64_at};
use hls_time::Ticks;

/// The number in the four bytes at `at`.
#[inline]
pub fn read_u32_field(bytes: &[u8], at: usize, ticks: &mut Ticks) -> u32
    requires within { at + 4 ≤ length bytes.now }
    requires room { ticks.old < 2 ^ 63 }
    ensures value { result ≡ number_at w32 at bytes.now }
    ensures counted { ticks.new ≡ ticks.old + 1 }
{
    ticks.tick();
    u32_at(bytes, at)
}

/// The number in the eight bytes at `at`.
#[inline]
pub fn read_u64_field(bytes: &[u8], at: usize, ticks: &mut Ticks) -> u64
    requires within { at + 8 ≤ length bytes.now }
    requires room { ticks.old < 2 ^ 63 }
    ensures value { result ≡ number_at w64 at bytes.now }
    ensures counted { ticks.new ≡ ticks.old + 1 }
{
    ticks.tick();
    u64_at(bytes, at)
}
