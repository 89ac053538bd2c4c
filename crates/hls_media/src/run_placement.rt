//! The positions of a track fragment's runs, relative to the first byte of the `moof` (ISO/IEC 14496-12 8.8.7, 8.8.8).

ghost use Rattle.std.specs.Prelude.{◌≡◌, ℕ, pos, ◌+◌, ◌*◌, ◌^◌, ◌+ℤ◌, ◌≤◌, ◌<◌, ◌||◌, Some, length, IfSome};
ghost use Rattle.hls_media_laws.specs.Runs.{is_outside as some_byte_outside};
ghost use Rattle.hls_media.specs.RisesBy.{RisesBy};
ghost use Rattle.hls_media.specs.Boxes.{IsRun};
ghost use Rattle.hls_media.specs.RunPlacement.{run_extent, placement_after_run, IsNear, IsAround};

use crate::trun::Trun;
use crate::trun_columns::sum_sizes;
use hls_time::Ticks;

/// The window of a track fragment's runs: their base, and the range of the `mdat`'s content.
#[derive(Clone, Copy)]
pub struct DataWindow {
    pub base: i128,
    pub low: i128,
    pub high: i128,
}

/// The summary of the runs so far.
#[derive(Clone, Copy)]
pub struct RunPlacement {
    /// The end of the last run.
    pub end: i128,
    /// Whether the size of a sample is missing.
    pub lacking: bool,
    /// Whether a run has a byte outside the content of the `mdat`.
    pub outside: bool,
}

/// The bytes of a run: their start, and their number.
#[derive(Clone, Copy)]
pub struct RunExtent {
    pub begin: i128,
    pub len: u64,
}

fn find_extent(run: Trun, window: DataWindow, state: RunPlacement, len: u64) -> RunExtent
    requires { IsNear (2 ^ 28) window.base }
    ensures value { result ≡ run_extent run window state len }
    ensures around { (n : ℕ) → IsNear n window.base → IsNear n state.end → IsAround n result.begin }
{
    match run.offset {
        Some(offset) => RunExtent {
            begin: window.base + i128::from(offset),
            len,
        },
        None => RunExtent {
            begin: state.end,
            len,
        },
    }
}

/// The summary after a run with these bytes.
fn end_run(extent: RunExtent, lacking: bool, outside: bool) -> RunPlacement
    requires { IsAround (2 ^ 28) extent.begin }
    ensures value { result ≡ record { end = extent.begin +ℤ pos extent.len; lacking = lacking; outside = outside } }
    ensures near { (n : ℕ) → IsAround n extent.begin → extent.len < 2 ^ 64 → IsNear (n + 8) result.end }
{
    RunPlacement {
        end: extent.begin + i128::from(extent.len),
        lacking,
        outside,
    }
}

/// Whether a byte of a run is outside the content of the `mdat`.
fn is_outside(window: DataWindow, extent: RunExtent) -> bool
    requires { IsAround (2 ^ 28) extent.begin }
    ensures { result ≡ some_byte_outside window.low window.high extent.begin extent.len }
{
    extent.len > 0
        && (extent.begin < window.low || window.high < extent.begin + i128::from(extent.len))
}

pub fn either(one: bool, other: bool) -> bool
    ensures { result ≡ (one || other) }
{
    one || other
}

/// Adds a run.
pub fn add_run(
    state: RunPlacement,
    default: Option<u32>,
    window: DataWindow,
    content: &[u8],
    run: Trun,
    ticks: &mut Ticks,
) -> RunPlacement
    requires is_run { IsRun run content.now }
    requires base { IsNear (2 ^ 27) window.base }
    requires end { IsNear (2 ^ 27) state.end }
    requires count { ticks.old < 2 ^ 62 + 2 ^ 61 }
    ensures value { result ≡ placement_after_run default window state content.now }
    ensures near { (n : ℕ) → IsNear n window.base → IsNear n state.end → IsNear (n + length content.now) result.end }
    ensures counted { RisesBy (length content.now) ticks.old ticks.new }
{
    let sizes = sum_sizes(content, run, default, ticks);
    let extent = find_extent(run, window, state, sizes.total);
    let lacking = either(state.lacking, sizes.lacking);
    let outside = either(state.outside, is_outside(window, extent));
    end_run(extent, lacking, outside)
}
