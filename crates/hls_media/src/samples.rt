//! The duration of a track fragment's samples, and the flags of the first one (ISO/IEC 14496-12 8.8.8).

ghost use Rattle.std.specs.Prelude.{◌≡◌, ◌+◌, ◌*◌, ◌^◌, ◌<◌, ◌≤◌, Some, length, IfSome};
ghost use Rattle.hls_media.specs.RisesBy.{RisesBy};
ghost use Rattle.hls_media.specs.Boxes.{IsRun};
ghost use Rattle.hls_media.specs.SampleSummary.{flags_with_run, samples_after_run};

use crate::run_placement::either;
use crate::trun::Trun;
use crate::trun_columns::{read_first_flags, sum_durations};
use hls_time::Ticks;

/// The summary of the samples so far.
#[derive(Clone, Copy)]
pub struct SampleSummary {
    /// The sum of their durations, in ticks.
    pub duration: u128,
    /// Whether a duration is missing.
    pub lacking: bool,
    /// Whether there is a sample.
    pub samples: bool,
    /// The first sample's flags, if they are given.
    pub flags: Option<u32>,
}

fn flags_after_run(
    state: SampleSummary,
    flags: Option<u32>,
    content: &[u8],
    run: Trun,
    ticks: &mut Ticks,
) -> Option<u32>
    requires is_run { IsRun run content.now }
    requires room { ticks.old < 2 ^ 63 }
    ensures value { result ≡ flags_with_run flags state content.now }
    ensures counted { RisesBy 1 ticks.old ticks.new }
{
    if state.samples || run.count == 0 {
        return state.flags;
    }
    read_first_flags(content, run, flags, ticks)
}

/// Adds a run.
pub fn add_run_times(
    state: SampleSummary,
    duration: Option<u32>,
    flags: Option<u32>,
    content: &[u8],
    run: Trun,
    ticks: &mut Ticks,
) -> SampleSummary
    requires is_run { IsRun run content.now }
    requires room { state.duration ≤ 2 ^ 100 }
    requires len { length content.now ≤ 2 ^ 26 }
    requires count { ticks.old < 2 ^ 62 + 2 ^ 61 }
    ensures value { result ≡ samples_after_run duration flags state content.now }
    ensures bound { result.duration ≤ state.duration + length content.now * 2 ^ 61 }
    ensures counted { RisesBy (length content.now + 1) ticks.old ticks.new }
{
    let durations = sum_durations(content, run, duration, ticks);
    SampleSummary {
        duration: state.duration + u128::from(durations.total),
        lacking: either(state.lacking, durations.lacking),
        samples: either(state.samples, run.count > 0),
        flags: flags_after_run(state, flags, content, run, ticks),
    }
}
