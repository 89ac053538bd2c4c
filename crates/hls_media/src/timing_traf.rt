//! The track fragments of the timing track: a valid unit has exactly one.

ghost use Rattle.std.specs.Prelude.{◌≡◌, ◌^◌};
ghost use Rattle.hls_media.specs.Runs.{IsBrief};
ghost use Rattle.hls_media.specs.MoofSummary.{samples_before, timing_with_samples, HasBoundedDuration};

use crate::samples::SampleSummary;

/// The timing track's fragment: none so far, one with its decode time and its samples, or more than one.
#[derive(Clone, Copy)]
pub enum TimingTraf {
    Missing,
    One(Option<u64>, SampleSummary),
    Several,
}

/// The initial sample summary of a track fragment, if samples are summarized: only for the first one of the timing track.
pub fn start_samples(own: bool, state: TimingTraf) -> Option<SampleSummary>
    ensures value { result ≡ samples_before own state }
    ensures brief { IsBrief 0 result }
{
    if !own {
        return None;
    }
    let TimingTraf::Missing = state else {
        return None;
    };
    Some(SampleSummary {
        duration: 0,
        lacking: false,
        samples: false,
        flags: None,
    })
}

/// The timing track's fragment after one more track fragment, given whether that is its own.
pub fn add_timing_traf(
    own: bool,
    state: TimingTraf,
    time: Option<u64>,
    sample_summary: Option<SampleSummary>,
) -> TimingTraf
    requires short { HasBoundedDuration state }
    requires brief { IsBrief (2 ^ 26) sample_summary }
    ensures value { result ≡ timing_with_samples own time sample_summary state }
    ensures short { HasBoundedDuration result }
{
    if !own {
        return state;
    }
    let Some(sample_summary) = sample_summary else {
        return TimingTraf::Several;
    };
    TimingTraf::One(time, sample_summary)
}
