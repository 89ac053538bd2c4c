//! The facts of a unit, or its first fault, from the summary of its track fragments.

ghost use Rattle.std.specs.Prelude.{◌≡◌, ◌+◌, ◌^◌, ◌<◌};
ghost use Rattle.hls_time.specs.Times.{floor_us as us_of};
ghost use Rattle.hls_media_laws.specs.Runs.{is_sync as first_is_sync};
ghost use Rattle.hls_media_laws.specs.FactCases.{facts_at_end as facts_from_end};
ghost use Rattle.hls_media.specs.MoofSummary.{facts_of_summary, HasBoundedDuration};

use crate::moof::MoofSummary;
use crate::samples::SampleSummary;
use crate::timing_traf::TimingTraf;
use hls_media_laws::facts::Facts;
use hls_media_laws::fault::MediaFault;
use hls_media_laws::flags::SAMPLE_IS_NON_SYNC;
use hls_media_laws::track::Track;

/// A time in whole microseconds, rounded down. Exact, since an end may exceed 64 bits here.
fn floor_us(ticks: u128, scale: u32) -> u128
    requires some { 0 < scale }
    requires room { ticks < 2 ^ 107 }
    ensures { result ≡ us_of ticks scale }
{
    ticks * 1_000_000 / u128::from(scale)
}

/// Whether these flags of the first sample make it a sync sample.
fn is_sync(flags: Option<u32>) -> bool
    ensures { result ≡ first_is_sync flags }
{
    match flags {
        Some(flags) => flags & SAMPLE_IS_NON_SYNC == 0,
        None => false,
    }
}

/// The facts of a unit whose samples have all required values.
fn finish_facts(
    timing: Track,
    len: u64,
    start: u64,
    sample_summary: SampleSummary,
    outside: bool,
) -> Result<Facts, MediaFault>
    requires some { 0 < timing.scale }
    requires short { sample_summary.duration < 2 ^ 106 }
    ensures { result ≡ facts_from_end timing len start sample_summary.duration sample_summary.samples sample_summary.flags outside }
{
    let end = u128::from(start) + sample_summary.duration;
    let start_us = floor_us(u128::from(start), timing.scale);
    let end_us = floor_us(end, timing.scale);
    if !sample_summary.samples || start_us == end_us {
        return Err(MediaFault::EmptyFragment);
    }
    if end >= 1 << 64 || end_us >= 1 << 53 {
        return Err(MediaFault::TimeTooLarge);
    }
    if outside {
        return Err(MediaFault::DataOutside);
    }
    Ok(Facts {
        start,
        duration: sample_summary.duration as u64,
        scale: timing.scale,
        start_us: start_us as u64,
        end_us: end_us as u64,
        sync: is_sync(sample_summary.flags),
        len,
    })
}

/// The facts of a unit of `len` bytes with these track fragments, or its first fault, in the order of the tests.
pub fn decide_facts(timing: Track, len: u64, summary: MoofSummary) -> Result<Facts, MediaFault>
    requires some { 0 < timing.scale }
    requires short { HasBoundedDuration summary.timing }
    ensures { result ≡ facts_of_summary timing len summary }
{
    if summary.unknown {
        return Err(MediaFault::UnknownTrack);
    }
    if summary.base_offset {
        return Err(MediaFault::BaseOffset);
    }
    match summary.timing {
        TimingTraf::Missing => Err(MediaFault::NoTimingTraf),
        TimingTraf::Several => Err(MediaFault::TwoTimingTrafs),
        TimingTraf::One(None, _) => Err(MediaFault::NoDecodeTime),
        TimingTraf::One(Some(start), sample_summary) => {
            if summary.placement.lacking
                || sample_summary.lacking
                || sample_summary.samples && sample_summary.flags.is_none()
            {
                return Err(MediaFault::NoDefault);
            }
            finish_facts(
                timing,
                len,
                start,
                sample_summary,
                summary.placement.outside,
            )
        }
    }
}
