//! The runs of a track fragment: the positions of their bytes, and the duration of their samples (ISO/IEC 14496-12 8.8.7, 8.8.8).

ghost use Rattle.std.proofs.Common.{rules};
ghost use Rattle.std.specs.Prelude.{◌≡◌, ℕ, ◌+◌, ◌*◌, ◌^◌, ◌<◌, ◌≤◌, length, option_map, IfSome};
ghost use Rattle.hls_media.specs.RisesBy.{RisesBy};
ghost use Rattle.hls_media.specs.Boxes.{IsRun};
ghost use Rattle.hls_media.specs.DurationBounds.{runs-more};
ghost use Rattle.hls_media.specs.Runs.{summary_after_run, runs_step, IsBoundedRuns, IsBrief};
ghost use Rattle.hls_media.specs.SampleSummary.{samples_after_run};
ghost use Rattle.hls_media.specs.declared.samples.SampleSummary.{SampleSummary};

use crate::box_visitor::BoxVisitor;
use crate::run_placement::{DataWindow, RunPlacement, add_run};
use crate::samples::{SampleSummary, add_run_times};
use crate::trun::{Trun, parse_trun};
use hls_media_laws::kinds::TRUN;
use hls_time::Ticks;

/// The visitor of the runs of a track fragment: the default values of samples, and the window of the runs.
#[derive(Clone, Copy)]
pub struct TrunVisitor {
    pub duration: Option<u32>,
    pub size: Option<u32>,
    pub flags: Option<u32>,
    pub window: DataWindow,
}

/// The summary of the runs so far.
#[derive(Clone, Copy)]
pub struct RunSummary {
    pub placement: RunPlacement,
    /// The summary of their samples, if samples are summarized.
    pub sample_summary: Option<SampleSummary>,
}

/// The summary of the samples with one more run, if samples are summarized.
fn add_run_samples(
    state: Option<SampleSummary>,
    rules: TrunVisitor,
    content: &[u8],
    run: Trun,
    ticks: &mut Ticks,
) -> Option<SampleSummary>
    requires is_run { IsRun run content.now }
    requires brief { IsBrief (2 ^ 26) state }
    requires len { length content.now ≤ 2 ^ 26 }
    requires count { ticks.old < 2 ^ 62 + 2 ^ 61 }
    ensures value { result ≡ option_map (λ (t : SampleSummary). samples_after_run rules.duration rules.flags t content.now) state }
    ensures brief { (n : ℕ) → IsBrief n state → IsBrief (n + length content.now) result }
    ensures counted { RisesBy (length content.now + 1) ticks.old ticks.new }
{
    let Some(sample_summary) = state else {
        return None;
    };
    Some(add_run_times(
        sample_summary,
        rules.duration,
        rules.flags,
        content,
        run,
        ticks,
    ))
}

fn summarize_run(
    state: RunSummary,
    rules: TrunVisitor,
    content: &[u8],
    run: Trun,
    ticks: &mut Ticks,
) -> RunSummary
    requires is_run { IsRun run content.now }
    requires known { IsBoundedRuns rules (2 ^ 26) state }
    requires len { length content.now ≤ 2 ^ 26 }
    requires room { ticks.old + length content.now < 2 ^ 62 + 2 ^ 61 }
    ensures value { result ≡ summary_after_run rules state content.now }
    ensures known { (n : ℕ) → IsBoundedRuns rules n state → IsBoundedRuns rules (n + 8 + length content.now) result }
    ensures counted { RisesBy (length content.now * 2 + 1) ticks.old ticks.new }
{
    let placement = add_run(
        state.placement,
        rules.size,
        rules.window,
        content,
        run,
        ticks,
    );
    let sample_summary = add_run_samples(state.sample_summary, rules, content, run, ticks);
    RunSummary {
        placement,
        sample_summary,
    }
}

impl BoxVisitor for TrunVisitor {
    type Found = RunSummary;

    ghost step = { λ rules s kind content. runs_step rules s kind content };

    ghost known = { λ rules n s. IsBoundedRuns rules n s };

    ghost fields = { 3 };

    fn visit_box(
        &self,
        state: RunSummary,
        kind: u32,
        content: &[u8],
        ticks: &mut Ticks,
    ) -> Option<RunSummary> {
        if kind != TRUN {
            return Some(state);
        }
        let Some(run) = parse_trun(content, ticks) else {
            return None;
        };
        Some(summarize_run(state, *self, content, run, ticks))
    }

    ghost stays_known = { runs-more };

    ghost some = { Prim.search rules };
}
