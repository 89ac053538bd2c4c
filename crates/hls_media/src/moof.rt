//! Summarizes the track fragments of a unit, in order.

ghost use Rattle.std.proofs.Common.{rules};
ghost use Rattle.std.specs.Prelude.{◌≡◌, ℕ, ◌+◌, ◌*◌, ◌^◌, ◌<◌, ◌≤◌, ◌==◌, pos, option_map, option_and_then, find, length, IfSome, if◌then◌else◌};
ghost use Rattle.std.specs.Option.{option_or};
ghost use Rattle.hls_media_laws.specs.declared.track.Track.{Track};
ghost use Rattle.hls_media_laws.specs.declared.track.TrexDefaults.{TrexDefaults};
ghost use Rattle.hls_media_laws.specs.Trafs.{traf_at};
ghost use Rattle.hls_media.specs.RisesBy.{RisesBy};
ghost use Rattle.hls_media.specs.Folds.{fold_content};
ghost use Rattle.hls_media.specs.RunPlacement.{IsNear};
ghost use Rattle.hls_media.specs.DurationBounds.{summary-more};
ghost use Rattle.hls_media.specs.MoofSummary.{facts_context, summary_after_traf, moof_step, empty_summary, HasBoundedDuration, IsBoundedSummary};

use crate::box_visitor::{BoxVisitor, visit_boxes};
use crate::run_placement::{DataWindow, RunPlacement, either};
use crate::tfhd::Tfhd;
use crate::timing_traf::{TimingTraf, add_timing_traf, start_samples};
use crate::traf_header::parse_traf_header;
use crate::traf_runs::{RunSummary, TrunVisitor};
use hls_media_laws::flags::{BASE_DATA_OFFSET_PRESENT, DEFAULT_BASE_IS_MOOF};
use hls_media_laws::kinds::TRAF;
use hls_media_laws::track::{Track, TrexDefaults};
use hls_time::Ticks;

/// The range of the `mdat`'s content, relative to the first byte of the `moof`.
#[derive(Clone, Copy)]
pub struct MdatBounds {
    pub low: i128,
    pub high: i128,
}

/// The summary of the track fragments so far.
#[derive(Clone, Copy)]
pub struct MoofSummary {
    /// Whether a track fragment belongs to no track.
    pub unknown: bool,
    /// Whether a track fragment has a base data offset.
    pub base_offset: bool,
    pub timing: TimingTraf,
    pub placement: RunPlacement,
}

fn find_track(tracks: &[Track], id: u32) -> Option<Track>
    ensures { result ≡ find (λ (k : Track). k.id == id) tracks.now }
{
    for track in tracks {
        if track.id == id {
            return Some(*track);
        }
    }
    None
}

fn track_defaults(track: Option<Track>) -> Option<TrexDefaults>
    ensures { result ≡ option_and_then (λ (k : Track). k.defaults) track }
{
    let Some(track) = track else {
        return None;
    };
    track.defaults
}

/// The visitor for the runs of a track fragment in this window. Defaults are those of its header, or else those of the `trex`.
fn make_trun_visitor(head: Tfhd, trex: Option<TrexDefaults>, window: DataWindow) -> TrunVisitor
    ensures duration { result.duration ≡ option_or head.duration (option_map (λ (d : TrexDefaults). d.duration) trex) }
    ensures size { result.size ≡ option_or head.size (option_map (λ (d : TrexDefaults). d.size) trex) }
    ensures flags { result.flags ≡ option_or head.sample_flags (option_map (λ (d : TrexDefaults). d.flags) trex) }
    ensures window { result.window ≡ window }
{
    TrunVisitor {
        duration: head.duration.or(trex.map(|d| d.duration)),
        size: head.size.or(trex.map(|d| d.size)),
        flags: head.sample_flags.or(trex.map(|d| d.flags)),
        window,
    }
}

/// The start of a track fragment's runs: the first byte of the `moof`, or the end of the previous runs.
fn start_placement(at_moof: bool, last: RunPlacement) -> RunPlacement
    ensures value { result ≡ record { end = if at_moof then pos 0 else last.end; lacking = last.lacking; outside = last.outside } }
    ensures near { (n : ℕ) → IsNear n last.end → IsNear n result.end }
{
    if at_moof {
        return RunPlacement {
            end: 0,
            lacking: last.lacking,
            outside: last.outside,
        };
    }
    last
}

fn make_window(start: RunPlacement, bounds: MdatBounds) -> DataWindow
    ensures { result ≡ record { base = start.end; low = bounds.low; high = bounds.high } }
{
    DataWindow {
        base: start.end,
        low: bounds.low,
        high: bounds.high,
    }
}

/// The parameters for reading the track fragments of a `moof`: the tracks of the init section, the timing track, and where samples may be.
#[derive(Clone, Copy)]
pub struct MoofVisitor<'a> {
    pub tracks: &'a [Track],
    pub timing: Track,
    pub bounds: MdatBounds,
}

/// Adds a track fragment with this content. Its header is read first, since it may follow its runs.
fn add_traf(
    moof_visitor: &MoofVisitor<'_>,
    state: MoofSummary,
    content: &[u8],
    ticks: &mut Ticks,
) -> Option<MoofSummary>
    requires len { length content.now ≤ 2 ^ 26 }
    requires known { IsBoundedSummary (2 ^ 26) state }
    requires room { ticks.old + length content.now * 4 ≤ 2 ^ 62 + 2 ^ 60 }
    ensures value { result ≡ option_map (summary_after_traf (facts_context moof_visitor.now.tracks.now moof_visitor.now.timing moof_visitor.now.bounds) state) (traf_at content.now) }
    ensures known { IfSome result (λ s. (n : ℕ) → IsBoundedSummary n state → IsBoundedSummary (n + 8 + length content.now) s) }
    ensures counted { RisesBy (length content.now * 4) ticks.old ticks.new }
{
    let Some(heading) = parse_traf_header(content, ticks) else {
        return None;
    };
    let head = heading.head;
    let own = head.track == moof_visitor.timing.id;
    let track = find_track(moof_visitor.tracks, head.track);
    let start = start_placement(head.flags & DEFAULT_BASE_IS_MOOF != 0, state.placement);
    let rules = make_trun_visitor(
        head,
        track_defaults(track),
        make_window(start, moof_visitor.bounds),
    );
    let none = RunSummary {
        placement: start,
        sample_summary: start_samples(own, state.timing),
    };
    let Some(runs) = visit_boxes(&rules, none, content, ticks) else {
        return None;
    };
    Some(MoofSummary {
        unknown: either(state.unknown, track.is_none()),
        base_offset: either(
            state.base_offset,
            head.flags & BASE_DATA_OFFSET_PRESENT != 0,
        ),
        timing: add_timing_traf(own, state.timing, heading.time, runs.sample_summary),
        placement: runs.placement,
    })
}

impl<'a> BoxVisitor for MoofVisitor<'a> {
    type Found = MoofSummary;

    ghost step = { λ moof_visitor s kind content. moof_step (facts_context moof_visitor.tracks.now moof_visitor.timing moof_visitor.bounds) s kind content };

    ghost known = { λ _ n s. IsBoundedSummary n s };

    ghost fields = { 4 };

    fn visit_box(
        &self,
        state: MoofSummary,
        kind: u32,
        content: &[u8],
        ticks: &mut Ticks,
    ) -> Option<MoofSummary> {
        if kind != TRAF {
            return Some(state);
        }
        add_traf(self, state, content, ticks)
    }

    ghost stays_known = { λ _. summary-more };

    ghost some = { Prim.search rules };
}

/// Summarizes all track fragments of the `moof` with this content.
pub fn summarize_moof(
    tracks: &[Track],
    timing: Track,
    bounds: MdatBounds,
    moof: &[u8],
    ticks: &mut Ticks,
) -> Option<MoofSummary>
    requires len { length moof.now ≤ 2 ^ 26 }
    requires room { ticks.old + length moof.now * 4 ≤ 2 ^ 62 + 2 ^ 60 }
    ensures value { result ≡ fold_content (moof_step (facts_context tracks.now timing bounds)) Some empty_summary moof.now }
    ensures short { IfSome result (λ s. HasBoundedDuration s.timing) }
    ensures counted { RisesBy (length moof.now * 4) ticks.old ticks.new }
{
    let nothing = MoofSummary {
        unknown: false,
        base_offset: false,
        timing: TimingTraf::Missing,
        placement: RunPlacement {
            end: 0,
            lacking: false,
            outside: false,
        },
    };
    let moof_visitor = MoofVisitor {
        tracks,
        timing,
        bounds,
    };
    visit_boxes(&moof_visitor, nothing, moof, ticks)
}
