//! Reads the durations of a track's samples in a unit, and the frame rate from them.

ghost use Rattle.std.specs.Prelude.{ℕ, ◌≡◌, ◌+◌, ◌*◌, ◌<◌, ◌≤◌, ◌^◌, ◌==◌, not, bit_and, true, length, replicate, option_map, option_and_then, IfSome};
ghost use Rattle.hls_media_laws.specs.Fields.{field_width, default_duration, tfhd_fits, column};
ghost use Rattle.hls_codecs.specs.FrameRates.{and_duration, range_of_durations, frames_in, some_rate, rate_of_range, IsModest, join_ranges, range_of_run, range_of_traf, head_is_whole, head_of_track, range_from, durations_in};

use crate::boxes::find_box;
use hls_boxes::kinds::MOOF;
use hls_boxes::numbers::u32_at;
use hls_media_laws::flags::{
    BASE_DATA_OFFSET_PRESENT, DATA_OFFSET_PRESENT, DEFAULT_SAMPLE_DURATION_PRESENT,
    DEFAULT_SAMPLE_FLAGS_PRESENT, DEFAULT_SAMPLE_SIZE_PRESENT, FIRST_SAMPLE_FLAGS_PRESENT,
    SAMPLE_COMPOSITION_TIME_OFFSETS_PRESENT, SAMPLE_DESCRIPTION_INDEX_PRESENT,
    SAMPLE_DURATION_PRESENT, SAMPLE_FLAGS_PRESENT, SAMPLE_SIZE_PRESENT,
};
use hls_media_laws::kinds::{TFHD, TRAF, TRUN};
use hls_media_laws::track::Track;

/// The shortest and the longest of some durations, their sum and their number.
#[derive(Clone, Copy)]
pub struct DurationRange {
    pub least: u32,
    pub most: u32,
    pub total: u128,
    pub count: u64,
}

/// The highest rate, in thousandths of frames per second.
const MOST_RATE: u128 = 1000000;

/// The fragments of a unit that are looked at.
const MOST_FRAGMENTS: usize = 8;

fn field_len(flags: u32, flag: u32) -> usize
    ensures { result ≡ field_width (not (bit_and flags flag == 0)) }
{
    if flags & flag != 0 { 4 } else { 0 }
}

/// The range with one more duration.
fn and_duration(range: DurationRange, duration: u32) -> DurationRange
    requires total { range.total < 2 ^ 96 }
    requires count { range.count < 2 ^ 48 }
    ensures { result ≡ and_duration range duration }
{
    DurationRange {
        least: range.least.min(duration),
        most: range.most.max(duration),
        total: range.total + u128::from(duration),
        count: range.count + 1,
    }
}

/// The range of the durations in the first column of `count` rows.
fn range_of_column(rows: &[u8], count: u32, row: usize) -> Option<DurationRange>
    requires in_row { 4 ≤ row }
    requires in_rows { count * row ≤ length rows.now }
    ensures value { result ≡ range_of_durations (column count row 0 rows.now) }
    ensures modest { IfSome result (λ r. IsModest 1 r) }
{
    if count == 0 {
        return None;
    }
    let first = u32_at(rows, 0);
    let mut range = DurationRange {
        least: first,
        most: first,
        total: u128::from(first),
        count: 1,
    };
    let mut rest = &rows[row..];
    let mut left = count - 1;
    'rows: while left > 0 {
        range = and_duration(range, u32_at(rest, 0));
        rest = &rest[row..];
        left -= 1;
    }
    Some(range)
}

/// The range of this many equal durations.
fn range_of_equals(duration: Option<u32>, count: u32) -> Option<DurationRange>
    ensures value { result ≡ option_and_then range_of_durations (option_map (λ d. replicate count d) duration) }
    ensures modest { IfSome result (λ r. IsModest 1 r) }
{
    let Some(duration) = duration else {
        return None;
    };
    if count == 0 {
        return None;
    }
    Some(DurationRange {
        least: duration,
        most: duration,
        total: u128::from(duration) * u128::from(count),
        count: u64::from(count),
    })
}

/// The rate of this many frames in this many ticks.
fn frames_in(scale: u32, frames: u64, ticks: u128) -> Option<u32>
    requires some { 0 < ticks }
    requires few { frames ≤ 2 ^ 40 }
    requires short { ticks ≤ 2 ^ 72 }
    ensures { result ≡ some_rate (frames_in scale frames ticks) }
{
    let rate = (2000 * u128::from(scale) * u128::from(frames) + ticks) / (2 * ticks);
    if rate == 0 || rate > MOST_RATE {
        return None;
    }
    Some(rate as u32)
}

/// The frame rate of samples with these durations, in thousandths of frames per second: that of the shortest one, or the mean where all are
/// equal but for rounding to ticks. None if it isn't a rate of pictures.
#[tactic(auto, unfolding(crate::specs::FrameRates::rate_of_range))]
pub fn frame_rate(scale: u32, range: DurationRange) -> Option<u32>
    requires { IsModest 256 range }
    ensures { result ≡ rate_of_range scale range }
{
    if range.least == 0 {
        return None;
    }
    if u64::from(range.most) <= u64::from(range.least) + 1 {
        return frames_in(scale, range.count, range.total);
    }
    frames_in(scale, 1, u128::from(range.least))
}

/// The durations of several units together.
#[tactic(auto, unfolding(crate::specs::FrameRates::join_ranges))]
pub fn join_durations(
    before: Option<DurationRange>,
    unit: Option<DurationRange>,
) -> Option<DurationRange>
    requires before { IfSome before (λ r. (r.total ≤ 2 ^ 96) × (r.count ≤ 2 ^ 48)) }
    requires unit { IfSome unit (λ r. (r.total ≤ 2 ^ 96) × (r.count ≤ 2 ^ 48)) }
    ensures value { result ≡ join_ranges before unit }
    ensures modest { (n m : ℕ) → IfSome before (λ r. IsModest n r) → IfSome unit (λ r. IsModest m r) → IfSome result (λ r. IsModest (n + m) r) }
{
    let Some(before) = before else {
        return unit;
    };
    let Some(unit) = unit else {
        return Some(before);
    };
    Some(DurationRange {
        least: before.least.min(unit.least),
        most: before.most.max(unit.most),
        total: before.total + unit.total,
        count: before.count + unit.count,
    })
}

/// The range of the durations of the samples of a run, with this default.
#[tactic(auto, unfolding(crate::specs::FrameRates::run_durations_in, hls_media_laws::specs::Fields::sample_count, hls_media_laws::specs::Fields::first_flags_offset, hls_media_laws::specs::Fields::rows_offset, hls_media_laws::specs::Fields::row_len, hls_media_laws::specs::Fields::trun_fits))]
fn range_of_run(default: Option<u32>, run: &[u8]) -> Option<DurationRange>
    ensures value { result ≡ range_of_run default run.now }
    ensures modest { IfSome result (λ r. IsModest 1 r) }
{
    if run.len() < 8 {
        return None;
    }
    let flags = u32_at(run, 0);
    let count = u32_at(run, 4);
    let rows = 8
        + field_len(flags, DATA_OFFSET_PRESENT)
        + field_len(flags, FIRST_SAMPLE_FLAGS_PRESENT);
    let row = field_len(flags, SAMPLE_DURATION_PRESENT)
        + field_len(flags, SAMPLE_SIZE_PRESENT)
        + field_len(flags, SAMPLE_FLAGS_PRESENT)
        + field_len(flags, SAMPLE_COMPOSITION_TIME_OFFSETS_PRESENT);
    if run.len() < rows + count as usize * row {
        return None;
    }
    if flags & SAMPLE_DURATION_PRESENT == 0 {
        return range_of_equals(default, count);
    }
    range_of_column(&run[rows..], count, row)
}

/// The default duration in a `tfhd`, if it is whole.
#[tactic(auto, unfolding(hls_media_laws::specs::Fields::default_duration, hls_media_laws::specs::Fields::duration_offset, hls_media_laws::specs::Fields::tfhd_fits, hls_media_laws::specs::Fields::size_offset, hls_media_laws::specs::Fields::flags_offset))]
fn default_duration(head: &[u8]) -> Option<u32>
    requires some { 8 ≤ length head.now }
    requires fits { tfhd_fits head.now ≡ true }
    ensures { result ≡ default_duration head.now }
{
    let flags = u32_at(head, 0);
    if flags & DEFAULT_SAMPLE_DURATION_PRESENT == 0 {
        return None;
    }
    let base = if flags & BASE_DATA_OFFSET_PRESENT != 0 {
        8
    } else {
        0
    };
    Some(u32_at(
        head,
        8 + base + field_len(flags, SAMPLE_DESCRIPTION_INDEX_PRESENT),
    ))
}

/// Whether the fields of a `tfhd` are within it.
#[tactic(auto, unfolding(hls_media_laws::specs::Fields::tfhd_fits, hls_media_laws::specs::Fields::duration_offset, hls_media_laws::specs::Fields::size_offset, hls_media_laws::specs::Fields::flags_offset))]
fn head_fits(head: &[u8]) -> bool
    ensures { result ≡ head_is_whole head.now }
{
    if head.len() < 8 {
        return false;
    }
    let flags = u32_at(head, 0);
    let base = if flags & BASE_DATA_OFFSET_PRESENT != 0 {
        8
    } else {
        0
    };
    let end = 8
        + base
        + field_len(flags, SAMPLE_DESCRIPTION_INDEX_PRESENT)
        + field_len(flags, DEFAULT_SAMPLE_DURATION_PRESENT)
        + field_len(flags, DEFAULT_SAMPLE_SIZE_PRESENT)
        + field_len(flags, DEFAULT_SAMPLE_FLAGS_PRESENT);
    end <= head.len()
}

/// The `tfhd` of a `traf`, if it is of this track and whole.
#[tactic(auto, unfolding(crate::specs::FrameRates::head_of_track))]
fn head_of_track(id: u32, traf: &[u8]) -> Option<&[u8]>
    ensures whole { IfSome result (λ head. head_is_whole head.now ≡ true) }
    ensures value { option_map (λ head. head.now) result ≡ head_of_track id traf.now }
{
    let Some(head) = find_box(traf, TFHD, 0) else {
        return None;
    };
    if !head_fits(head) || u32_at(head, 4) != id {
        return None;
    }
    Some(head)
}

#[tactic(auto, unfolding(crate::specs::FrameRates::range_of_traf))]
fn range_of_traf(track: Track, head: &[u8], traf: &[u8]) -> Option<DurationRange>
    requires { head_is_whole head.now ≡ true }
    ensures value { result ≡ range_of_traf track head.now traf.now }
    ensures modest { IfSome result (λ r. IsModest 1 r) }
{
    let Some(run) = find_box(traf, TRUN, 0) else {
        return None;
    };
    let by_track = match track.defaults {
        Some(defaults) => Some(defaults.duration),
        None => None,
    };
    range_of_run(default_duration(head).or(by_track), run)
}

fn range_of_moof(track: Track, moof: &[u8]) -> Option<DurationRange>
    ensures value { result ≡ range_from 8 0 track moof.now }
    ensures modest { IfSome result (λ r. IsModest 1 r) }
{
    let mut n = 0usize;
    'fragments: while n < MOST_FRAGMENTS {
        let Some(traf) = find_box(moof, TRAF, n) else {
            return None;
        };
        if let Some(head) = head_of_track(track.id, traf) {
            return range_of_traf(track, head, traf);
        }
        n += 1;
    }
    None
}

/// Reads the durations of a track's samples in a unit: those of the first run of its first fragment. None if they aren't known, or there is
/// none.
#[tactic(auto, unfolding(crate::specs::FrameRates::durations_in))]
pub fn read_durations(track: Track, unit: &[u8]) -> Option<DurationRange>
    ensures value { result ≡ durations_in track unit.now }
    ensures modest { IfSome result (λ r. IsModest 1 r) }
{
    let Some(moof) = find_box(unit, MOOF, 0) else {
        return None;
    };
    range_of_moof(track, moof)
}
