//! The samples of a track fragment with one `trun`, each with its four fields (ISO/IEC 14496-12 8.8.7, 8.8.8).

ghost use Rattle.std.specs.Prelude.{◌≡◌, ◌+◌, ◌*◌, ◌≤◌, ◌==◌, true, not, bit_and, option_map, option_and_then, find, length, IfOk, IfSome};
ghost use Rattle.hls_media_laws.specs.Fields.{tfhd_fits as fields_fit_tfhd, trun_fits as rows_fit, field_if, field_width, duration_offset, size_offset, flags_offset, default_duration, default_size, default_flags, rows_offset, sample_count, first_flags_of, row_len};
ghost use Rattle.hls_media_laws.specs.declared.track.Track.{Track};
ghost use Rattle.hls_media_laws.specs.declared.track.TrexDefaults.{TrexDefaults};
ghost use Rattle.hls_mend_laws.specs.FragmentsRead.{trex_of_head, sample_defaults, column, row_format, row_width, with_first_flags, run_samples};

use crate::rows::read_rows;
use hls_boxes::numbers::u32_at;
use hls_media_laws::flags::{
    BASE_DATA_OFFSET_PRESENT, DATA_OFFSET_PRESENT, DEFAULT_SAMPLE_DURATION_PRESENT,
    DEFAULT_SAMPLE_FLAGS_PRESENT, DEFAULT_SAMPLE_SIZE_PRESENT, FIRST_SAMPLE_FLAGS_PRESENT,
    SAMPLE_COMPOSITION_TIME_OFFSETS_PRESENT, SAMPLE_DESCRIPTION_INDEX_PRESENT,
    SAMPLE_DURATION_PRESENT, SAMPLE_FLAGS_PRESENT, SAMPLE_SIZE_PRESENT,
};
use hls_media_laws::track::{Track, TrexDefaults};
use hls_mend_laws::row_format::{Column, RowFormat, SampleDefaults};
use hls_mend_laws::sample::Sample;
use std::alloc::{AllocError, Global};

/// The length of a field that is present if `flag` is set.
fn field_len(flags: u32, flag: u32) -> usize
    ensures { result ≡ field_width (not (bit_and flags flag == 0)) }
{
    if flags & flag != 0 { 4 } else { 0 }
}

/// The field at `at`, if `flag` is set.
fn read_field(content: &[u8], flags: u32, flag: u32, at: usize) -> Option<u32>
    requires { not (bit_and flags flag == 0) ≡ true → at + 4 ≤ length content.now }
    ensures { result ≡ field_if (not (bit_and flags flag == 0)) at content.now }
{
    if flags & flag != 0 {
        Some(u32_at(content, at))
    } else {
        None
    }
}

/// The offset of the default duration in a `tfhd`.
#[tactic(auto, unfolding(hls_media_laws::specs::Fields::duration_offset))]
fn find_default_duration(head: &[u8]) -> usize
    requires { 8 ≤ length head.now }
    ensures value { result ≡ duration_offset head.now }
    ensures small { (8 ≤ result) × (result ≤ 20) }
{
    let flags = u32_at(head, 0);
    let base = if flags & BASE_DATA_OFFSET_PRESENT != 0 {
        8
    } else {
        0
    };
    8 + base + field_len(flags, SAMPLE_DESCRIPTION_INDEX_PRESENT)
}

/// The offset of the default size in a `tfhd`.
#[tactic(auto, unfolding(hls_media_laws::specs::Fields::size_offset))]
fn find_default_size(head: &[u8]) -> usize
    requires { 8 ≤ length head.now }
    ensures value { result ≡ size_offset head.now }
    ensures small { (8 ≤ result) × (result ≤ 24) }
{
    find_default_duration(head) + field_len(u32_at(head, 0), DEFAULT_SAMPLE_DURATION_PRESENT)
}

/// The offset of the default flags in a `tfhd`.
#[tactic(auto, unfolding(hls_media_laws::specs::Fields::flags_offset))]
fn find_default_flags(head: &[u8]) -> usize
    requires { 8 ≤ length head.now }
    ensures value { result ≡ flags_offset head.now }
    ensures small { (8 ≤ result) × (result ≤ 28) }
{
    find_default_size(head) + field_len(u32_at(head, 0), DEFAULT_SAMPLE_SIZE_PRESENT)
}

/// Whether the fields of the `tfhd` with this content are within it.
#[tactic(auto, unfolding(hls_media_laws::specs::Fields::duration_offset, hls_media_laws::specs::Fields::size_offset, hls_media_laws::specs::Fields::flags_offset, hls_media_laws::specs::Fields::tfhd_fits))]
pub fn tfhd_fits(head: &[u8]) -> bool
    ensures value { result ≡ fields_fit_tfhd head.now }
    ensures long { result ≡ true → 8 ≤ length head.now }
{
    if head.len() < 8 {
        return false;
    }
    let end = find_default_flags(head) + field_len(u32_at(head, 0), DEFAULT_SAMPLE_FLAGS_PRESENT);
    end <= head.len()
}

fn find_track(tracks: &[Track], id: u32) -> Option<Track>
    ensures { result ≡ find (λ (k : Track). k.id == id) tracks.now }
{
    for track in tracks {
        if track.id == id {
            return Some(*track);
        }
    }
    None
}

fn track_defaults(track: Option<Track>) -> Option<TrexDefaults>
    ensures { result ≡ option_and_then (λ (k : Track). k.defaults) track }
{
    let Some(track) = track else {
        return None;
    };
    track.defaults
}

/// The defaults of a `trex`, or none of them.
fn make_defaults(trex: Option<TrexDefaults>) -> SampleDefaults
    ensures duration { result.duration ≡ option_map (λ (d : TrexDefaults). d.duration) trex }
    ensures size { result.size ≡ option_map (λ (d : TrexDefaults). d.size) trex }
    ensures flags { result.flags ≡ option_map (λ (d : TrexDefaults). d.flags) trex }
{
    match trex {
        Some(defaults) => SampleDefaults {
            duration: Some(defaults.duration),
            size: Some(defaults.size),
            flags: Some(defaults.flags),
        },
        None => SampleDefaults {
            duration: None,
            size: None,
            flags: None,
        },
    }
}

/// The defaults of the `trex` of the track of a `tfhd`.
fn find_trex(tracks: &[Track], head: &[u8]) -> Option<TrexDefaults>
    requires { 8 ≤ length head.now }
    ensures { result ≡ trex_of_head tracks.now head.now }
{
    track_defaults(find_track(tracks, u32_at(head, 4)))
}

#[tactic(auto, unfolding(hls_media_laws::specs::Fields::duration_offset, hls_media_laws::specs::Fields::size_offset, hls_media_laws::specs::Fields::flags_offset, hls_media_laws::specs::Fields::tfhd_fits, hls_media_laws::specs::Fields::default_duration))]
fn read_default_duration(head: &[u8]) -> Option<u32>
    requires long { 8 ≤ length head.now }
    requires fits { fields_fit_tfhd head.now ≡ true }
    ensures { result ≡ default_duration head.now }
{
    let at = find_default_duration(head);
    read_field(head, u32_at(head, 0), DEFAULT_SAMPLE_DURATION_PRESENT, at)
}

#[tactic(auto, unfolding(hls_media_laws::specs::Fields::duration_offset, hls_media_laws::specs::Fields::size_offset, hls_media_laws::specs::Fields::flags_offset, hls_media_laws::specs::Fields::tfhd_fits, hls_media_laws::specs::Fields::default_size))]
fn read_default_size(head: &[u8]) -> Option<u32>
    requires long { 8 ≤ length head.now }
    requires fits { fields_fit_tfhd head.now ≡ true }
    ensures { result ≡ default_size head.now }
{
    let at = find_default_size(head);
    read_field(head, u32_at(head, 0), DEFAULT_SAMPLE_SIZE_PRESENT, at)
}

#[tactic(auto, unfolding(hls_media_laws::specs::Fields::duration_offset, hls_media_laws::specs::Fields::size_offset, hls_media_laws::specs::Fields::flags_offset, hls_media_laws::specs::Fields::tfhd_fits, hls_media_laws::specs::Fields::default_flags))]
fn read_default_flags(head: &[u8]) -> Option<u32>
    requires long { 8 ≤ length head.now }
    requires fits { fields_fit_tfhd head.now ≡ true }
    ensures { result ≡ default_flags head.now }
{
    let at = find_default_flags(head);
    read_field(head, u32_at(head, 0), DEFAULT_SAMPLE_FLAGS_PRESENT, at)
}

/// The defaults of the samples: those of the `tfhd`, or else those of the `trex` of its track.
#[tactic(auto, unfolding(hls_mend_laws::specs::FragmentsRead::sample_defaults))]
pub fn read_defaults(tracks: &[Track], head: &[u8]) -> SampleDefaults
    requires long { 8 ≤ length head.now }
    requires fits { fields_fit_tfhd head.now ≡ true }
    ensures { result ≡ sample_defaults tracks.now head.now }
{
    let trex = make_defaults(find_trex(tracks, head));
    SampleDefaults {
        duration: read_default_duration(head).or(trex.duration),
        size: read_default_size(head).or(trex.size),
        flags: read_default_flags(head).or(trex.flags),
    }
}

/// A field of the rows, or the value of all samples if rows don't have it.
fn make_column(present: bool, default: Option<u32>) -> Option<Column>
    ensures value { result ≡ column present default }
    ensures is { IfSome result (λ c. c.present ≡ present) }
{
    if present {
        return Some(Column {
            present,
            default: default.unwrap_or(0),
        });
    }
    Some(Column {
        present,
        default: default?,
    })
}

/// The format of the rows of the `trun` with this content, if each field of its samples has a value.
#[tactic(auto, unfolding(hls_mend_laws::specs::FragmentsRead::row_format, hls_media_laws::specs::Fields::row_len))]
pub fn read_row_format(defaults: SampleDefaults, run: &[u8]) -> Option<RowFormat>
    requires { 8 ≤ length run.now }
    ensures value { result ≡ row_format defaults run.now }
    ensures width { IfSome result (λ format. row_width format ≡ row_len run.now) }
{
    let flags = u32_at(run, 0);
    Some(RowFormat {
        duration: make_column(flags & SAMPLE_DURATION_PRESENT != 0, defaults.duration)?,
        size: make_column(flags & SAMPLE_SIZE_PRESENT != 0, defaults.size)?,
        flags: make_column(flags & SAMPLE_FLAGS_PRESENT != 0, defaults.flags)?,
        offset: Column {
            present: flags & SAMPLE_COMPOSITION_TIME_OFFSETS_PRESENT != 0,
            default: 0,
        },
    })
}

/// The offset of the first row of a `trun` with this content.
#[tactic(auto, unfolding(hls_media_laws::specs::Fields::first_flags_offset, hls_media_laws::specs::Fields::rows_offset))]
fn find_rows(run: &[u8]) -> usize
    requires { 8 ≤ length run.now }
    ensures value { result ≡ rows_offset run.now }
    ensures small { result ≤ 16 }
{
    let flags = u32_at(run, 0);
    8 + field_len(flags, DATA_OFFSET_PRESENT) + field_len(flags, FIRST_SAMPLE_FLAGS_PRESENT)
}

/// Whether the fields and the rows of the `trun` with this content are within it.
#[tactic(auto, unfolding(hls_media_laws::specs::Fields::trun_fits, hls_media_laws::specs::Fields::row_len, hls_media_laws::specs::Fields::sample_count, hls_media_laws::specs::Fields::rows_offset, hls_media_laws::specs::Fields::first_flags_offset))]
pub fn trun_fits(run: &[u8]) -> bool
    ensures value { result ≡ rows_fit run.now }
    ensures long { result ≡ true → 8 ≤ length run.now }
{
    if run.len() < 8 {
        return false;
    }
    let flags = u32_at(run, 0);
    let row = field_len(flags, SAMPLE_DURATION_PRESENT)
        + field_len(flags, SAMPLE_SIZE_PRESENT)
        + field_len(flags, SAMPLE_FLAGS_PRESENT)
        + field_len(flags, SAMPLE_COMPOSITION_TIME_OFFSETS_PRESENT);
    find_rows(run) + u32_at(run, 4) as usize * row <= run.len()
}

/// The flags that a `trun` has for its first sample, if it has them.
#[tactic(auto, unfolding(hls_media_laws::specs::Fields::first_flags_of, hls_media_laws::specs::Fields::first_flags_offset, hls_media_laws::specs::Fields::rows_offset))]
fn read_first_flags(run: &[u8]) -> Option<u32>
    requires long { 8 ≤ length run.now }
    requires rows { rows_offset run.now ≤ length run.now }
    ensures { result ≡ first_flags_of run.now }
{
    let flags = u32_at(run, 0);
    let at = 8 + field_len(flags, DATA_OFFSET_PRESENT);
    read_field(run, flags, FIRST_SAMPLE_FLAGS_PRESENT, at)
}

/// Replaces the flags of the first sample.
fn set_first_flags(samples: &mut Vec<Sample>, flags: Option<u32>)
    ensures { samples.new.items ≡ with_first_flags flags samples.old.items }
{
    let Some(flags) = flags else {
        return;
    };
    if !samples.is_empty() {
        samples[0].flags = flags;
    }
}

/// The samples of the `trun` with this content, or None if a field of its samples has no value.
#[tactic(auto, unfolding(hls_mend_laws::specs::FragmentsRead::run_samples, hls_media_laws::specs::Fields::sample_count))]
pub fn read_samples(
    alloc: Global,
    defaults: SampleDefaults,
    run: &[u8],
) -> Result<Option<Vec<Sample>>, AllocError>
    requires long { 8 ≤ length run.now }
    requires room { rows_offset run.now + sample_count run.now * row_len run.now ≤ length run.now }
    ensures { IfOk result (λ o. option_map (λ v. v.items) o ≡ run_samples defaults run.now) }
{
    let Some(format) = read_row_format(defaults, run) else {
        return Ok(None);
    };
    let rows = &run[find_rows(run)..];
    let mut samples = read_rows(alloc, rows, u32_at(run, 4), format)?;
    set_first_flags(&mut samples, read_first_flags(run));
    Ok(Some(samples))
}
