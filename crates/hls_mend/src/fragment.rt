//! Fragments: what a unit of one track fragment says.

ghost use Rattle.std.specs.Prelude.{◌≡◌, ◌≤◌, ◌==◌, true, nat_le, ◌&&◌, if◌then◌else◌, Some, None, option_map, length, IfOk, IfSome};
ghost use Rattle.std.specs.List.{list_all};
ghost use Rattle.hls_mend_laws.specs.Fragments.{total_size};
ghost use Rattle.hls_media_laws.specs.Fields.{tfdt_fits, decode_time, tfhd_fits as fields_fit_tfhd, trun_fits as rows_fit, sample_count};
ghost use Rattle.hls_mend_laws.specs.FragmentsRead.{most_samples, keeps_offset, fragment_from, fragment_of};
ghost use Rattle.hls_mend.specs.Views.{fragment_view, unit_view};

use crate::samples::{read_defaults, read_samples, tfhd_fits, trun_fits};
use crate::unit_parts::{TrafParts, UnitParts, split_unit};
use hls_boxes::numbers::{u32_at, u64_at};
use hls_media_laws::init::Init;
use hls_media_laws::track::Track;
use hls_mend_laws::sample::Sample;
use std::alloc::{AllocError, Global};

/// What a unit of one track fragment says.
#[derive(Drop)]
pub struct Fragment<'a> {
    /// The boxes before the `moof`.
    pub front: Vec<u8>,
    /// The sequence number.
    pub number: u32,
    /// The content of the `tfhd`.
    pub head: &'a [u8],
    /// The start in ticks.
    pub start: u64,
    pub samples: Vec<Sample>,
    /// The samples' bytes.
    pub payload: &'a [u8],
}

/// The time in a `tfdt` with this content, if its version is known and the field is within it.
#[tactic(auto, unfolding(hls_media_laws::specs::Fields::tfdt_fits, hls_media_laws::specs::Fields::decode_time))]
fn read_time(time: &[u8]) -> Option<u64>
    ensures { result ≡ if tfdt_fits time.now then Some (decode_time time.now) else None }
{
    if time.len() < 8 {
        return None;
    }
    if time[0] == 0 {
        return Some(u64::from(u32_at(time, 4)));
    }
    if time[0] != 1 || time.len() < 12 {
        return None;
    }
    Some(u64_at(time, 4))
}

/// Whether the samples have exactly this many bytes.
fn fill(samples: &[Sample], len: usize) -> bool
    ensures { result ≡ (total_size samples.now == len) }
{
    let mut left = len;
    for sample in samples {
        if sample.size as usize > left {
            return false;
        }
        left -= sample.size as usize;
    }
    left == 0
}

/// Whether the offsets mean the same in a `trun` of version 1.
fn keep_offsets(is_signed: bool, samples: &[Sample]) -> bool
    ensures { result ≡ list_all (keeps_offset is_signed) samples.now }
{
    samples
        .iter()
        .all(|sample| is_signed || sample.offset < 1 << 31)
}

/// The most samples of a unit that is taken apart.
const MOST_SAMPLES: u32 = 65536;

/// Whether the fields that are read are within their boxes, and there are no more samples than bytes, and no more than are taken apart.
#[tactic(auto, unfolding(hls_media_laws::specs::Fields::sample_count))]
fn can_be_read(traf: TrafParts<'_>, len: usize) -> bool
    ensures head { result ≡ true → 8 ≤ length traf.entry.head.now }
    ensures run { result ≡ true → 8 ≤ length traf.entry.run.now }
    ensures value { result ≡ (fields_fit_tfhd traf.entry.head.now && (rows_fit traf.entry.run.now && (nat_le (sample_count traf.entry.run.now) len && nat_le (sample_count traf.entry.run.now) most_samples))) }
{
    if !tfhd_fits(traf.head) {
        return false;
    }
    if !trun_fits(traf.run) {
        return false;
    }
    let count = u32_at(traf.run, 4);
    count as usize <= len && count <= MOST_SAMPLES
}

/// The fragment with these parts, if its fields are within their boxes and its samples fill the `mdat`.
#[tactic(auto, using(crate::proofs::RunSteps::rows_within))]
fn read_parts<'a>(
    alloc: Global,
    tracks: &[Track],
    parts: UnitParts<'a>,
) -> Result<Option<Fragment<'a>>, AllocError>
    ensures { IfOk result (λ o. option_map fragment_view o ≡ fragment_from tracks.now (unit_view parts.entry)) }
{
    let traf = parts.moof.traf;
    let Some(start) = read_time(traf.time) else {
        return Ok(None);
    };
    if !can_be_read(traf, parts.payload.len()) {
        return Ok(None);
    }
    let Some(samples) = read_samples(alloc, read_defaults(tracks, traf.head), traf.run)? else {
        return Ok(None);
    };
    if !fill(&samples, parts.payload.len()) || !keep_offsets(traf.run[0] > 0, &samples) {
        return Ok(None);
    }
    Ok(Some(Fragment {
        front: parts.front,
        number: parts.moof.number,
        head: traf.head,
        start,
        samples,
        payload: parts.payload,
    }))
}

/// The fragment that a unit is, or None if mending can't write the unit again.
#[tactic(auto, unfolding(hls_mend_laws::specs::FragmentsRead::fragment_of))]
pub fn read_fragment<'a>(
    alloc: Global,
    init: &Init,
    unit: &'a [u8],
) -> Result<Option<Fragment<'a>>, AllocError>
    ensures value { IfOk result (λ o. option_map fragment_view o ≡ fragment_of init.now unit.now) }
    ensures filled { IfOk result (λ o. IfSome o (λ f. total_size f.samples.items ≡ length f.payload.now)) }
{
    let Some(parts) = split_unit(alloc, unit)? else {
        return Ok(None);
    };
    read_parts(alloc, init.tracks(), parts)
}
