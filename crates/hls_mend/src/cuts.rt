//! Removes leading samples of audio units.

ghost use Rattle.std.specs.Prelude.{◌≡◌, ◌<◌, ◌≤◌, ◌^◌, ℕ, List, length, drop, option_map, IfOk, IfSome};
ghost use Rattle.hls_mend_laws.specs.Fragments.{Fragment, total_size};
ghost use Rattle.hls_mend_laws.specs.Cuts.{is_cut as is_leading, cut_from, rest_of, cut_unit as unit_without_leading};

use crate::fragment::read_fragment;
use crate::write::{FragmentParts, write_unit};
use hls_media_laws::init::Init;
use hls_mend_laws::sample::Sample;
use std::alloc::{AllocError, Global};

/// Whether a sample that starts at `start` is cut where the rendition ends at `end`.
fn is_cut(snap: u64, end: u64, start: u64, sample: Sample) -> bool
    ensures { result ≡ is_leading snap end start sample }
{
    start <= end && (end - start > snap || end - start >= u64::from(sample.duration))
}

/// The first samples that are cut: their number, their end in ticks, and their bytes.
#[derive(Clone, Copy)]
pub struct Leading {
    pub count: usize,
    pub end: u64,
    pub len: usize,
}

/// The leading samples that are cut, or None if all are.
fn find_leading(samples: &[Sample], start: u64, snap: u64, end: u64) -> Option<Leading>
    requires { total_size samples.now < 2 ^ 64 }
    ensures value { (f : Fragment) (payload : List ℕ) → option_map (λ l. rest_of f l.end (drop l.count samples.now) (drop l.len payload)) result ≡ cut_from snap end f start samples.now payload }
    ensures count { IfSome result (λ l. l.count ≤ length samples.now) }
    ensures within { IfSome result (λ l. l.len ≤ total_size samples.now) }
{
    let mut leading = Leading {
        count: 0,
        end: start,
        len: 0,
    };
    for sample in samples {
        if !is_cut(snap, end, leading.end, *sample) {
            return Some(leading);
        }
        leading.count += 1;
        leading.end = leading.end.checked_add(u64::from(sample.duration))?;
        leading.len += sample.size as usize;
    }
    None
}

/// The unit without its leading samples that start more than `snap` before `end`, or end at or before it. None if no sample is left or
/// mending can't write the unit again. The samples of audio don't depend on each other.
#[tactic(auto, unfolding(hls_mend_laws::specs::Cuts::cut_unit))]
pub fn cut_unit(
    alloc: Global,
    init: &Init,
    unit: &[u8],
    snap: u64,
    end: u64,
) -> Result<Option<Vec<u8>>, AllocError>
    ensures { IfOk result (λ o. option_map (λ v. v.items) o ≡ unit_without_leading init.now unit.now snap end) }
{
    let Some(fragment) = read_fragment(alloc, init, unit)? else {
        return Ok(None);
    };
    let Some(leading) = find_leading(&fragment.samples, fragment.start, snap, end) else {
        return Ok(None);
    };
    let parts = FragmentParts {
        front: &fragment.front,
        number: fragment.number,
        head: fragment.head,
        start: leading.end,
        samples: &fragment.samples[leading.count..],
        payload: &fragment.payload[leading.len..],
    };
    write_unit(alloc, parts)
}
