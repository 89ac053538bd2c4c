//! Moves the start of a unit.

ghost use Rattle.std.specs.Prelude.{◌≡◌, option_map, IfOk};
ghost use Rattle.hls_mend_laws.specs.Retimed.{retimed_unit, new_duration as duration_from};

use crate::fragment::read_fragment;
use crate::write::{FragmentParts, write_unit};
use hls_media_laws::init::Init;
use std::alloc::{AllocError, Global};

/// The duration of a first sample that starts at `start` and ends as the sample does that lasts `first` from `sent`: above 0, and of 32 bits.
fn compute_duration(sent: u64, first: u32, start: u64) -> Option<u32>
    ensures { result ≡ duration_from sent first start }
{
    let duration = (u128::from(sent) + u128::from(first)).checked_sub(u128::from(start))?;
    if duration == 0 || duration >= 1 << 32 {
        return None;
    }
    Some(duration as u32)
}

/// The unit that starts at `start` instead, with the same samples, the same bytes and the same end: the duration of its first sample
/// absorbs the difference. None if mending can't write the unit again, if its first sample would end at or before `start` or last 2^32
/// ticks or more, or if the unit would be longer than a unit may be.
#[tactic(auto, unfolding(hls_mend_laws::specs::Retimed::retimed_unit))]
pub fn retime_unit(
    alloc: Global,
    init: &Init,
    unit: &[u8],
    start: u64,
) -> Result<Option<Vec<u8>>, AllocError>
    ensures { IfOk result (λ o. option_map (λ v. v.items) o ≡ retimed_unit init.now unit.now start) }
{
    let Some(mut fragment) = read_fragment(alloc, init, unit)? else {
        return Ok(None);
    };
    if fragment.samples.is_empty() {
        return Ok(None);
    }
    let Some(duration) = compute_duration(fragment.start, fragment.samples[0].duration, start)
    else {
        return Ok(None);
    };
    fragment.samples[0].duration = duration;
    let parts = FragmentParts {
        front: &fragment.front,
        number: fragment.number,
        head: fragment.head,
        start,
        samples: &fragment.samples,
        payload: fragment.payload,
    };
    write_unit(alloc, parts)
}
