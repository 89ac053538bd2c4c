//! What a unit's treatment depends on, beside its facts.

ghost use Rattle.std.specs.Prelude.{◌≡◌, IfOk};
ghost use Rattle.hls_mend.specs.Spans.{first_duration as duration_of_first};

use crate::fragment::read_fragment;
use hls_media_laws::init::Init;
use std::alloc::{AllocError, Global};

/// The duration of a unit's first sample in ticks. None if mending can't write the unit again.
#[tactic(auto, unfolding(crate::specs::Spans::first_duration))]
pub fn first_duration(alloc: Global, init: &Init, unit: &[u8]) -> Result<Option<u32>, AllocError>
    ensures { IfOk result (λ o. o ≡ duration_of_first init.now unit.now) }
{
    let Some(fragment) = read_fragment(alloc, init, unit)? else {
        return Ok(None);
    };
    if fragment.samples.is_empty() {
        return Ok(None);
    }
    Ok(Some(fragment.samples[0].duration))
}
