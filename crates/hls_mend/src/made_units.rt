//! Reads the facts of units that mending made.

ghost use Rattle.std.specs.Prelude.{◌≡◌, ◌+◌, option_and_then, option_map, IfOk, IfSome};
ghost use Rattle.hls_media_laws.specs.IsInitOrUnit.{IsUnit};
ghost use Rattle.hls_mend.specs.MendedUnits.{read_as_unit, made_span};

use crate::mended::ReadUnit;
use bytes::Bytes;
use hls_media::read_facts;
use hls_media_laws::facts::Facts;
use hls_media_laws::init::Init;
use std::alloc::AllocError;

/// What was made, with its facts, if it is a unit.
pub fn read_made(init: &Init, made: Option<Vec<u8>>) -> Result<Option<ReadUnit>, AllocError>
    ensures value { IfOk result (λ o. o ≡ option_and_then (read_as_unit init.now) (option_map (λ v. v.items) made)) }
    ensures valid { IfOk result (λ o. IfSome o (λ u. IsUnit init.now u.bytes u.facts)) }
{
    let Some(made) = made else {
        return Ok(None);
    };
    let Ok(facts) = read_facts(init, &made) else {
        return Ok(None);
    };
    let bytes = Bytes::from_vec(made)?;
    Ok(Some(ReadUnit { facts, bytes }))
}

/// The same, if it is a unit from a tick to another.
pub fn read_span(
    init: &Init,
    made: Option<Vec<u8>>,
    start: u64,
    end: u128,
) -> Result<Option<ReadUnit>, AllocError>
    ensures value { IfOk result (λ o. o ≡ made_span init.now start end (option_map (λ v. v.items) made)) }
    ensures valid { IfOk result (λ o. IfSome o (λ u. IsUnit init.now u.bytes u.facts)) }
{
    let Some(unit) = read_made(init, made)? else {
        return Ok(None);
    };
    if unit.facts.start != start || unit_end(unit.facts) != end {
        return Ok(None);
    }
    Ok(Some(unit))
}

/// The end of a unit, in ticks.
pub fn unit_end(facts: Facts) -> u128
    ensures { result ≡ facts.start + facts.duration }
{
    u128::from(facts.start) + u128::from(facts.duration)
}
