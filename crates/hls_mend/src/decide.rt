//! Decides what is recorded for a unit.

ghost use Rattle.std.specs.Prelude.{◌≡◌, [], All, IfOk};
ghost use Rattle.hls_media_laws.specs.IsInitOrUnit.{IsUnit};
ghost use Rattle.hls_mend.specs.MendedUnits.{ticks_of, limits_of, end_of, unit_treatment, as_sent as sent_alone, mended_by as mended_by_treatment, mended_unit, mended_view};

use crate::cuts::cut_unit;
use crate::gap::{fill_gap, is_audio};
use crate::made_units::{read_made, read_span, unit_end};
use crate::mended::{MendedUnit, ReadUnit};
use crate::retime::retime_unit;
use crate::spans::first_duration;
use crate::treat::decide_treatment;
use hls_media_laws::init::Init;
use hls_mend_laws::limits::MendLimits;
use hls_mend_laws::settings::MendSettings;
use hls_mend_laws::treatment::{Treatment, UnitSpan};
use hls_record::Recording;
use std::alloc::{AllocError, Global};

/// A time in ticks; part of a tick is left out.
fn to_ticks(time_us: u32, scale: u32) -> u64
    ensures { result ≡ ticks_of time_us scale }
{
    u64::from(time_us) * u64::from(scale) / 1_000_000
}

/// The limits in ticks of a rendition.
fn limits_for(settings: MendSettings, init: &Init) -> MendLimits
    ensures { result ≡ limits_of settings init.now }
{
    let scale = init.timing_track().scale;
    MendLimits {
        snap: to_ticks(settings.snap_us, scale),
        fill: to_ticks(settings.fill_us, scale),
    }
}

/// The end of a rendition, if it has a unit.
fn find_end(recording: &Recording) -> Option<u64>
    ensures { result ≡ end_of recording.now }
{
    if recording.count() == 0 {
        return None;
    }
    Some(recording.last_end())
}

/// What becomes of a unit. One that starts at the end isn't taken apart.
#[tactic(auto, unfolding(crate::specs::MendedUnits::unit_treatment), using(crate::proofs::KeptLaws::kept_at_end))]
fn treat_unit(
    alloc: Global,
    init: &Init,
    recording: &Recording,
    limits: MendLimits,
    unit: &ReadUnit,
) -> Result<Treatment, AllocError>
    ensures { IfOk result (λ t. t ≡ unit_treatment init.now recording.now limits unit.now) }
{
    if find_end(recording) == Some(unit.facts.start) {
        return Ok(Treatment::Keep);
    }
    let Some(first) = first_duration(alloc, init, &unit.bytes)? else {
        return Ok(Treatment::Keep);
    };
    let span = UnitSpan {
        start: unit.facts.start,
        duration: unit.facts.duration,
        first,
        may_be_cut: is_audio(init),
    };
    Ok(decide_treatment(limits, find_end(recording), span))
}

/// The unit as it was sent.
fn as_sent(alloc: Global, unit: ReadUnit) -> MendedUnit
    ensures value { mended_view result ≡ sent_alone unit }
    ensures same { result.unit ≡ unit }
    ensures none { result.fillers.items ≡ [] }
{
    MendedUnit {
        fillers: Vec::new(alloc),
        unit,
        is_changed: false,
    }
}

/// What is recorded for a unit with a treatment other than Cut.
#[tactic(auto, unfolding(crate::specs::MendedUnits::mended_by))]
fn mend_by(
    alloc: Global,
    bandwidth: u64,
    treatment: Treatment,
    init: &Init,
    recording: &Recording,
    unit: ReadUnit,
) -> Result<MendedUnit, AllocError>
    requires { IsUnit init.now unit.bytes unit.facts }
    ensures value { IfOk result (λ m. mended_view m ≡ mended_by_treatment bandwidth treatment init.now recording.now unit) }
    ensures valid { IfOk result (λ m. IsUnit init.now m.unit.bytes m.unit.facts) }
    ensures filled { IfOk result (λ m. All (λ u. IsUnit init.now u.bytes u.facts) m.fillers.items) }
{
    match treatment {
        Treatment::Retime => {
            let start = recording.last_end();
            let made = retime_unit(alloc, init, &unit.bytes, start)?;
            match read_span(init, made, start, unit_end(unit.facts))? {
                Some(made) => Ok(MendedUnit {
                    fillers: Vec::new(alloc),
                    unit: made,
                    is_changed: true,
                }),
                None => Ok(as_sent(alloc, unit)),
            }
        }
        Treatment::Fill => {
            let fillers = fill_gap(alloc, init, recording, bandwidth, unit.facts)?;
            Ok(MendedUnit {
                fillers,
                unit,
                is_changed: false,
            })
        }
        _ => Ok(as_sent(alloc, unit)),
    }
}

/// What is recorded for a unit, given its rendition's recording and declared bit rate in bits per second: the unit as it was sent if it
/// starts at the end of the recording, or if mending can't write it again.
#[tactic(auto, unfolding(crate::specs::MendedUnits::mended_unit))]
pub fn mend_unit(
    alloc: Global,
    settings: MendSettings,
    bandwidth: u64,
    init: &Init,
    recording: &Recording,
    unit: ReadUnit,
) -> Result<MendedUnit, AllocError>
    requires { IsUnit init.now unit.bytes unit.facts }
    ensures value { IfOk result (λ m. mended_view m ≡ mended_unit settings bandwidth init.now recording.now unit) }
    ensures valid { IfOk result (λ m. IsUnit init.now m.unit.bytes m.unit.facts) }
    ensures filled { IfOk result (λ m. All (λ u. IsUnit init.now u.bytes u.facts) m.fillers.items) }
{
    let limits = limits_for(settings, init);
    let treatment = treat_unit(alloc, init, recording, limits, &unit)?;
    if treatment != Treatment::Cut {
        return mend_by(alloc, bandwidth, treatment, init, recording, unit);
    }
    let made = cut_unit(alloc, init, &unit.bytes, limits.snap, recording.last_end())?;
    let Some(rest) = read_made(init, made)? else {
        return Ok(as_sent(alloc, unit));
    };
    let treatment = treat_unit(alloc, init, recording, limits, &rest)?;
    let mut mended = mend_by(alloc, bandwidth, treatment, init, recording, rest)?;
    mended.is_changed = true;
    Ok(mended)
}
