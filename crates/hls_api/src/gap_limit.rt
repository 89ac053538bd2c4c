//! How long a gap of a rendition may be to be filled: longer if another rendition continues over it.

ghost use Rattle.std.specs.Prelude.{◌≡◌, ◌<◌, length};
ghost use Rattle.std.specs.Option.{option_copied};
ghost use Rattle.hls_core.specs.Getters.{recording_of};
ghost use Rattle.hls_media_laws.specs.FactLists.{fact_at};
ghost use Rattle.hls_api.specs.GapLimits.{any_continues, continues_over as continues_over_gap, gap_limit as limit_of_gap, is_joined as units_are_joined, is_own_gap as is_gap_alone, reaches_back as units_reach_back, reaches_in, settings_for as settings_of_unit};
ghost use Rattle.hls_api.specs.Jumps.{is_ahead_by};

use crate::encoder_readings::{end_us, is_ahead_of_end};
use hls_core::snapshot::Snapshot;
use hls_media_laws::facts::Facts;
use hls_mend::is_ahead_of_channel;
use hls_mend_laws::settings::MendSettings;
use hls_record::Recording;

/// The number of units of a rendition that are looked at.
const MOST_UNITS: u64 = 4096;

/// The facts of unit `n`.
fn facts_at(recording: &Recording, n: u64) -> Facts
    requires { n < length recording.now.facts }
    ensures { result ≡ fact_at recording.now.facts n }
{
    match recording.facts(n) {
        Some(facts) => facts,
        None => unreachable!(),
    }
}

/// Whether unit `n` starts where the one before it ends.
fn is_joined(recording: &Recording, n: u64) -> bool
    requires { n < length recording.now.facts }
    ensures { result ≡ units_are_joined recording.now.facts n }
{
    if n == 0 {
        return false;
    }
    let before = facts_at(recording, n - 1);
    let end = u128::from(before.start) + u128::from(before.duration);
    end == u128::from(facts_at(recording, n).start)
}

/// Whether the last units of a recording reach back to a moment, in microseconds, without a hole.
fn reaches_back(recording: &Recording, from_us: u64) -> bool
    ensures { result ≡ units_reach_back 4096 recording.now.facts from_us (length recording.now.facts) }
{
    let mut count = recording.count();
    let mut left = MOST_UNITS;
    'units: while left > 0 {
        if count == 0 {
            return false;
        }
        count -= 1;
        left -= 1;
        if facts_at(recording, count).start_us <= from_us {
            return true;
        }
        if !is_joined(recording, count) {
            return false;
        }
    }
    false
}

/// The same for a rendition that may not have begun.
fn has_since(recording: Option<&Recording>, from_us: u64) -> bool
    ensures { result ≡ reaches_in from_us (option_copied recording.entry) }
{
    match recording {
        Some(recording) => reaches_back(recording, from_us),
        None => false,
    }
}

/// Whether a rendition continues over a gap.
fn continues_over(
    fill_us: u32,
    from_us: u64,
    to_us: u64,
    snapshot: &Snapshot,
    rendition: usize,
) -> bool
    ensures { result ≡ continues_over_gap fill_us from_us to_us (recording_of snapshot.now rendition) }
{
    !is_ahead_of_end(fill_us, end_us(snapshot, rendition), to_us)
        && has_since(snapshot.recording(rendition), from_us)
}

/// Whether one of the renditions continues over a gap.
#[tactic(auto, using(crate::proofs::GapSteps::any_next, crate::proofs::GapSteps::any_zero))]
fn is_continued(fill_us: u32, from_us: u64, to_us: u64, snapshot: &Snapshot) -> bool
    ensures { result ≡ any_continues fill_us from_us to_us snapshot.now (length snapshot.now.config.renditions) }
{
    let mut found = false;
    for rendition in 0..snapshot.config().renditions().len() {
        found = found || continues_over(fill_us, from_us, to_us, snapshot, rendition);
    }
    found
}

/// Whether a gap is longer than `fill_us`, and another rendition continues over it.
fn is_own_gap(fill_us: u32, from_us: u64, to_us: u64, snapshot: &Snapshot) -> bool
    ensures { result ≡ is_gap_alone fill_us from_us to_us snapshot.now }
{
    is_ahead_of_channel(u64::from(fill_us), from_us, to_us)
        && is_continued(fill_us, from_us, to_us, snapshot)
}

/// The settings by which a unit of a rendition that starts at `start_us` is mended: a gap of up to ten times `fill_us` is filled if another
/// rendition continues over it, since then it is the encoder's own. Otherwise all stopped, and the channel continues after a hole.
pub fn settings_for(
    settings: MendSettings,
    snapshot: &Snapshot,
    rendition: usize,
    start_us: u64,
) -> MendSettings
    ensures { result ≡ settings_of_unit settings snapshot.now rendition start_us }
{
    let fill_us = settings.fill_us;
    let Some(end_us) = end_us(snapshot, rendition) else {
        return settings;
    };
    if !is_own_gap(fill_us, end_us, start_us, snapshot) {
        return settings;
    }
    MendSettings {
        snap_us: settings.snap_us,
        fill_us: fill_us.saturating_mul(10),
    }
}
