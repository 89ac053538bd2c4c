//! Which units are ahead of the channel, and whether one that is ahead is accepted, by what was read of the encoders.

ghost use Rattle.std.specs.Prelude.{◌≡◌, ◌<◌, length};
ghost use Rattle.hls_core.specs.Getters.{recording_of};
ghost use Rattle.hls_api.specs.Jumps.{ahead_in, channel_end as end_of_channel, counted_start as start_that_counts, end_of_other, end_us_in, is_accepted_by, is_accepted_unit, is_ahead_by, is_ahead_in, is_open_at, is_unit_ahead as unit_is_ahead, later as later_of, longest_us as longest_of_units, may_be_ahead as unit_may_be_ahead, newest_of_others, other_presences, presence_of, target_us as target_of};

use hls_core::snapshot::Snapshot;
use hls_media_laws::facts::Facts;
use hls_mend::{is_accepted_jump, is_ahead_of_channel};
use hls_mend_laws::presence::Presence;

/// The most renditions of a channel.
pub const MOST_RENDITIONS: usize = 16;

/// Microseconds per second.
const SECOND: u64 = 1_000_000;

/// What was read of the encoders of a channel's renditions at one moment. Times are readings of one monotonic clock, in microseconds.
#[derive(Clone, Copy, Drop)]
pub struct EncoderReadings {
    /// The moment.
    pub now_us: u64,
    /// An encoder that wasn't heard for longer is away.
    pub wait_us: u64,
    /// For each rendition, when its last unit arrived that wasn't ahead of the channel, recorded or not, or a later moment if its encoder
    /// may be about to come back; 0 if none did.
    pub heard_us: [u64; MOST_RENDITIONS],
    /// For each rendition, whether its last unit was refused as ahead of the channel.
    pub are_ahead: [bool; MOST_RENDITIONS],
}

impl EncoderReadings {
    /// Nothing was ever heard of any encoder, so all are away.
    pub fn silence() -> EncoderReadings {
        EncoderReadings {
            now_us: 1,
            wait_us: 0,
            heard_us: [0; MOST_RENDITIONS],
            are_ahead: [false; MOST_RENDITIONS],
        }
    }
}

/// The later of two moments, as far as they are known.
fn later(first: Option<u64>, second: Option<u64>) -> Option<u64>
    ensures { result ≡ later_of first second }
{
    match (first, second) {
        (Some(first), Some(second)) => Some(first.max(second)),
        (Some(first), None) => Some(first),
        (None, second) => second,
    }
}

/// The end of a rendition's last unit in microseconds.
pub(crate) fn end_us(snapshot: &Snapshot, rendition: usize) -> Option<u64>
    ensures { result ≡ end_us_in (recording_of snapshot.now rendition) }
{
    let recording = snapshot.recording(rendition)?;
    let facts = recording.facts(recording.count().saturating_sub(1))?;
    Some(facts.end_us)
}

/// The end of another rendition's last unit in microseconds. None for the rendition itself.
fn other_end(snapshot: &Snapshot, rendition: usize, other: usize) -> Option<u64>
    ensures { result ≡ end_of_other snapshot.now rendition other }
{
    if other == rendition {
        return None;
    }
    end_us(snapshot, other)
}

/// The newest end of the other renditions in microseconds.
#[tactic(auto, using(crate::proofs::JumpSteps::newest_next, crate::proofs::JumpSteps::newest_zero))]
fn find_newest_end(snapshot: &Snapshot, rendition: usize) -> Option<u64>
    ensures { result ≡ newest_of_others snapshot.now rendition (length snapshot.now.config.renditions) }
{
    let mut newest = None;
    for other in 0..snapshot.config().renditions().len() {
        newest = later(newest, other_end(snapshot, rendition, other));
    }
    newest
}

/// The end by which a unit of the rendition is ahead: the newest one of the other renditions, or its own if no other has a unit.
fn channel_end(snapshot: &Snapshot, rendition: usize) -> Option<u64>
    ensures { result ≡ end_of_channel snapshot.now rendition }
{
    match find_newest_end(snapshot, rendition) {
        Some(newest) => Some(newest),
        None => end_us(snapshot, rendition),
    }
}

/// Whether a moment is ahead of an end: more than `fill_us` after it. None is if there is no end.
pub(crate) fn is_ahead_of_end(fill_us: u32, end_us: Option<u64>, start_us: u64) -> bool
    ensures { result ≡ is_ahead_by fill_us end_us start_us }
{
    match end_us {
        Some(end_us) => is_ahead_of_channel(u64::from(fill_us), end_us, start_us),
        None => false,
    }
}

/// Whether a moment is ahead of the channel for the rendition: more than `fill_us` after the newest end of the other renditions, or after its
/// own if no other has a unit. None is before the channel's first unit.
fn is_ahead(fill_us: u32, snapshot: &Snapshot, rendition: usize, start_us: u64) -> bool
    ensures { result ≡ is_ahead_in fill_us snapshot.now rendition start_us }
{
    is_ahead_of_end(fill_us, channel_end(snapshot, rendition), start_us)
}

/// The target duration in microseconds.
fn target_us(snapshot: &Snapshot) -> u64
    ensures { result ≡ target_of snapshot.now }
{
    snapshot.config().target() * SECOND
}

/// How long a unit may last without being ahead by its end, in microseconds: the target, or the time for which an encoder may be silent.
fn longest_us(snapshot: &Snapshot, readings: &EncoderReadings) -> u64
    ensures { result ≡ longest_of_units snapshot.now readings.now }
{
    target_us(snapshot).max(readings.wait_us)
}

/// The moment by which a unit is ahead: its start, or, if it lasts for more than `most_us`, the moment that long before its end.
fn counted_start(most_us: u64, facts: Facts) -> u64
    ensures { result ≡ start_that_counts most_us facts }
{
    facts.start_us.max(facts.end_us.saturating_sub(most_us))
}

/// Whether a unit of the rendition may be ahead of the channel: it starts more than `fill_us` after the newest end of the other renditions,
/// or after its own if no other has a unit, or ends more than `fill_us` and the target after it. None may be before the channel's first unit.
pub fn may_be_ahead(fill_us: u32, snapshot: &Snapshot, rendition: usize, facts: Facts) -> bool
    ensures { result ≡ unit_may_be_ahead fill_us snapshot.now rendition facts }
{
    let start_us = counted_start(target_us(snapshot), facts);
    is_ahead(fill_us, snapshot, rendition, start_us)
}

/// How far after that end a unit of the rendition counts, in microseconds: from its start, or from a target before its end if that is later.
pub fn ahead_us(snapshot: &Snapshot, rendition: usize, facts: Facts) -> u64
    ensures { result ≡ ahead_in snapshot.now rendition (start_that_counts (target_of snapshot.now) facts) }
{
    let start_us = counted_start(target_us(snapshot), facts);
    match channel_end(snapshot, rendition) {
        Some(newest) => start_us.saturating_sub(newest),
        None => 0,
    }
}

/// Whether a unit of the rendition is ahead of the channel: as [`may_be_ahead`], but one that lasts no longer than an encoder may be silent
/// is ahead by its start alone.
fn is_unit_ahead(
    fill_us: u32,
    snapshot: &Snapshot,
    rendition: usize,
    facts: Facts,
    readings: &EncoderReadings,
) -> bool
    ensures { result ≡ unit_is_ahead fill_us snapshot.now rendition facts readings.now }
{
    let start_us = counted_start(longest_us(snapshot, readings), facts);
    is_ahead(fill_us, snapshot, rendition, start_us)
}

/// Whether a rendition has begun and isn't finished.
fn is_open(snapshot: &Snapshot, rendition: usize) -> bool
    ensures { result ≡ is_open_at snapshot.now rendition }
{
    matches!(
        (
            snapshot.recording(rendition),
            snapshot.is_finished(rendition)
        ),
        (Some(_), Some(false))
    )
}

/// The presence of a rendition's encoder, as another one sees it: its own isn't open.
fn presence(
    snapshot: &Snapshot,
    rendition: usize,
    readings: &EncoderReadings,
    other: usize,
) -> Presence
    requires { other < 16 }
    ensures { result ≡ presence_of snapshot.now rendition readings.now other }
{
    Presence {
        is_open: other != rendition && is_open(snapshot, other),
        heard_us: readings.heard_us[other],
        is_ahead: readings.are_ahead[other],
    }
}

/// The presences of the other renditions' encoders.
#[tactic(auto, using(crate::proofs::JumpSteps::presences_done))]
fn find_presences(
    snapshot: &Snapshot,
    rendition: usize,
    readings: &EncoderReadings,
) -> [Presence; MOST_RENDITIONS]
    ensures { result ≡ other_presences snapshot.now rendition readings.now }
{
    let nobody = Presence {
        is_open: false,
        heard_us: 0,
        is_ahead: false,
    };
    let mut presences = [nobody; MOST_RENDITIONS];
    for other in 0..MOST_RENDITIONS {
        presences[other] = presence(snapshot, rendition, readings, other);
    }
    presences
}

/// Whether a unit of the rendition that is ahead of the channel is accepted: each other rendition that is open is ahead itself or away.
fn is_jump_accepted(snapshot: &Snapshot, rendition: usize, readings: &EncoderReadings) -> bool
    ensures { result ≡ is_accepted_by snapshot.now rendition readings.now }
{
    let others = find_presences(snapshot, rendition, readings);
    is_accepted_jump(readings.wait_us, readings.now_us, others.as_slice())
}

/// Whether a unit of the rendition is accepted: it isn't ahead of the channel, or each other rendition that is open is ahead itself or away.
pub fn is_accepted(
    fill_us: u32,
    snapshot: &Snapshot,
    rendition: usize,
    facts: Facts,
    readings: &EncoderReadings,
) -> bool
    ensures { result ≡ is_accepted_unit fill_us snapshot.now rendition facts readings.now }
{
    !is_unit_ahead(fill_us, snapshot, rendition, facts, readings)
        || is_jump_accepted(snapshot, rendition, readings)
}
