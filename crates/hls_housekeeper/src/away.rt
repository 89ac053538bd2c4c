//! Which renditions are away, how far the others have come, and which of these leads.

ghost use Rattle.std.specs.Prelude.{◌≡◌, if◌then◌else◌, Some, None, length};
ghost use Rattle.std.specs.Option.{option_copied, option_map, option_or};
ghost use Rattle.hls_mend.specs.MendedUnits.{is_audio as is_audio_init};
ghost use Rattle.hls_housekeeper.specs.Away.{away_at, earlier as earlier_of, end_us_of, first_of, is_present as is_present_at, is_present_video as is_present_video_at, is_silent as is_silent_at, leader, least_end as least_end_of, open_at, present_at};

use hls_core::snapshot::Snapshot;
use hls_record::Recording;

/// The handler of audio, `soun` (ISO/IEC 14496-12 8.4.3).
const AUDIO_HANDLER: u32 = 0x736f_756e;

/// Whether the timing track of a recording is audio.
pub fn is_audio(recording: &Recording) -> bool
    ensures { result ≡ is_audio_init recording.now.init }
{
    recording.init().timing_track().handler == AUDIO_HANDLER
}

/// The recording of a rendition that has begun and isn't finished.
fn open_recording(snapshot: &Snapshot, rendition: usize) -> Option<&Recording>
    ensures { option_copied result ≡ open_at snapshot.now rendition }
{
    if snapshot.is_finished(rendition) == Some(true) {
        return None;
    }
    snapshot.recording(rendition)
}

/// Whether nothing was heard of the rendition's encoder for too long.
fn is_silent(silent: &[bool], rendition: usize) -> bool
    ensures { result ≡ is_silent_at silent.now rendition }
{
    rendition < silent.len() && silent[rendition]
}

/// The recording of a rendition whose encoder is there.
pub fn present_recording<'a>(
    snapshot: &'a Snapshot,
    silent: &[bool],
    rendition: usize,
) -> Option<&'a Recording>
    ensures { option_copied result ≡ present_at snapshot.now silent.now rendition }
{
    if is_silent(silent, rendition) {
        return None;
    }
    open_recording(snapshot, rendition)
}

/// The recording of a rendition that is away.
pub fn away_recording<'a>(
    snapshot: &'a Snapshot,
    silent: &[bool],
    rendition: usize,
) -> Option<&'a Recording>
    ensures { option_copied result ≡ away_at snapshot.now silent.now rendition }
{
    if !is_silent(silent, rendition) {
        return None;
    }
    open_recording(snapshot, rendition)
}

/// The end of the last unit in microseconds; 0 if there is none.
#[tactic(auto, using(crate::proofs::FillLaws::end_missing))]
pub fn end_us(recording: &Recording) -> u64
    ensures { result ≡ end_us_of recording.now }
{
    match recording.facts(recording.count().saturating_sub(1)) {
        Some(facts) => facts.end_us,
        None => 0,
    }
}

/// The number of renditions.
pub fn rendition_count(snapshot: &Snapshot) -> usize
    ensures { result ≡ length snapshot.now.config.renditions }
{
    snapshot.config().renditions().len()
}

/// The earlier of two moments, as far as they are known.
fn earlier(first: Option<u64>, second: Option<u64>) -> Option<u64>
    ensures { result ≡ earlier_of first second }
{
    match (first, second) {
        (Some(first), Some(second)) => Some(first.min(second)),
        (Some(first), None) => Some(first),
        (None, second) => second,
    }
}

/// The end of a rendition whose encoder is there.
fn present_end(snapshot: &Snapshot, silent: &[bool], rendition: usize) -> Option<u64>
    ensures { result ≡ option_map end_us_of (present_at snapshot.now silent.now rendition) }
{
    match present_recording(snapshot, silent, rendition) {
        Some(recording) => Some(end_us(recording)),
        None => None,
    }
}

/// The least end of the renditions whose encoders are there, in microseconds.
#[tactic(auto, using(crate::proofs::FillLaws::least_next, crate::proofs::FillLaws::least_zero))]
pub fn least_end(snapshot: &Snapshot, silent: &[bool]) -> Option<u64>
    ensures { result ≡ least_end_of snapshot.now silent.now (length snapshot.now.config.renditions) }
{
    let mut least = None;
    for rendition in 0..rendition_count(snapshot) {
        least = earlier(least, present_end(snapshot, silent, rendition));
    }
    least
}

/// Whether a rendition is video and its encoder is there.
fn is_present_video(snapshot: &Snapshot, silent: &[bool], rendition: usize) -> bool
    ensures { result ≡ is_present_video_at snapshot.now silent.now rendition }
{
    match present_recording(snapshot, silent, rendition) {
        Some(recording) => !is_audio(recording),
        None => false,
    }
}

/// What was found before, or else the rendition if it passes.
fn keep_first(found: Option<usize>, passes: bool, rendition: usize) -> Option<usize>
    ensures { result ≡ option_or found (if passes then Some rendition else None) }
{
    match found {
        Some(found) => Some(found),
        None if passes => Some(rendition),
        None => None,
    }
}

/// The first video whose encoder is there.
#[tactic(auto, using(crate::proofs::FillLaws::first_next, crate::proofs::FillLaws::first_zero))]
fn find_present_video(snapshot: &Snapshot, silent: &[bool]) -> Option<usize>
    ensures { result ≡ first_of (is_present_video_at snapshot.now silent.now) (length snapshot.now.config.renditions) }
{
    let mut found = None;
    for rendition in 0..rendition_count(snapshot) {
        let passes = is_present_video(snapshot, silent, rendition);
        found = keep_first(found, passes, rendition);
    }
    found
}

/// The first rendition whose encoder is there.
#[tactic(auto, using(crate::proofs::FillLaws::first_next, crate::proofs::FillLaws::first_zero))]
fn find_present(snapshot: &Snapshot, silent: &[bool]) -> Option<usize>
    ensures { result ≡ first_of (is_present_at snapshot.now silent.now) (length snapshot.now.config.renditions) }
{
    let mut found = None;
    for rendition in 0..rendition_count(snapshot) {
        let passes = present_recording(snapshot, silent, rendition).is_some();
        found = keep_first(found, passes, rendition);
    }
    found
}

/// The rendition whose boundaries the others are filled to.
pub fn find_leader(snapshot: &Snapshot, silent: &[bool]) -> Option<usize>
    ensures { result ≡ leader snapshot.now silent.now (length snapshot.now.config.renditions) }
{
    match find_present_video(snapshot, silent) {
        Some(rendition) => Some(rendition),
        None => find_present(snapshot, silent),
    }
}
