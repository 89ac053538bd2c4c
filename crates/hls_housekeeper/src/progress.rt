//! The part of a channel's end that the housekeeper inspects: the last units of its renditions, and the last hundred sync samples
//! of the first one, with the places and the live segments that contain them.

use crate::coverage::UnitRange;
use crate::lag::{MediaExtent, RenditionProgress};
use crate::nearest_sync::find_sync_before;
use arrayvec::ArrayVec;
use hls_core::snapshot::Snapshot;
use hls_core_laws::rendition::Rendition;
use hls_places::{Place, time_of};
use hls_record::Recording;

/// The most renditions that a channel has.
pub const MOST_RENDITIONS: usize = 16;

/// The number of sync samples that are inspected.
pub const MANY: usize = 100;

/// The most units that are looked at to find them.
const MOST_LOOKS: u64 = 16384;

/// Returns the start of the last place, in microseconds of the channel's time; 0 if there is none.
pub fn channel_time(snapshot: &Snapshot) -> u64 {
    let places = snapshot.places();
    match places.get(places.next().saturating_sub(1)) {
        Some(place) => time_of(place),
        None => 0,
    }
}

/// Returns the time range of a recording: up to its last sync sample, since a unit that lasts for hours brings no later place.
fn find_extent(recording: &Recording) -> Option<MediaExtent> {
    let count = recording.count();
    let first = recording.facts(0)?;
    let until = match find_sync_before(recording, count) {
        Some(facts) => facts.start_us,
        None => first.start_us,
    };
    Some(MediaExtent {
        from: first.start_us,
        until,
    })
}

/// Returns the progress of a rendition, as far as it matters to the live playlists.
pub fn find_progress(snapshot: &Snapshot, rendition: usize) -> RenditionProgress {
    RenditionProgress {
        extent: match snapshot.recording(rendition) {
            Some(recording) => find_extent(recording),
            None => None,
        },
        finished: snapshot.is_finished(rendition).unwrap_or(false),
    }
}

/// Returns the range, in microseconds, in which it is decided whether each sync sample of the first rendition is a place: it begins
/// where all renditions have begun, and extends as far as each has a later sync sample or is finished. `None` if one hasn't begun.
pub fn find_decided_range(snapshot: &Snapshot, renditions: &[Rendition]) -> Option<(u64, u64)> {
    let mut from = 0;
    let mut until = u64::MAX;
    for (number, rendition) in renditions.iter().enumerate() {
        let recording = snapshot.recording(number)?;
        from = recording.facts(0)?.start_us.max(from);
        if snapshot.is_finished(number) != Some(true) {
            let last = find_sync_before(recording, recording.count())?;
            until = last.start_us.saturating_add(rendition.tolerance).min(until);
        }
    }
    Some((from, until))
}

/// Returns the range, in microseconds, in which each sync sample of the first rendition is in a live segment or never will be: it
/// begins at the first place, and ends where no segment can reach from there to the last place. `target` is in seconds.
pub fn find_settled_range(snapshot: &Snapshot, target: u64) -> Option<(u64, u64)> {
    let from = time_of(snapshot.places().get(0)?);
    let longest = target.saturating_mul(1_000_000).saturating_add(500_000);
    let until = channel_time(snapshot).checked_sub(longest)?;
    Some((from, until))
}

/// Returns the unit numbers of the last sync samples of a recording that start in a range of time, newest first.
pub fn last_syncs(recording: &Recording, from: u64, until: u64) -> ArrayVec<u64, MANY> {
    let mut numbers = ArrayVec::new();
    let count = recording.count();
    for back in 1..MOST_LOOKS {
        let number = count.wrapping_sub(back);
        match recording.facts(number) {
            Some(facts) if facts.start_us >= from && numbers.len() < MANY => {
                if facts.sync && facts.start_us <= until {
                    let _ = numbers.try_push(number);
                }
            }
            _ => return numbers,
        }
    }
    numbers
}

/// Returns the number of the first rendition's unit at a place.
fn place_unit(place: &Place) -> u64 {
    place.spots.get_or_zero(0).fragment
}

/// Returns the first rendition's units at the last places, from one unit on.
pub fn last_places(snapshot: &Snapshot, from: u64) -> ArrayVec<u64, MANY> {
    let mut numbers = ArrayVec::new();
    let places = snapshot.places();
    for back in 1..128 {
        match places.get(places.next().wrapping_sub(back)) {
            Some(place) if place_unit(place) >= from => {
                if !place.closing {
                    let _ = numbers.try_push(place_unit(place));
                }
            }
            _ => return numbers,
        }
    }
    numbers
}

/// Returns the range of the first rendition's units in each of the last live segments, newest first. Where older segments have left
/// the playlist, the last range begins with everything before it, since where they ended isn't looked at.
pub fn last_segments(snapshot: &Snapshot) -> ArrayVec<UnitRange, MANY> {
    let mut ranges = ArrayVec::new();
    let segments = snapshot.line().segments();
    let mut front = 0;
    for back in 1..MANY as u64 {
        let Some(segment) = segments.get(segments.next().wrapping_sub(back)) else {
            break;
        };
        front = place_unit(&segment.from);
        let to = place_unit(&segment.to);
        let _ = ranges.try_push(UnitRange { from: front, to });
    }
    if segments.next() >= MANY as u64 || segments.first() > 0 {
        let _ = ranges.try_push(UnitRange { from: 0, to: front });
    }
    ranges
}
