//! Searches a recording for sync samples: the last one, and the one nearest to a moment. A search looks at a bounded number of
//! units, however long the recording is.

use hls_media_laws::facts::Facts;
use hls_record::Recording;

/// The most units that a search looks at.
const MOST_LOOKS: u64 = 4096;

/// Returns the last unit below a number that begins with a sync sample.
pub fn find_sync_before(recording: &Recording, number: u64) -> Option<Facts> {
    for back in 1..MOST_LOOKS {
        let facts = recording.facts(number.checked_sub(back)?)?;
        if facts.sync {
            return Some(facts);
        }
    }
    None
}

/// Returns the first unit from a number on that begins with a sync sample.
fn find_sync_from(recording: &Recording, number: u64) -> Option<Facts> {
    for further in 0..MOST_LOOKS {
        let facts = recording.facts(number.saturating_add(further))?;
        if facts.sync {
            return Some(facts);
        }
    }
    None
}

/// Returns the number of the first unit that starts at or after a moment, in microseconds, by a binary search of fewer than 64 steps.
fn find_unit_from(recording: &Recording, moment: u64) -> u64 {
    let mut low = 0;
    let mut high = recording.count();
    for _ in 0..64 {
        let middle = low / 2 + high / 2;
        match recording.facts(middle) {
            Some(facts) if facts.start_us < moment => low = middle.saturating_add(1).min(high),
            _ => high = middle.max(low),
        }
    }
    low
}

/// Returns the distance between the start of a unit and a moment, in microseconds.
fn distance_from(facts: Option<Facts>, moment: u64) -> u64 {
    match facts {
        Some(facts) => facts.start_us.abs_diff(moment),
        None => u64::MAX,
    }
}

/// Returns the distance between a moment and the start of the nearest unit that begins with a sync sample, in microseconds.
pub fn distance_to_sync(recording: &Recording, moment: u64) -> u64 {
    let number = find_unit_from(recording, moment);
    let before = distance_from(find_sync_before(recording, number), moment);
    let after = distance_from(find_sync_from(recording, number), moment);
    before.min(after)
}
