//! Measures why sync samples of the first rendition are no places, and why no segment can begin at a place.

use crate::nearest_sync::distance_to_sync;
use crate::progress::{MANY, MOST_RENDITIONS};
use hls_core::snapshot::Snapshot;
use hls_core_laws::rendition::Rendition;
use hls_metrics::Measurements;
use hls_metrics::measurements::{store, store_at};
use hls_places::Place;
use hls_record::Recording;

/// The greatest distance that is shown, in microseconds: that of a rendition that has no sync sample at all.
const MOST_DISTANCE_US: u64 = 3_600_000_000;

/// Returns how many of these units of the first rendition have no sync sample of a recording within a tolerance, and the greatest
/// distance of a nearest one, in microseconds.
fn find_distances(
    first: &Recording,
    recording: &Recording,
    tolerance: u64,
    units: &[u64],
) -> (u64, u64) {
    let mut missed: u64 = 0;
    let mut most = 0;
    for unit in units {
        if let Some(facts) = first.facts(*unit) {
            let distance = distance_to_sync(recording, facts.start_us);
            most = distance.max(most);
            if distance > tolerance {
                missed = missed.saturating_add(1);
            }
        }
    }
    (missed, most.min(MOST_DISTANCE_US))
}

/// Stores for each rendition how far its sync samples are from these units of the first one.
pub fn measure_distances(
    measurements: &Measurements,
    snapshot: &Snapshot,
    renditions: &[Rendition],
    first: &Recording,
    units: &[u64],
) {
    for (number, rendition) in renditions.iter().enumerate() {
        if let Some(recording) = snapshot.recording(number) {
            let (missed, most) = find_distances(first, recording, rendition.tolerance, units);
            store_at(&measurements.missed_syncs, number, missed);
            store_at(&measurements.sync_distances_us, number, most);
        }
    }
}

/// Whether a rendition has a gap between two places.
fn has_gap(from: &Place, to: &Place, number: usize) -> bool {
    from.spots.get_or_zero(number).run_out != to.spots.get_or_zero(number).run_in
}

/// Stores for each rendition after how many of the last places it has a gap before the next one.
pub fn measure_gaps(measurements: &Measurements, snapshot: &Snapshot) {
    let places = snapshot.places();
    let mut gaps: [u64; MOST_RENDITIONS] = [0; MOST_RENDITIONS];
    for back in 1..MANY as u64 {
        let at = places.next().wrapping_sub(back);
        let (Some(to), Some(from)) = (places.get(at), places.get(at.wrapping_sub(1))) else {
            break;
        };
        for (number, count) in gaps.iter_mut().enumerate() {
            if has_gap(from, to, number) {
                *count = count.saturating_add(1);
            }
        }
    }
    for (number, count) in gaps.iter().enumerate() {
        store_at(&measurements.gaps, number, *count);
    }
}

/// Stores where a sync sample of the first rendition begins, in microseconds; 0 if there is none.
pub fn measure_unplaced(measurements: &Measurements, first: &Recording, unit: Option<u64>) {
    let begin = match unit {
        Some(unit) => first.facts(unit).map_or(0, |facts| facts.start_us),
        None => 0,
    };
    store(&measurements.unplaced_us, begin);
}
