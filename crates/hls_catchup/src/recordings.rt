//! The recordings of a snapshot's renditions.

ghost use Rattle.std.specs.Prelude.{◌≡◌, [], map, slice_index_or, false, IfOk, MatchOption};
ghost use Rattle.hls_core_laws.specs.State.{channel};
ghost use Rattle.hls_core_laws.specs.Places.{is_finished, places};
ghost use Rattle.hls_catchup.specs.Requests.{all_finished, AreRecordings};

use hls_core::floors::rendition_count;
use hls_core::snapshot::Snapshot;
use hls_record::Recording;
use std::alloc::{AllocError, Global};

/// Returns the recordings of all renditions; `None` if one hasn't begun, so that there is no common place yet.
pub fn collect_recordings(
    alloc: Global,
    snapshot: &Snapshot,
) -> Result<Option<Vec<&Recording>>, AllocError>
    ensures { IfOk result (λ found. MatchOption found (places snapshot.now ≡ []) (λ v. AreRecordings snapshot.now (map (λ r. r.now) v.items))) }
{
    let mut recordings = Vec::new(alloc);
    for rendition in 0..rendition_count(snapshot) {
        match snapshot.recording(rendition) {
            Some(recording) => recordings.push(recording)?,
            None => return Ok(None),
        }
    }
    Ok(Some(recordings))
}

/// Whether every rendition is finished.
pub fn all_finished(snapshot: &Snapshot) -> bool
    ensures { result ≡ all_finished snapshot.now }
{
    for rendition in 0..rendition_count(snapshot) {
        if !is_finished(snapshot, rendition) {
            return false;
        }
    }
    true
}

fn is_finished(snapshot: &Snapshot, rendition: usize) -> bool
    ensures { result ≡ slice_index_or (map is_finished (channel snapshot.now).lanes) rendition false }
{
    snapshot.is_finished(rendition).unwrap_or(false)
}
