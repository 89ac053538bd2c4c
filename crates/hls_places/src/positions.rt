//! A position in each rendition.

ghost use Rattle.std.specs.Prelude.{◌≡◌, ◌-◌, ◌<◌, ◌≤◌, ◌⊎◌, true, false, length, IfOk, MatchOption};
ghost use Rattle.hls_places_laws.specs.Sources.{source_at};
ghost use Rattle.hls_places_laws.specs.Places.{spots};
ghost use Rattle.hls_places_laws.specs.SearchPositions.{position_at};
ghost use Rattle.hls_places.specs.Searches.{AreRunsAt, AreEarly, AreAtEntries, AllSettled, IsUnsettled};

use crate::rendition_sources::RenditionSources;
use crate::search;
use hls_check_tables::Spots;
use hls_places_laws::SearchPosition;
use std::alloc::{AllocError, Global};

/// Advances each rendition's position to its first entry for a time.
pub(crate) fn seek_entries(
    renditions: &RenditionSources,
    time: u64,
    search_positions: &mut [SearchPosition],
)
    requires count { length search_positions.old ≡ length renditions.now }
    requires runs { AreRunsAt renditions.now search_positions.old }
    requires early { AreEarly time renditions.now search_positions.old }
    ensures { AreAtEntries time renditions.now search_positions.new }
{
    for r in 0..search_positions.len() {
        let low = time.saturating_sub(renditions.tolerance(r));
        search_positions[r] = search::seek_entry(renditions.recording(r), low, search_positions[r]);
    }
}

/// A rendition that isn't finished and whose position is after all fragments.
pub(crate) fn find_unsettled(
    renditions: &RenditionSources,
    search_positions: &[SearchPosition],
) -> Option<usize>
    requires count { length search_positions.now ≡ length renditions.now }
    requires runs { AreRunsAt renditions.now search_positions.now }
    ensures { MatchOption result (AllSettled renditions.now search_positions.now) (IsUnsettled renditions.now search_positions.now) }
{
    for r in 0..search_positions.len() {
        if !renditions.is_finished(r) && search_positions[r].at == renditions.recording(r).count() {
            return Some(r);
        }
    }
    None
}

/// The spots for a time, if each rendition has one.
pub(crate) fn find_spots(
    renditions: &RenditionSources,
    alloc: Global,
    time: u64,
    search_positions: &[SearchPosition],
) -> Result<Option<Spots>, AllocError>
    requires count { length search_positions.now ≡ length renditions.now }
    requires found { AreAtEntries time renditions.now search_positions.now }
    ensures { IfOk result (λ found. found ≡ spots renditions.now time) }
{
    let mut spots = Vec::with_capacity(alloc, search_positions.len())?;
    for r in 0..search_positions.len() {
        match search::find_near_spot(
            renditions.recording(r),
            renditions.tolerance(r),
            time,
            search_positions[r],
        ) {
            Some(spot) => spots.push(spot)?,
            None => return Ok(None),
        }
    }
    Ok(Some(Spots::new(alloc, spots)?))
}
