//! The closing place.

ghost use Rattle.std.specs.Prelude.{◌≡◌, ◌<◌, true, length, map, IfOk};
ghost use Rattle.std.specs.List.{list_all};
ghost use Rattle.std.specs.Option.{option_to_list};
ghost use Rattle.hls_places_laws.specs.Places.{has_ended, source_end_spot, closing_places};
ghost use Rattle.hls_places.specs.Searches.{AreRunsAt};

use crate::rendition_sources::RenditionSources;
use crate::search::end_spot;
use hls_check_tables::Spots;
use hls_places_laws::{Place, SearchPosition};
use std::alloc::{AllocError, Global};

/// Whether every rendition is finished and has a fragment.
fn have_all_ended(renditions: &RenditionSources) -> bool
    ensures { result ≡ list_all has_ended renditions.now }
{
    for r in 0..renditions.len() {
        if !renditions.is_finished(r) || renditions.recording(r).count() == 0 {
            return false;
        }
    }
    true
}

/// The spots after all fragments.
fn end_spots(
    renditions: &RenditionSources,
    alloc: Global,
    search_positions: &[SearchPosition],
) -> Result<Spots, AllocError>
    requires count { length search_positions.now ≡ length renditions.now }
    requires runs { AreRunsAt renditions.now search_positions.now }
    requires over { list_all has_ended renditions.now ≡ true }
    ensures { IfOk result (λ spots. spots ≡ map source_end_spot renditions.now) }
{
    let mut spots = Vec::with_capacity(alloc, search_positions.len())?;
    for r in 0..search_positions.len() {
        spots.push(end_spot(renditions.recording(r), search_positions[r]))?;
    }
    Spots::new(alloc, spots)
}

/// The place after all fragments, if every rendition has ended.
pub(crate) fn find_closing_place(
    renditions: &RenditionSources,
    alloc: Global,
    search_positions: &[SearchPosition],
) -> Result<Option<Place>, AllocError>
    requires count { length search_positions.now ≡ length renditions.now }
    requires runs { AreRunsAt renditions.now search_positions.now }
    ensures { IfOk result (λ place. option_to_list place ≡ closing_places renditions.now) }
{
    if !have_all_ended(renditions) {
        return Ok(None);
    }
    let spots = end_spots(renditions, alloc, search_positions)?;
    Ok(Some(Place {
        spots,
        closing: true,
    }))
}
