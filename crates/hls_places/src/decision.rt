//! One fragment of rendition 0: whether it is a common place, or isn't decided yet.

ghost use Rattle.std.specs.Prelude.{◌≡◌, ◌<◌, length, IfOk};
ghost use Rattle.hls_places_laws.specs.Sources.{first_facts, IsTimeline};
ghost use Rattle.hls_places_laws.specs.SearchPositions.{IsCursor};
ghost use Rattle.hls_places.specs.Decisions.{HasDecided};

use crate::positions;
use crate::rendition_sources::RenditionSources;
use crate::search::get_facts;
use hls_places_laws::{Place, SearchPosition};
use std::alloc::{AllocError, Global};

/// Examines fragment `done` of rendition 0, and appends its common place, if there is one. Returns false if that isn't decided yet.
pub(crate) fn decide_fragment(
    renditions: &RenditionSources,
    alloc: Global,
    done: u64,
    search_positions: &mut [SearchPosition],
    places: &mut Vec<Place>,
) -> Result<bool, AllocError>
    requires some { 0 < length renditions.now }
    requires order { IsTimeline (first_facts renditions.now) }
    requires more { done < length (first_facts renditions.now) }
    requires cursor { IsCursor (record { done = done; search_positions = search_positions.old }) renditions.now }
    ensures { IfOk result (HasDecided renditions.now done search_positions.new places.old.items places.new.items) }
{
    let facts = get_facts(renditions.recording(0), done);
    if !facts.sync {
        return Ok(true);
    }
    positions::seek_entries(renditions, facts.start_us, search_positions);
    if let Some(_) = positions::find_unsettled(renditions, search_positions) {
        return Ok(false);
    }
    if let Some(spots) = positions::find_spots(
        renditions,
        alloc,
        facts.start_us,
        search_positions,
    )? {
        places.push(Place {
            spots,
            closing: false,
        })?;
    }
    Ok(true)
}
