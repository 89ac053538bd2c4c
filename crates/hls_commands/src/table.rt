//! The table of all places.

ghost use Rattle.std.specs.Prelude.{◌≡◌, ◌≤◌, length, IfOk};
ghost use Rattle.hls_check_tables.specs.Tables.{IsGoal, IsTable, table_of, place_limit};
ghost use Rattle.hls_places_laws.specs.Order.{spots_of, renditions_in, ArePlaces};

use crate::iterators::iter_places;
use hls_blocks::Shared;
use hls_catchup::next_place;
use hls_check_tables::{CertificateTable, Goal, PlaceTable};
use hls_places::Place;
use std::alloc::{AllocError, Global};

/// Builds the table of all 2 to 16384 places of one rendition.
pub fn build_table(
    alloc: Global,
    goal: Goal,
    places: &Shared<Place>,
) -> Result<PlaceTable, AllocError>
    requires first { places.now.first ≡ 0 }
    requires goal { IsGoal goal }
    requires count { (2 ≤ length places.now.items) × (length places.now.items ≤ place_limit) }
    requires places { ArePlaces places.now.items }
    requires single { renditions_in places.now.items ≡ 1 }
    ensures value { IfOk result (λ table. table ≡ table_of goal 1 (spots_of places.now.items)) }
    ensures valid { IfOk result IsTable }
{
    let mut spots = Vec::new(alloc);
    let mut walk = iter_places(places);
    while let Some(place) = next_place(&mut walk) {
        spots.push(place.spots.share()?)?;
    }
    Ok(PlaceTable::new(CertificateTable::new(goal, 1, spots)))
}
