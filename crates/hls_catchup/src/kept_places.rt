//! The common places with no trimmed fragment.

ghost use Rattle.std.specs.Prelude.{◌≡◌, ◌≤◌, [], length, take, IfOk};
ghost use Rattle.hls_core_laws.specs.IsState.{IsState};
ghost use Rattle.hls_core_laws.specs.Places.{sources};
ghost use Rattle.hls_places_laws.specs.Sources.{AreSources};
ghost use Rattle.hls_places_laws.specs.Order.{spots_of};
ghost use Rattle.hls_places_laws.specs.Programmes.{is_kept};
ghost use Rattle.hls_catchup.specs.KeptPlaces.{places_and_floors_of, kept_places_from};

use crate::place_iterator::{iter_places_from, next_place};
use hls_blocks::Shared;
use hls_check_tables::RENDITION_LIMIT;
use hls_core::floors::{floors_of, rendition_count};
use hls_core::snapshot::Snapshot;
use hls_places::{Place, Spots, is_kept};
use std::alloc::{AllocError, Global};
use std::marker::Model;

/// The common places of a snapshot with no trimmed fragment. Places count from 0, including the trimmed ones.
#[derive(Drop)]
pub struct KeptPlaces<'a> {
    places: &'a Shared<Place>,
    floors: [u64; RENDITION_LIMIT],
    renditions: usize,
}

impl<'a> Model for KeptPlaces<'a> {
    ghost use Rattle.hls_catchup.specs.KeptPlaces.{PlacesAndFloors, model_of, IsSound};

    ghost Value = { PlacesAndFloors };

    ghost view = { model_of };

    ghost invariant = { IsSound };
}

impl<'a> KeptPlaces<'a> {
    /// Returns the kept places of a snapshot. Doesn't allocate.
    pub fn new(snapshot: &'a Snapshot) -> KeptPlaces<'a>
        ensures value { result ≡ places_and_floors_of snapshot.now }
        ensures valid { IsState snapshot.now }
        ensures sources { AreSources (sources snapshot.now) }
    {
        let places = snapshot.places();
        let _ = places.next(); // the proof needs that the places' numbers fit
        KeptPlaces {
            places,
            floors: floors_of(snapshot),
            renditions: rendition_count(snapshot),
        }
    }

    fn is_kept(&self, place: &Place) -> bool
        ensures { result ≡ is_kept self.now.floors place.now }
    {
        is_kept(place, &self.floors[..self.renditions])
    }

    /// Copies the spots of the first `count` kept places from number `from` on.
    pub fn copy_spots(
        &self,
        alloc: Global,
        from: u64,
        count: usize,
    ) -> Result<Vec<Spots>, AllocError>
        requires { from ≤ length self.now.items }
        ensures { IfOk result (λ spots. spots.items ≡ spots_of (take count (kept_places_from self.now from))) }
    {
        let mut spots = Vec::with_capacity(alloc, count)?;
        self.push_spots(&mut spots, from, count)?;
        Ok(spots)
    }

    /// Appends these copies to an empty list.
    fn push_spots(&self, spots: &mut Vec<Spots>, from: u64, count: usize) -> Result<(), AllocError>
        requires from { from ≤ length self.now.items }
        requires none { spots.old.items ≡ [] }
        ensures { IfOk result (λ done. spots.new.items ≡ spots_of (take count (kept_places_from self.now from))) }
    {
        let mut walk = iter_places_from(self.places, from);
        while let Some(place) = next_place(&mut walk) {
            if spots.len() >= count {
                return Ok(());
            }
            if self.is_kept(place) {
                spots.push(place.spots.share()?)?;
            }
        }
        Ok(())
    }
}
