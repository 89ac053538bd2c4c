//! A place's spots.

ghost use Rattle.std.specs.Prelude.{◌≡◌, ◌<◌, length, IfOk};
ghost use Rattle.hls_check_tables.specs.Tables.{spot_in};

use crate::spot::Spot;
use std::alloc::{AllocError, Global};
use std::marker::Model;
use std::sync::Arc;

/// A place's spots, one for each rendition, in the order of the renditions. They are immutable, so copies of a place share them.
#[derive(Drop)]
pub struct Spots {
    spots: Arc<Vec<Spot>>,
}

impl Model for Spots {
    ghost use Rattle.std.specs.Prelude.{List};
    ghost use Rattle.hls_check_tables.specs.declared.spot.Spot.{Spot};

    ghost Value = { List Spot };

    ghost view = { λ p. p.spots.value.items };
}

impl Spots {
    pub fn new(alloc: Global, spots: Vec<Spot>) -> Result<Spots, AllocError>
        ensures { IfOk result (λ s. s ≡ spots.items) }
    {
        Ok(Spots {
            spots: Arc::new(alloc, spots)?,
        })
    }

    /// The number of renditions.
    #[inline(always)]
    pub fn len(&self) -> usize
        ensures { result ≡ length self.now }
    {
        self.spots.len()
    }

    #[inline(always)]
    pub fn as_slice(&self) -> &[Spot]
        ensures { result.now ≡ self.now }
    {
        self.spots.as_slice()
    }

    /// The spot in rendition `r`.
    #[inline(always)]
    pub fn get(&self, r: usize) -> Spot
        requires { r < length self.now }
        ensures { result ≡ spot_in self.now r }
    {
        self.spots[r]
    }

    /// The spot in rendition `r`, or a spot of zeros if there is none.
    pub fn get_or_zero(&self, r: usize) -> Spot
        ensures { result ≡ spot_in self.now r }
    {
        if r < self.spots.len() {
            return self.spots[r];
        }
        Spot {
            fragment: 0,
            prev_end: 0,
            start: 0,
            run_in: 0,
            run_out: 0,
        }
    }

    /// Another handle to the same spots; the memory is shared.
    pub fn share(&self) -> Result<Spots, AllocError>
        ensures { IfOk result (λ s. s ≡ self.now) }
    {
        Ok(Spots {
            spots: Arc::try_clone(&self.spots)?,
        })
    }
}
