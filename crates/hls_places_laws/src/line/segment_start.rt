//! The start of the next segment of the live line.

ghost use Rattle.std.specs.Prelude.{◌≡◌, IfOk};

use crate::place::Place;
use std::alloc::AllocError;

/// The start of the next segment of the live line.
#[derive(Drop)]
pub struct SegmentStart {
    pub place: Place,

    /// Whether the line was restarted here, because no segment can reach this place.
    pub restarted: bool,
}

impl SegmentStart {
    /// Another handle to the same start; the memory is shared.
    pub fn share(&self) -> Result<SegmentStart, AllocError>
        ensures { IfOk result (λ opening. opening ≡ self.now) }
    {
        Ok(SegmentStart {
            place: self.place.share()?,
            restarted: self.restarted,
        })
    }
}
