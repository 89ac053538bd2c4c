//! Why a recorded stream isn't listed.

ghost use Rattle.std.specs.Prelude.{◌≡◌};
ghost use Rattle.hls_commands.specs.ListingFaultName.{name_of};
ghost use Rattle.hls_commands.specs.declared.listing_fault.ListingFault.TheVariants.{Memory};

use hls_text::{AllocFailure, variant_name};
use std::fmt::{self, Display, Formatter, Write};
use thiserror::Error;

/// Why a recorded stream isn't listed, in the order in which the causes are tested.
#[derive(Clone, Copy, Debug, PartialEq, Eq, Error)]
pub enum ListingFault {
    /// There are fewer than two places.
    NoPlace,
    /// A plan was requested of more than 16384 places.
    ProgrammeTooLong,
    /// The number, from 0, of the first place that can't reach the next.
    NotAllowed { place: usize },
    /// Out of memory.
    Memory,
}

impl ListingFault {
    /// Returns the variant's name, as the program prints it.
    pub fn name(&self) -> &'static str
        ensures { result.now ≡ name_of self.now }
    {
        variant_name!(self; ListingFault: NoPlace, ProgrammeTooLong, NotAllowed, Memory)
    }
}

impl Display for ListingFault {
    fn fmt<W: Write>(&self, f: &mut Formatter<W>) -> fmt::Result {
        f.write_str(self.name())
    }
}

impl<E: AllocFailure> From<E> for ListingFault {
    ghost from_gives = { λ _ e. e ≡ Memory };

    fn from(_failure: E) -> ListingFault {
        ListingFault::Memory
    }
}
