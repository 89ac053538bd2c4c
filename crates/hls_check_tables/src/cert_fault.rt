//! Why a certificate is rejected.

ghost use Rattle.std.specs.Prelude.{◌≡◌};
ghost use Rattle.hls_check_tables.specs.Faults.{fault_name};
ghost use Rattle.hls_check_tables.specs.declared.cert_fault.CertFault.TheVariants.{Memory};

use hls_text::{AllocFailure, variant_name};
use std::fmt::{self, Display, Formatter, Write};
use thiserror::Error;

/// Why a certificate is rejected. If several variants apply, the check reports the first in this order.
#[derive(Clone, Copy, Debug, PartialEq, Eq, Error)]
pub enum CertFault {
    /// The first line of the text, from 1, that violates the format.
    Form { line: usize },

    /// The first place of the table that is out of order.
    TableNotSorted { place: usize },

    /// The plan doesn't begin with the first place or end with the last.
    PlanEnds,

    /// The first pair of the plan that isn't an allowed step.
    PlanStep { p: usize, q: usize },

    /// The plan's cost, the printed cost and the last place's price aren't all equal.
    PlanCost,

    /// The price of the first place isn't 0, or the first place isn't in the closed set.
    PriceStart,

    /// The first allowed step whose end has no price or one that is too high, or that leaves the closed set.
    PriceStep { p: usize, q: usize },

    /// The closed set contains the last place.
    EndReached,

    /// An allocation failed.
    Memory,
}

impl CertFault {
    /// The variant's name, which programs print.
    pub fn name(&self) -> &'static str
        ensures { result.now ≡ fault_name self.now }
    {
        variant_name!(self; CertFault: Form, TableNotSorted, PlanEnds, PlanStep, PlanCost, PriceStart, PriceStep, EndReached, Memory)
    }
}

impl Display for CertFault {
    fn fmt<W: Write>(&self, f: &mut Formatter<W>) -> fmt::Result {
        f.write_str(self.name())
    }
}

impl<E: AllocFailure> From<E> for CertFault {
    ghost from_gives = { λ _ e. e ≡ Memory };

    fn from(_failure: E) -> CertFault {
        CertFault::Memory
    }
}
