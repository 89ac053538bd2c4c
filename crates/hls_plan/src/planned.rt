//! The result of a planner, and its certificate.

ghost use Rattle.std.specs.Prelude.{◌≡◌};
ghost use Rattle.hls_check_tables.specs.Certificates.{IsGood};
ghost use Rattle.hls_plan.specs.Planned.{HasClaimForm, certificate_of};

use hls_check_tables::{Certificate, Claim, PlaceTable};

/// The result of a planner. Places are numbered from 0, and costs are in microseconds.
#[derive(Drop)]
pub enum Planned {
    /// An optimal plan, and for each place the least cost at which it can be reached, or None.
    Cut {
        plan: Vec<usize>,
        prices: Vec<Option<u64>>,
    },

    /// No plan exists. For each place, whether it can be reached.
    NoCut {
        closed: Vec<bool>,
    },
}

/// The certificate of a result for the same table. Doesn't allocate.
pub fn certificate(table: PlaceTable, planned: Planned) -> Certificate
    requires good { IsGood (certificate_of table planned) }
    requires shown { HasClaimForm table planned }
    ensures { result ≡ certificate_of table planned }
{
    match planned {
        Planned::Cut { plan, prices } => {
            let last = table.len() - 1;
            let cost = prices[last].unwrap_or(0);
            Certificate::new(table.into_table(), Claim::Cut { cost, plan, prices })
        }
        Planned::NoCut { closed } => Certificate::new(table.into_table(), Claim::NoCut { closed }),
    }
}
