//! Renewal: a channel begins a new log at a cut of its live line, and loses nothing that it keeps from there on.

ghost use Rattle.std.specs.Prelude.{◌≡◌, IfOk, IfErr};
ghost use Rattle.hls_renewal.specs.Renewals.{Renews, IsRenewFault};
ghost use Rattle.hls_renewal.specs.declared.renewal.RenewFault.TheVariants as fault;

use crate::base::make_base;
use crate::events::make_events;
use crate::laws::renewals_are_new;
use crate::line_cut::find_cut;
use hls_core::replay::replay;
use hls_core::snapshot::Snapshot;
use std::alloc::{AllocError, Global};
use std::sync::Arc;

/// Why a channel can't be renewed.
#[derive(Clone, Copy, Debug, PartialEq, Eq, Drop)]
pub enum RenewFault {
    /// An allocation failed.
    Memory,
    /// The live line has no cut with all units after it: it has no place yet, or it has ended and no segment is left.
    NoCut,
    /// The new base would be above the limits of a base.
    NoBase,
}

impl From<AllocError> for RenewFault {
    ghost from_gives = { λ _ f. f ≡ fault.Memory };

    fn from(_error: AllocError) -> RenewFault {
        RenewFault::Memory
    }
}

/// Returns a channel as it would be if it had begun at a cut of its live line: with the base of that cut, and a log of the init
/// sections, the units from the cut on, the ends and one slide. The cut is the first one with no trimmed unit after it.
///
/// The units share the channel's memory. The time grows with the places of the log, and with the units that are kept.
pub fn renew(alloc: Global, snapshot: &Snapshot) -> Result<Arc<Snapshot>, RenewFault>
    ensures renewed { IfOk result (λ next. Renews snapshot.now next.value) }
    ensures fault { IfErr result (IsRenewFault snapshot.now) }
{
    let Some(cut) = find_cut(alloc, snapshot)? else {
        return Err(RenewFault::NoCut);
    };
    let Some(base) = make_base(snapshot, &cut) else {
        return Err(RenewFault::NoBase);
    };
    let _ = base.segments(); // the proof needs that the base is valid
    renewals_are_new();
    let events = make_events(alloc, snapshot, &cut)?;
    let config = snapshot.config().share()?.with_base(base);
    Ok(replay(alloc, config, &events)?)
}
