//! The queue's rule and the outcomes of its steps: types for the proofs, which have no values at run time.

use crate::state_queue::StateQueue;
use crossbeam_queue::protocol::{Lesson, Outcome, Protocol, Split};
use hls_core::snapshot::Snapshot;
use hls_core_laws::event::LoggedEvent;
use std::collections::LinkedList;
use std::sync::Arc;

/// The view of a pass: its number, how many passes there are (known to pass 0 only), the state that it saw last, the events that it
/// submitted, and the state that it holds.
pub struct View {
    pub number: u16,
    pub pass_count: u16,
    pub seen: Option<Snapshot>,
    pub mine: LinkedList<LoggedEvent>,
    pub holds: Option<Snapshot>,
}

/// The turn's rule.
pub struct TurnProtocol;

impl Protocol<Arc<Snapshot>, View> for TurnProtocol {
    ghost use Rattle.hls_turn.specs.Rule.{Keeps, new_view};

    ghost holds = { Keeps };

    ghost first = { new_view };
}

/// The state is taken out.
pub struct TakeOutcome;

impl Outcome<Arc<Snapshot>, View> for TakeOutcome {
    ghost use Rattle.hls_turn.specs.Rule.{TakesState};

    ghost then = { λ v x w. TakesState v x.value w };
}

impl Lesson<Arc<Snapshot>, View> for TakeOutcome {
    ghost fact = { λ v items. Unit {0} };
}

/// A state is put in: the first one, the one that was taken, or one that is one event further.
pub struct PutOutcome;

impl Outcome<Arc<Snapshot>, View> for PutOutcome {
    ghost use Rattle.std.specs.Prelude.{◌≡◌};
    ghost use Rattle.hls_turn.specs.Rule.{after_put};

    ghost then = { λ v x w. w ≡ after_put v x.value };
}

impl Lesson<Arc<Snapshot>, View> for PutOutcome {
    ghost use Rattle.std.specs.Prelude.{◌≡◌, []};

    ghost fact = { λ v items. items ≡ [] };
}

/// A new pass is split off pass 0.
pub struct PassSplit;

impl Split<View> for PassSplit {
    ghost use Rattle.hls_turn.specs.Rule.{with_one_more, split_view};

    ghost left = { with_one_more };

    ghost right = { split_view };
}
