//! A pass is a thread's handle of a turn.

use crate::state_queue::QueuePass;
use std::marker::Model;

/// A thread's handle of a turn: a number, the state that it saw last, and its events in the log.
///
/// A contract sees it as the turn that it belongs to and what it knows. It is used by `&mut`, so by one call at a time.
#[derive(Drop)]
pub struct Pass {
    pub(crate) number: u16,
    pub(crate) renditions: usize,
    pub(crate) queue_pass: QueuePass,
}

impl Model for Pass {
    ghost use Rattle.std.specs.Prelude.{◌≡◌, unwrap_or, None, Some, []};
    ghost use Rattle.crossbeam_queue.specs.Passes.{view as current_view};
    ghost use Rattle.hls_core_laws.specs.Workers.{events_by};
    ghost use Rattle.hls_turn.specs.Passes.{PassData, known_by, IsPass, renditions_seen};

    ghost Value = { PassData };

    ghost view = { λ p. record { turn = p.queue_pass.table_id; known = known_by (current_view p.queue_pass) } };

    ghost invariant = { λ p. (p.queue_pass.me.1 ≡ []) × ((current_view p.queue_pass).number ≡ p.number) × IsPass (current_view p.queue_pass)
        × (renditions_seen (current_view p.queue_pass) ≡ p.renditions) };
}

impl Pass {
    ghost use Rattle.std.specs.Prelude.{◌≡◌, length};
    ghost use Rattle.hls_core_laws.specs.IsState.{IsState};

    /// Returns the pass's number, from 0, under which the log has its events.
    pub fn number(&self) -> u16
        ensures { result ≡ self.now.known.number }
    {
        self.number
    }

    /// Returns the number of the channel's renditions, which never changes.
    pub fn rendition_count(&self) -> usize
        ensures count { result ≡ length self.now.known.seen.config.renditions }
        ensures valid { IsState self.now.known.seen }
    {
        self.renditions
    }
}
