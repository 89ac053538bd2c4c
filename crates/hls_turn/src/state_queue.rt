//! The queue of capacity one: takes its state out, and puts one in.
ghost use Rattle.std.specs.Prelude.{◌≡◌};
ghost use Rattle.crossbeam_queue.specs.Passes.{view, IsSamePass, IsPassOf, ruled_capacity};
ghost use Rattle.hls_turn.specs.Rule.{TakesState, MayPut, after_put};

use crate::view::{PutOutcome, TakeOutcome, TurnProtocol, View};
use crossbeam_queue::RuledArrayQueue;
use hls_core::snapshot::Snapshot;
use std::sync::{Arc, Wait};
use std::thread;

/// The queue of capacity one.
pub type StateQueue = RuledArrayQueue<Arc<Snapshot>, View, TurnProtocol>;

/// The right of one pass to use the queue. It has size zero.
pub type QueuePass = crossbeam_queue::Pass<Arc<Snapshot>, View>;

/// Takes the state out, once nobody else holds it.
pub fn take_state<R: Wait>(rt: &R, queue: &StateQueue, queue_pass: &mut QueuePass) -> Arc<Snapshot>
    requires ours { IsPassOf queue.now queue_pass.old }
    ensures ours { IsSamePass queue_pass.old queue_pass.new }
    ensures takes { TakesState (view queue_pass.old) result.value (view queue_pass.new) }
{
    for _ in rt.forever() {
        if let Some(state) = queue.pop_as::<TakeOutcome, R>(rt, queue_pass) {
            return state;
        }
        thread::yield_now();
    }
    unreachable!()
}

/// Puts a state in. The queue is empty, since this pass holds the state or is the first.
pub fn put_state<R: Wait>(
    rt: &R,
    queue: &StateQueue,
    queue_pass: &mut QueuePass,
    state: Arc<Snapshot>,
)
    requires ours { IsPassOf queue.now queue_pass.old × (ruled_capacity queue.now ≡ 1) }
    requires may { MayPut (view queue_pass.old) state.value }
    ensures ours { IsSamePass queue_pass.old queue_pass.new }
    ensures puts { view queue_pass.new ≡ after_put (view queue_pass.old) state.value }
{
    let Ok(()) = queue.push_as::<PutOutcome, R>(rt, queue_pass, state) else {
        unreachable!()
    };
}
