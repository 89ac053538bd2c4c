//! The turn: the one state of a channel, which threads take, change and put back one after another. No program calls `meet`.

ghost use Rattle.std.specs.Prelude.{◌≡◌, ◌<◌, ◌≤◌, true, All, IfOk, length, map, take, Some};
ghost use Rattle.std.specs.List.{AllZip};
ghost use Rattle.hls_core_laws.specs.Moves.{IsFitting, IsFittingAsSeen};
ghost use Rattle.hls_core_laws.specs.declared.done.Done.TheVariants.{Repeat};
ghost use Rattle.hls_core.specs.StepResult.{Applies};
ghost use Rattle.hls_core_laws.specs.PassView.{MaySeeLater, Looks, Submits};
ghost use Rattle.hls_turn.specs.Calls.{opening_passes, HasLooked, LooksAt, MeetsAt, SettledAt, last_seen};

use crate::pass::Pass;
use crate::state_queue::{StateQueue, put_state, take_state};
use crate::view::PassSplit;
use hls_core::follows::follows;
use hls_core::snapshot::Snapshot;
use hls_core::step::{apply, step};
use hls_core::stepped::Stepped;
use hls_core_laws::done::Done;
use hls_core_laws::event::Event;
use hls_core_laws::refusal::Refusal;
use std::alloc::{AllocError, Global};
use std::marker::Model;
use std::sync::atomic::{AtomicBool, Ordering};
use std::sync::{Arc, Condvar, Mutex, Wait};
use std::thread;

/// The state of a channel, shared by threads, with a condition variable that notifies the housekeeper of changes.
///
/// A contract sees it as the identity of its queue, which each of its passes has, too.
#[derive(Drop)]
pub struct Turn {
    queue: StateQueue,
    notified: Mutex<bool>,
    changed: Condvar,
    /// Whether encoders' events are refused.
    is_refusing: AtomicBool,
}

impl Model for Turn {
    ghost use Rattle.std.specs.Prelude.{◌≡◌};
    ghost use Rattle.atomic_table.specs.Seated.{TableId};
    ghost use Rattle.atomic_table.specs.Seated.{table_id_coded};
    ghost use Rattle.crossbeam_queue.specs.Passes.{ruled_capacity};

    ghost Value = { TableId };

    ghost coded = { table_id_coded };

    ghost view = { λ t. t.queue.table.shared.table_id };

    ghost invariant = { λ t. ruled_capacity t.queue ≡ 1 };
}

impl Turn {
    /// Creates a turn that starts with this snapshot, and one pass for each of 1 to 64 workers: pass i has number i. Each has seen
    /// the snapshot, and counts the log's entries of its number as its own.
    ///
    /// May wait. An allocation failure is the only error.
    pub fn new<R: Wait>(
        rt: &R,
        alloc: Global,
        snapshot: Snapshot,
        workers: u16,
    ) -> Result<(Turn, Vec<Pass>), AllocError>
        requires { (1 ≤ workers) × (workers ≤ 64) }
        ensures { IfOk result (λ r. r.1.items ≡ opening_passes r.0 snapshot workers) }
    {
        let mut passes = Vec::with_capacity(alloc, workers as usize)?;
        let _ = snapshot.version(); // the proof needs that the state is well formed
        let renditions = snapshot.config().renditions().len();
        let state = Arc::new(alloc, snapshot)?;
        let (queue, mut queue_pass) = StateQueue::ruled(alloc, 1)?;
        put_state(rt, &queue, &mut queue_pass, state);
        for number in 1..workers {
            let queue_pass = queue.another::<PassSplit>(&mut queue_pass);
            passes.push(Pass {
                number,
                renditions,
                queue_pass,
            })?;
        }
        let first = Pass {
            number: 0,
            renditions,
            queue_pass,
        };
        passes.insert(0, first)?;
        let turn = Turn {
            queue,
            notified: Mutex::new(false),
            changed: Condvar::new(),
            is_refusing: AtomicBool::new(false),
        };
        Ok((turn, passes))
    }

    /// Takes the state, applies the event as one of this pass, and puts the result back; so the log has the event after all earlier
    /// ones. An accepted unit notifies whoever waits in `wait_told`.
    ///
    /// The refusals are those of `step`, in its order. May wait.
    pub fn submit<R: Wait>(
        &self,
        rt: &R,
        alloc: Global,
        pass: &mut Pass,
        event: Event,
    ) -> Result<Done, Refusal>
        requires ours { pass.old.turn ≡ self.now }
        requires fitting { IsFittingAsSeen pass.old.known.seen event }
        ensures ours { pass.new.turn ≡ pass.old.turn }
        ensures submits { Submits pass.old.known event result pass.new.known }
    {
        let is_unit = matches!(&event, Event::Accept { .. });
        let mut state = take_state(rt, &self.queue, &mut pass.queue_pass);
        let result = self.apply(&mut state, alloc, pass.number, event);
        put_state(rt, &self.queue, &mut pass.queue_pass, state);
        if is_unit && matches!(result, Ok(Done::New { .. })) {
            self.tell(rt);
        }
        result
    }

    /// Has the events of encoders refused from now on, as if memory ran out: each that would be new is answered by `Memory`. Slides and
    /// trims aren't refused.
    pub fn refuse_encoders(&self) {
        self.is_refusing.store(true, Ordering::SeqCst);
    }

    /// Applies an event, unless it is refused.
    fn apply(
        &self,
        snapshot: &mut Arc<Snapshot>,
        alloc: Global,
        by: u16,
        event: Event,
    ) -> Result<Done, Refusal>
        requires { IsFitting snapshot.old.value event }
        ensures { Applies snapshot.old.value by event snapshot.new.value result }
    {
        if self.is_refusing.load(Ordering::SeqCst) && is_of_encoder(&event) {
            return refuse_new(snapshot, alloc, by, event);
        }
        apply(snapshot, alloc, by, event)
    }

    /// Returns the current state, which the pass has then seen. May wait.
    pub fn look<R: Wait>(
        &self,
        rt: &R,
        _alloc: Global,
        pass: &mut Pass,
    ) -> Result<Arc<Snapshot>, AllocError>
        requires ours { pass.old.turn ≡ self.now }
        ensures ours { pass.new.turn ≡ pass.old.turn }
        ensures looked { MaySeeLater pass.old.known pass.new.known }
        ensures looks { IfOk result (λ s. Looks pass.old.known s.value pass.new.known) }
    {
        let state = take_state(rt, &self.queue, &mut pass.queue_pass);
        let copy = Arc::try_clone(&state);
        put_state(rt, &self.queue, &mut pass.queue_pass, state);
        Ok(copy?)
    }

    /// Looks with each pass in order, repeatedly, until the state of the last one follows that of every other and has no further
    /// entry of their numbers; that state is then current for all of them.
    ///
    /// On an allocation failure each pass may have seen a later state, and its events are unchanged. May wait.
    pub fn meet<R: Wait>(
        &self,
        rt: &R,
        alloc: Global,
        passes: &mut [Pass],
    ) -> Result<Arc<Snapshot>, AllocError>
        requires some { 0 < length passes.old }
        requires ours { All (λ p. p.turn ≡ self.now) passes.old }
        ensures looked { AllZip HasLooked passes.old passes.new }
        ensures meets { IfOk result (λ s. AllZip (MeetsAt s.value) passes.old passes.new) }
        ensures last { IfOk result (λ s. last_seen passes.new ≡ Some s.value) }
    {
        for _ in rt.forever() {
            let mut states = self.look_with(rt, alloc, passes)?;
            let Some(last) = states.pop() else {
                unreachable!()
            };
            if all_agree(&states, passes, &last) {
                return Ok(last);
            }
            thread::yield_now();
        }
        unreachable!()
    }

    /// Looks with each pass in order, and returns what each sees.
    fn look_with<R: Wait>(
        &self,
        rt: &R,
        alloc: Global,
        passes: &mut [Pass],
    ) -> Result<Vec<Arc<Snapshot>>, AllocError>
        requires ours { All (λ p. p.turn ≡ self.now) passes.old }
        ensures looked { AllZip HasLooked passes.old passes.new }
        ensures looks { IfOk result (λ _. AllZip LooksAt passes.old passes.new) }
        ensures states { IfOk result (λ v. map (λ s. s.value) v.items ≡ map (λ p. p.known.seen) passes.new) }
    {
        let mut states = Vec::with_capacity(alloc, passes.len())?;
        for i in 0..passes.len() {
            let pass = &mut passes[i];
            let state = self.look(rt, alloc, pass)?;
            states.push(state)?;
        }
        Ok(states)
    }

    /// Notifies the housekeeper that something may be due. May wait.
    pub fn tell<R: Wait>(&self, rt: &R) {
        *self.notified.lock(rt) = true;
        self.changed.notify_all();
    }

    /// Waits for a notification since the last call.
    pub fn wait_told<R: Wait>(&self, rt: &R) {
        let mut notified = self
            .changed
            .wait_while(rt, self.notified.lock(rt), |notified| !*notified);
        *notified = false;
    }
}

/// Whether an encoder submits such an event.
fn is_of_encoder(event: &Event) -> bool {
    matches!(
        event,
        Event::Begin { .. } | Event::Accept { .. } | Event::Finish { .. }
    )
}

/// Returns the answer to an event that isn't applied: `Memory` if it would be new.
fn refuse_new(snapshot: &Snapshot, alloc: Global, by: u16, event: Event) -> Result<Done, Refusal>
    requires { IsFitting snapshot.now event }
    ensures answer { Applies snapshot.now by event snapshot.now result }
    ensures never_new { IfOk result (λ done. done ≡ Repeat) }
{
    match step(snapshot, alloc, by, event)? {
        Stepped::New(_) => Err(Refusal::Memory),
        Stepped::Repeat => Ok(Done::Repeat),
    }
}

/// Whether the state `last` follows each of these states, and has no further entry of the pass that saw it.
fn all_agree(states: &[Arc<Snapshot>], passes: &[Pass], last: &Snapshot) -> bool
    requires { length states.now < length passes.now }
    ensures { result ≡ true → AllZip (SettledAt last.now) (map (λ s. s.value) states.now) (take (length states.now) passes.now) }
{
    for i in 0..states.len() {
        let state: &Snapshot = &states[i];
        let number = passes[i].number();
        if !follows(state, last)
            || last.count_entries_by(number) != state.count_entries_by(number)
        {
            return false;
        }
    }
    true
}
