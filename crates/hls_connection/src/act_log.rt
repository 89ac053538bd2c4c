//! The acts of a keeper: its calls and their results, for proofs alone. Nothing is stored or done at run time.

ghost use Rattle.std.specs.Prelude.{◌≡◌, IfOk, [], ◌∷◌, ◌++◌};
ghost use Rattle.hls_core_laws.specs.Moves.{IsFittingAsSeen};
ghost use Rattle.hls_api.specs.{Acts.{ActsExtend, RecordsAdd, RecordsLookResult, RecordsReading, RecordsRemove, RecordsSubmit}, JobTable.IsAddResult};
ghost use Rattle.hls_catchup.specs.Jobs.Shared.{HasRemoved};
ghost use Rattle.hls_connection.specs.ActNotes.{act_of};

use crate::keeper::Keeper;
use hls_api::encoder_readings::EncoderReadings;
use hls_catchup::{JobFault, Request};
use hls_core::snapshot::Snapshot;
use hls_core_laws::done::Done;
use hls_core_laws::event::Event;
use hls_core_laws::refusal::Refusal;
use http_server::Log;
use std::alloc::AllocError;
use std::marker::Model;
use std::sync::Arc;

/// One act.
#[derive(Drop)]
pub(crate) enum ActNote {
    /// A look, and the snapshot that it returned.
    Looked(Log<Arc<Snapshot>, ()>),
    /// A look that failed.
    LookFailed,
    /// An event, and its result.
    Submitted(Log<Event, ()>, Result<Done, Refusal>),
    /// Adding a job with this snapshot, and its result.
    Added(Log<Arc<Snapshot>, ()>, Request, Result<u64, JobFault>),
    /// Removing a job, and its result.
    Removed(u64, Result<(), JobFault>),
    /// What was read of the encoders.
    ReadEncoders(Log<EncoderReadings, ()>),
}

/// The acts of a keeper, in order. A clause sees the list of acts.
#[derive(Drop)]
pub struct ActLog {
    notes: Log<ActNote, ()>,
}

impl Model for ActLog {
    ghost use Rattle.std.specs.Prelude.{List, map};
    ghost use Rattle.hls_api.specs.Acts.{Act};
    ghost use Rattle.hls_connection.specs.ActNotes.{act_in};

    ghost Value = { List Act };

    ghost view = { λ acts. map act_in acts.notes.items };
}

impl ActLog {
    /// No act.
    pub fn new() -> ActLog
        ensures { result ≡ [] }
    {
        ActLog { notes: Log::new() }
    }

    /// Appends an act.
    pub(crate) fn push(&mut self, act_note: ActNote)
        ensures { self.new ≡ self.old ++ act_of act_note ∷ [] }
    {
        self.notes = self.notes.and(&act_note, &());
    }

    /// Appends a look, by its result.
    pub(crate) fn note_look(&mut self, shown: &Result<Arc<Snapshot>, AllocError>)
        ensures { RecordsLookResult self.old shown.now self.new }
    {
        match shown {
            Ok(state) => {
                let note = Log::new().and(state, &());
                self.push(ActNote::Looked(note));
            }
            Err(_) => self.push(ActNote::LookFailed),
        }
    }

    /// Appends what was read of the encoders.
    pub(crate) fn note_readings(&mut self, readings: &EncoderReadings)
        ensures { RecordsReading self.old readings.now self.new }
    {
        let note = Log::new().and(readings, &());
        self.push(ActNote::ReadEncoders(note));
    }
}

/// Looks, and notes the result.
pub fn look<K: Keeper>(keeper: &mut K, acts: &mut ActLog) -> Result<Arc<Snapshot>, AllocError>
    ensures looks { RecordsLookResult acts.old result acts.new }
    ensures seen { IfOk result (λ s. (K.known keeper.new).seen ≡ s.value) }
    ensures act_steps { ActsExtend K.other_actors (K.known keeper.old) acts.old (K.known keeper.new) acts.new }
{
    let shown = keeper.look();
    acts.note_look(&shown);
    shown
}

/// Submits an event, and notes the result.
pub fn submit<K: Keeper>(keeper: &mut K, acts: &mut ActLog, event: Event) -> Result<Done, Refusal>
    requires { IsFittingAsSeen (K.known keeper.old).seen event }
    ensures submits { RecordsSubmit acts.old event result acts.new }
    ensures act_steps { ActsExtend K.other_actors (K.known keeper.old) acts.old (K.known keeper.new) acts.new }
{
    let note = Log::new().and(&event, &());
    let done = keeper.submit(event);
    acts.push(ActNote::Submitted(note, done));
    done
}

/// Reads what is known of the encoders, for a unit that is so far ahead of the channel's end, and notes it.
pub fn read_encoders<K: Keeper>(keeper: &mut K, acts: &mut ActLog, ahead_us: u64) -> EncoderReadings
    ensures reads { RecordsReading acts.old result acts.new }
    ensures act_steps { ActsExtend K.other_actors (K.known keeper.old) acts.old (K.known keeper.new) acts.new }
{
    let readings = keeper.read_encoders(ahead_us);
    acts.note_readings(&readings);
    readings
}

/// Adds a job, and notes the result.
pub fn add_job<K: Keeper>(
    keeper: &mut K,
    acts: &mut ActLog,
    snapshot: Arc<Snapshot>,
    request: Request,
) -> Result<u64, JobFault>
    ensures adds { RecordsAdd acts.old snapshot.value request result acts.new }
    ensures added { IsAddResult snapshot.value request result }
    ensures act_steps { ActsExtend K.other_actors (K.known keeper.old) acts.old (K.known keeper.new) acts.new }
{
    let note = Log::new().and(&snapshot, &());
    let added = keeper.add_job(snapshot, request);
    acts.push(ActNote::Added(note, request, added));
    added
}

/// Removes a job, and notes the result.
pub fn remove_job<K: Keeper>(keeper: &mut K, acts: &mut ActLog, id: u64) -> Result<(), JobFault>
    ensures removes { RecordsRemove acts.old id result acts.new }
    ensures removed { HasRemoved id result }
    ensures act_steps { ActsExtend K.other_actors (K.known keeper.old) acts.old (K.known keeper.new) acts.new }
{
    let removed = keeper.remove_job(id);
    acts.push(ActNote::Removed(id, removed));
    removed
}
