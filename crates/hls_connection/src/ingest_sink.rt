//! An encoder's body: its parts as events of the channel, one after the other.

ghost use Rattle.std.specs.Prelude.{◌≡◌};
ghost use Rattle.hls_api.specs.{Acts.ActsExtend, Ingest.{HandlesPart, no_progress, with_init as after_init, with_unit as after_unit}};
ghost use Rattle.hls_connection.specs.IngestStates.{FindsInitOrFails, IsUsable, progress_of, feed_fault_of};

use crate::act_log::{ActLog, look, submit};
use crate::keeper::Keeper;
use bytes::Bytes;
use hls_api::ingest::IngestCounts;
use hls_api::route::IngestTarget;
use hls_boxes::Part;
use hls_core::{FeedFault, PartSink, StreamFault};
use hls_core_laws::done::Done;
use hls_core_laws::event::Event;
use hls_core_laws::refusal::Refusal;
use hls_media::{read_facts, read_init};
use hls_media_laws::fault::MediaFault;
use hls_media_laws::init::Init;
use std::marker::PhantomData;

/// What was accepted of a body, and the rendition's init section once it was looked up.
#[derive(Drop)]
pub struct IngestState {
    /// The init section under which the body's units are read.
    pub init: Option<Init>,
    /// How many parts were accepted.
    pub counts: IngestCounts,
    /// The keeper's acts for it.
    pub acts: ActLog,
}

impl IngestState {
    /// Nothing is accepted yet.
    pub fn new() -> IngestState
        ensures { progress_of result ≡ no_progress }
    {
        IngestState {
            acts: ActLog::new(),
            init: None,
            counts: IngestCounts {
                inits: 0,
                units: 0,
                repeats: 0,
                mended: 0,
                filled: 0,
                dropped: 0,
            },
        }
    }
}

pub(crate) fn with_init(mut counts: IngestCounts, done: Done) -> IngestCounts
    ensures { result ≡ after_init done counts }
{
    match done {
        Done::New { .. } => counts.inits = counts.inits.saturating_add(1),
        Done::Repeat => counts.repeats = counts.repeats.saturating_add(1),
    }
    counts
}

fn with_unit(mut counts: IngestCounts, done: Done) -> IngestCounts
    ensures { result ≡ after_unit done counts }
{
    match done {
        Done::New { .. } => counts.units = counts.units.saturating_add(1),
        Done::Repeat => counts.repeats = counts.repeats.saturating_add(1),
    }
    counts
}

/// The fault that reports a refused event.
pub(crate) fn into_feed_fault(refusal: Refusal) -> FeedFault
    ensures { result ≡ feed_fault_of refusal }
{
    match refusal {
        Refusal::Memory => FeedFault::Memory,
        _ => FeedFault::Refused(StreamFault::Core(refusal)),
    }
}

/// Submits the parts of a rendition's encoder to a channel, by a keeper of this type.
#[derive(Drop)]
pub struct IngestSink<K> {
    /// The rendition, and how far its units are mended.
    pub encoder: IngestTarget,
    of: PhantomData<K>,
}

impl<K: Keeper> IngestSink<K> {
    /// A sink for the parts of a rendition's encoder.
    pub fn new(encoder: IngestTarget) -> IngestSink<K>
        ensures { result.encoder ≡ encoder }
    {
        IngestSink {
            encoder,
            of: PhantomData,
        }
    }

    /// Submits an init section.
    pub(crate) fn take_init(
        &self,
        taken: &mut IngestState,
        keeper: &mut K,
        bytes: Bytes,
    ) -> Result<(), FeedFault>
        requires usable { IsUsable self.now.encoder.rendition (K.known keeper.old) taken.old.init }
        ensures usable { IsUsable self.now.encoder.rendition (K.known keeper.new) taken.new.init }
        ensures act_steps { ActsExtend K.other_actors (K.known keeper.old) taken.old.acts (K.known keeper.new) taken.new.acts }
        ensures yields { HandlesPart self.now.encoder.rendition (progress_of taken.old) (Part.Init bytes) (progress_of taken.new) result }
    {
        let init = match read_init(keeper.alloc(), &bytes) {
            Ok(init) => init,
            Err(MediaFault::Memory) => return Err(FeedFault::Memory),
            Err(fault) => return Err(FeedFault::Refused(StreamFault::Media(fault))),
        };
        let event = Event::Begin {
            rendition: self.encoder.rendition,
            init,
            bytes,
        };
        match submit(keeper, &mut taken.acts, event) {
            Ok(done) => {
                taken.counts = with_init(taken.counts, done);
                Ok(())
            }
            Err(refusal) => Err(into_feed_fault(refusal)),
        }
    }

    /// Finds the rendition's init section, by a look unless it is known already.
    pub(crate) fn find_init(&self, taken: &mut IngestState, keeper: &mut K) -> Result<(), FeedFault>
        requires usable { IsUsable self.now.encoder.rendition (K.known keeper.old) taken.old.init }
        ensures usable { IsUsable self.now.encoder.rendition (K.known keeper.new) taken.new.init }
        ensures act_steps { ActsExtend K.other_actors (K.known keeper.old) taken.old.acts (K.known keeper.new) taken.new.acts }
        ensures finds { FindsInitOrFails self.now.encoder.rendition (progress_of taken.old) (progress_of taken.new) result }
    {
        if taken.init.is_some() {
            return Ok(());
        }
        let Ok(state) = look(keeper, &mut taken.acts) else {
            return Err(FeedFault::Memory);
        };
        let Some(recording) = state.recording(self.encoder.rendition) else {
            return Err(FeedFault::Refused(StreamFault::Core(Refusal::NoInit)));
        };
        let Ok(init) = recording.init().share() else {
            return Err(FeedFault::Memory);
        };
        taken.init = Some(init);
        Ok(())
    }

    /// Submits a unit.
    fn take_unit(
        &self,
        taken: &mut IngestState,
        keeper: &mut K,
        bytes: Bytes,
    ) -> Result<(), FeedFault>
        requires usable { IsUsable self.now.encoder.rendition (K.known keeper.old) taken.old.init }
        ensures usable { IsUsable self.now.encoder.rendition (K.known keeper.new) taken.new.init }
        ensures act_steps { ActsExtend K.other_actors (K.known keeper.old) taken.old.acts (K.known keeper.new) taken.new.acts }
        ensures yields { HandlesPart self.now.encoder.rendition (progress_of taken.old) (Part.Unit bytes) (progress_of taken.new) result }
    {
        self.find_init(taken, keeper)?;
        let Some(init) = &taken.init else {
            unreachable!()
        };
        let facts = match read_facts(init, &bytes) {
            Ok(facts) => facts,
            Err(fault) => return Err(FeedFault::Refused(StreamFault::Media(fault))),
        };
        let event = Event::Accept {
            rendition: self.encoder.rendition,
            facts,
            bytes,
        };
        match submit(keeper, &mut taken.acts, event) {
            Ok(done) => {
                taken.counts = with_unit(taken.counts, done);
                Ok(())
            }
            Err(refusal) => Err(into_feed_fault(refusal)),
        }
    }
}

impl<K: Keeper> PartSink for IngestSink<K> {
    ghost use Rattle.hls_api.{proofs.Callers.{acted_none, acted_on}, specs.Ingest.{IngestsPart, Progress as ProgressOf}};

    type StreamState = IngestState;

    type Channel = K;

    ghost Progress = { ProgressOf };

    ghost progress = { λ taken keeper. progress_of taken };

    ghost fits = { λ sink taken keeper. IsUsable sink.encoder.rendition (K.known keeper) taken.init };

    ghost changes = { λ taken keeper later now. ActsExtend K.other_actors (K.known keeper) taken.acts (K.known now) later.acts };

    ghost changes_refl = { λ taken keeper. acted_none K.other_actors (K.known keeper) taken.acts };

    ghost changes_trans = { λ taken keeper later now last then. acted_on K.other_actors (K.known keeper) (K.known now) (K.known then) taken.acts later.acts last.acts };

    ghost yields = { λ sink. IngestsPart sink.encoder };

    fn accept_part(
        &self,
        taken: &mut IngestState,
        keeper: &mut K,
        part: Part,
    ) -> Result<(), FeedFault> {
        match (self.encoder.mending, part) {
            (None, Part::Init(bytes)) => self.take_init(taken, keeper, bytes),
            (None, Part::Unit(bytes)) => self.take_unit(taken, keeper, bytes),
            (Some(_), Part::Init(bytes)) => self.mend_init(taken, keeper, bytes),
            (Some(settings), Part::Unit(bytes)) => self.mend_unit(settings, taken, keeper, bytes),
        }
    }
}
