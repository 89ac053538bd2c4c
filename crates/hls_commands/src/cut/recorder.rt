//! The recorder: it ingests a stream into a channel of one rendition, part by part.
ghost use Rattle.std.specs.Prelude.{◌≡◌, length, IfOk};
ghost use Rattle.hls_media_laws.specs.Inits.{init_of};
ghost use Rattle.hls_media_laws.specs.UnitFacts.{facts};
ghost use Rattle.hls_core_laws.specs.Moves.{IsFitting};
ghost use Rattle.hls_core_laws.specs.Runs.{first_state};
ghost use Rattle.hls_core.specs.Getters.{recording_of};
ghost use Rattle.hls_core.specs.declared.feed_fault.StreamFault.TheVariants.{Media};
ghost use Rattle.hls_commands.specs.MemoryCases.{IsDefinedOrMemory, IsReadOrMemory};
ghost use Rattle.hls_commands.specs.RecordedState.{state_at_end, state_after, with_part};
ghost use Rattle.hls_commands.specs.OrRefused.{or_refused_as};

use bytes::Bytes;
use hls_boxes::part::Part;
use hls_core::config::Config;
use hls_core::snapshot::Snapshot;
use hls_core::step::apply;
use hls_core::{FeedFault, PartSink, StreamFault};
use hls_core_laws::done::Done;
use hls_core_laws::event::Event;
use hls_core_laws::refusal::Refusal;
use hls_media::{read_facts, read_init};
use hls_media_laws::fault::MediaFault;
use hls_media_laws::init::Init;
use std::alloc::{AllocError, Global};
use std::marker::Model;
use std::sync::Arc;

/// The number of the only worker, which submits all events.
const WORKER: u16 = 0;

/// The number of the only rendition.
pub const RENDITION: usize = 0;

/// Ingests a stream into a channel of one rendition. A contract sees it as the channel's state.
#[derive(Drop)]
pub struct Recorder {
    snapshot: Arc<Snapshot>,
}

impl Model for Recorder {
    ghost use Rattle.std.specs.Prelude.{◌≡◌, length};
    ghost use Rattle.hls_core_laws.specs.State.{State};

    ghost Value = { State };

    ghost view = { λ r. r.snapshot.value };

    ghost invariant = { λ r. length r.snapshot.value.config.renditions ≡ 1 };
}

/// Parses the bytes of an init section.
fn parse_init(alloc: Global, bytes: &[u8]) -> Result<Init, FeedFault>
    ensures { IsReadOrMemory (or_refused_as Media (init_of bytes.now)) result }
{
    match read_init(alloc, bytes) {
        Ok(meaning) => Ok(meaning),
        Err(MediaFault::Memory) => Err(FeedFault::Memory),
        Err(fault) => Err(FeedFault::Refused(StreamFault::Media(fault))),
    }
}

impl Recorder {
    /// Creates a recorder of a channel with this configuration, with nothing recorded.
    pub fn new(alloc: Global, config: Config) -> Result<Recorder, AllocError>
        requires { length config.renditions ≡ 1 }
        ensures { IfOk result (λ recorder. recorder ≡ first_state config) }
    {
        let snapshot = Arc::new(alloc, Snapshot::first(alloc, config)?)?;
        Ok(Recorder { snapshot })
    }

    /// Returns the channel as recorded so far.
    pub fn snapshot(&self) -> &Snapshot
        ensures value { result.now ≡ self.now }
        ensures one { length self.now.config.renditions ≡ 1 }
    {
        &self.snapshot
    }

    /// Applies an event; a duplicate adds nothing.
    fn apply_event(&mut self, alloc: Global, event: Event) -> Result<(), FeedFault>
        requires { IsFitting self.old event }
        ensures { IsDefinedOrMemory (state_after self.old event) self.new result }
    {
        match apply(&mut self.snapshot, alloc, WORKER, event) {
            Ok(Done::New { .. }) => Ok(()),
            Ok(Done::Repeat) => Ok(()),
            Err(Refusal::Memory) => Err(FeedFault::Memory),
            Err(refusal) => Err(FeedFault::Refused(StreamFault::Core(refusal))),
        }
    }

    /// Accepts an init section.
    fn accept_init(&mut self, alloc: Global, bytes: Bytes) -> Result<(), FeedFault>
        ensures { IsDefinedOrMemory (with_part self.old (Part.Init bytes)) self.new result }
    {
        let init = match parse_init(alloc, &bytes) {
            Ok(init) => init,
            Err(fault) => return Err(fault),
        };
        let event = Event::Begin {
            rendition: RENDITION,
            init,
            bytes,
        };
        self.apply_event(alloc, event)
    }

    /// Accepts a unit.
    fn accept_unit(&mut self, alloc: Global, bytes: Bytes) -> Result<(), FeedFault>
        ensures { IsDefinedOrMemory (with_part self.old (Part.Unit bytes)) self.new result }
    {
        let Some(recording) = self.snapshot.recording(RENDITION) else {
            return Err(FeedFault::Refused(StreamFault::Core(Refusal::NoInit)));
        };
        let facts = match read_facts(recording.init(), &bytes) {
            Ok(facts) => facts,
            Err(fault) => return Err(FeedFault::Refused(StreamFault::Media(fault))),
        };
        let event = Event::Accept {
            rendition: RENDITION,
            facts,
            bytes,
        };
        self.apply_event(alloc, event)
    }

    /// Ends the stream: there are no further units.
    #[tactic(auto, unfolding(crate::specs::RecordedState::state_at_end))]
    pub fn finish(&mut self, alloc: Global) -> Result<(), FeedFault>
        ensures { IsDefinedOrMemory (state_at_end self.old) self.new result }
    {
        let event = Event::Finish {
            rendition: RENDITION,
        };
        self.apply_event(alloc, event)
    }
}

/// Accepts the parts of a stream into a recorder.
#[derive(Clone, Copy)]
pub struct RecorderSink {
    /// The allocator.
    pub alloc: Global,
}

impl PartSink for RecorderSink {
    ghost use Rattle.hls_core_laws.specs.State.{State};
    ghost use Rattle.hls_commands.specs.RecordedState.{PartYields};

    type StreamState = ();

    type Channel = Recorder;

    ghost Progress = { State };

    ghost progress = { λ kept recorder. recorder };

    ghost fits = { λ recording kept recorder. Unit {0} };

    ghost yields = { λ recording. PartYields };

    ghost changes = { λ kept recorder later now. Unit {0} };

    ghost changes_refl = { λ kept recorder. tt };

    ghost changes_trans = { λ kept recorder later now last then first second. tt };

    fn accept_part(
        &self,
        _kept: &mut (),
        recorder: &mut Recorder,
        part: Part,
    ) -> Result<(), FeedFault> {
        match part {
            Part::Init(bytes) => recorder.accept_init(self.alloc, bytes),
            Part::Unit(bytes) => recorder.accept_unit(self.alloc, bytes),
        }
    }
}
