//! An encoder's body whose units are mended: what is submitted for each part.

ghost use Rattle.std.specs.Prelude.{◌≡◌, All, IfOk};
ghost use Rattle.hls_media_laws.specs.IsInitOrUnit.{IsUnit};
ghost use Rattle.hls_api.specs.{Acts.ActsExtend, Ingest.MaySubmit, Ingest.MendsInit, Ingest.MendsPart, Ingest.with_filler as counts_with_filler, Ingest.with_mended as counts_with_mended, Ingest.mended_result as result_of};
ghost use Rattle.hls_connection.specs.IngestStates.{IsUsable, progress_of};
ghost use Rattle.hls_connection.specs.MendingStates.{ChoosesInitOrFails, DecidesUnitOrFails, HasReadUnit, MakesMended, PreparesOrStops, SubmitsFillerOrFails, SubmitsFillersOrFail, SubmitsMended, with_acts};
ghost use Rattle.hls_mend.specs.MendedUnits.{as_sent as sent_alone, mended_view};

use crate::act_log::{look, read_encoders, submit};
use crate::ingest_sink::{IngestSink, IngestState};
use crate::keeper::Keeper;
use bytes::Bytes;
use hls_api::encoder_readings::{ahead_us, is_accepted, may_be_ahead};
use hls_api::gap_limit::settings_for;
use hls_api::ingest::IngestCounts;
use hls_boxes::Part;
use hls_core::snapshot::Snapshot;
use hls_core::{FeedFault, StreamFault};
use hls_core_laws::done::Done;
use hls_core_laws::event::Event;
use hls_core_laws::refusal::Refusal;
use hls_media::read_facts;
use hls_media_laws::facts::Facts;
use hls_mend::mended::{MendedUnit, ReadUnit};
use hls_mend::{declared_rate, is_same_to_decoders, mend_unit};
use hls_mend_laws::settings::MendSettings;
use std::alloc::Global;

/// The counts after a filler was submitted.
fn with_filler(mut counts: IngestCounts, answer: Result<Done, Refusal>) -> IngestCounts
    ensures { result ≡ counts_with_filler answer counts }
{
    if let Ok(Done::New { .. }) = answer {
        counts.filled = counts.filled.saturating_add(1);
    }
    counts
}

/// The counts after a unit was submitted, as it was sent or written again.
fn with_mended(
    mut counts: IngestCounts,
    is_changed: bool,
    answer: Result<Done, Refusal>,
) -> IngestCounts
    ensures { result ≡ counts_with_mended is_changed answer counts }
{
    match answer {
        Ok(Done::New { .. }) if is_changed => counts.mended = counts.mended.saturating_add(1),
        Ok(Done::New { .. }) => counts.units = counts.units.saturating_add(1),
        Ok(Done::Repeat) => counts.repeats = counts.repeats.saturating_add(1),
        Err(Refusal::Overlap) => counts.dropped = counts.dropped.saturating_add(1),
        Err(_) => {}
    }
    counts
}

/// The result for the body of a unit that was submitted: it continues after one that overlaps.
fn into_result(answer: Result<Done, Refusal>) -> Result<(), FeedFault>
    ensures { result ≡ result_of answer }
{
    match answer {
        Ok(_) | Err(Refusal::Overlap) => Ok(()),
        Err(Refusal::Memory) => Err(FeedFault::Memory),
        Err(refusal) => Err(FeedFault::Refused(StreamFault::Core(refusal))),
    }
}

/// A unit as it was sent.
fn as_sent(alloc: Global, unit: ReadUnit) -> MendedUnit
    ensures { mended_view result ≡ sent_alone unit }
{
    MendedUnit {
        fillers: Vec::new(alloc),
        unit,
        is_changed: false,
    }
}

impl<K: Keeper> IngestSink<K> {
    /// The init section to submit: the recorded one, if the one that was sent is the same to every decoder.
    fn choose_init(
        &self,
        taken: &mut IngestState,
        keeper: &mut K,
        bytes: Bytes,
    ) -> Result<Bytes, FeedFault>
        requires usable { IsUsable self.now.encoder.rendition (K.known keeper.old) taken.old.init }
        ensures usable { IsUsable self.now.encoder.rendition (K.known keeper.new) taken.new.init }
        ensures act_steps { ActsExtend K.other_actors (K.known keeper.old) taken.old.acts (K.known keeper.new) taken.new.acts }
        ensures chooses { ChoosesInitOrFails self.now.encoder.rendition (progress_of taken.old) bytes (progress_of taken.new) result }
    {
        let Ok(state) = look(keeper, &mut taken.acts) else {
            return Err(FeedFault::Memory);
        };
        let Some(recording) = state.recording(self.encoder.rendition) else {
            return Ok(bytes);
        };
        let recorded = recording.init_section_bytes();
        match is_same_to_decoders(keeper.alloc(), recorded, &bytes) {
            Ok(true) => match recorded.clone() {
                Ok(recorded) => Ok(recorded),
                Err(_) => Err(FeedFault::Memory),
            },
            Ok(false) => Ok(bytes),
            Err(_) => Err(FeedFault::Memory),
        }
    }

    /// Submits an init section, or the recorded one in its place.
    #[tactic(auto, using(crate::proofs::MendLaws::fails_to_choose, crate::proofs::MendLaws::mends_init))]
    pub(crate) fn mend_init(
        &self,
        taken: &mut IngestState,
        keeper: &mut K,
        bytes: Bytes,
    ) -> Result<(), FeedFault>
        requires usable { IsUsable self.now.encoder.rendition (K.known keeper.old) taken.old.init }
        ensures usable { IsUsable self.now.encoder.rendition (K.known keeper.new) taken.new.init }
        ensures act_steps { ActsExtend K.other_actors (K.known keeper.old) taken.old.acts (K.known keeper.new) taken.new.acts }
        ensures yields { MendsInit self.now.encoder.rendition (progress_of taken.old) bytes (progress_of taken.new) result }
    {
        let chosen = self.choose_init(taken, keeper, bytes)?;
        self.take_init(taken, keeper, chosen)
    }

    /// Whether a unit may be submitted, by the state that was looked at. One that is ahead of the channel, by its start or its end, may if the
    /// other renditions' encoders are ahead or away.
    fn may_submit(
        &self,
        settings: MendSettings,
        taken: &mut IngestState,
        keeper: &mut K,
        state: &Snapshot,
        facts: Facts,
    ) -> bool
        requires usable { IsUsable self.now.encoder.rendition (K.known keeper.old) taken.old.init }
        ensures usable { IsUsable self.now.encoder.rendition (K.known keeper.new) taken.new.init }
        ensures act_steps { ActsExtend K.other_actors (K.known keeper.old) taken.old.acts (K.known keeper.new) taken.new.acts }
        ensures may { MaySubmit settings self.now.encoder.rendition state.now facts taken.old.acts taken.new.acts result }
        ensures same { progress_of taken.new ≡ with_acts (progress_of taken.old) taken.new.acts }
    {
        let rendition = self.encoder.rendition;
        if !may_be_ahead(settings.fill_us, state, rendition, facts) {
            return true;
        }
        let ahead = ahead_us(state, rendition, facts);
        let readings = read_encoders(keeper, &mut taken.acts, ahead);
        is_accepted(settings.fill_us, state, rendition, facts, &readings)
    }

    /// What mending makes of a unit in a state.
    fn mend_in(
        &self,
        settings: MendSettings,
        taken: &IngestState,
        keeper: &K,
        state: &Snapshot,
        unit: ReadUnit,
    ) -> Result<MendedUnit, FeedFault>
        requires reads { HasReadUnit taken.now.init unit }
        ensures mends { MakesMended settings self.now.encoder.rendition taken.now.init state.now unit result }
        ensures valid { IfOk result (λ m. HasReadUnit taken.now.init m.unit) }
        ensures filled { IfOk result (λ m. All (HasReadUnit taken.now.init) m.fillers.items) }
    {
        let Some(init) = &taken.init else {
            unreachable!()
        };
        let Some(recording) = state.recording(self.encoder.rendition) else {
            return Ok(as_sent(keeper.alloc(), unit));
        };
        let start_us = unit.facts.start_us;
        let settings = settings_for(settings, state, self.encoder.rendition, start_us);
        let bandwidth = declared_rate(state.config().renditions(), self.encoder.rendition);
        match mend_unit(keeper.alloc(), settings, bandwidth, init, recording, unit) {
            Ok(mended) => Ok(mended),
            Err(_) => Err(FeedFault::Memory),
        }
    }

    /// Decides what is submitted for a unit, by a look.
    #[tactic(auto, using(crate::proofs::MendLaws::fails_to_decide, crate::proofs::MendLaws::decides_submit, crate::proofs::MendLaws::decides_refuse))]
    fn decide_unit(
        &self,
        settings: MendSettings,
        taken: &mut IngestState,
        keeper: &mut K,
        unit: ReadUnit,
    ) -> Result<MendedUnit, FeedFault>
        requires usable { IsUsable self.now.encoder.rendition (K.known keeper.old) taken.old.init }
        requires reads { HasReadUnit taken.old.init unit }
        ensures usable { IsUsable self.now.encoder.rendition (K.known keeper.new) taken.new.init }
        ensures act_steps { ActsExtend K.other_actors (K.known keeper.old) taken.old.acts (K.known keeper.new) taken.new.acts }
        ensures decides { DecidesUnitOrFails settings self.now.encoder.rendition (progress_of taken.old) unit (progress_of taken.new) result }
        ensures valid { IfOk result (λ m. HasReadUnit taken.new.init m.unit) }
        ensures filled { IfOk result (λ m. All (HasReadUnit taken.new.init) m.fillers.items) }
    {
        let facts = unit.facts;
        let Ok(state) = look(keeper, &mut taken.acts) else {
            return Err(FeedFault::Memory);
        };
        // of a unit whose start is ahead no bytes are made; of one whose end alone is, they are made and not used
        let mended = self.mend_in(settings, taken, keeper, &state, unit)?;
        if self.may_submit(settings, taken, keeper, &state, facts) {
            Ok(mended)
        } else {
            Err(FeedFault::Refused(StreamFault::AheadOfChannel))
        }
    }

    /// Decides what is submitted for a unit, by the rendition's init section and the unit's facts.
    #[tactic(auto, using(crate::proofs::MendLaws::stops_finding, crate::proofs::MendLaws::stops_reading, crate::proofs::MendLaws::prepared))]
    fn prepare_unit(
        &self,
        settings: MendSettings,
        taken: &mut IngestState,
        keeper: &mut K,
        bytes: Bytes,
    ) -> Result<MendedUnit, FeedFault>
        requires usable { IsUsable self.now.encoder.rendition (K.known keeper.old) taken.old.init }
        ensures usable { IsUsable self.now.encoder.rendition (K.known keeper.new) taken.new.init }
        ensures act_steps { ActsExtend K.other_actors (K.known keeper.old) taken.old.acts (K.known keeper.new) taken.new.acts }
        ensures prepares { PreparesOrStops settings self.now.encoder.rendition (progress_of taken.old) bytes (progress_of taken.new) result }
        ensures valid { IfOk result (λ m. HasReadUnit taken.new.init m.unit) }
        ensures filled { IfOk result (λ m. All (HasReadUnit taken.new.init) m.fillers.items) }
    {
        self.find_init(taken, keeper)?;
        let Some(init) = &taken.init else {
            unreachable!()
        };
        let facts = match read_facts(init, &bytes) {
            Ok(facts) => facts,
            Err(fault) => return Err(FeedFault::Refused(StreamFault::Media(fault))),
        };
        self.decide_unit(settings, taken, keeper, ReadUnit { facts, bytes })
    }

    /// Submits a filler, and returns whether it doesn't overlap. One that the channel refuses otherwise is left out.
    fn submit_filler(
        &self,
        taken: &mut IngestState,
        keeper: &mut K,
        filler: &ReadUnit,
    ) -> Result<bool, FeedFault>
        requires usable { IsUsable self.now.encoder.rendition (K.known keeper.old) taken.old.init }
        requires reads { HasReadUnit taken.old.init filler.now }
        ensures usable { IsUsable self.now.encoder.rendition (K.known keeper.new) taken.new.init }
        ensures act_steps { ActsExtend K.other_actors (K.known keeper.old) taken.old.acts (K.known keeper.new) taken.new.acts }
        ensures fills { SubmitsFillerOrFails self.now.encoder.rendition (progress_of taken.old) filler.now (progress_of taken.new) result }
    {
        let Ok(bytes) = filler.bytes.clone() else {
            return Err(FeedFault::Memory);
        };
        let event = Event::Accept {
            rendition: self.encoder.rendition,
            facts: filler.facts,
            bytes,
        };
        let answer = submit(keeper, &mut taken.acts, event);
        if let Err(Refusal::Memory) = answer {
            return Err(FeedFault::Memory);
        }
        if let Err(Refusal::Overlap) = answer {
            return Ok(false);
        }
        taken.counts = with_filler(taken.counts, answer);
        Ok(true)
    }

    /// Submits fillers, one after another, up to one that overlaps. Returns whether none does.
    #[tactic(auto, using(crate::proofs::MendLaws::stops_in_fillers, crate::proofs::MendLaws::fills_all))]
    fn submit_fillers(
        &self,
        taken: &mut IngestState,
        keeper: &mut K,
        fillers: &[ReadUnit],
    ) -> Result<bool, FeedFault>
        requires usable { IsUsable self.now.encoder.rendition (K.known keeper.old) taken.old.init }
        requires reads { All (HasReadUnit taken.old.init) fillers.now }
        ensures usable { IsUsable self.now.encoder.rendition (K.known keeper.new) taken.new.init }
        ensures act_steps { ActsExtend K.other_actors (K.known keeper.old) taken.old.acts (K.known keeper.new) taken.new.acts }
        ensures fills { SubmitsFillersOrFail self.now.encoder.rendition (progress_of taken.old) fillers.now (progress_of taken.new) result }
    {
        for filler in fillers {
            let is_joined = self.submit_filler(taken, keeper, filler)?;
            if !is_joined {
                return Ok(false);
            }
        }
        Ok(true)
    }

    /// Submits a unit, as it was sent or written again.
    fn submit_mended(
        &self,
        taken: &mut IngestState,
        keeper: &mut K,
        unit: ReadUnit,
        is_changed: bool,
    ) -> Result<(), FeedFault>
        requires usable { IsUsable self.now.encoder.rendition (K.known keeper.old) taken.old.init }
        requires reads { HasReadUnit taken.old.init unit }
        ensures usable { IsUsable self.now.encoder.rendition (K.known keeper.new) taken.new.init }
        ensures act_steps { ActsExtend K.other_actors (K.known keeper.old) taken.old.acts (K.known keeper.new) taken.new.acts }
        ensures submits { SubmitsMended self.now.encoder.rendition (progress_of taken.old) unit is_changed (progress_of taken.new) result }
    {
        let event = Event::Accept {
            rendition: self.encoder.rendition,
            facts: unit.facts,
            bytes: unit.bytes,
        };
        let answer = submit(keeper, &mut taken.acts, event);
        taken.counts = with_mended(taken.counts, is_changed, answer);
        into_result(answer)
    }

    /// Submits what mending makes of a unit. If the rendition was filled by others after the look, the unit is left out, and the next one is
    /// decided by another look: what follows an overlapping filler would leave a gap.
    #[tactic(auto, using(crate::proofs::MendLaws::stops_preparing))]
    pub(crate) fn mend_unit(
        &self,
        settings: MendSettings,
        taken: &mut IngestState,
        keeper: &mut K,
        bytes: Bytes,
    ) -> Result<(), FeedFault>
        requires usable { IsUsable self.now.encoder.rendition (K.known keeper.old) taken.old.init }
        ensures usable { IsUsable self.now.encoder.rendition (K.known keeper.new) taken.new.init }
        ensures act_steps { ActsExtend K.other_actors (K.known keeper.old) taken.old.acts (K.known keeper.new) taken.new.acts }
        ensures yields { MendsPart settings self.now.encoder.rendition (progress_of taken.old) (Part.Unit bytes) (progress_of taken.new) result }
    {
        let mended = self.prepare_unit(settings, taken, keeper, bytes)?;
        let is_filled = self.submit_fillers(taken, keeper, &mended.fillers)?;
        if !is_filled {
            taken.counts = with_mended(taken.counts, false, Err(Refusal::Overlap));
            return Ok(());
        }
        self.submit_mended(taken, keeper, mended.unit, mended.is_changed)
    }
}
