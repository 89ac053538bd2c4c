//! A channel kept on one thread, with its jobs.

ghost use Rattle.std.specs.Prelude.{◌≡◌};
ghost use Rattle.hls_core_laws.specs.{PassView.Submits, Moves.IsFittingAsSeen};
ghost use Rattle.hls_api.specs.{Acts.knowledge_of, OtherActors.HasMet, OtherActors.Nobody};
ghost use Rattle.hls_connection.specs.Alone.{known_alone};

use crate::act_log::{ActLog, ActNote};
use crate::keeper::Keeper;
use hls_api::catchup_query::CatchupQuery;
use hls_api::encoder_readings::EncoderReadings;
use hls_api::{
    ProgrammeStart, Response, live_playlist_response, metrics_response, start_programme,
};
use hls_catchup::{Job, JobFault, Request};
use hls_core::snapshot::Snapshot;
use hls_core::step::step;
use hls_core::stepped::Stepped;
use hls_core_laws::done::Done;
use hls_core_laws::event::Event;
use hls_core_laws::refusal::Refusal;
use hls_jobs::{FoundPlan, JobTable, plan_now};
use hls_metrics::Measured;
use hls_playlists::MediaUris;
use http_server::Log;
use std::alloc::{AllocError, Global};
use std::sync::Arc;

/// A keeper on one thread: the channel's snapshot, the worker's number in the log, and its jobs, which wait until they are taken from the
/// table and run. Nobody else acts, so the snapshot that it saw last is the current one. It gets no signs of encoders, so all
/// count as away.
#[derive(Drop)]
pub struct Alone {
    /// The allocator.
    pub alloc: Global,
    /// The state.
    pub snapshot: Arc<Snapshot>,
    /// The worker's number.
    pub number: u16,
    /// The jobs.
    pub jobs: JobTable,
    /// Its acts.
    pub acts: ActLog,
}

/// Applies an event of the worker of this number to a snapshot, and replaces that by the result.
fn meet(
    alloc: Global,
    number: u16,
    snapshot: &mut Arc<Snapshot>,
    event: Event,
) -> Result<Done, Refusal>
    requires { IsFittingAsSeen snapshot.old.value event }
    ensures submits { Submits (known_alone number snapshot.old.value) event result (known_alone number snapshot.new.value) }
    ensures met { HasMet Nobody (known_alone number snapshot.old.value) event (known_alone number snapshot.new.value) }
{
    let version = snapshot.version();
    match step(snapshot, alloc, number, event) {
        Ok(Stepped::New(next)) => {
            *snapshot = next;
            Ok(Done::New {
                version: version + 1,
            })
        }
        Ok(Stepped::Repeat) => Ok(Done::Repeat),
        Err(refusal) => Err(refusal),
    }
}

impl Keeper for Alone {
    ghost known = { λ alone. knowledge_of (known_alone alone.number alone.snapshot.value) alone.acts };

    ghost other_actors = { Nobody };

    fn alloc(&self) -> Global {
        self.alloc
    }

    fn rendition_count(&self) -> usize {
        let _ = self.snapshot.version(); // the proof needs that the state is well formed
        self.snapshot.config().renditions().len()
    }

    fn look(&mut self) -> Result<Arc<Snapshot>, AllocError> {
        let shown = Arc::try_clone(&self.snapshot);
        self.acts.note_look(&shown);
        shown
    }

    fn live_playlist_response(
        &mut self,
        state: Arc<Snapshot>,
        rendition: usize,
        uris: MediaUris,
    ) -> Result<Response, AllocError> {
        live_playlist_response(self.alloc, state, rendition, uris)
    }

    fn start_programme(
        &mut self,
        state: &Arc<Snapshot>,
        query: CatchupQuery,
    ) -> Result<ProgrammeStart, AllocError> {
        start_programme(self.alloc, state, query)
    }

    fn submit(&mut self, event: Event) -> Result<Done, Refusal> {
        let note = Log::new().and(&event, &());
        let done = meet(self.alloc, self.number, &mut self.snapshot, event);
        self.acts.push(ActNote::Submitted(note, done));
        done
    }

    fn add_job(&mut self, snapshot: Arc<Snapshot>, request: Request) -> Result<u64, JobFault> {
        let note = Log::new().and(&snapshot, &());
        let added = self.jobs.add(snapshot, request);
        self.acts.push(ActNote::Added(note, request, added));
        added
    }

    fn get_job(&self, id: u64) -> Result<Job, JobFault> {
        self.jobs.get(id)
    }

    fn remove_job(&mut self, id: u64) -> Result<(), JobFault> {
        let removed = self.jobs.remove(id);
        self.acts.push(ActNote::Removed(id, removed));
        removed
    }

    fn find_or_plan(
        &self,
        snapshot: &Arc<Snapshot>,
        request: Request,
        _client: u64,
    ) -> Result<FoundPlan, AllocError> {
        plan_now(self.alloc, snapshot, request)
    }

    fn find_plan(&self, request: Request) -> Result<FoundPlan, AllocError> {
        plan_now(self.alloc, &self.snapshot, request)
    }

    fn job_count(&self) -> usize {
        self.jobs.len()
    }

    fn read_encoders(&mut self, _ahead_us: u64) -> EncoderReadings {
        let readings = EncoderReadings::silence();
        self.acts.note_readings(&readings);
        readings
    }

    fn plan_wait_ms(&self) -> u64 {
        0 // a plan is made when it is asked for
    }

    fn metrics_response(&mut self, state: &Arc<Snapshot>) -> Result<Response, AllocError> {
        metrics_response(self.alloc, state, self.jobs.len(), &Measured::nothing())
    }
}
