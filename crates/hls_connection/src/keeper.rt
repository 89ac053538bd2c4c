//! What a session uses of a channel: its state, and the jobs of catch-up recordings.

ghost use Rattle.std.specs.Prelude.{◌≡◌, ℕ, IfOk, length};
ghost use Rattle.hls_core_laws.specs.{IsState.IsState, Moves.IsFittingAsSeen, PassView.{MaySeeLater, Looks, Submits}};
ghost use Rattle.hls_catchup.specs.Jobs.Shared.{HasCounted, HasRemoved};
ghost use Rattle.hls_api.specs.Acts.{Added, Knowledge, ReadEncoders, RecordsLookResult, Removed, knowledge_after, view_of};
ghost use Rattle.hls_api.specs.{JobTable.{IsAddResult, IsGetResult}, OtherActors.{MayBecome, OtherActors, HasMet}};
ghost use Rattle.hls_jobs.specs.Plans.{HasAddedPlan, HasFoundPlan};
ghost use Rattle.hls_metrics.specs.declared.measured.Measured.{Measured as MeasuredData};
ghost use Rattle.hls_api.specs.Acts as acts;
ghost use Rattle.hls_api.specs.Players.{live_list_answer};
ghost use Rattle.hls_api.specs.Programmes.{StartsProgramme};
ghost use Rattle.hls_api.specs.Responses as replies;

use hls_api::catchup_query::CatchupQuery;
use hls_api::encoder_readings::EncoderReadings;
use hls_api::{ProgrammeStart, Response};
use hls_catchup::{Job, JobFault, Request};
use hls_core::snapshot::Snapshot;
use hls_core_laws::done::Done;
use hls_core_laws::event::Event;
use hls_core_laws::refusal::Refusal;
use hls_jobs::FoundPlan;
use hls_playlists::MediaUris;
use std::alloc::{AllocError, Global};
use std::sync::Arc;

/// What a session uses to read a channel's state, to submit events, and to add, read and remove jobs. A keeper has all that it acts
/// with, so a session borrows nothing else. Its calls may wait.
pub trait Keeper {
    /// What the keeper knows: its number, the state that it saw last, and the events that it submitted; and all its acts. Each call that
    /// may change something is noted there, whoever makes it.
    ghost known: { Self → Knowledge };

    /// The others that may act on the channel between two calls.
    ghost other_actors: { OtherActors };

    /// The allocator for requests and responses.
    fn alloc(&self) -> Global;

    /// The number of the channel's renditions, which never changes.
    fn rendition_count(&self) -> usize
        ensures count { result ≡ length (known self.now).seen.config.renditions }
        ensures valid { IsState (known self.now).seen };

    /// Returns the current state, which the keeper has then seen.
    fn look(&mut self) -> Result<Arc<Snapshot>, AllocError>
        ensures looked { MaySeeLater (view_of (known self.old)) (view_of (known self.new)) }
        ensures looks { IfOk result (λ s. Looks (view_of (known self.old)) s.value (view_of (known self.new))) }
        ensures other_actors { MayBecome other_actors (known self.old).seen (known self.new).seen }
        ensures asked { RecordsLookResult (known self.old).acts result (known self.new).acts };

    /// Returns the response with the live list of a rendition, by ranges or by paths, in the state that the keeper saw last. A long one
    /// may be partly made. 404 before the first segment is closed.
    fn live_playlist_response(
        &mut self,
        state: Arc<Snapshot>,
        rendition: usize,
        uris: MediaUris,
    ) -> Result<Response, AllocError>
        requires { state.value ≡ (known self.old).seen }
        ensures known { known self.new ≡ known self.old }
        ensures list { IfOk result (λ a. a ≡ live_list_answer uris state.value rendition) };

    /// Returns what a query for a programme leads to in the state that the keeper saw last: its request if the state has the programme, or
    /// the response that refuses it.
    fn start_programme(
        &mut self,
        state: &Arc<Snapshot>,
        query: CatchupQuery,
    ) -> Result<ProgrammeStart, AllocError>
        requires { state.now.value ≡ (known self.old).seen }
        ensures known { known self.new ≡ known self.old }
        ensures starts { IfOk result (StartsProgramme state.now.value query) };

    /// Applies an event to the current state, as one of this keeper. The refusals are those of a step of the core.
    fn submit(&mut self, event: Event) -> Result<Done, Refusal>
        requires { IsFittingAsSeen (known self.old).seen event }
        ensures submits { Submits (view_of (known self.old)) event result (view_of (known self.new)) }
        ensures met { HasMet other_actors (view_of (known self.old)) event (view_of (known self.new)) }
        ensures asked { acts.RecordsSubmit (known self.old).acts event result (known self.new).acts };

    /// Adds a job that answers the request from the snapshot, and returns its id; `TableFull` if there is no place for it.
    fn add_job(&mut self, snapshot: Arc<Snapshot>, request: Request) -> Result<u64, JobFault>
        ensures known { known self.new ≡ knowledge_after (known self.old) (Added snapshot.value request result) }
        ensures adds { IsAddResult snapshot.value request result };

    /// Returns the job of an id. An answer is shared, not copied.
    fn get_job(&self, id: u64) -> Result<Job, JobFault>
        ensures { IsGetResult id result };

    /// Removes the job of an id.
    fn remove_job(&mut self, id: u64) -> Result<(), JobFault>
        ensures known { known self.new ≡ knowledge_after (known self.old) (Removed id result) }
        ensures removes { HasRemoved id result };

    /// Returns what is known of a request's programme; one that nothing is known of is planned from the snapshot, which has it, in the turn
    /// of the client of this number, unless too many are.
    fn find_or_plan(
        &self,
        snapshot: &Arc<Snapshot>,
        request: Request,
        client: u64,
    ) -> Result<FoundPlan, AllocError>
        ensures { IfOk result (HasAddedPlan request client) };

    /// Returns what is known of a request's programme.
    fn find_plan(&self, request: Request) -> Result<FoundPlan, AllocError>
        ensures { IfOk result (HasFoundPlan request) };

    /// How many jobs there are.
    fn job_count(&self) -> usize
        ensures { HasCounted result };

    /// Returns what is known of the renditions' encoders now, for a unit that is so far ahead of the channel's end, in
    /// microseconds. No contract covers it.
    fn read_encoders(&mut self, ahead_us: u64) -> EncoderReadings
        ensures { known self.new ≡ knowledge_after (known self.old) (ReadEncoders result) };

    /// How long a response waits for a programme's plan, in milliseconds; 30 seconds at most. No contract covers it.
    fn plan_wait_ms(&self) -> u64;

    /// Returns the response with the metrics of a state, in memory that may be set aside. No contract covers what the server around the
    /// channel measured.
    fn metrics_response(&mut self, state: &Arc<Snapshot>) -> Result<Response, AllocError>
        ensures known { known self.new ≡ known self.old }
        ensures metrics { IfOk result (λ a. (jobs : ℕ) × HasCounted jobs × ((measured : MeasuredData) × (a ≡ replies.metrics_answer state.now.value jobs measured))) };
}
