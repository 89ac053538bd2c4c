//! A thread's handle of a channel that many threads share, and the sessions that it serves.

ghost use Rattle.std.specs.Prelude.{◌≡◌, ◌≤◌, [], length, IsFalse, IsTrue};
ghost use Rattle.hls_api.specs.{Acts.knowledge_of, OtherActors.Others, PlaylistCache.HasSameListsBefore};
ghost use Rattle.hls_connection.specs.{FailureCounts.SessionCounts, RunsSession.RunsSession};

use crate::act_log::{ActLog, ActNote};
use crate::events::NoObserver;
use crate::keeper::Keeper;
use crate::session::session_on;
use crate::shared_channel::SharedChannel;
use hls_api::catchup_query::CatchupQuery;
use hls_api::encoder_readings::EncoderReadings;
use hls_api::{MetricsMemory, PlaylistCache, ProgrammeCache, ProgrammeStart, Response};
use hls_catchup::{Job, JobFault, Request};
use hls_core::snapshot::Snapshot;
use hls_core_laws::done::Done;
use hls_core_laws::event::Event;
use hls_core_laws::refusal::Refusal;
use hls_http::{Session, SessionEnd};
use hls_jobs::FoundPlan;
use hls_playlists::MediaUris;
use hls_turn::Pass;
use http_server::Log;
use std::alloc::{AllocError, Global};
use std::cell::Cell;
use std::io::{Read, Write};
use std::sync::{Arc, Wait};

/// A version that a handle's pass saw.
#[derive(Clone, Copy, Drop)]
pub struct SeenVersion {
    /// The last known one; 0 before the first.
    pub version: u64,
    /// Whether it covers what was made since it was asked for before.
    pub is_covering: bool,
}

/// A thread's handle of a channel: the runtime by which it waits, the allocator, the channel's turn and jobs, and a pass of the turn.
/// The next look or event sees what other passes submitted meanwhile. Between two calls it holds nothing of the turn or the jobs,
/// except the texts of short live lists and the queries for programmes of the snapshots that it looked at for one last.
#[derive(Drop)]
pub struct ChannelHandle<'a, T: Wait> {
    /// The runtime by which it waits.
    pub rt: &'a T,
    /// The allocator.
    pub alloc: Global,
    /// The turn and the jobs.
    pub channel: SharedChannel<'a>,
    /// The thread's pass of the turn.
    pub pass: Pass,
    /// Its acts.
    pub acts: ActLog,
    /// The time at which its user last read the clock, in milliseconds.
    pub now_ms: u64,
    lists: PlaylistCache,
    programmes: ProgrammeCache,
    metrics: MetricsMemory,
    /// The last known version of a state that the pass saw; 0 before the first.
    pub seen: u64,
    /// Whether the pass may have seen a later state since: the last event was a repeat or refused, or the last look failed.
    is_unknown: bool,
    /// Whether a job was read since the last call of `take_seen`. A job may be of a later state than the pass saw.
    has_read_job: Cell<bool>,
    ghost ours: { pass.turn ≡ channel.turn.now },
    ghost listed: { HasSameListsBefore lists pass.known.seen },
    ghost started: { HasSameListsBefore programmes pass.known.seen },
    ghost covered: { IsFalse is_unknown → length pass.known.seen.log ≤ seen },
}

impl<'a, T: Wait> ChannelHandle<'a, T> {
    /// A handle with a pass of the channel's turn, and with memory that is set aside for its metrics, if there is any.
    pub fn new(
        rt: &'a T,
        alloc: Global,
        channel: &SharedChannel<'a>,
        pass: Pass,
    ) -> ChannelHandle<'a, T>
        requires { pass.turn ≡ channel.now.turn.now }
        ensures known { result.pass.known ≡ pass.known }
        ensures acts { result.acts ≡ [] }
    {
        let metrics = MetricsMemory::new(alloc, pass.rendition_count());
        ChannelHandle {
            rt,
            alloc,
            channel: *channel,
            pass,
            acts: ActLog::new(),
            now_ms: 0,
            lists: PlaylistCache::new(alloc),
            programmes: ProgrammeCache::new(alloc),
            metrics,
            seen: 0,
            is_unknown: true,
            has_read_job: Cell::new(false),
        }
    }

    /// Returns the last known version that the pass saw, and whether it covers what was made since the last call. It doesn't if a later
    /// state may have been seen, or if a job was read meanwhile, which may be of a later state.
    pub fn take_seen(&self) -> SeenVersion
        ensures version { result.version ≡ self.now.seen }
        ensures covers { IsTrue result.is_covering → length self.now.pass.known.seen.log ≤ result.version }
    {
        let has_read_job = self.has_read_job.replace(false);
        SeenVersion {
            version: self.seen,
            is_covering: !has_read_job && !self.is_unknown,
        }
    }
}

impl<'a, T: Wait> Keeper for ChannelHandle<'a, T> {
    ghost known = { λ handle. knowledge_of handle.pass.known handle.acts };

    ghost other_actors = { Others };

    fn alloc(&self) -> Global {
        self.alloc
    }

    fn rendition_count(&self) -> usize {
        self.pass.rendition_count()
    }

    #[tactic(auto, using(hls_api::proofs::Callers::lists_looked))]
    fn look(&mut self) -> Result<Arc<Snapshot>, AllocError> {
        self.is_unknown = true;
        let turn = self.channel.turn;
        let shown = turn.look(self.rt, self.alloc, &mut self.pass);
        self.acts.note_look(&shown);
        if let Ok(snapshot) = &shown {
            self.seen = snapshot.version();
            self.is_unknown = false;
        }
        shown
    }

    fn live_playlist_response(
        &mut self,
        state: Arc<Snapshot>,
        rendition: usize,
        uris: MediaUris,
    ) -> Result<Response, AllocError> {
        self.lists.get_or_render(state, rendition, uris)
    }

    fn start_programme(
        &mut self,
        state: &Arc<Snapshot>,
        query: CatchupQuery,
    ) -> Result<ProgrammeStart, AllocError> {
        self.programmes.start_programme(state, query)
    }

    #[tactic(auto, using(hls_api::proofs::Callers::lists_submitted))]
    fn submit(&mut self, event: Event) -> Result<Done, Refusal> {
        self.is_unknown = true;
        let note = Log::new().and(&event, &());
        let turn = self.channel.turn;
        let done = turn.submit(self.rt, self.alloc, &mut self.pass, event);
        self.acts.push(ActNote::Submitted(note, done));
        if let Ok(Done::New { version }) = done {
            self.seen = version;
            self.is_unknown = false;
        }
        done
    }

    fn add_job(&mut self, snapshot: Arc<Snapshot>, request: Request) -> Result<u64, JobFault> {
        let note = Log::new().and(&snapshot, &());
        let added = self.channel.jobs.add(self.rt, snapshot, request);
        self.acts.push(ActNote::Added(note, request, added));
        added
    }

    fn get_job(&self, id: u64) -> Result<Job, JobFault> {
        self.has_read_job.set(true);
        self.channel.jobs.get(self.rt, id)
    }

    fn remove_job(&mut self, id: u64) -> Result<(), JobFault> {
        let removed = self.channel.jobs.remove(self.rt, id);
        self.acts.push(ActNote::Removed(id, removed));
        removed
    }

    fn find_or_plan(
        &self,
        snapshot: &Arc<Snapshot>,
        request: Request,
        client: u64,
    ) -> Result<FoundPlan, AllocError> {
        self.has_read_job.set(true);
        let jobs = self.channel.jobs;
        jobs.find_or_plan(self.rt, snapshot, request, client)
    }

    fn find_plan(&self, request: Request) -> Result<FoundPlan, AllocError> {
        self.has_read_job.set(true);
        self.channel.jobs.find_plan(self.rt, request)
    }

    fn job_count(&self) -> usize {
        self.channel.jobs.len(self.rt)
    }

    fn read_encoders(&mut self, ahead_us: u64) -> EncoderReadings {
        let readings = self.channel.read_encoders(self.now_ms, ahead_us);
        self.acts.note_readings(&readings);
        readings
    }

    fn plan_wait_ms(&self) -> u64 {
        self.channel.plan_wait_ms
    }

    fn metrics_response(&mut self, state: &Arc<Snapshot>) -> Result<Response, AllocError> {
        let jobs = self.job_count();
        let measured = self.channel.measurements.measured();
        self.metrics.show(self.alloc, state, jobs, &measured)
    }
}

/// Serves the requests of a session over a channel handle, without an observer. May wait.
pub fn serve_session<T: Wait, R: Read, W: Write>(
    session: &mut Session<R, W>,
    handle: &mut ChannelHandle<'_, T>,
) -> SessionEnd
    ensures session { RunsSession Others R.remaining W.contents session.old session.new
        (knowledge_of handle.old.pass.known handle.old.acts) (knowledge_of handle.new.pass.known handle.new.acts) result }
    ensures counts { SessionCounts session.old session.new result }
{
    session_on(handle.rt, session, handle, &NoObserver)
}
