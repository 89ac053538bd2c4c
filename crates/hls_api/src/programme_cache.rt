//! A cache of queries for programmes: players load the few files of one repeatedly, mostly in the latest state.

ghost use Rattle.std.specs.Prelude.{◌≡◌, IfOk, IfSome, None, Some, true};
ghost use Rattle.hls_api.specs.{PlaylistCache.HasSameListsBefore, Programmes.StartsProgramme, ProgrammeCache.IsStartIn};

use crate::catchup_query::{CatchupQuery, TimePoint};
use crate::programme_responses::{ProgrammeStart, start_programme};
use hls_catchup::Request;
use hls_core::snapshot::Snapshot;
use http_server::Log;
use std::alloc::{AllocError, Global};
use std::marker::Model;
use std::sync::Arc;

/// The most queries that are cached.
const MOST_QUERIES: usize = 32;

/// A query, and its request, whose programme the state has.
#[derive(Clone, Copy, Drop)]
pub(crate) struct CachedQuery {
    query: CatchupQuery,
    request: Request,
}

/// Whether two moments are said in the same way.
fn is_same_time(one: TimePoint, other: TimePoint) -> bool
    ensures { result ≡ true → one ≡ other }
{
    match (one, other) {
        (TimePoint::Time(one), TimePoint::Time(other)) => one == other,
        (TimePoint::Instant(one), TimePoint::Instant(other)) => one == other,
        _ => false,
    }
}

/// Whether two optional numbers are the same.
fn is_same_number(one: Option<u64>, other: Option<u64>) -> bool
    ensures { result ≡ true → one ≡ other }
{
    match (one, other) {
        (Some(one), Some(other)) => one == other,
        (None, None) => true,
        _ => false,
    }
}

impl CachedQuery {
    /// Whether it is this query.
    fn is_for(&self, query: CatchupQuery) -> bool
        ensures { result ≡ true → self.now.query ≡ query }
    {
        let kept = self.query;
        is_same_time(kept.start, query.start)
            && is_same_time(kept.stop, query.stop)
            && is_same_number(kept.preferred, query.preferred)
            && is_same_number(kept.charge, query.charge)
    }
}

/// Queries whose programmes one state has, so that its places aren't searched again for each request. A clause sees that state, if there
/// is one; the cache doesn't hold it, so it keeps no media alive.
#[derive(Drop)]
pub struct ProgrammeCache {
    alloc: Global,
    /// The number of events of the state.
    version: u64,
    queries: Vec<CachedQuery>,
    /// The state, only for proofs.
    source: Log<Arc<Snapshot>, ()>,
}

impl Model for ProgrammeCache {
    ghost use Rattle.std.specs.Prelude.{Option};
    ghost use Rattle.hls_core_laws.specs.State.{State};
    ghost use Rattle.hls_api.specs.{PlaylistCache.noted_state, ProgrammeCache.AreQueriesOf};

    ghost Value = { Option State };

    ghost view = { λ r. noted_state r.source.items };

    ghost invariant = { λ r. AreQueriesOf (noted_state r.source.items) r.version r.queries.items };
}

impl ProgrammeCache {
    /// Creates an empty cache without a state. Doesn't allocate.
    pub fn new(alloc: Global) -> ProgrammeCache
        ensures { result ≡ None }
    {
        ProgrammeCache {
            alloc,
            version: 0,
            queries: Vec::new(alloc),
            source: Log::new(),
        }
    }

    /// Returns the request of a cached query.
    fn lookup(&self, query: CatchupQuery) -> Option<Request>
        ensures { IfSome result (IsStartIn self.now query) }
    {
        for kept in &self.queries {
            if kept.is_for(query) {
                return Some(kept.request);
            }
        }
        None
    }

    /// Switches to a state: the queries of another one are dropped.
    fn switch_to(&mut self, state: &Arc<Snapshot>)
        requires { HasSameListsBefore self.old state.now.value }
        ensures { self.new ≡ Some state.now.value }
    {
        let version = state.version();
        if version != self.version {
            self.queries.clear();
        }
        self.version = version;
        self.source = Log::new().and(state, &());
    }

    /// Drops all queries, if there are as many as are cached.
    #[tactic(auto, using(crate::proofs::CachedQueries::no_queries))]
    fn make_room(&mut self)
        ensures { self.new ≡ self.old }
    {
        if self.queries.len() >= MOST_QUERIES {
            self.queries.clear();
        }
    }

    /// Caches a query whose programme the state has, if there is memory for it.
    #[tactic(auto, using(crate::proofs::CachedQueries::query_pushed))]
    fn store(&mut self, query: CatchupQuery, request: Request)
        requires { IsStartIn self.old query request }
        ensures { self.new ≡ self.old }
    {
        self.make_room();
        let _ = self.queries.push(CachedQuery { query, request });
    }

    /// Returns what a query leads to in a state, whose programmes the cache keeps from then on, as
    /// [`start_programme`](crate::start_programme) does.
    pub fn start_programme(
        &mut self,
        state: &Arc<Snapshot>,
        query: CatchupQuery,
    ) -> Result<ProgrammeStart, AllocError>
        requires { HasSameListsBefore self.old state.now.value }
        ensures state { self.new ≡ Some state.now.value }
        ensures start { IfOk result (StartsProgramme state.now.value query) }
    {
        self.switch_to(state);
        if let Some(request) = self.lookup(query) {
            return Ok(ProgrammeStart::Planned(request));
        }
        let start = start_programme(self.alloc, state, query)?;
        if let ProgrammeStart::Planned(request) = &start {
            self.store(query, *request);
        }
        Ok(start)
    }
}
