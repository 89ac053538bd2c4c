//! The plans of programmes by address: those that wait for a planner or run, and the texts of those that are finished.

ghost use Rattle.std.specs.Prelude.{◌≡◌, ◌≢◌, ◌⊎◌, All, IfOk, IfSome, MatchOption, Ok, Some, false, slice_get, slice_set, true};
ghost use Rattle.hls_jobs.specs.Plans.{EndsPlan, HasNoPlan, IsFoundPlan, IsPlanAt, IsRowOfWork, IsWaitingPlan, WaitsAsPlan, is_waiting_plan, planned_request};
ghost use Rattle.hls_jobs.specs.PlanTurns.{AddsPlan, IsRefused};
ghost use Rattle.hls_jobs.specs.ProgrammeTexts.{IsReplyFor};
ghost use Rattle.hls_jobs.specs.declared.plans.FoundPlan.TheVariants as founds;
ghost use Rattle.hls_jobs.specs.declared.plans.PlanRow.TheVariants as rows;

use crate::plan_turns::{MOST_PLANS, count_waiting, find_turn, make_room_for_turn, most_waiting};
use crate::programme_texts::ProgrammeTexts;
use hls_catchup::Request;
use hls_core::snapshot::Snapshot;
use std::alloc::{AllocError, Global};
use std::mem;
use std::sync::Arc;

/// The most programmes whose texts are kept.
const MOST_READY: usize = 256;

/// The most bytes of texts that are kept, except that the newest programme's are whatever their length.
const MOST_READY_BYTES: usize = 64 << 20;

/// A plan that isn't finished.
#[derive(Drop)]
pub enum PlanRow {
    /// Nobody has taken it. The snapshot is the one that was looked at when it was added, for the client of this number.
    Waiting(Arc<Snapshot>, Request, u64),
    /// A planner has taken it, with its snapshot.
    Running(Request),
}

/// What a table has for a request.
#[derive(Drop)]
pub enum FoundPlan {
    /// The texts of its programme, shared with the table.
    Ready(Arc<ProgrammeTexts>),
    /// A plan that waits or runs.
    Unfinished,
    /// Neither.
    Missing,
}

/// A plan to run: a request, and the snapshot that answers it.
#[derive(Drop)]
pub struct PlanWork {
    pub snapshot: Arc<Snapshot>,
    pub request: Request,
}

/// The plans, those that wait in the order in which they are taken, and texts of programmes, those that were used last at the end.
#[derive(Drop)]
pub struct PlanTable {
    plans: Vec<PlanRow>,
    ready: Vec<Arc<ProgrammeTexts>>,
}

/// The request of a plan.
fn planned_request(row: &PlanRow) -> Request
    ensures { result ≡ planned_request row.now }
{
    match row {
        PlanRow::Waiting(_, request, _) => *request,
        PlanRow::Running(request) => *request,
    }
}

/// Whether a plan is for a request.
fn is_plan_for(row: &PlanRow, request: Request) -> bool
    ensures yes { result ≡ true → planned_request row.now ≡ request }
    ensures no { result ≡ false → planned_request row.now ≢ request }
{
    planned_request(row) == request
}

/// Returns the index of the plan for a request.
fn find_plan(plans: &[PlanRow], request: Request) -> Option<usize>
    ensures { MatchOption result (HasNoPlan request plans.now) (IsPlanAt request plans.now) }
{
    plans.iter().position(|row| is_plan_for(row, request))
}

/// Whether a plan waits.
fn is_waiting_plan(row: &PlanRow) -> bool
    ensures { result ≡ is_waiting_plan row.now }
{
    matches!(row, PlanRow::Waiting(..))
}

/// Returns the index of the first plan that waits.
fn find_waiting_plan(plans: &[PlanRow]) -> Option<usize>
    ensures { MatchOption result (All (λ row. is_waiting_plan row ≡ false) plans.now) (WaitsAsPlan plans.now) }
{
    plans.iter().position(|row| is_waiting_plan(row))
}

/// Starts a plan that waits: its snapshot moves into the work.
fn start_plan(row: &mut PlanRow) -> PlanWork
    requires { is_waiting_plan row.old ≡ true }
    ensures waited { IsRowOfWork row.old result }
    ensures runs { row.new ≡ rows.Running result.request }
{
    let request = planned_request(row);
    match mem::replace(row, PlanRow::Running(request)) {
        PlanRow::Waiting(snapshot, request, _) => PlanWork { snapshot, request },
        PlanRow::Running(_) => unreachable!(),
    }
}

/// Starts the plan at an index, which waits.
fn start_plan_at(plans: &mut Vec<PlanRow>, at: usize) -> PlanWork
    requires { WaitsAsPlan plans.old.items at }
    ensures waited { IfSome (slice_get plans.old.items at) (λ row. IsRowOfWork row result) }
    ensures runs { plans.new.items ≡ slice_set plans.old.items at (rows.Running result.request) }
{
    let row = &mut plans[at];
    start_plan(row)
}

/// Takes the texts for a request from those that are ready, and puts them at the end, as used last.
fn use_texts(
    ready: &mut Vec<Arc<ProgrammeTexts>>,
    request: Request,
) -> Option<Result<Arc<ProgrammeTexts>, AllocError>>
    ensures { IfSome result (λ found. IfOk found (λ texts. IsReplyFor request texts.value)) }
{
    // those that many clients load are at the end
    let at = ready.iter().rposition(|texts| texts.is_for(request))?;
    let texts = ready.remove(at);
    let shared = Arc::try_clone(&texts);
    let is_right = texts.is_for(request);
    let _ = ready.push(texts);
    if !is_right {
        return None;
    }
    Some(shared)
}

/// Returns how many bytes texts have.
fn count_bytes(ready: &[Arc<ProgrammeTexts>]) -> usize {
    let mut count: usize = 0;
    for texts in ready {
        count = count.saturating_add(texts.byte_count());
    }
    count
}

/// Drops texts that weren't used for longest, until there is room for others of this length.
fn make_room(ready: &mut Vec<Arc<ProgrammeTexts>>, bytes: usize) {
    let mut count = count_bytes(ready).saturating_add(bytes);
    for _ in 0..ready.len() {
        if ready.is_empty() || (ready.len() < MOST_READY && count <= MOST_READY_BYTES) {
            return;
        }
        let oldest = ready.remove(0);
        count = count.saturating_sub(oldest.byte_count());
    }
}

impl PlanTable {
    /// Creates an empty table.
    pub fn new(alloc: Global) -> Result<PlanTable, AllocError> {
        Ok(PlanTable {
            plans: Vec::with_capacity(alloc, MOST_PLANS)?,
            ready: Vec::with_capacity(alloc, MOST_READY)?,
        })
    }

    /// Whether a plan waits.
    pub fn has_work(&self) -> bool
        ensures { result ≡ false → All (λ row. is_waiting_plan row ≡ false) self.now.plans.items }
    {
        find_waiting_plan(&self.plans).is_some()
    }

    /// Returns what the table has for a request. Texts that are returned count as used.
    pub fn find(&mut self, request: Request) -> Result<FoundPlan, AllocError>
        ensures found { IfOk result (IsFoundPlan self.new.plans.items request) }
        ensures same { self.new.plans ≡ self.old.plans }
    {
        if let Some(texts) = use_texts(&mut self.ready, request) {
            return Ok(FoundPlan::Ready(texts?));
        }
        match find_plan(&self.plans, request) {
            Some(_) => Ok(FoundPlan::Unfinished),
            None => Ok(FoundPlan::Missing),
        }
    }

    /// Returns what the table has for a request, after a plan was added if there was neither a plan nor texts. Clients take turns: none is
    /// added while too many wait for this client, or as many wait or run as may and none of them is of a later turn.
    pub fn find_or_add(
        &mut self,
        snapshot: &Arc<Snapshot>,
        request: Request,
        client: u64,
    ) -> Result<FoundPlan, AllocError>
        ensures found { IfOk result (IsFoundPlan self.new.plans.items request) }
        ensures adds { IfOk result (λ found. (self.new.plans ≡ self.old.plans) ⊎ AddsPlan snapshot.now.value request client self.old.plans.items found self.new.plans.items) }
        ensures full { result ≡ Ok founds.Missing → IsRefused client self.new.plans.items }
    {
        match self.find(request)? {
            FoundPlan::Ready(texts) => Ok(FoundPlan::Ready(texts)),
            FoundPlan::Unfinished => Ok(FoundPlan::Unfinished),
            FoundPlan::Missing => self.add(snapshot, request, client),
        }
    }

    /// Adds a plan for a request that has none, in the client's next turn, unless there is no room for it.
    fn add(
        &mut self,
        snapshot: &Arc<Snapshot>,
        request: Request,
        client: u64,
    ) -> Result<FoundPlan, AllocError>
        requires { HasNoPlan request self.old.plans.items }
        ensures found { IfOk result (IsFoundPlan self.new.plans.items request) }
        ensures adds { IfOk result (λ found. AddsPlan snapshot.now.value request client self.old.plans.items found self.new.plans.items) }
        ensures full { result ≡ Ok founds.Missing → IsRefused client self.new.plans.items }
    {
        let waiting = count_waiting(&self.plans, client);
        if waiting >= most_waiting(client) {
            return Ok(FoundPlan::Missing);
        }
        let row = PlanRow::Waiting(Arc::try_clone(snapshot)?, request, client);
        if !make_room_for_turn(&mut self.plans, waiting + 1) {
            return Ok(FoundPlan::Missing);
        }
        let at = find_turn(&self.plans, waiting + 1);
        self.plans.insert(at, row)?;
        Ok(FoundPlan::Unfinished)
    }

    /// Takes the plan whose turn it is. It runs from then on, until it is finished.
    pub fn take_work(&mut self) -> Option<PlanWork>
        ensures { MatchOption result ((self.new.plans ≡ self.old.plans) × All (λ row. is_waiting_plan row ≡ false) self.old.plans.items) (λ work. IsWaitingPlan self.old.plans.items work self.new.plans.items) }
    {
        let at = find_waiting_plan(&self.plans)?;
        Some(start_plan_at(&mut self.plans, at))
    }

    /// Ends a plan, and keeps its texts if there are any.
    pub fn finish(&mut self, request: Request, made: Option<Arc<ProgrammeTexts>>)
        ensures { EndsPlan request self.old.plans.items self.new.plans.items }
    {
        if let Some(at) = find_plan(&self.plans, request) {
            self.plans.remove(at);
        }
        if let Some(texts) = made {
            make_room(&mut self.ready, texts.byte_count());
            let _ = self.ready.push(texts);
        }
    }
}
