//! The turns of clients whose plans wait: each client's first plan is taken before any client's second one.

ghost use Rattle.std.specs.Prelude.{◌≡◌, ◌<◌, length};
ghost use Rattle.hls_jobs.specs.PlanTurns.{IsLastTurn, IsTurn, MakesRoom};
ghost use Rattle.hls_jobs.specs.PlanTurns as spec;

use crate::plans::PlanRow;

/// The most plans that wait or run.
pub const MOST_PLANS: usize = 64;

/// The most plans of a named client that wait.
const MOST_PLANS_OF_CLIENT: usize = 8;

/// The number of requests that name no client.
const UNNAMED: u64 = 0;

/// Returns how many plans of a client may wait: requests that name no client have no limit of their own.
pub fn most_waiting(client: u64) -> usize
    ensures { result ≡ spec.most_waiting client }
{
    if client == UNNAMED {
        MOST_PLANS
    } else {
        MOST_PLANS_OF_CLIENT
    }
}

/// Whether a plan waits for a client.
fn waits_for(row: &PlanRow, client: u64) -> bool
    ensures { result ≡ spec.waits_for client row.now }
{
    match row {
        PlanRow::Waiting(_, _, own) => *own == client,
        PlanRow::Running(_) => false,
    }
}

/// Returns how many plans of a client wait.
pub fn count_waiting(plans: &[PlanRow], client: u64) -> usize
    ensures { result ≡ spec.count_waiting client plans.now }
{
    plans.iter().filter(|row| waits_for(row, client)).count()
}

/// Returns the turn of the plan at an index: its number among those of its client that wait, from 1; 0 once it runs.
fn turn_at(plans: &[PlanRow], at: usize) -> usize
    requires { at < length plans.now }
    ensures { result ≡ spec.turn_at plans.now at }
{
    match &plans[at] {
        PlanRow::Waiting(_, _, client) => count_waiting(&plans[..at], *client) + 1,
        PlanRow::Running(_) => 0,
    }
}

/// Returns the index at which a plan of a turn is inserted: before the first one of a later turn.
pub fn find_turn(plans: &[PlanRow], turn: usize) -> usize
    ensures { IsTurn plans.now turn result }
{
    for at in 0..plans.len() {
        if turn < turn_at(plans, at) {
            return at;
        }
    }
    plans.len()
}

/// Returns the index of the plan that is taken last if no other comes: the last one of the latest turn.
fn find_last_turn(plans: &[PlanRow]) -> usize
    requires { 0 < length plans.now }
    ensures { IsLastTurn plans.now result }
{
    let mut last = 0;
    for at in 1..plans.len() {
        if turn_at(plans, last) <= turn_at(plans, at) {
            last = at;
        }
    }
    last
}

/// Makes room for a plan of a turn if as many wait or run as may: the last one of the latest turn is evicted, if that turn is later.
/// Returns whether there is room.
pub fn make_room_for_turn(plans: &mut Vec<PlanRow>, turn: usize) -> bool
    ensures { MakesRoom plans.old.items turn plans.new.items result }
{
    if plans.len() < MOST_PLANS {
        return true;
    }
    let last = find_last_turn(plans);
    if turn_at(plans, last) <= turn {
        return false;
    }
    plans.remove(last);
    true
}
