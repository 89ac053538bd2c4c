//! The table of a request's programme.

ghost use Rattle.std.specs.Prelude.{◌≡◌, IfOk};
ghost use Rattle.hls_catchup.specs.Requests.{goal_for, IsTableFor};
ghost use Rattle.hls_catchup.specs.Programmes.{programme_table, ArePlacesFor};

use crate::fault::CatchFault;
use crate::programme::{Programme, find_programme};
use crate::request::Request;
use hls_check_tables::{CertificateTable, Goal, PlaceTable};
use hls_core::snapshot::Snapshot;
use std::alloc::{AllocError, Global};

/// Returns the table of the programme that a request asks for: the kept common places from the last one at or before its start to the
/// first one at or after its stop, or the first fault. Every other fault is found before memory is allocated.
pub fn table_of(
    alloc: Global,
    snapshot: &Snapshot,
    request: Request,
) -> Result<PlaceTable, CatchFault>
    ensures { IsTableFor snapshot.now request result }
{
    match find_programme(snapshot, request) {
        Ok(programme) => Ok(build_table(alloc, snapshot, request, &programme)?),
        Err(fault) => Err(fault),
    }
}

/// Returns the goal for the segments of a request; the target duration is the channel's.
fn make_goal(snapshot: &Snapshot, request: Request) -> Goal
    ensures { result ≡ goal_for snapshot.now request }
{
    Goal {
        target: snapshot.config().target(),
        preferred: request.preferred,
        rule: request.rule,
    }
}

/// Builds the table of a programme's places.
fn build_table(
    alloc: Global,
    snapshot: &Snapshot,
    request: Request,
    programme: &Programme,
) -> Result<PlaceTable, AllocError>
    requires { ArePlacesFor snapshot.now request programme.now }
    ensures { IfOk result (λ table. table ≡ programme_table snapshot.now request programme.now) }
{
    let goal = make_goal(snapshot, request);
    let places = &programme.places;
    let spots = places.copy_spots(alloc, programme.from, programme.count)?;
    let renditions = snapshot.config().renditions().len();
    Ok(PlaceTable::new(CertificateTable::new(goal, renditions, spots)))
}
