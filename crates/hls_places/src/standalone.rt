//! Calls that no program makes, for users of this crate on its own: all common places at once, the table of a programme over a list of
//! places, and a table's steps. The program takes the places one at a time (`PlaceCursor`) and uses tables directly.

ghost use Rattle.std.specs.Prelude.{◌≡◌, ◌≤◌, length, map, slice_index, IfOk, ◌+◌, ◌-◌, ◌<◌, ◌↔◌, IsTrue};
ghost use Rattle.hls_places_laws.specs.Sources.{sources_of};
ghost use Rattle.hls_places_laws.specs.Places.{places_of};
ghost use Rattle.hls_places_laws.specs.Order.{ArePlaces, time_of, spots_of};
ghost use Rattle.hls_check_tables.specs.Tables.{rendition_limit, IsGoal, place_limit};
ghost use Rattle.hls_places_laws.specs.Firsts.{first_after, first_from};
ghost use Rattle.hls_places_laws.specs.Programmes.{table_between, IsProgramme};
ghost use Rattle.hls_check_tables.specs.Steps.{Allowed, cost, cost_limit};

use crate::cursor::PlaceCursor;
use crate::place::time_of;
use crate::rendition_source::RenditionSource;
use crate::rendition_sources::RenditionSources;
use hls_check_tables::{CertificateTable, Goal, PLACE_LIMIT, PlaceTable, Spots};
use hls_places_laws::{Place, ProgrammeFault};
use hls_record::Recording;
use std::alloc::{AllocError, Global};

/// The common places of a channel's renditions, in time order, including the closing place if all are finished.
///
/// `tolerances` are in microseconds; `finished` says which renditions get no more units.
pub fn common(
    alloc: Global,
    recordings: &[&Recording],
    tolerances: &[u64],
    finished: &[bool],
) -> Result<Vec<Place>, AllocError>
    requires some { 1 ≤ length recordings.now }
    requires few { length recordings.now ≤ rendition_limit }
    requires tolerances { length tolerances.now ≡ length recordings.now }
    requires finished { length finished.now ≡ length recordings.now }
    requires exact { slice_index tolerances.now 0 ≡ 0 }
    ensures value { IfOk result (λ places. places.items
        ≡ places_of (sources_of (map (λ r. r.now.facts) recordings.now) tolerances.now finished.now)) }
    ensures order { IfOk result (λ places. ArePlaces places.items) }
{
    let sources = make_sources(alloc, recordings, tolerances, finished)?;
    RenditionSources::new(&sources).look_at_order();
    let start = PlaceCursor::first(alloc, recordings.len())?;
    let advance = start.advance(alloc, &sources)?;
    Ok(advance.places)
}

fn make_sources<'a>(
    alloc: Global,
    recordings: &[&'a Recording],
    tolerances: &[u64],
    finished: &[bool],
) -> Result<Vec<RenditionSource<'a>>, AllocError>
    requires tolerances { length tolerances.now ≡ length recordings.now }
    requires finished { length finished.now ≡ length recordings.now }
    ensures { IfOk result (λ v. v.items ≡ sources_of (map (λ r. r.now.facts) recordings.now) tolerances.now finished.now) }
{
    let mut sources = Vec::with_capacity(alloc, recordings.len())?;
    for r in 0..recordings.len() {
        sources.push(RenditionSource::new(recordings[r], tolerances[r], finished[r]))?;
    }
    Ok(sources)
}

/// The table that a programme from `start_us` to `stop_us` is cut from: all places from the last one at or before its start to the first
/// one at or after its stop. `places` are the kept ones in time order; `finished` says whether all renditions are. Times are in
/// microseconds.
///
/// # Errors
/// The first fault, in the order of `ProgrammeFault`.
pub fn programme(
    alloc: Global,
    places: &[&Place],
    goal: Goal,
    finished: bool,
    start_us: u64,
    stop_us: u64,
) -> Result<PlaceTable, ProgrammeFault>
    requires order { start_us < stop_us }
    requires goal { IsGoal goal }
    requires places { ArePlaces (map (λ p. p.now) places.now) }
    ensures { IsProgramme goal (map (λ p. p.now) places.now) finished start_us stop_us result }
{
    let after = first_after(places, start_us);
    if after == 0 {
        return Err(ProgrammeFault::BeforeRecording);
    }
    let to = first_from(places, stop_us);
    if places.len() <= to {
        return Err(if finished {
            ProgrammeFault::AfterRecording
        } else {
            ProgrammeFault::NotYet
        });
    }
    let from = after - 1;
    if PLACE_LIMIT < to + 1 - from {
        return Err(ProgrammeFault::ProgrammeTooLong);
    }
    Ok(build_table(alloc, places, goal, from, to)?)
}

/// The table of the places from number `from` to number `to`, inclusive.
fn build_table(
    alloc: Global,
    places: &[&Place],
    goal: Goal,
    from: usize,
    to: usize,
) -> Result<PlaceTable, AllocError>
    requires goal { IsGoal goal }
    requires places { ArePlaces (map (λ p. p.now) places.now) }
    requires order { from < to }
    requires within { to < length places.now }
    requires few { to + 1 - from ≤ place_limit }
    ensures { IfOk result (λ table. table ≡ table_between goal (map (λ p. p.now) places.now) from to) }
{
    let renditions = places[0].spots.len();
    let spots = spots_of(alloc, &places[from..to + 1])?;
    Ok(PlaceTable::new(CertificateTable::new(goal, renditions, spots)))
}

fn first_after(places: &[&Place], time: u64) -> usize
    ensures { result ≡ first_after time (map (λ p. p.now) places.now) }
{
    for (i, place) in places.iter().enumerate() {
        if time < time_of(place) {
            return i;
        }
    }
    places.len()
}

/// The number of the first place at or after a time.
fn first_from(places: &[&Place], time: u64) -> usize
    ensures { result ≡ first_from time (map (λ p. p.now) places.now) }
{
    for (i, place) in places.iter().enumerate() {
        if time <= time_of(place) {
            return i;
        }
    }
    places.len()
}

/// A copy of each place's spots.
fn spots_of(alloc: Global, places: &[&Place]) -> Result<Vec<Spots>, AllocError>
    ensures { IfOk result (λ spots. spots.items ≡ spots_of (map (λ p. p.now) places.now)) }
{
    let mut spots = Vec::new(alloc);
    for place in places {
        spots.push(place.spots.share()?)?;
    }
    Ok(spots)
}

/// Whether one segment may span from place `p` of a table to place `q`. False if one of them doesn't exist.
pub fn allowed(table: &PlaceTable, p: usize, q: usize) -> bool
    ensures { IsTrue result ↔ Allowed table.now p q }
{
    table.is_allowed(p, q)
}

/// The cost of that segment in microseconds: the deviation of its length in rendition 0 from the preferred one, plus the charge of the
/// table's rule.
pub fn cost(table: &PlaceTable, p: usize, q: usize) -> u64
    requires { Allowed table.now p q }
    ensures cost { result ≡ cost table.now p q }
    ensures bound { result ≤ cost_limit }
{
    table.cost(p, q)
}
