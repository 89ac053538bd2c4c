//! Searches for the kept places of a snapshot, those with no trimmed unit: their number, and the last one by a moment.

ghost use Rattle.std.specs.Prelude.{◌≡◌, ◌<◌, ◌≤◌, length, Some, MatchOption, slice_get, slice_index};
ghost use Rattle.std.specs.Option.{option_copied};
ghost use Rattle.hls_places_laws.specs.Programmes.{is_kept};
ghost use Rattle.hls_core_laws.specs.IsState.{IsState};
ghost use Rattle.hls_core_laws.specs.Places.{places, floors, kept_places};
ghost use Rattle.hls_core.specs.KeptPlaces.{NoKeptBy, IsLastKeptBy};
ghost use Rattle.hls_core.specs.Predicates.{satisfies, IsFront};

use crate::floors::{floors_of, rendition_count};
use crate::snapshot::Snapshot;
use hls_places::{Place, time_of};

/// How often a search interpolates. After that it bisects, which takes few steps however the places are distributed.
const GUESS_LIMIT: u32 = 8;

/// The predicate of a search: true of a prefix of the places, and false after it.
#[derive(Clone, Copy)]
enum PlacePredicate {
    /// Whether it is at or before a time, in microseconds.
    AtOrBefore(u64),
    /// Whether a unit of the place is trimmed.
    Trimmed,
}

/// Returns how many places have no trimmed unit. Doesn't allocate, and looks at few places.
pub fn kept_place_count(snapshot: &Snapshot) -> u64
    ensures { result ≡ length (kept_places snapshot.now) }
{
    place_count(snapshot) - count_matching_front(snapshot, PlacePredicate::Trimmed)
}

/// Returns the number of the last place at or before a time, in microseconds, that has no trimmed unit; `None` if there is none.
/// Doesn't allocate, and looks at few places.
pub fn last_kept_place_by(snapshot: &Snapshot, time: u64) -> Option<u64>
    ensures { MatchOption result (NoKeptBy snapshot.now time) (IsLastKeptBy snapshot.now time) }
{
    let count = count_matching_front(snapshot, PlacePredicate::AtOrBefore(time));
    if count == 0 {
        return None;
    }
    // trims remove a prefix of the places: if this one isn't kept, none before it is
    if !is_kept(snapshot, get_place(snapshot, count - 1)) {
        return None;
    }
    Some(count - 1)
}

/// Counts the places that satisfy the predicate. If they are spread about evenly, it looks at some three of them.
fn count_matching_front(snapshot: &Snapshot, predicate: PlacePredicate) -> u64
    ensures front { IsFront snapshot.now predicate result }
    ensures valid { IsState snapshot.now }
{
    let time = match predicate {
        PlacePredicate::AtOrBefore(time) => time,
        PlacePredicate::Trimmed => find_oldest_kept_us(snapshot),
    };
    let mut guesses = GUESS_LIMIT;
    let mut low = 0;
    let mut high = place_count(snapshot);
    let mut since = time_at(snapshot, 0);
    let mut until = time_at(snapshot, high.saturating_sub(1));
    while low < high {
        let spread = until.saturating_sub(since);
        let middle = guess_next(low, high, spread, time.saturating_sub(since), guesses);
        guesses = guesses.saturating_sub(1);
        let there = get_place(snapshot, middle);
        if satisfies(snapshot, predicate, there) {
            low = middle + 1;
            since = time_of(there);
        } else {
            high = middle;
            until = time_of(there);
        }
    }
    low
}

/// Returns the start of the first unit of rendition 0 that isn't trimmed, in microseconds, which is about where the kept places
/// begin; after all of them if each unit is trimmed.
fn find_oldest_kept_us(snapshot: &Snapshot) -> u64 {
    let Some(recording) = snapshot.recording(0) else {
        return 0;
    };
    match recording.facts(recording.floor()) {
        Some(facts) => facts.start_us,
        None => u64::MAX,
    }
}

fn satisfies(snapshot: &Snapshot, predicate: PlacePredicate, place: &Place) -> bool
    ensures { result ≡ satisfies snapshot.now predicate place.now }
{
    match predicate {
        PlacePredicate::AtOrBefore(time) => time_of(place) <= time,
        PlacePredicate::Trimmed => !is_kept(snapshot, place),
    }
}

/// Returns the place to look at next, from number `low` on and below `high`: the one `further` microseconds after the first, if they
/// are spread evenly over `spread` microseconds; once no guess is left, the middle one.
fn guess_next(low: u64, high: u64, spread: u64, further: u64, guesses: u32) -> u64
    requires { low < high }
    ensures low { low ≤ result }
    ensures high { result < high }
{
    if guesses == 0 {
        return low + (high - low) / 2;
    }
    let apart = (spread / (high - low)).max(1);
    low + (further / apart).min(high - low - 1)
}

/// Returns the start of place number `n`, in microseconds; 0 if there is none.
fn time_at(snapshot: &Snapshot, n: u64) -> u64 {
    match place_at(snapshot, n) {
        Some(place) => time_of(place),
        None => 0,
    }
}

/// Returns place number `n`.
pub(crate) fn get_place(snapshot: &Snapshot, n: u64) -> &Place
    requires { n < length (places snapshot.now) }
    ensures there { slice_get (places snapshot.now) n ≡ Some result.now }
    ensures spots { length result.now.spots ≡ length (floors snapshot.now) }
{
    let Some(place) = place_at(snapshot, n) else {
        unreachable!()
    };
    place
}

/// Returns the number of places, including those with trimmed units.
pub(crate) fn place_count(snapshot: &Snapshot) -> u64
    ensures count { result ≡ length (places snapshot.now) }
    ensures valid { IsState snapshot.now }
{
    snapshot.places().next()
}

/// Returns place number `n`, if there is one.
pub(crate) fn place_at(snapshot: &Snapshot, n: u64) -> Option<&Place>
    ensures there { option_copied result ≡ slice_get (places snapshot.now) n }
    ensures valid { IsState snapshot.now }
{
    snapshot.places().get(n)
}

/// Whether no unit of the place is trimmed.
fn is_kept(snapshot: &Snapshot, place: &Place) -> bool
    ensures { result ≡ is_kept (floors snapshot.now) place.now }
{
    hls_places::is_kept(place, &floors_of(snapshot)[..rendition_count(snapshot)])
}

/// Returns the number of the first unit of a rendition that isn't trimmed.
pub(crate) fn floor_of(snapshot: &Snapshot, rendition: usize) -> u64
    ensures { result ≡ slice_index (floors snapshot.now) rendition }
{
    match snapshot.rendition(rendition) {
        Some(rendition_state) => rendition_state.floor(),
        None => 0,
    }
}
