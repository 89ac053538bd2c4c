//! Upkeep: the events that keep a channel to its window and to the kept time before it.

ghost use Rattle.std.specs.Prelude.{◌≡◌, ◌-◌, ◌<◌, ◌≤◌, length, Some, IfSome, IfNone, slice_get};
ghost use Rattle.std.specs.Option.{option_copied};
ghost use Rattle.hls_core_laws.specs.Places.{places, floors};
ghost use Rattle.hls_core_laws.specs.Outcome.{outcome_of, new_or_full};
ghost use Rattle.hls_core.specs.Upkeeps.{IsUpkeepOf};
ghost use Rattle.hls_core.specs.TrimPlaces.{IsOldUntil, NoneOld, IsTrimPlaceAt, HasNoTrimPlace, IsFirstBelow, ReachedBefore};

use crate::place_search::{floor_of, get_place, last_kept_place_by, place_at, place_count};
use crate::snapshot::{Snapshot, get_fragment};
use hls_core_laws::event::Event;
use hls_places::{Place, time_of};

/// Returns the event that a housekeeper is to submit next, or `None` if nothing is due.
///
/// While the live line hasn't ended, it slides as far as `window` microseconds stay in rendition 0 and three target durations in each
/// rendition. If it can't slide, a trim is due of the first rendition that still has units before the last kept place which isn't
/// after the line's front, and is at least `keep` microseconds before the last place. `step` refuses the event only for `LedgerFull`
/// and `Memory`. Doesn't allocate, and looks at few segments and places.
pub fn upkeep(snapshot: &Snapshot, window: u64, keep: u64) -> Option<Event>
    ensures is { IsUpkeepOf snapshot.now window keep result }
    ensures accepted { IfSome result (λ event. outcome_of snapshot.now event ≡ new_or_full (length snapshot.now.log)) }
{
    if snapshot.line().ended() {
        return None;
    }
    let count = snapshot.line().max_slide(window);
    if count > 0 {
        return Some(Event::Slide { count });
    }
    match find_trim_place(snapshot, keep) {
        Some(cut) => find_trim(snapshot, cut),
        None => None,
    }
}

/// Returns the last kept place that isn't after the line's front, and is at least `keep` microseconds before the last place.
fn find_trim_place(snapshot: &Snapshot, keep: u64) -> Option<&Place>
    ensures some { IfSome result (λ cut. IsTrimPlaceAt snapshot.now keep cut.now) }
    ensures spots { IfSome result (λ cut. length cut.now.spots ≡ length (floors snapshot.now)) }
    ensures none { IfNone result (HasNoTrimPlace snapshot.now keep) }
{
    let Some(until) = find_trim_time(snapshot, keep) else {
        return None;
    };
    let Some(number) = last_kept_place_by(snapshot, until) else {
        return None;
    };
    Some(get_place(snapshot, number))
}

/// Returns the time up to which places are old, in microseconds.
fn find_trim_time(snapshot: &Snapshot, keep: u64) -> Option<u64>
    ensures some { IfSome result (IsOldUntil snapshot.now keep) }
    ensures none { IfNone result (NoneOld snapshot.now keep) }
{
    let Some(front) = snapshot.line().front() else {
        return None;
    };
    let Some(last) = last_place(snapshot) else {
        return None;
    };
    let last = time_of(last);
    if last < keep {
        return None;
    }
    let front = time_of(front);
    if front < last - keep {
        return Some(front);
    }
    Some(last - keep)
}

/// Returns the last place so far.
fn last_place(snapshot: &Snapshot) -> Option<&Place>
    ensures { option_copied result ≡ slice_get (places snapshot.now) (length (places snapshot.now) - 1) }
{
    place_at(snapshot, place_count(snapshot).saturating_sub(1))
}

/// Returns the trim of the first rendition that has units before a place.
fn find_trim(snapshot: &Snapshot, cut: &Place) -> Option<Event>
    requires { length cut.now.spots ≡ length (floors snapshot.now) }
    ensures some { IfSome result (IsFirstBelow snapshot.now cut.now) }
    ensures none { IfNone result (ReachedBefore snapshot.now cut.now (length (floors snapshot.now))) }
{
    for rendition in 0..cut.spots.len() {
        let floor = get_fragment(cut, rendition);
        if floor_of(snapshot, rendition) < floor {
            return Some(Event::Trim { rendition, floor });
        }
    }
    None
}
