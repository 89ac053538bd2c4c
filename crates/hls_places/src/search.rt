//! One rendition: its fragments, gaps and spots.

ghost use Rattle.std.specs.Prelude.{◌≡◌, ◌+◌, ◌<◌, ◌≤◌, not, ◌==◌, ◌&&◌, nat_le, length};
ghost use Rattle.hls_places_laws.specs.Sources.{fact_at};
ghost use Rattle.hls_places_laws.specs.Gaps.{gap_before, gaps};
ghost use Rattle.hls_places_laws.specs.Spots.{is_entry, prev_end, spot_at, spot_by, end_spot};
ghost use Rattle.hls_places.specs.Searches.{IsRunAt, NoEntryBefore, IsAtEntry};

use hls_check_tables::Spot;
use hls_media_laws::facts::Facts;
use hls_places_laws::SearchPosition;
use hls_record::Recording;

/// Fragment k.
pub(crate) fn get_facts(recording: &Recording, k: u64) -> Facts
    requires { k < length recording.now.facts }
    ensures { result ≡ fact_at recording.now.facts k }
{
    match recording.facts(k) {
        Some(facts) => facts,
        None => unreachable!(),
    }
}

/// Whether the second fragment doesn't start where the first ends.
fn has_gap_between(before: Facts, here: Facts) -> bool
    ensures { result ≡ not (here.start == before.start + before.duration) }
{
    match before.start.checked_add(before.duration) {
        Some(end) => here.start != end,
        None => true,
    }
}

fn gap_before(recording: &Recording, k: u64) -> u64
    requires { k < length recording.now.facts }
    ensures { result ≡ gap_before recording.now.facts k }
{
    if k == 0 {
        return 0;
    }
    if has_gap_between(get_facts(recording, k - 1), get_facts(recording, k)) {
        1
    } else {
        0
    }
}

fn prev_end(recording: &Recording, k: u64) -> u64
    requires { k < length recording.now.facts }
    ensures { result ≡ prev_end recording.now.facts k }
{
    if k == 0 {
        get_facts(recording, 0).start_us
    } else {
        get_facts(recording, k - 1).end_us
    }
}

fn is_entry(low: u64, facts: Facts) -> bool
    ensures { result ≡ is_entry low facts }
{
    facts.sync && low <= facts.start_us
}

fn next_position(recording: &Recording, search_position: SearchPosition) -> SearchPosition
    requires run { IsRunAt recording.now.facts search_position }
    requires more { search_position.at < length recording.now.facts }
    ensures run { IsRunAt recording.now.facts result }
    ensures next { result.at ≡ search_position.at + 1 }
{
    let _count = recording.count(); // the proof needs that the recording is well formed
    SearchPosition {
        at: search_position.at + 1,
        runs: search_position.runs + gap_before(recording, search_position.at),
    }
}

/// The first entry at or after a position.
pub(crate) fn seek_entry(
    recording: &Recording,
    low: u64,
    search_position: SearchPosition,
) -> SearchPosition
    requires run { IsRunAt recording.now.facts search_position }
    requires early { NoEntryBefore low recording.now.facts search_position }
    ensures { IsAtEntry low recording.now.facts result }
{
    let count = recording.count();
    let mut search_position = search_position;
    while search_position.at < count {
        if is_entry(low, get_facts(recording, search_position.at)) {
            return search_position;
        }
        search_position = next_position(recording, search_position);
    }
    search_position
}

/// The spot at a position.
pub(crate) fn make_spot(recording: &Recording, search_position: SearchPosition) -> Spot
    requires run { IsRunAt recording.now.facts search_position }
    requires more { search_position.at < length recording.now.facts }
    ensures { result ≡ spot_at recording.now.facts search_position.at }
{
    let _count = recording.count(); // the proof needs that the recording is well formed
    Spot {
        fragment: search_position.at,
        prev_end: prev_end(recording, search_position.at),
        start: get_facts(recording, search_position.at).start_us,
        run_in: search_position.runs,
        run_out: search_position.runs + gap_before(recording, search_position.at),
    }
}

/// The spot at a position, if there is a fragment that starts at or before `time` plus `tolerance`.
pub(crate) fn find_near_spot(
    recording: &Recording,
    tolerance: u64,
    time: u64,
    search_position: SearchPosition,
) -> Option<Spot>
    requires { IsRunAt recording.now.facts search_position }
    ensures { result ≡ spot_by recording.now.facts (time + tolerance) search_position.at }
{
    if search_position.at >= recording.count() {
        return None;
    }
    if get_facts(recording, search_position.at).start_us > time.saturating_add(tolerance) {
        return None;
    }
    Some(make_spot(recording, search_position))
}

/// The position after all fragments.
fn end_position(recording: &Recording, search_position: SearchPosition) -> SearchPosition
    requires { IsRunAt recording.now.facts search_position }
    ensures run { IsRunAt recording.now.facts result }
    ensures over { result.at ≡ length recording.now.facts }
{
    let count = recording.count();
    let mut search_position = search_position;
    while search_position.at < count {
        search_position = next_position(recording, search_position);
    }
    search_position
}

/// The spot after all fragments.
pub(crate) fn end_spot(recording: &Recording, search_position: SearchPosition) -> Spot
    requires run { IsRunAt recording.now.facts search_position }
    requires some { 0 < length recording.now.facts }
    ensures { result ≡ end_spot recording.now.facts }
{
    let end = end_position(recording, search_position);
    let over = get_facts(recording, end.at - 1).end_us;
    Spot {
        fragment: end.at,
        prev_end: over,
        start: over,
        run_in: end.runs,
        run_out: end.runs,
    }
}
