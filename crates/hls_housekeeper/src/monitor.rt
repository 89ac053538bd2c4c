//! Watches a channel for what the operator has to know: a rendition that the playlists wait for, uneven cuts, a limit that comes
//! near, jobs that nobody deletes, an encrypted rendition. It inspects the channel at most once a second, and only the ends of its
//! lists, so that an inspection takes no longer as the channel ages.

use crate::alert::{Alert, AlertChange};
use crate::coverage::{count_missing, count_uncovered, is_uneven};
use crate::cut_measures::{measure_distances, measure_gaps, measure_unplaced};
use crate::display::DisplayName;
use crate::gauge::Gauge;
use crate::lag::{RenditionProgress, find_first_late};
use crate::nearest_sync::distance_to_sync;
use crate::operator_log::OperatorLog;
use crate::progress::{
    MOST_RENDITIONS, find_decided_range, find_progress, find_settled_range, last_places,
    last_segments, last_syncs,
};
use crate::warnings::{
    BlockingRendition, LimitedResource, log_encrypted, log_fewer_jobs, log_late, log_limit,
    log_many_jobs, log_missing, log_recovered, log_resumed_journal, log_stalled_journal,
    log_uncovered,
};
use hls_codecs::is_track_encrypted;
use hls_core::snapshot::{LOG_LIMIT, Snapshot};
use hls_core_laws::rendition::Rendition;
use hls_metrics::Measurements;
use hls_metrics::measurements::{load, store};
use hls_record::Recording;
use hls_record::recording::RECORDING_LIMIT;
use hls_settings::Settings;
use std::io::Eprint;

/// The least time between two inspections, in milliseconds.
const INSPECTION_MS: u64 = 1000;

/// How long writing the journal takes at most, in milliseconds, before it counts as stalled.
const STALLED_MS: u64 = 2000;

/// Half of the places for jobs.
const HALF: usize = 32;

/// A rendition that has no sync sample within this distance of a moment, in microseconds, was away then, which no tolerance mends.
const AWAY_US: u64 = 1_000_000;

/// What was logged, and the measurements for it.
#[derive(Clone, Copy)]
pub struct Monitor {
    /// The earliest moment of the next inspection, in milliseconds of the clock.
    next: u64,
    late: Alert,
    missing: Alert,
    uncovered: Alert,
    jobs: Alert,
    stalled: Alert,
    entries: Gauge,
    recordings: [Gauge; MOST_RENDITIONS],
    /// The renditions whose init section was inspected.
    inspected: [bool; MOST_RENDITIONS],
    /// When the monitor was created, in milliseconds of the clock.
    since: u64,
    /// The number of the next live segment, and since when it is that, in milliseconds of the clock.
    next_segment: u64,
    still_since: u64,
}

/// An inspection: the state of the channel at a moment of the clock in milliseconds, and where it logs.
#[derive(Drop)]
struct Inspection<'a, E> {
    log: &'a OperatorLog<'a, E>,
    measurements: &'a Measurements,
    settings: &'a Settings,
    snapshot: &'a Snapshot,
    now: u64,
}

/// What is inspected: the channel, how many jobs and open connections it has, and where what is found is stored.
#[derive(Clone, Copy)]
pub struct ChannelStatus<'a> {
    pub measurements: &'a Measurements,
    pub settings: &'a Settings,
    pub snapshot: &'a Snapshot,
    pub jobs: usize,
    pub connections: u64,
    /// For how long the journal's follower has been at work without a pause, in milliseconds.
    pub journal_busy_ms: u64,
}

/// Returns the name of a rendition; empty if there is none.
fn name(renditions: &[Rendition], number: usize) -> DisplayName<'_> {
    match renditions.get(number) {
        Some(rendition) => DisplayName(&rendition.name),
        None => DisplayName(b""),
    }
}

/// Finds the rendition without which most of these sync samples of the first one would be places.
fn find_blocking_rendition<'a>(
    snapshot: &Snapshot,
    renditions: &'a [Rendition],
    units: &[u64],
    places: &[u64],
) -> Option<BlockingRendition<'a>> {
    let first = snapshot.recording(0)?;
    let mut most = 0;
    let mut found = None;
    for (number, rendition) in renditions.iter().enumerate() {
        let recording = snapshot.recording(number)?;
        let (count, away) = count_misses(first, recording, rendition.tolerance, units, places);
        if count > most {
            most = count;
            found = Some(BlockingRendition {
                name: DisplayName(&rendition.name),
                away,
                tolerance: rendition.tolerance,
                finished: snapshot.is_finished(number) == Some(true),
            });
        }
    }
    found
}

/// Whether a track's first sample entry says that its samples are encrypted.
fn is_encrypted(recording: &Recording) -> bool {
    let init = recording.init_section_bytes();
    (0..recording.init().tracks().len()).any(|track| is_track_encrypted(init, track))
}

/// Of these units of the first rendition that aren't places, counts those without a sync sample of a recording near them. Also
/// returns the greatest distance of a nearest one, in microseconds.
fn count_misses(
    first: &Recording,
    recording: &Recording,
    tolerance: u64,
    units: &[u64],
    places: &[u64],
) -> (u64, u64) {
    let mut count: u64 = 0;
    let mut most = 0;
    for unit in units {
        if let Some(facts) = first.facts(*unit) {
            let away = distance_to_sync(recording, facts.start_us);
            if away > tolerance && !places.contains(unit) {
                count = count.saturating_add(1);
                most = away.max(most);
            }
        }
    }
    (count, most)
}

/// Whether each rendition has a sync sample near a moment, in microseconds.
fn are_all_there(snapshot: &Snapshot, renditions: &[Rendition], moment: u64) -> bool {
    for number in 0..renditions.len() {
        match snapshot.recording(number) {
            Some(recording) if distance_to_sync(recording, moment) <= AWAY_US => {}
            _ => return false,
        }
    }
    true
}

/// Of these units of the first rendition, the newest first, counts those that aren't places although no rendition was away. Also returns
/// the newest of them.
fn find_unplaced(
    snapshot: &Snapshot,
    renditions: &[Rendition],
    units: &[u64],
    places: &[u64],
) -> (u64, Option<u64>) {
    let mut count: u64 = 0;
    let mut newest = None;
    let Some(first) = snapshot.recording(0) else {
        return (0, None);
    };
    for unit in units {
        if let Some(facts) = first.facts(*unit) {
            if !places.contains(unit) && are_all_there(snapshot, renditions, facts.start_us) {
                count = count.saturating_add(1);
                newest = newest.or(Some(*unit));
            }
        }
    }
    (count, newest)
}

/// Stores how many of these units of the first rendition became places, and why the others didn't.
fn measure_places<E: Eprint>(at: &Inspection<'_, E>, units: &[u64], places: &[u64]) {
    let (snapshot, renditions) = (at.snapshot, at.settings.config.renditions());
    store(&at.measurements.checked_syncs, units.len() as u64);
    let (unplaced, newest) = find_unplaced(snapshot, renditions, units, places);
    store(&at.measurements.unplaced_syncs, unplaced);
    if let Some(first) = snapshot.recording(0) {
        measure_unplaced(at.measurements, first, newest);
        measure_distances(at.measurements, snapshot, renditions, first, units);
    }
    measure_gaps(at.measurements, snapshot);
}

impl Monitor {
    /// Creates a monitor at a moment of the clock, in milliseconds.
    pub fn new(now: u64) -> Monitor {
        Monitor {
            next: 0,
            late: Alert::new(),
            missing: Alert::new(),
            uncovered: Alert::new(),
            jobs: Alert::new(),
            stalled: Alert::new(),
            entries: Gauge::new(now, 0),
            recordings: [Gauge::new(now, 0); MOST_RENDITIONS],
            inspected: [false; MOST_RENDITIONS],
            since: now,
            next_segment: 0,
            still_since: now,
        }
    }

    /// Whether a second has passed since the last inspection.
    pub fn is_due(&self, now: u64) -> bool {
        now >= self.next
    }

    /// Inspects a state of the channel and the number of its jobs, and logs what the operator has to know.
    pub fn inspect<E: Eprint>(
        &mut self,
        log: &OperatorLog<'_, E>,
        status: &ChannelStatus<'_>,
        now: u64,
    ) {
        self.next = now.saturating_add(INSPECTION_MS);
        let at = Inspection {
            log,
            measurements: status.measurements,
            settings: status.settings,
            snapshot: status.snapshot,
            now,
        };
        self.measure_times(&at);
        store(&at.measurements.open_connections, status.connections);
        self.inspect_limits(&at);
        self.inspect_lag(&at);
        self.inspect_cuts(&at);
        self.inspect_jobs(&at, status.jobs);
        self.inspect_journal(&at, status.journal_busy_ms);
        self.inspect_encryption(&at);
    }

    /// Stores how long the server has run, how long ago its journal was synced, and how long the live playlists have ended with the same segment: not at all before there is
    /// one.
    fn measure_times<E: Eprint>(&mut self, at: &Inspection<'_, E>) {
        let next = at.snapshot.line().segments().next();
        if next != self.next_segment || next == 0 {
            self.next_segment = next;
            self.still_since = at.now;
        }
        let uptime_ms = at.now.saturating_sub(self.since);
        let still_ms = at.now.saturating_sub(self.still_since);
        let synced_ms = load(&at.measurements.journal_synced_ms);
        let unsynced_ms = if synced_ms > 0 {
            at.now.saturating_sub(synced_ms)
        } else {
            0
        };
        store(
            &at.measurements.sync_age_us,
            unsynced_ms.saturating_mul(1000),
        );
        store(&at.measurements.uptime_us, uptime_ms.saturating_mul(1000));
        store(&at.measurements.still_us, still_ms.saturating_mul(1000));
    }

    /// Checks how near the log and the recordings are to their limits.
    fn inspect_limits<E: Eprint>(&mut self, at: &Inspection<'_, E>) {
        let (log, snapshot, now) = (at.log, at.snapshot, at.now);
        let entries = snapshot.version().min(LOG_LIMIT);
        if let Some(warning) = self.entries.update(entries, LOG_LIMIT, now) {
            log_limit(log, LimitedResource::Log(LOG_LIMIT), warning);
        }
        let renditions = at.settings.config.renditions();
        for number in 0..MOST_RENDITIONS {
            if let Some(recording) = snapshot.recording(number) {
                let gauge = &mut self.recordings[number];
                if let Some(warning) = gauge.update(recording.total(), RECORDING_LIMIT, now) {
                    let resource = LimitedResource::Recording(
                        name(renditions, number),
                        RECORDING_LIMIT,
                    );
                    log_limit(log, resource, warning);
                }
            }
        }
    }

    /// Checks whether the playlists wait for a rendition.
    fn inspect_lag<E: Eprint>(&mut self, at: &Inspection<'_, E>) {
        let renditions = at.settings.config.renditions();
        let mut all_progress = [RenditionProgress {
            extent: None,
            finished: true,
        }; MOST_RENDITIONS];
        for number in 0..renditions.len().min(MOST_RENDITIONS) {
            all_progress[number] = find_progress(at.snapshot, number);
        }
        let found = find_first_late(at.settings.server.timing.target.min(3600), &all_progress);
        match (self.late.update(found.is_some(), true, at.now), found) {
            (AlertChange::Raised, Some(late)) => log_late(
                at.log,
                name(renditions, late.rendition),
                late,
            ),
            (AlertChange::Cleared, _) => log_recovered(at.log),
            _ => {}
        }
    }

    /// Checks whether the first rendition's sync samples are places, and are in live segments.
    fn inspect_cuts<E: Eprint>(&mut self, at: &Inspection<'_, E>) {
        let (snapshot, renditions) = (at.snapshot, at.settings.config.renditions());
        let Some(first) = snapshot.recording(0) else {
            return;
        };
        let Some((from, until)) = find_decided_range(snapshot, renditions) else {
            return;
        };
        let units = last_syncs(first, from, until);
        self.inspect_places(at, units.as_slice());
        let target = at.settings.server.timing.target;
        let Some((from, until)) = find_settled_range(snapshot, target) else {
            return;
        };
        let units = last_syncs(first, from, until);
        let out = count_uncovered(units.as_slice(), last_segments(snapshot).as_slice());
        store(&at.measurements.unlisted_syncs, out as u64);
        if let AlertChange::Raised = self.uncovered.update(out > 0, true, at.now) {
            log_uncovered(at.log, name(renditions, 0), out, units.len(), target);
        }
    }

    /// Checks whether these units of the first rendition became places.
    fn inspect_places<E: Eprint>(&mut self, at: &Inspection<'_, E>, units: &[u64]) {
        let (snapshot, renditions) = (at.snapshot, at.settings.config.renditions());
        let places = last_places(snapshot, units.last().copied().unwrap_or(0));
        let places = places.as_slice();
        let missed = count_missing(units, places);
        measure_places(at, units, places);
        if let AlertChange::Raised = self.missing.update(is_uneven(missed), true, at.now) {
            let blocking = find_blocking_rendition(snapshot, renditions, units, places);
            log_missing(at.log, name(renditions, 0), missed, units.len(), blocking);
        }
    }

    /// Checks whether jobs hold more than half of their places.
    fn inspect_jobs<E: Eprint>(&mut self, at: &Inspection<'_, E>, jobs: usize) {
        match self.jobs.update(jobs > HALF, false, at.now) {
            AlertChange::Unchanged => {}
            AlertChange::Raised => log_many_jobs(at.log, jobs),
            AlertChange::Cleared => log_fewer_jobs(at.log, jobs),
        }
    }

    /// Checks whether the journal's disk has stalled: responses wait for it.
    fn inspect_journal<E: Eprint>(&mut self, at: &Inspection<'_, E>, busy_ms: u64) {
        match self.stalled.update(busy_ms >= STALLED_MS, true, at.now) {
            AlertChange::Unchanged => {}
            AlertChange::Raised => log_stalled_journal(at.log, busy_ms),
            AlertChange::Cleared => log_resumed_journal(at.log),
        }
    }

    /// Reports encrypted renditions, each once: no playlist names their key.
    fn inspect_encryption<E: Eprint>(&mut self, at: &Inspection<'_, E>) {
        for number in 0..MOST_RENDITIONS {
            let Some(recording) = at.snapshot.recording(number) else {
                continue;
            };
            if !self.inspected[number] && is_encrypted(recording) {
                log_encrypted(at.log, name(at.settings.config.renditions(), number));
            }
            self.inspected[number] = true;
        }
    }
}
