//! When the log of a channel is long, and what a new log keeps of the channel.

ghost use Rattle.std.specs.Prelude.{◌≡◌, ◌≤◌, ◌<◌, ◌+◌, ◌^◌, length, max};
ghost use Rattle.std.specs.Option.{option_copied};
ghost use Rattle.hls_blocks.specs.Numbered.{list_limit};
ghost use Rattle.hls_journal_store.specs.LongLogs.{bytes_from, bytes_of, entries_from, entries_of, first_at, floor_in, is_renewal_due, kept_bytes, kept_entries, least_bytes, least_entries, longest_of, total_in};

use crate::renewal_policy::LogUse;
use hls_core::floors::rendition_count;
use hls_core::snapshot::{LOG_LIMIT, Snapshot};
use hls_core::step::apply;
use hls_core::upkeep::upkeep;
use hls_core_laws::event::Event;
use hls_core_laws::refusal::Refusal;
use hls_places_laws::Place;
use hls_record::Recording;
use hls_record::recording::RECORDING_LIMIT;
use hls_renewal::{RenewFault, renew};
use std::alloc::{AllocError, Global};
use std::sync::Arc;

/// A new log has at most a quarter of a log's limit, if enough units can be dropped.
const LARGEST_PART: u64 = 4;

/// How often the kept time is halved, from the longest one.
const HALVINGS: u32 = 64;

/// How much of a channel is counted: log entries, and bytes of the rendition with the most.
#[derive(Clone, Copy, Drop)]
struct Amount {
    entries: u64,
    bytes: u64,
}

impl Amount {
    fn none() -> Amount
        ensures entries { result.entries ≡ 0 }
        ensures bytes { result.bytes ≡ 0 }
    {
        Amount {
            entries: 0,
            bytes: 0,
        }
    }

    /// What a state keeps.
    fn kept(snapshot: &Snapshot) -> Amount
        ensures entries { result.entries ≡ kept_entries snapshot.now }
        ensures bytes { result.bytes ≡ kept_bytes snapshot.now }
    {
        let mut kept = Amount::none();
        for rendition in 0..rendition_count(snapshot) {
            let recording = snapshot.recording(rendition);
            kept.add(Amount::of_units(recording, floor_of(recording)));
        }
        kept
    }

    /// What no trim can drop: the units from the front of the live line on. They are in its window, or in no place yet.
    fn least(snapshot: &Snapshot) -> Amount
        ensures entries { result.entries ≡ least_entries snapshot.now }
        ensures bytes { result.bytes ≡ least_bytes snapshot.now }
    {
        match snapshot.line().front() {
            Some(front) => Amount::from_place(snapshot, front),
            None => Amount::kept(snapshot),
        }
    }

    /// What a state has from a place on.
    fn from_place(snapshot: &Snapshot, place: &Place) -> Amount
        ensures entries { result.entries ≡ entries_of snapshot.now (first_at place.now) (length snapshot.now.config.renditions) }
        ensures bytes { result.bytes ≡ bytes_of snapshot.now (first_at place.now) (length snapshot.now.config.renditions) }
    {
        let mut amount = Amount::none();
        for rendition in 0..rendition_count(snapshot) {
            let first = place.spots.get_or_zero(rendition).fragment;
            amount.add(Amount::of_units(snapshot.recording(rendition), first));
        }
        amount
    }

    /// What a rendition has from a unit on: its units, and the entries of its begin and its end.
    fn of_units(recording: Option<&Recording>, first: u64) -> Amount
        ensures entries { result.entries ≡ entries_from (option_copied recording.entry) first }
        ensures bytes { result.bytes ≡ bytes_from (option_copied recording.entry) first }
        ensures few { result.entries ≤ list_limit + 2 }
    {
        match recording {
            Some(recording) => Amount {
                entries: recording.count().saturating_sub(first) + 2,
                bytes: recording.total().saturating_sub(recording.offset(first)),
            },
            None => Amount::none(),
        }
    }

    /// Adds another rendition: the entries are those of all, the bytes those of the rendition with the most.
    fn add(&mut self, other: Amount)
        requires { self.old.entries + other.entries < 2 ^ 64 }
        ensures entries { self.new.entries ≡ self.old.entries + other.entries }
        ensures bytes { self.new.bytes ≡ max self.old.bytes other.bytes }
    {
        self.entries += other.entries;
        self.bytes = self.bytes.max(other.bytes);
    }

    /// Whether it is more than a quarter of what a log and a recording can have.
    fn is_much(self) -> bool {
        self.entries > LOG_LIMIT / LARGEST_PART || self.bytes > RECORDING_LIMIT / LARGEST_PART
    }
}

/// Returns the number of the first unit of a recording that is kept; 0 if there is no recording.
fn floor_of(recording: Option<&Recording>) -> u64
    ensures { result ≡ floor_in (option_copied recording.entry) }
{
    match recording {
        Some(recording) => recording.floor(),
        None => 0,
    }
}

/// Returns the bytes of a recording, trimmed ones included; 0 if there is no recording.
fn total_of(recording: Option<&Recording>) -> u64
    ensures { result ≡ total_in (option_copied recording.entry) }
{
    match recording {
        Some(recording) => recording.total(),
        None => 0,
    }
}

/// Returns the bytes of the longest recording.
fn longest_recording(snapshot: &Snapshot) -> u64
    ensures { result ≡ longest_of snapshot.now (length snapshot.now.config.renditions) }
{
    let mut longest: u64 = 0;
    for rendition in 0..rendition_count(snapshot) {
        longest = longest.max(total_of(snapshot.recording(rendition)));
    }
    longest
}

/// Whether a channel should begin a new log, by the policy of [`LogUse`].
pub fn is_renewal_due(snapshot: &Snapshot) -> bool
    ensures { result ≡ is_renewal_due snapshot.now }
{
    let (kept, least) = (Amount::kept(snapshot), Amount::least(snapshot));
    let log = LogUse {
        whole: snapshot.version(),
        kept: kept.entries,
        least: least.entries,
    };
    let recording = LogUse {
        whole: longest_recording(snapshot),
        kept: kept.bytes,
        least: least.bytes,
    };
    log.is_log_due() || recording.is_recording_due()
}

/// Returns a channel with a new log. If a channel with a nearly full one keeps more than a quarter of what a log or a recording can have, its
/// oldest units are dropped first, as if a shorter time were kept; never those of the live line.
pub fn renew_channel(alloc: Global, snapshot: &Arc<Snapshot>) -> Result<Arc<Snapshot>, RenewFault> {
    let mut state = Arc::try_clone(snapshot)?;
    let mut keep_us = u64::MAX;
    for _ in 0..HALVINGS {
        if !Amount::kept(&state).is_much() {
            break;
        }
        keep_us /= 2;
        drop_units(alloc, &mut state, keep_us)?;
    }
    renew(alloc, &state)
}

/// Drops the units of a channel that are older than a time, in microseconds.
fn drop_units(alloc: Global, state: &mut Arc<Snapshot>, keep_us: u64) -> Result<(), AllocError> {
    for _ in 0..rendition_count(state) {
        let Some(Event::Trim { rendition, floor }) = upkeep(state, u64::MAX, keep_us) else {
            return Ok(());
        };
        match apply(state, alloc, 0, Event::Trim { rendition, floor }) {
            Err(Refusal::Memory) => return Err(AllocError),
            _ => {}
        }
    }
    Ok(())
}
