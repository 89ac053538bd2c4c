//! The numbers as threads store them.

use crate::measured::{MOST_RENDITIONS, Measured};
use crate::refusal_kinds::{REFUSAL_KINDS, refusal_kind};
use crate::request_kinds::REQUEST_KINDS;
use std::alloc::{AllocError, Global};
use std::sync::atomic::{AtomicU64, Ordering};

/// What the threads of a server count and measure. Each number is stored by itself: those of one moment may be of different events.
#[derive(Drop)]
pub struct Measurements {
    pub accepted_connections: AtomicU64,
    pub open_connections: AtomicU64,
    pub waiting_responses: AtomicU64,
    pub received_bytes: AtomicU64,
    pub sent_bytes: AtomicU64,
    pub checked_syncs: AtomicU64,
    pub unplaced_syncs: AtomicU64,
    pub unlisted_syncs: AtomicU64,
    pub unplaced_us: AtomicU64,
    pub resident_bytes: AtomicU64,
    pub virtual_bytes: AtomicU64,
    pub max_virtual_bytes: AtomicU64,
    pub open_files: AtomicU64,
    pub max_files: AtomicU64,
    pub cpu_us: AtomicU64,
    pub started_us: AtomicU64,
    pub uptime_us: AtomicU64,
    pub still_us: AtomicU64,
    pub mended_fragments: AtomicU64,
    pub filled_fragments: AtomicU64,
    pub programme_plans: AtomicU64,
    pub journal_lag: AtomicU64,
    pub journal_lost: AtomicU64,
    /// When the journal was synced last, in milliseconds of the monotonic clock; 0 without one.
    pub journal_synced_ms: AtomicU64,
    pub sync_age_us: AtomicU64,
    pub missed_syncs: Vec<AtomicU64>,
    pub sync_distances_us: Vec<AtomicU64>,
    pub gaps: Vec<AtomicU64>,
    refusals: Vec<AtomicU64>,
    requests: Vec<AtomicU64>,
}

impl Measurements {
    /// Creates them, each with 0.
    pub fn new(alloc: Global) -> Result<Measurements, AllocError> {
        Ok(Measurements {
            accepted_connections: AtomicU64::new(0),
            open_connections: AtomicU64::new(0),
            waiting_responses: AtomicU64::new(0),
            received_bytes: AtomicU64::new(0),
            sent_bytes: AtomicU64::new(0),
            checked_syncs: AtomicU64::new(0),
            unplaced_syncs: AtomicU64::new(0),
            unlisted_syncs: AtomicU64::new(0),
            unplaced_us: AtomicU64::new(0),
            resident_bytes: AtomicU64::new(0),
            virtual_bytes: AtomicU64::new(0),
            max_virtual_bytes: AtomicU64::new(0),
            open_files: AtomicU64::new(0),
            max_files: AtomicU64::new(0),
            cpu_us: AtomicU64::new(0),
            started_us: AtomicU64::new(0),
            uptime_us: AtomicU64::new(0),
            still_us: AtomicU64::new(0),
            mended_fragments: AtomicU64::new(0),
            filled_fragments: AtomicU64::new(0),
            programme_plans: AtomicU64::new(0),
            journal_lag: AtomicU64::new(0),
            journal_lost: AtomicU64::new(0),
            journal_synced_ms: AtomicU64::new(0),
            sync_age_us: AtomicU64::new(0),
            missed_syncs: make_zeros(alloc, MOST_RENDITIONS)?,
            sync_distances_us: make_zeros(alloc, MOST_RENDITIONS)?,
            gaps: make_zeros(alloc, MOST_RENDITIONS)?,
            refusals: make_zeros(alloc, REFUSAL_KINDS)?,
            requests: make_zeros(alloc, REQUEST_KINDS)?,
        })
    }

    /// Counts a request of a kind.
    pub fn count_request(&self, kind: usize) {
        if let Some(count) = self.requests.get(kind) {
            add(count, 1);
        }
    }

    /// Counts an encoder's body that was refused, by the refusal's name.
    pub fn count_refusal(&self, name: &[u8]) {
        if let Some(count) = self.refusals.get(refusal_kind(name)) {
            add(count, 1);
        }
    }

    /// Returns the numbers as they are now.
    pub fn measured(&self) -> Measured {
        let mut measured = self.measure();
        load_all(&mut measured.missed_syncs, &self.missed_syncs);
        load_all(&mut measured.sync_distances_us, &self.sync_distances_us);
        load_all(&mut measured.gaps, &self.gaps);
        load_all(&mut measured.refusals, &self.refusals);
        load_all(&mut measured.requests, &self.requests);
        measured
    }

    /// Returns the numbers that are of no rendition, refusal or request.
    fn measure(&self) -> Measured {
        Measured {
            accepted_connections: load(&self.accepted_connections),
            open_connections: load(&self.open_connections),
            waiting_responses: load(&self.waiting_responses),
            received_bytes: load(&self.received_bytes),
            sent_bytes: load(&self.sent_bytes),
            checked_syncs: load(&self.checked_syncs),
            unplaced_syncs: load(&self.unplaced_syncs),
            unlisted_syncs: load(&self.unlisted_syncs),
            unplaced_us: load(&self.unplaced_us),
            resident_bytes: load(&self.resident_bytes),
            virtual_bytes: load(&self.virtual_bytes),
            max_virtual_bytes: load(&self.max_virtual_bytes),
            open_files: load(&self.open_files),
            max_files: load(&self.max_files),
            cpu_us: load(&self.cpu_us),
            started_us: load(&self.started_us),
            uptime_us: load(&self.uptime_us),
            still_us: load(&self.still_us),
            mended_fragments: load(&self.mended_fragments),
            filled_fragments: load(&self.filled_fragments),
            programme_plans: load(&self.programme_plans),
            journal_lag: load(&self.journal_lag),
            journal_lost: load(&self.journal_lost),
            sync_age_us: load(&self.sync_age_us),
            ..Measured::nothing()
        }
    }
}

/// Makes the given number of zeros.
fn make_zeros(alloc: Global, count: usize) -> Result<Vec<AtomicU64>, AllocError> {
    let mut zeros = Vec::with_capacity(alloc, count)?;
    for _ in 0..count {
        zeros.push(AtomicU64::new(0))?;
    }
    Ok(zeros)
}

/// Loads a list of numbers.
fn load_all(loaded: &mut [u64], numbers: &[AtomicU64]) {
    for (at, number) in loaded.iter_mut().enumerate() {
        if let Some(stored) = numbers.get(at) {
            *number = load(stored);
        }
    }
}

/// Adds to a number.
pub fn add(number: &AtomicU64, more: u64) {
    number.fetch_add(more, Ordering::SeqCst);
}

/// Subtracts from a number that was added to before.
pub fn subtract(number: &AtomicU64, less: u64) {
    number.fetch_sub(less, Ordering::SeqCst);
}

/// Stores a number.
pub fn store(number: &AtomicU64, value: u64) {
    number.store(value, Ordering::SeqCst);
}

/// Stores a number of a list, if it has that many.
pub fn store_at(numbers: &[AtomicU64], at: usize, value: u64) {
    if let Some(number) = numbers.get(at) {
        store(number, value);
    }
}

/// Loads a number.
pub fn load(number: &AtomicU64) -> u64 {
    number.load(Ordering::SeqCst)
}
