//! What a server counts and measures beside its channel's state.

use crate::refusal_kinds::REFUSAL_KINDS;
use crate::request_kinds::REQUEST_KINDS;

/// The most renditions that a channel has.
pub const MOST_RENDITIONS: usize = 16;

/// The numbers at one moment.
#[derive(Clone, Copy, Drop)]
pub struct Measured {
    pub accepted_connections: u64,
    pub open_connections: u64,
    pub waiting_responses: u64,
    pub received_bytes: u64,
    pub sent_bytes: u64,
    /// How many of the last sync samples of rendition 0 were checked.
    pub checked_syncs: u64,
    /// How many of them are no places.
    pub unplaced_syncs: u64,
    /// How many are in no live segment.
    pub unlisted_syncs: u64,
    /// Where the last one that is no place begins, in microseconds of the encoders' clock; 0 if all are.
    pub unplaced_us: u64,
    pub resident_bytes: u64,
    pub virtual_bytes: u64,
    /// 0 if there is no limit.
    pub max_virtual_bytes: u64,
    pub open_files: u64,
    pub max_files: u64,
    /// The processor time of all threads, in microseconds.
    pub cpu_us: u64,
    /// When the process began, in microseconds since 1970-01-01T00:00:00Z; 0 if the system doesn't say.
    pub started_us: u64,
    pub uptime_us: u64,
    /// How long the live playlists have ended with the same segment.
    pub still_us: u64,
    pub mended_fragments: u64,
    pub filled_fragments: u64,
    /// Plans of programmes by address that planners have ended.
    pub programme_plans: u64,
    /// Log entries that the journal doesn't have yet.
    pub journal_lag: u64,
    /// 1 once the channel continues without its journal.
    pub journal_lost: u64,
    /// How long ago the journal was synced last, in microseconds; 0 without one.
    pub sync_age_us: u64,
    /// For each rendition, how many of the checked sync samples have none of this rendition within its tolerance.
    pub missed_syncs: [u64; MOST_RENDITIONS],
    /// For each rendition, the greatest distance of a checked sync sample from its nearest one, in microseconds.
    pub sync_distances_us: [u64; MOST_RENDITIONS],
    /// For each rendition, after how many of the last places it has a gap before the next place.
    pub gaps: [u64; MOST_RENDITIONS],
    /// Encoders' bodies that were refused, by [`refusal_kind`](crate::refusal_kinds::refusal_kind).
    pub refusals: [u64; REFUSAL_KINDS],
    /// Requests that were answered, by [`request_kind`](crate::request_kinds::request_kind).
    pub requests: [u64; REQUEST_KINDS],
}

impl Measured {
    /// Returns the numbers of a server that measures nothing.
    pub fn nothing() -> Measured {
        Measured {
            accepted_connections: 0,
            open_connections: 0,
            waiting_responses: 0,
            received_bytes: 0,
            sent_bytes: 0,
            checked_syncs: 0,
            unplaced_syncs: 0,
            unlisted_syncs: 0,
            unplaced_us: 0,
            resident_bytes: 0,
            virtual_bytes: 0,
            max_virtual_bytes: 0,
            open_files: 0,
            max_files: 0,
            cpu_us: 0,
            started_us: 0,
            uptime_us: 0,
            still_us: 0,
            mended_fragments: 0,
            filled_fragments: 0,
            programme_plans: 0,
            journal_lag: 0,
            journal_lost: 0,
            sync_age_us: 0,
            missed_syncs: [0; MOST_RENDITIONS],
            sync_distances_us: [0; MOST_RENDITIONS],
            gaps: [0; MOST_RENDITIONS],
            refusals: [0; REFUSAL_KINDS],
            requests: [0; REQUEST_KINDS],
        }
    }
}
