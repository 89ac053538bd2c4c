//! The new log of a journal, between two servers of its channel.

use crate::serve::journal_follower::log_fault;
use hls_core::snapshot::Snapshot;
use hls_housekeeper::OperatorLog;
use hls_journal_store::{RenewalGate, StoreFollower, renew_channel, renew_store};
use hls_time::monotonic_ms;
use std::alloc::Global;
use std::sync::Arc;
use std::sync::atomic::AtomicU64;
use std::thread::Threads;

/// How many entries the log grows by at least between two renewals, or after one that failed.
const RETRY_ENTRIES: u64 = 16384;

/// How many milliseconds pass at least between two renewals, or after one that failed: each takes a second or more, in which nobody is
/// served.
const RETRY_MS: u64 = 600_000;

/// The ids of jobs that a server may give out, if the channel's log isn't replaced after it.
const SERVER_IDS: u64 = 16777216;

/// What the next server of a channel starts with.
#[derive(Drop)]
pub struct NextStart {
    /// The channel with a new log, or with its old one if it can't be renewed.
    pub snapshot: Arc<Snapshot>,
    /// The first id of a job that no server has given out.
    pub first_job: u64,
    /// From when on its log is replaced.
    pub renewal: RenewalGate,
    /// Whether the journal is lost.
    pub is_lost: bool,
}

/// From when on the log of a channel with this number of entries may be replaced again.
fn next_renewal(host: &HostRuntime, entries: u64) -> RenewalGate {
    RenewalGate {
        entries: entries.saturating_add(RETRY_ENTRIES),
        at_ms: monotonic_ms(host).saturating_add(RETRY_MS),
    }
}

/// The last state of a channel whose server has ended so that the log is replaced.
#[derive(Drop)]
pub struct LastState {
    pub snapshot: Arc<Snapshot>,
    /// The first id of a job of that server.
    pub first_job: u64,
    /// Whether the journal has the whole state.
    pub is_written: bool,
    /// Whether the journal is lost.
    pub is_lost: bool,
}

impl LastState {
    /// Replaces the log by one of this state, if the journal has it, and logs whether it was. Returns what the next server starts with.
    pub fn renew_log<T: Threads + Sync>(
        self,
        threads: &T,
        host: &HostRuntime,
        alloc: Global,
        follower: &mut StoreFollower,
    ) -> NextStart {
        let entries = self.snapshot.version();
        let renewed = if self.is_written {
            self.replace_log(threads, host, alloc, follower)
        } else {
            None
        };
        let left = match &renewed {
            Some(next) => Some(next.snapshot.version()),
            None => None,
        };
        log_renewal(host, entries, left);
        match renewed {
            Some(next) => next,
            None => self.continue_log(host),
        }
    }

    /// Replaces the log. Returns what the next server starts with; none if the log can't be replaced.
    fn replace_log<T: Threads + Sync>(
        &self,
        threads: &T,
        host: &HostRuntime,
        alloc: Global,
        follower: &mut StoreFollower,
    ) -> Option<NextStart> {
        let renewed = renew_channel(alloc, &self.snapshot).ok()?;
        match renew_store(host, threads, alloc, follower, &renewed) {
            Ok(first_job) => Some(NextStart {
                renewal: next_renewal(host, renewed.version()),
                snapshot: renewed,
                first_job,
                is_lost: false,
            }),
            Err(fault) => {
                let _ = log_fault(host, &AtomicU64::new(0), fault);
                None
            }
        }
    }

    /// What the next server starts with if the log isn't replaced.
    pub fn continue_log(self, host: &HostRuntime) -> NextStart {
        NextStart {
            renewal: next_renewal(host, self.snapshot.version()),
            snapshot: self.snapshot,
            first_job: self.first_job.saturating_add(SERVER_IDS),
            is_lost: self.is_lost,
        }
    }
}

/// Logs whether the log was replaced, in the moment in which connections are accepted again.
fn log_renewal(host: &HostRuntime, entries: u64, renewed: Option<u64>) {
    let log = OperatorLog::new(host);
    match renewed {
        Some(left) => {
            let _ = eprintln!(host;
                "serve: journal: a new log, {left} entries instead of {entries}"
            );
        }
        None => {
            let level = log.warning_prefix();
            let _ = eprintln!(host;
                "{level}serve: journal: the log of {entries} entries can't be replaced yet"
            );
        }
    }
}
