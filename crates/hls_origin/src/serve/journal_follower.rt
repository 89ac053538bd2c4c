//! The follower of a journal on files, and its lines in the operator's log.

use crate::serve::renew_log::LastState;
use hls_core::snapshot::Snapshot;
use hls_housekeeper::{OperatorLog, may_log};
use hls_journal_store::{RenewalGate, StoreFault, StoreFollower, is_renewal_due};
use hls_server::{FollowFault, StateFollower};
use hls_time::monotonic_ms;
use std::alloc::Global;
use std::sync::Arc;
use std::sync::atomic::AtomicU64;
use std::thread::Threads;

/// Writes the journal of a channel, and logs its faults, once a minute at most.
#[derive(Drop)]
pub struct JournalFollower<'a, T> {
    /// Where threads come from that write with this one.
    pub threads: &'a T,
    /// The system whose files they are. A runtime that is known only by its traits can't be moved to a thread with its files.
    pub host: &'a HostRuntime,
    pub alloc: Global,
    pub follower: &'a mut StoreFollower,
    /// Whether encoders are refused once the journal is lost.
    pub refuses_if_lost: bool,
    /// The first id of a job of this server.
    pub first_job: u64,
    /// From when on the log is replaced.
    pub renewal: RenewalGate,
    /// Whether the server is to end, so that the log is replaced.
    pub is_ending: bool,
    /// Whether the journal is lost.
    pub is_lost: bool,
    /// The channel's last state, once the server has ended for a new log.
    pub next: &'a mut Option<LastState>,
    /// When a fault was last logged, in milliseconds of the clock; 0 if never.
    pub logged_at_ms: AtomicU64,
}

impl<'a, T> JournalFollower<'a, T> {
    /// Logs a fault. Returns whether it may pass.
    fn report(&self, fault: StoreFault) -> FollowFault {
        log_fault(self.host, &self.logged_at_ms, fault)
    }
}

/// Logs a fault of a journal; one that may pass only if none was in the last minute. Returns whether it may pass.
pub fn log_fault(host: &HostRuntime, logged_at_ms: &AtomicU64, fault: StoreFault) -> FollowFault {
    let log = OperatorLog::new(host);
    if let StoreFault::Ended(cause) = fault {
        let level = log.error_prefix();
        let _ = eprintln!(host; "{level}serve: journal: {cause}");
        return FollowFault::Lost;
    }
    if may_log(logged_at_ms, monotonic_ms(host)) {
        let level = log.warning_prefix();
        let _ = eprintln!(host; "{level}serve: journal: {fault}, tried again a few times");
    }
    FollowFault::Retry
}

impl<'a, T: Threads> StateFollower for JournalFollower<'a, T> {
    fn follow(&mut self, snapshot: &Snapshot) -> Result<u64, FollowFault> {
        match self
            .follower
            .follow(self.host, self.threads, self.alloc, snapshot)
        {
            Ok(version) => Ok(version),
            Err(fault) => Err(self.report(fault)),
        }
    }

    fn sync(&mut self) -> Result<(), FollowFault> {
        match self.follower.sync(self.host, self.alloc) {
            Ok(()) => Ok(()),
            Err(fault) => Err(self.report(fault)),
        }
    }

    fn abandon(&mut self) {
        self.is_lost = true;
        let level = OperatorLog::new(self.host).error_prefix();
        let now = if self.refuses_if_lost {
            "encoders get 503"
        } else {
            "the channel continues without it"
        };
        let _ = eprintln!(self.host;
            "{level}serve: journal lost: {now}, and no later start uses the folder"
        );
        if self.follower.mark(self.host).is_err() {
            let _ = eprintln!(self.host;
                "{level}serve: journal: the folder can't be marked as incomplete: remove it before the next start"
            );
        }
    }

    fn wants_end(&mut self, snapshot: &Snapshot) -> bool {
        self.is_ending = self.is_ending
            || (self
                .renewal
                .is_open(snapshot.version(), monotonic_ms(self.host))
                && is_renewal_due(snapshot));
        self.is_ending
    }

    fn close(&mut self, snapshot: Arc<Snapshot>) {
        if !self.is_ending {
            if !self.is_lost
                && let Err(fault) = self
                    .follower
                    .close(self.host, self.threads, self.alloc, &snapshot)
            {
                let _ = self.report(fault);
            }
            return;
        }
        let is_written = !self.is_lost && self.follow(&snapshot).is_ok();
        *self.next = Some(LastState {
            snapshot,
            first_job: self.first_job,
            is_written,
            is_lost: self.is_lost,
        });
    }
}
