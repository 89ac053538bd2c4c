//! The number of threads of a server, and the log line where some couldn't be started.

use crate::operator_log::OperatorLog;
use std::io::Eprint;

/// The number of threads of each kind.
#[derive(Clone, Copy)]
pub struct ThreadCounts {
    /// Whether the housekeeper runs.
    pub has_housekeeper: bool,
    pub workers: u64,
    pub planners: u64,
}

impl ThreadCounts {
    /// Returns the counts with every configured thread.
    pub fn all(workers: usize, planners: u64) -> ThreadCounts {
        ThreadCounts {
            has_housekeeper: true,
            workers: workers as u64,
            planners,
        }
    }
}

/// Logs that not all configured threads could be started.
pub fn log_fewer_threads<E: Eprint>(
    log: &OperatorLog<'_, E>,
    started: ThreadCounts,
    wanted: ThreadCounts,
) {
    let (rt, warning, error) = (log.rt, log.warning_prefix(), log.error_prefix());
    if !started.has_housekeeper {
        let _ = eprintln!(rt;
            "{error}serve: no thread for upkeep: live lists don't slide, and nothing is trimmed"
        );
    }
    let (workers, all) = (started.workers, wanted.workers);
    if workers < all {
        let _ = eprintln!(rt; "{warning}serve: {workers} of {all} workers could be started");
    }
    let (planners, all) = (started.planners, wanted.planners);
    if planners == 0 {
        let _ = eprintln!(rt; "{error}serve: no thread for planning: catch-up jobs wait forever");
    } else if planners < all {
        let _ = eprintln!(rt; "{warning}serve: {planners} of {all} planners could be started");
    }
}
