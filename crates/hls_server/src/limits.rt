//! How many workers serve, how many connections they hold, and how many of those wait, by the files that the process may have open.

ghost use Rattle.std.specs.Prelude.{◌≤◌};

use crate::server::MOST_WORKERS;
use hls_event_loop::{connection_limit, worker_limit};
use hls_settings::ThreadSettings;

/// How many workers serve: the wanted number, or fewer if so few files may be open that none were left for connections.
pub fn worker_count(workers: ThreadSettings, files: u64) -> u64
    ensures { result ≤ 63 }
{
    worker_limit(files, workers.workers.clamp(1, MOST_WORKERS))
}

/// How many connections all workers hold at most: the wanted number, or fewer if fewer files may be open.
pub fn connection_count(workers: ThreadSettings, files: u64) -> u64 {
    connection_limit(files, workers.connections, worker_count(workers, files))
}

/// How many responses of a worker wait at most: half of its share of the connections, so that the others are left for requests that
/// don't wait. A request above that is answered at once.
pub fn waiting_limit(workers: ThreadSettings, files: u64) -> u64 {
    connection_count(workers, files) / worker_count(workers, files).max(1) / 2
}
