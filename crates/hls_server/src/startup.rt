//! What is logged before the first connection is accepted: settings that this machine can't satisfy.

use crate::limits::connection_count;
use hls_event_loop::open_file_limit;
use hls_housekeeper::{OperatorLog, log_memory};
use hls_settings::Settings;
use std::alloc::Global;
use std::io::Eprint;
use std::rt::Files;

/// Logs settings that can't be satisfied: more connections than the process may have files, and more media to keep than there is
/// memory for, as far as the system says how much that is.
pub fn log_start<R: Eprint + Files>(log: &OperatorLog<'_, R>, alloc: Global, settings: &Settings) {
    let workers = settings.server.workers;
    let files = open_file_limit();
    let (wanted, held) = (workers.connections, connection_count(workers, files));
    if held < wanted {
        let level = log.warning_prefix();
        let _ = eprintln!(log.rt;
            "{level}serve: --connections {wanted} needs more than the {files} files that this process may have open: at most {held} are accepted"
        );
    }
    log_memory(log, alloc, settings);
}
