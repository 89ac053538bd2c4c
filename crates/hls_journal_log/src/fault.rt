//! Why a log can't be read.

ghost use Rattle.std.specs.Prelude.{◌≡◌};
ghost use Rattle.hls_journal_log.specs.declared.fault.LogFault.TheVariants as log_fault;

use std::alloc::AllocError;
use std::io;

/// Why a log can't be read.
#[derive(Debug, Drop)]
pub enum LogFault {
    /// An allocation failed.
    Memory,
    /// The disk failed.
    Disk(io::Error),
    /// Bytes that had been synced are damaged: no record begins at the byte `at`, and a sync point after it names a later byte.
    Damaged { at: usize },
}

impl From<AllocError> for LogFault {
    ghost from_gives = { λ _ fault. fault ≡ log_fault.Memory };

    fn from(_error: AllocError) -> LogFault {
        LogFault::Memory
    }
}

impl From<io::Error> for LogFault {
    ghost from_gives = { λ error fault. fault ≡ log_fault.Disk error };

    fn from(error: io::Error) -> LogFault {
        LogFault::Disk(error)
    }
}
