//! Why a journal can't be opened or continued.

ghost use Rattle.std.specs.Prelude.{◌≡◌};
ghost use Rattle.hls_journal_store.specs.Starts.{part_name};

use hls_journal::JournalFault;
use hls_journal_log::LogFault;
use sqlite_disk::is_no_room;
use std::alloc::AllocError;
use std::fmt;
use std::io::{self, ErrorKind};

/// Why a batch can't be made.
#[derive(Clone, Copy, Debug, PartialEq, Eq, Drop)]
pub enum BatchFault {
    /// An allocation failed.
    Memory,
    /// A unit was trimmed before its record was written.
    TrimmedEarly { rendition: usize },
    /// An event has no record: its rendition is above 255, or its bytes are no unit.
    NoRecord,
}

/// A part of a journal's folder.
#[derive(Clone, Copy, Debug, PartialEq, Eq, Drop)]
pub enum StorePart {
    /// The folder itself.
    Folder,
    /// `lock`.
    Lock,
    /// `log`.
    Log,
    /// `media`.
    Media,
    /// `behind`.
    Marker,
}

/// Why a journal can't be continued any more.
#[derive(Clone, Copy, Debug, Drop)]
pub enum EndCause {
    /// A call on a file failed for another reason than a full disk. What the file holds isn't known then.
    Disk { part: StorePart, error: io::Error },
    /// A unit was trimmed before its record was written: the disk is slower than the channel is trimmed.
    TrimmedEarly { rendition: usize },
    /// The log is at its limit.
    LogFull,
    /// An event has no record.
    NoRecord,
}

/// Why a call of a follower failed.
#[derive(Clone, Copy, Debug, Drop)]
pub enum StoreFault {
    /// An allocation failed. The next call writes the same again.
    Memory,
    /// The disk is full. The next call writes the same again.
    NoRoom,
    /// The journal has ended: each further call fails in the same way.
    Ended(EndCause),
}

/// Why a journal can't be opened.
#[derive(Debug, Drop)]
pub enum OpenFault {
    /// An allocation failed.
    Memory,
    /// Another process has the folder.
    Busy,
    /// Players have seen more of the channel than the log has.
    Marked,
    /// Bytes of the log that had been synced are damaged.
    Damaged { at: usize },
    /// The records don't restore a channel with the given configuration.
    Channel(JournalFault),
    /// The channel's next segment would have the number `next`, and players have seen numbers up to `served`, which isn't one of them.
    Stale { next: u64, served: u64 },
    /// A call on a file failed.
    Disk { part: StorePart, error: io::Error },
}

/// Returns the fault of a write that failed. Only a full disk can be waited for.
pub(crate) fn write_fault(part: StorePart, error: io::Error) -> StoreFault {
    if is_no_room(&error) {
        return StoreFault::NoRoom;
    }
    match error.kind() {
        ErrorKind::OutOfMemory => StoreFault::Memory,
        _ => sync_fault(part, error),
    }
}

/// Returns the fault of a sync that failed: nothing more may be asked of the file.
pub(crate) fn sync_fault(part: StorePart, error: io::Error) -> StoreFault {
    StoreFault::Ended(EndCause::Disk { part, error })
}

/// Returns the fault of a call that failed while the journal was opened.
pub(crate) fn open_fault(part: StorePart, error: io::Error) -> OpenFault {
    match error.kind() {
        ErrorKind::OutOfMemory => OpenFault::Memory,
        _ => OpenFault::Disk { part, error },
    }
}

impl From<AllocError> for BatchFault {
    fn from(_error: AllocError) -> BatchFault {
        BatchFault::Memory
    }
}

impl From<AllocError> for StoreFault {
    fn from(_error: AllocError) -> StoreFault {
        StoreFault::Memory
    }
}

impl From<BatchFault> for StoreFault {
    fn from(fault: BatchFault) -> StoreFault {
        match fault {
            BatchFault::Memory => StoreFault::Memory,
            BatchFault::TrimmedEarly { rendition } => {
                StoreFault::Ended(EndCause::TrimmedEarly { rendition })
            }
            BatchFault::NoRecord => StoreFault::Ended(EndCause::NoRecord),
        }
    }
}

impl From<AllocError> for OpenFault {
    fn from(_error: AllocError) -> OpenFault {
        OpenFault::Memory
    }
}

impl From<LogFault> for OpenFault {
    fn from(fault: LogFault) -> OpenFault {
        match fault {
            LogFault::Memory => OpenFault::Memory,
            LogFault::Disk(error) => open_fault(StorePart::Log, error),
            LogFault::Damaged { at } => OpenFault::Damaged { at },
        }
    }
}

impl From<JournalFault> for OpenFault {
    fn from(fault: JournalFault) -> OpenFault {
        match fault {
            JournalFault::Memory => OpenFault::Memory,
            fault => OpenFault::Channel(fault),
        }
    }
}

impl From<StoreFault> for OpenFault {
    fn from(fault: StoreFault) -> OpenFault {
        match fault {
            StoreFault::Memory => OpenFault::Memory,
            StoreFault::Ended(EndCause::Disk { part, error }) => open_fault(part, error),
            _ => OpenFault::Disk {
                part: StorePart::Log,
                error: ErrorKind::StorageFull.into(),
            },
        }
    }
}

impl StorePart {
    /// Returns the part as it is printed.
    pub fn text(self) -> &'static str
        ensures { result.now ≡ part_name self }
    {
        match self {
            StorePart::Folder => "folder",
            StorePart::Lock => "lock",
            StorePart::Log => "log",
            StorePart::Media => "media",
            StorePart::Marker => "behind",
        }
    }
}

impl fmt::Display for StorePart {
    fn fmt<W: fmt::Write>(&self, f: &mut fmt::Formatter<W>) -> fmt::Result {
        f.write_str(self.text())
    }
}

impl fmt::Display for EndCause {
    fn fmt<W: fmt::Write>(&self, f: &mut fmt::Formatter<W>) -> fmt::Result {
        match self {
            EndCause::Disk { part, error } => write!(f, "{part}: {error}"),
            EndCause::TrimmedEarly { rendition } => {
                write!(
                    f,
                    "a unit of rendition {rendition} was trimmed before it was written"
                )
            }
            EndCause::LogFull => f.write_str("the log is full"),
            EndCause::NoRecord => f.write_str("an event has no record"),
        }
    }
}

impl fmt::Display for StoreFault {
    fn fmt<W: fmt::Write>(&self, f: &mut fmt::Formatter<W>) -> fmt::Result {
        match self {
            StoreFault::Memory => f.write_str("out of memory"),
            StoreFault::NoRoom => f.write_str("the disk is full"),
            StoreFault::Ended(cause) => write!(f, "{cause}"),
        }
    }
}
