//! Why a journal restores no channel.

ghost use Rattle.std.specs.Prelude.{◌≡◌};
ghost use Rattle.hls_journal.specs.Faults.{fault_at};
ghost use Rattle.hls_journal.specs.declared.fault.JournalFault.TheVariants as journal;
ghost use Rattle.hls_journal.specs.declared.fault.RecallFault.TheVariants as recall;

use std::alloc::AllocError;

/// Why a journal restores no channel.
#[derive(Clone, Copy, Debug, PartialEq, Eq, Drop)]
pub enum JournalFault {
    /// An allocation failed.
    Memory,
    /// The journal doesn't begin with the record of a channel.
    NoChannel,
    /// The format has another version.
    UnknownVersion {
        version: u16,
    },
    /// The channel has another value of a configuration field.
    JournalOther {
        field: ConfigField,
        journal: u64,
        given: u64,
    },
    /// The record of this number, from 1, isn't of a new event.
    WrongRecord {
        record: usize,
    },
    /// The stored media don't have the unit of this record.
    MissingUnit {
        record: usize,
    },
}

/// A field of a configuration, in the order in which they are compared. The values of an epoch are 0 for none, and those of renditions
/// are the lengths of both configurations in bytes.
#[derive(Clone, Copy, Debug, PartialEq, Eq, Drop)]
pub enum ConfigField {
    Target,
    Preferred,
    Epoch,
    Renditions,
}

impl From<AllocError> for JournalFault {
    ghost from_gives = { λ _ fault. fault ≡ journal.Memory };

    fn from(_error: AllocError) -> JournalFault {
        JournalFault::Memory
    }
}

/// Why a record restores no event.
#[derive(Clone, Copy, Debug, PartialEq, Eq, Drop)]
pub(crate) enum RecallFault {
    /// An allocation failed.
    Memory,
    /// It isn't of a new event.
    Wrong,
    /// The stored media don't have its unit.
    Missing,
}

impl RecallFault {
    /// Returns the fault of the journal, given the record's number.
    pub(crate) fn at_record(self, number: usize) -> JournalFault
        ensures { result ≡ fault_at self number }
    {
        match self {
            RecallFault::Memory => JournalFault::Memory,
            RecallFault::Wrong => JournalFault::WrongRecord { record: number },
            RecallFault::Missing => JournalFault::MissingUnit { record: number },
        }
    }
}

impl From<AllocError> for RecallFault {
    ghost from_gives = { λ _ fault. fault ≡ recall.Memory };

    fn from(_error: AllocError) -> RecallFault {
        RecallFault::Memory
    }
}
