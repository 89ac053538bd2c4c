//! Why `cut` refuses a stream.
ghost use Rattle.std.specs.Prelude.{◌≡◌};
ghost use Rattle.hls_commands.specs.CutFaultName.{fault_of, name_of};
ghost use Rattle.hls_commands.specs.declared.cut.fault.CutFault.TheVariants.{Memory};

use crate::listing_fault::ListingFault;
use hls_core::{FeedFault, StreamFault};
use std::alloc::{AllocError, AllocFailed};
use std::fmt::{self, Display, Formatter, Write};
use thiserror::Error;

/// Why `cut` refuses a stream, or couldn't read or write.
#[derive(Clone, Copy, Debug, PartialEq, Eq, Error)]
pub enum CutFault {
    /// The stream is refused: it can't be cut into parts, or ends inside a part; an init section or a unit is invalid; or the channel
    /// refuses a part, or the end before any init section.
    Stream(StreamFault),
    /// The recorded stream can't be listed.
    Listing(ListingFault),
    /// A read failed.
    ReadFailed,
    /// A write failed.
    WriteFailed,
    /// Out of memory.
    Memory,
}

impl CutFault {
    /// Returns the variant's name, or that of the fault that it holds, as the program prints it.
    pub fn name(&self) -> &'static str
        ensures { result.now ≡ name_of self.now }
    {
        match self {
            CutFault::Stream(fault) => fault.name(),
            CutFault::Listing(fault) => fault.name(),
            CutFault::ReadFailed => "ReadFailed",
            CutFault::WriteFailed => "WriteFailed",
            CutFault::Memory => "Memory",
        }
    }
}

impl Display for CutFault {
    fn fmt<W: Write>(&self, f: &mut Formatter<W>) -> fmt::Result {
        f.write_str(self.name())
    }
}

impl From<FeedFault> for CutFault {
    ghost from_gives = { λ feed_fault fault. fault ≡ fault_of feed_fault };

    fn from(feed_fault: FeedFault) -> CutFault {
        match feed_fault {
            FeedFault::Refused(fault) => CutFault::Stream(fault),
            FeedFault::Memory => CutFault::Memory,
        }
    }
}

impl From<AllocError> for CutFault {
    ghost from_gives = { λ _ fault. fault ≡ Memory };

    fn from(_error: AllocError) -> CutFault {
        CutFault::Memory
    }
}

impl<T: Drop> From<AllocFailed<T>> for CutFault {
    ghost from_gives = { λ _ fault. fault ≡ Memory };

    fn from(_error: AllocFailed<T>) -> CutFault {
        CutFault::Memory
    }
}
