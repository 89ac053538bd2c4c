//! Why a stream is refused.

ghost use Rattle.std.specs.Prelude.{◌≡◌};
ghost use Rattle.hls_core.specs.FaultName.{name_of};

use hls_boxes::fault::BoxFault;
use hls_core_laws::refusal::Refusal;
use hls_media_laws::fault::MediaFault;
use std::alloc::AllocError;
use std::fmt::{self, Display, Formatter, Write};
use thiserror::Error;

/// Why a stream is refused: by its boxes, by the content of a part, by the channel's state, or, where units are mended, by its clock.
#[derive(Clone, Copy, Debug, PartialEq, Eq, Error)]
pub enum StreamFault {
    /// It isn't a stream of boxes, or ends inside a part.
    Boxes(BoxFault),
    /// A part is an invalid init section or an invalid unit.
    Media(MediaFault),
    /// The channel refuses a part: `NoInit` for a unit before any init section, `InitChanged`, `Overlap`, ..
    Core(Refusal),
    /// A unit begins so far after the newest end of all renditions that its clock must be wrong.
    AheadOfChannel,
}

impl StreamFault {
    /// Returns the name of the fault that it holds, as replies and programs print it.
    pub fn name(&self) -> &'static str
        ensures { result.now ≡ name_of self.now }
    {
        match self {
            StreamFault::Boxes(fault) => fault.name(),
            StreamFault::Media(fault) => fault.name(),
            StreamFault::Core(refusal) => refusal.name(),
            StreamFault::AheadOfChannel => "AheadOfChannel",
        }
    }
}

impl Display for StreamFault {
    fn fmt<W: Write>(&self, f: &mut Formatter<W>) -> fmt::Result {
        f.write_str(self.name())
    }
}

/// Why a stream isn't ingested further.
#[derive(Clone, Copy, Drop)]
pub enum FeedFault {
    /// It is refused.
    Refused(StreamFault),
    /// Out of memory.
    Memory,
}

impl From<AllocError> for FeedFault {
    ghost use Rattle.hls_core.specs.declared.feed_fault.FeedFault.TheVariants.{Memory};

    ghost from_gives = { λ _ untaken. untaken ≡ Memory };

    fn from(_error: AllocError) -> FeedFault {
        FeedFault::Memory
    }
}
