//! The result of ingesting an encoder's body.

ghost use Rattle.std.specs.Prelude.{◌≡◌};
ghost use Rattle.hls_api.specs.Ingest.{ingest_stop_of};

use hls_core::{FeedFault, StreamFault};
use hls_http::end::BodyEnd;

/// How many parts of a body were accepted.
#[derive(Clone, Copy, Drop)]
pub struct IngestCounts {
    /// New init sections.
    pub inits: u64,
    /// New units that were recorded as they were sent.
    pub units: u64,
    /// Duplicate init sections and units.
    pub repeats: u64,
    /// New units that were written again. 0 if units aren't mended, as the next two.
    pub mended: u64,
    /// Fillers.
    pub filled: u64,
    /// Units that weren't recorded.
    pub dropped: u64,
}

/// Why a body isn't ingested further.
#[derive(Clone, Copy, Drop)]
pub enum IngestStop {
    /// It is refused.
    Refused(StreamFault),
    /// Out of memory.
    Memory,
    /// The body stopped early.
    Stopped(BodyEnd),
}

impl From<FeedFault> for IngestStop {
    ghost from_gives = { λ feed_fault stop. stop ≡ ingest_stop_of feed_fault };

    fn from(feed_fault: FeedFault) -> IngestStop {
        match feed_fault {
            FeedFault::Refused(fault) => IngestStop::Refused(fault),
            FeedFault::Memory => IngestStop::Memory,
        }
    }
}
