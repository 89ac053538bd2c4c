//! Where the media of a channel begin in their files: how many bytes of units precede in each rendition, by the channel's base.

ghost use Rattle.std.specs.Prelude.{◌≤◌, length};

use byteorder::{ByteOrder, LittleEndian};
use bytes::Bytes;
use hls_core::base::{Base, RUN_LIMIT};

/// Where the record of a channel has the counts of its base: 16 of 8 bytes each.
const COUNTS_AT: usize = 60;

/// Where they end.
const COUNTS_END: usize = 188;

/// The place of the first byte of each rendition's resource.
#[derive(Clone, Copy, Drop)]
pub(crate) struct MediaStarts([u64; RUN_LIMIT]);

impl MediaStarts {
    /// Those of a channel with this base.
    pub(crate) fn of_base(base: &Base) -> MediaStarts {
        let mut starts = [0; RUN_LIMIT];
        for (rendition, start) in starts.iter_mut().enumerate() {
            *start = base.bytes(rendition);
        }
        MediaStarts(starts)
    }

    /// Those of a log, whose first record is the channel's.
    pub(crate) fn of_log(bodies: &[Bytes]) -> MediaStarts {
        let mut starts = [0; RUN_LIMIT];
        if let Some(body) = bodies.first() {
            if body.len() >= COUNTS_END {
                read_counts(body, &mut starts);
            }
        }
        MediaStarts(starts)
    }

    /// Returns where a rendition begins.
    pub(crate) fn get(&self, rendition: usize) -> u64 {
        self.0.get(rendition).copied().unwrap_or(0)
    }
}

/// Reads the counts of a channel's record.
fn read_counts(body: &[u8], starts: &mut [u64; RUN_LIMIT])
    requires { 188 ≤ length body.now }
{
    LittleEndian::read_u64_into(&body[COUNTS_AT..COUNTS_END], starts);
}
