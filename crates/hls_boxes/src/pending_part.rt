//! The part in progress.

ghost use Rattle.std.specs.Prelude.{◌≡◌, ◌++◌, ◌≤◌, [], false, length, take, drop, OnOk, OnErr};
ghost use Rattle.hls_boxes.specs.Feed.{first_bytes};

use crate::complete_part::CompletePart;
use std::alloc::{AllocError, Global};
use std::collections::VecDeque;

/// The maximum room that is reserved for a box by its header alone, before its bytes arrive.
const TRUSTED: usize = 1 << 20;

/// A part whose bytes haven't all arrived.
#[derive(Drop)]
pub(crate) struct PendingPart {
    pub(crate) bytes: Vec<u8>,
    /// Where the first box begins that isn't consumed yet.
    pub(crate) at: usize,
    /// Whether the boxes before it have a `moof`.
    pub(crate) has_moof: bool,
}

impl PendingPart {
    /// The empty part. Doesn't allocate.
    pub(crate) fn empty(alloc: Global) -> PendingPart
        ensures bytes { result.bytes.items ≡ [] }
        ensures at { result.at ≡ 0 }
        ensures has_moof { result.has_moof ≡ false }
    {
        PendingPart {
            bytes: Vec::new(alloc),
            at: 0,
            has_moof: false,
        }
    }
}

/// Appends bytes to a block that still lacks `missing` bytes. The block grows to exactly that length, so a part has no spare capacity.
/// Beyond `TRUSTED` it only doubles, since a header may announce more than arrives.
pub(crate) fn append_bytes(
    bytes: &mut Vec<u8>,
    more: &[u8],
    missing: usize,
) -> Result<(), AllocError>
    ensures ok { OnOk result (bytes.new.items ≡ bytes.old.items ++ more.now) }
    ensures err { OnErr result (bytes.new.items ≡ bytes.old.items) }
{
    let len = bytes.len();
    if bytes.capacity() - len < more.len() {
        bytes.reserve_exact(missing.min(len.max(TRUSTED)).max(more.len()))?;
    }
    bytes.extend_from_slice(more)
}

/// A checkpoint of a reader's contents.
#[derive(Clone, Copy)]
pub(crate) struct Checkpoint {
    parts: usize,
    len: usize,
    at: usize,
    has_moof: bool,
}

impl Checkpoint {
    pub(crate) fn save(pending: &PendingPart, whole: &VecDeque<CompletePart>) -> Checkpoint
        ensures parts { result.parts ≡ length whole.now.items }
        ensures len { result.len ≡ length pending.now.bytes.items }
        ensures at { result.at ≡ pending.now.at }
        ensures has_moof { result.has_moof ≡ pending.now.has_moof }
    {
        Checkpoint {
            parts: whole.len(),
            len: pending.bytes.len(),
            at: pending.at,
            has_moof: pending.has_moof,
        }
    }

    /// Restores the contents of the checkpoint: the first part after those that were complete then is the one that was in progress.
    pub(crate) fn restore(self, pending: &mut PendingPart, whole: &mut VecDeque<CompletePart>)
        ensures whole { whole.new.items ≡ take self.parts whole.old.items }
        ensures bytes { pending.new.bytes.items ≡ take self.len (first_bytes (drop self.parts whole.old.items) pending.old) }
        ensures at { pending.new.at ≡ self.at }
        ensures has_moof { pending.new.has_moof ≡ self.has_moof }
    {
        if self.parts < whole.len() {
            whole.truncate(self.parts + 1);
            if let Some(CompletePart { bytes, .. }) = whole.pop_back() {
                pending.bytes = bytes;
            }
        }
        pending.bytes.truncate(self.len);
        pending.at = self.at;
        pending.has_moof = self.has_moof;
    }
}
