//! The record that a process appends when it begins to write: what a later start has to know of it.

ghost use Rattle.std.specs.Prelude.{◌≡◌, IsFalse, IsTrue, length};
ghost use Rattle.hls_journal_store.specs.StartRecords.{is_each, may_lack};

use crate::boot_id::is_same_boot;
use crate::sync_mode::SyncMode;
use bytes::Bytes;
use hls_core::base::Base;
use hls_journal::IDS;
use std::alloc::{AllocError, Global};

/// The bytes of the record's body: its kind and whether all is synced (4), the boot id (16) and the run (16).
const BODY_LEN: usize = 36;

/// What a process notes when it begins to write.
#[derive(Clone, Copy, Drop)]
pub(crate) struct StartRecord {
    /// The kernel's boot id.
    pub(crate) boot: [u8; 16],
    /// Whether everything is synced before it is reported, as in the mode `Each`.
    pub(crate) is_synced: bool,
    /// The run that the channel's paths name from there on, filled up with zero bytes.
    pub(crate) run: [u8; 16],
}

impl StartRecord {
    /// What a process notes that begins to write on this boot.
    pub(crate) fn new(boot: [u8; 16], mode: SyncMode, run: [u8; 16]) -> StartRecord
        ensures boot { result.boot ≡ boot }
        ensures synced { result.is_synced ≡ is_each mode }
        ensures run { result.run ≡ run }
    {
        StartRecord {
            boot,
            is_synced: matches!(mode, SyncMode::Each),
            run,
        }
    }

    /// Whether players may have seen more of the channel than the journal has, at a start on the given boot: the machine ended before
    /// the journal was closed, and what was reported wasn't synced.
    pub(crate) fn may_lack(&self, boot: &[u8; 16], was_closed: bool) -> bool
        ensures { result ≡ may_lack self.now boot.now was_closed }
    {
        !is_same_boot(&self.boot, boot) && !was_closed && !self.is_synced
    }
}

/// Returns the body of the record.
pub(crate) fn make_start_body(alloc: Global, start: &StartRecord) -> Result<Vec<u8>, AllocError> {
    let mut body = Vec::with_capacity(alloc, BODY_LEN)?;
    body.extend_from_slice(&[IDS, u8::from(start.is_synced), 0, 0])?;
    body.extend_from_slice(&start.boot)?;
    body.extend_from_slice(&start.run)?;
    Ok(body)
}

/// Returns what the last process that wrote has noted; what is given if none has.
pub(crate) fn find_start(bodies: &[Bytes], first: StartRecord) -> StartRecord {
    let mut start = first;
    for body in bodies {
        if body.len() == BODY_LEN && body[0] == IDS {
            start = read_start(body, start);
        }
    }
    start
}

/// Reads a body of this length.
fn read_start(body: &[u8], mut start: StartRecord) -> StartRecord
    requires { length body.now ≡ 36 }
{
    start.is_synced = body[1] == 1;
    start.boot.copy_from_slice(&body[4..20]);
    start.run.copy_from_slice(&body[20..BODY_LEN]);
    start
}

/// Returns the run of a channel at a start: a new one where players may have seen more than the journal has, so that no path names
/// other bytes than before; else the last one.
pub(crate) fn choose_run(may_lack: bool, new_run: [u8; 16], last: &StartRecord) -> [u8; 16]
    ensures new { IsTrue may_lack → result ≡ new_run }
    ensures same { IsFalse may_lack → result ≡ last.now.run }
{
    if may_lack { new_run } else { last.run }
}

/// Returns the base with another run; `None` if that isn't the name of a run.
pub(crate) fn with_run(base: &Base, run: [u8; 16]) -> Option<Base> {
    let mut bytes = [0; 16];
    for (rendition, count) in bytes.iter_mut().enumerate() {
        *count = base.bytes(rendition);
    }
    Base::new(
        run,
        base.segments(),
        base.marks(),
        base.marked(),
        bytes,
        base.version(),
    )
}
