//! Channels of one video rendition, made again if an allocation failed.

ghost use Rattle.std.specs.Prelude.{◌≡◌, ◌+◌, length, IfOk, IfSome};

use crate::fault::SampleFault;
use crate::opening::open_channel;
use crate::states::{finish_rendition, with_units};
use hls_core::snapshot::Snapshot;
use std::alloc::Global;
use std::sync::Arc;

/// Three units of four seconds.
pub const THREE_UNITS: [(u32, u32); 3] = [(0, 4), (4, 8), (8, 12)];

/// Makes a channel with units from one second to another; more may come.
pub fn record_channel(alloc: Global, seconds: &[(u32, u32)]) -> Result<Arc<Snapshot>, SampleFault>
    ensures { IfOk result (λ s. length s.value.log ≡ length seconds.now + 1) }
{
    let none = open_channel(alloc)?;
    with_units(alloc, &none, 0, seconds)
}

/// Makes such a channel, and retries once if an allocation failed; `None` if the retry failed, too.
pub fn record_channel_with_retry(alloc: Global, seconds: &[(u32, u32)]) -> Option<Arc<Snapshot>>
    ensures { IfSome result (λ s. length s.value.log ≡ length seconds.now + 1) }
{
    match record_channel(alloc, seconds) {
        Ok(state) => Some(state),
        Err(_) => record_channel(alloc, seconds).ok(),
    }
}

/// Makes a finished channel with these units.
fn end_channel(alloc: Global, seconds: &[(u32, u32)]) -> Result<Arc<Snapshot>, SampleFault>
    ensures { IfOk result (λ s. length s.value.log ≡ length seconds.now + 2) }
{
    let state = record_channel(alloc, seconds)?;
    finish_rendition(alloc, &state, 0)
}

/// Makes such a finished channel, and retries once if an allocation failed; `None` if the retry failed, too.
pub fn end_channel_with_retry(alloc: Global, seconds: &[(u32, u32)]) -> Option<Arc<Snapshot>>
    ensures { IfSome result (λ s. length s.value.log ≡ length seconds.now + 2) }
{
    match end_channel(alloc, seconds) {
        Ok(state) => Some(state),
        Err(_) => end_channel(alloc, seconds).ok(),
    }
}
