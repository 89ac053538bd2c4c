//! Channels without any events.

ghost use Rattle.std.specs.Prelude.{◌≡◌, [], ◌∷◌, codes, None, true, IfOk};
ghost use Rattle.hls_core_laws.specs.Runs.{first_state};
ghost use Rattle.hls_sample_channels.specs.Samples.{config_of, rendition_of};

use crate::fault::SampleFault;
use bytes::Bytes;
use hls_core::config::Config;
use hls_core::snapshot::Snapshot;
use hls_core_laws::rendition::Rendition;
use std::alloc::{AllocError, Global};
use std::sync::Arc;

/// Microseconds per second.
pub const SECOND: u64 = 1_000_000;

/// Makes a rendition with this name and kind, whose spots may be off by `tolerance` microseconds.
pub fn rendition(
    alloc: Global,
    name: &[u8],
    video: bool,
    tolerance: u64,
) -> Result<Rendition, AllocError>
    ensures { IfOk result (λ r. r ≡ rendition_of name.now video tolerance) }
{
    Ok(Rendition {
        name: Bytes::copy_from_slice(alloc, name)?,
        video,
        bandwidth: 3_000_000,
        tolerance,
    })
}

/// Makes a channel of these renditions; the epoch, if any, is in microseconds since 1970.
pub fn open_channel_with(
    alloc: Global,
    renditions: Vec<Rendition>,
    epoch: Option<i64>,
) -> Result<Arc<Snapshot>, SampleFault>
    ensures { IfOk result (λ s. s.value ≡ first_state (config_of renditions.items epoch)) }
{
    let config = Config::with_epoch(alloc, 6, 4 * SECOND, renditions, epoch)?;
    Ok(Arc::new(alloc, Snapshot::first(alloc, config)?)?)
}

/// Makes a channel of one video rendition.
pub fn open_channel(alloc: Global) -> Result<Arc<Snapshot>, SampleFault>
    ensures { IfOk result (λ s. s.value ≡ first_state (config_of (rendition_of (codes "v1") true 0 ∷ []) None)) }
{
    let mut renditions = Vec::new(alloc);
    renditions.push(rendition(alloc, b"v1", true, 0)?)?;
    open_channel_with(alloc, renditions, None)
}
