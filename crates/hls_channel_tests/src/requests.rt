//! Channels with a target duration of 6 s and a preferred length of 4 s, and requests to them. Each init section has 600 bytes, and
//! each unit 1000.

ghost use Rattle.std.specs.Prelude.{◌≡◌, ◌+◌, ◌≤◌, length, IfOk};

use hls_catchup::{CostRule, Request};
use hls_core::snapshot::Snapshot;
use hls_sample_channels::{SECOND, SampleFault, open_channel_with, rendition, with_units};
use std::alloc::Global;
use std::sync::Arc;

/// 2024-01-01T00:00:00Z.
pub const EPOCH: i64 = 1_704_067_200_000_000;

/// Records one rendition with units from one second to another; more may come. Time 0 is at the epoch, if there is one.
pub fn record_units(
    alloc: Global,
    epoch: Option<i64>,
    units: &[(u32, u32)],
) -> Result<Arc<Snapshot>, SampleFault>
    ensures { IfOk result (λ s. length units.now + 1 ≤ length s.value.log) }
{
    let renditions = Vec::from_array(alloc, [rendition(alloc, b"v1", true, 0)?])?;
    let none = open_channel_with(alloc, renditions, epoch)?;
    with_units(alloc, &none, 0, units)
}

/// A request with the channel's preferred length, by rule 1.
pub fn request(start_us: u64, stop_us: u64) -> Request
    ensures start { result.start_us ≡ start_us }
    ensures stop { result.stop_us ≡ stop_us }
{
    Request {
        start_us,
        stop_us,
        preferred: 4 * SECOND,
        rule: CostRule::Deviation,
    }
}
