//! Writes the text.

ghost use Rattle.std.specs.Prelude.{◌≡◌, ◌++◌, OnOk};
ghost use Rattle.hls_metrics.specs.Metrics as spec;

use crate::channel_metrics::push_channel_metrics;
use crate::measured::Measured;
use crate::measured_metrics::push_measured_metrics;
use crate::rendition_metrics::push_rendition_metrics;
use hls_core::snapshot::Snapshot;
use std::alloc::AllocError;

/// Appends the metrics of a channel with `jobs` jobs, and what its server measured, in Prometheus' text format. Log entries, segments
/// and bytes that precede this process count.
#[tactic(auto, unfolding(crate::specs::Metrics::metrics_text))]
pub fn push_metrics(
    out: &mut Vec<u8>,
    snapshot: &Snapshot,
    jobs: usize,
    measured: &Measured,
) -> Result<(), AllocError>
    ensures { OnOk result (out.new.items ≡ out.old.items ++ spec.metrics_text snapshot.now jobs measured.now) }
{
    push_channel_metrics(out, snapshot, jobs)?;
    push_rendition_metrics(out, snapshot, measured)?;
    push_measured_metrics(out, measured)?;
    Ok(())
}
