//! The metrics of each rendition.

ghost use Rattle.std.specs.Prelude.{◌≡◌, ◌+◌, ◌++◌, ◌≤◌, OnOk};
ghost use Rattle.std.specs.Option.{option_copied};
ghost use Rattle.hls_core_laws.specs.Base.{base_limit};
ghost use Rattle.hls_metrics.specs.Metrics as spec;

use crate::lines::push_description;
use crate::measured::Measured;
use crate::rendition_metric::RenditionMetric;
use hls_core::snapshot::Snapshot;
use hls_core_laws::rendition::Rendition;
use hls_record::Recording;
use hls_record::recording::RECORDING_LIMIT;
use hls_text::push_number;
use std::alloc::AllocError;

/// Returns a metric's name.
fn name_of(metric: RenditionMetric) -> &'static [u8]
    ensures { result.now ≡ spec.name_of metric }
{
    match metric {
        RenditionMetric::Begun => b"hls_rendition_begun",
        RenditionMetric::Finished => b"hls_rendition_finished",
        RenditionMetric::ReceivedBytes => b"hls_rendition_bytes_total",
        RenditionMetric::MaxBytes => b"hls_rendition_bytes_max",
        RenditionMetric::KeptBytes => b"hls_rendition_kept_bytes",
        RenditionMetric::Fragments => b"hls_rendition_fragments_total",
        RenditionMetric::End => b"hls_rendition_end_seconds",
        RenditionMetric::Tolerance => b"hls_rendition_tolerance_seconds",
        RenditionMetric::MissedSyncs => b"hls_rendition_sync_samples_missed",
        RenditionMetric::SyncDistance => b"hls_rendition_sync_distance_seconds",
        RenditionMetric::Gaps => b"hls_rendition_places_before_gap",
    }
}

/// Returns what a metric is.
fn help_of(metric: RenditionMetric) -> &'static [u8]
    ensures { result.now ≡ spec.help_of metric }
{
    match metric {
        RenditionMetric::Begun => b"Whether the rendition has its init section.",
        RenditionMetric::Finished => b"Whether the rendition is finished.",
        RenditionMetric::ReceivedBytes => b"Bytes that were ever accepted of the rendition.",
        RenditionMetric::MaxBytes => b"Bytes at which the recording is full.",
        RenditionMetric::KeptBytes => b"Bytes of fragments that are kept.",
        RenditionMetric::Fragments => b"Fragments that this process accepted.",
        RenditionMetric::End => b"Where the last fragment ends, on the encoders' clock.",
        RenditionMetric::Tolerance => b"How far a sync sample may be from a place.",
        RenditionMetric::MissedSyncs => {
            b"The checked sync samples of rendition 0 that have none within the tolerance."
        }
        RenditionMetric::SyncDistance => {
            b"The greatest distance from a checked sync sample to the nearest one."
        }
        RenditionMetric::Gaps => {
            b"The last places before whose next one the rendition has a gap: no segment begins there."
        }
    }
}

/// Returns a metric's type.
fn kind_of(metric: RenditionMetric) -> &'static [u8]
    ensures { result.now ≡ spec.kind_of metric }
{
    match metric {
        RenditionMetric::ReceivedBytes | RenditionMetric::Fragments => b"counter",
        _ => b"gauge",
    }
}

/// Returns what follows a metric's number: times are microseconds, shown as seconds.
fn row_end(metric: RenditionMetric) -> &'static [u8]
    ensures { result.now ≡ spec.row_end metric }
{
    match metric {
        RenditionMetric::End | RenditionMetric::Tolerance | RenditionMetric::SyncDistance => {
            b"e-6\n"
        }
        _ => b"\n",
    }
}

fn kind_label(video: bool) -> &'static [u8]
    ensures { result.now ≡ spec.kind_label video }
{
    if video {
        b"\",kind=\"video\"} "
    } else {
        b"\",kind=\"audio\"} "
    }
}

/// Appends the label with a rendition's number.
#[tactic(auto, unfolding(crate::specs::Metrics::number_label))]
fn push_number_label(out: &mut Vec<u8>, number: usize) -> Result<(), AllocError>
    ensures { OnOk result (out.new.items ≡ out.old.items ++ spec.number_label number) }
{
    out.extend_from_slice(b"{rendition=\"")?;
    push_number(out, number as u64)?;
    Ok(())
}

/// Appends the label with a rendition's name.
#[tactic(auto, unfolding(crate::specs::Metrics::name_label))]
fn push_name_label(out: &mut Vec<u8>, name: &[u8]) -> Result<(), AllocError>
    ensures { OnOk result (out.new.items ≡ out.old.items ++ spec.name_label name.now) }
{
    out.extend_from_slice(b"\",name=\"")?;
    out.extend_from_slice(name)?;
    Ok(())
}

/// Appends the labels of a rendition's row.
fn push_labels(out: &mut Vec<u8>, number: usize, rendition: &Rendition) -> Result<(), AllocError>
    ensures { OnOk result (out.new.items ≡ out.old.items ++ spec.labels number rendition.now) }
{
    push_number_label(out, number)?;
    push_name_label(out, &rendition.name)?;
    out.extend_from_slice(kind_label(rendition.video))?;
    Ok(())
}

/// Returns the bytes of a rendition that were ever accepted, those before this process included.
fn received_bytes(before: u64, recording: Option<&Recording>) -> u64
    requires { before ≤ base_limit }
    ensures { result ≡ before + spec.total_in (option_copied recording.entry) }
{
    match recording {
        None => before,
        Some(recording) => before + recording.total(),
    }
}

/// Returns the bytes of the fragments that are kept.
fn kept_bytes(recording: Option<&Recording>) -> u64
    ensures { result ≡ spec.kept_in (option_copied recording.entry) }
{
    match recording {
        None => 0,
        Some(recording) => recording
            .total()
            .saturating_sub(recording.offset(recording.floor())),
    }
}

/// Returns how many fragments were ever accepted.
fn fragment_count(recording: Option<&Recording>) -> u64
    ensures { result ≡ spec.count_in (option_copied recording.entry) }
{
    match recording {
        None => 0,
        Some(recording) => recording.count(),
    }
}

/// Returns the end of a recording's last fragment in microseconds; 0 without one.
fn last_end_us(recording: Option<&Recording>) -> u64
    ensures { result ≡ spec.end_in (option_copied recording.entry) }
{
    let Some(recording) = recording else {
        return 0;
    };
    match recording.facts(recording.count().saturating_sub(1)) {
        None => 0,
        Some(facts) => facts.end_us,
    }
}

/// Returns what was measured of a rendition; 0 if it wasn't.
fn number_at(numbers: &[u64], number: usize) -> u64
    ensures { result ≡ spec.number_at numbers.now number }
{
    match numbers.get(number) {
        None => 0,
        Some(found) => *found,
    }
}

/// Returns the number that a metric shows of a rendition.
fn number_of(
    metric: RenditionMetric,
    snapshot: &Snapshot,
    measured: &Measured,
    number: usize,
    rendition: &Rendition,
) -> u64
    ensures { result ≡ spec.number_of metric snapshot.now measured.now number rendition.now }
{
    let recording = snapshot.recording(number);
    let before = snapshot.config().base().bytes(number);
    match metric {
        RenditionMetric::Begun => u64::from(recording.is_some()),
        RenditionMetric::Finished => u64::from(snapshot.is_finished(number) == Some(true)),
        RenditionMetric::ReceivedBytes => received_bytes(before, recording),
        RenditionMetric::MaxBytes => before + RECORDING_LIMIT,
        RenditionMetric::KeptBytes => kept_bytes(recording),
        RenditionMetric::Fragments => fragment_count(recording),
        RenditionMetric::End => last_end_us(recording),
        RenditionMetric::Tolerance => rendition.tolerance,
        RenditionMetric::MissedSyncs => number_at(&measured.missed_syncs, number),
        RenditionMetric::SyncDistance => number_at(&measured.sync_distances_us, number),
        RenditionMetric::Gaps => number_at(&measured.gaps, number),
    }
}

/// Appends the row of a rendition.
#[tactic(auto, unfolding(crate::specs::Metrics::rendition_row))]
fn push_rendition_row(
    out: &mut Vec<u8>,
    metric: RenditionMetric,
    snapshot: &Snapshot,
    measured: &Measured,
    number: usize,
    rendition: &Rendition,
) -> Result<(), AllocError>
    ensures { OnOk result (out.new.items ≡ out.old.items ++ spec.rendition_row metric snapshot.now measured.now number rendition.now) }
{
    out.extend_from_slice(name_of(metric))?;
    push_labels(out, number, rendition)?;
    push_number(
        out,
        number_of(metric, snapshot, measured, number, rendition),
    )?;
    out.extend_from_slice(row_end(metric))?;
    Ok(())
}

/// Appends a metric with a row for each rendition.
#[tactic(auto, unfolding(crate::specs::Metrics::rendition_metric))]
fn push_rendition_metric(
    out: &mut Vec<u8>,
    metric: RenditionMetric,
    snapshot: &Snapshot,
    measured: &Measured,
) -> Result<(), AllocError>
    ensures { OnOk result (out.new.items ≡ out.old.items ++ spec.rendition_metric metric snapshot.now measured.now) }
{
    push_description(out, name_of(metric), kind_of(metric), help_of(metric))?;
    push_rows(
        out,
        metric,
        snapshot,
        measured,
        snapshot.config().renditions(),
    )?;
    Ok(())
}

/// Appends the rows of renditions, which count from 0.
fn push_rows(
    out: &mut Vec<u8>,
    metric: RenditionMetric,
    snapshot: &Snapshot,
    measured: &Measured,
    renditions: &[Rendition],
) -> Result<(), AllocError>
    ensures { OnOk result (out.new.items ≡ out.old.items ++ spec.rows_from metric snapshot.now measured.now 0 renditions.now) }
{
    for (number, rendition) in renditions.iter().enumerate() {
        push_rendition_row(out, metric, snapshot, measured, number, rendition)?;
    }
    Ok(())
}

/// Appends the metrics of how far each rendition is.
#[tactic(auto, unfolding(crate::specs::Metrics::progress_metrics))]
fn push_progress_metrics(
    out: &mut Vec<u8>,
    snapshot: &Snapshot,
    measured: &Measured,
) -> Result<(), AllocError>
    ensures { OnOk result (out.new.items ≡ out.old.items ++ spec.progress_metrics snapshot.now measured.now) }
{
    push_rendition_metric(out, RenditionMetric::Begun, snapshot, measured)?;
    push_rendition_metric(out, RenditionMetric::Finished, snapshot, measured)?;
    push_rendition_metric(out, RenditionMetric::End, snapshot, measured)?;
    push_rendition_metric(out, RenditionMetric::Tolerance, snapshot, measured)?;
    Ok(())
}

/// Appends the metrics of how much each rendition has.
#[tactic(auto, unfolding(crate::specs::Metrics::amount_metrics))]
fn push_amount_metrics(
    out: &mut Vec<u8>,
    snapshot: &Snapshot,
    measured: &Measured,
) -> Result<(), AllocError>
    ensures { OnOk result (out.new.items ≡ out.old.items ++ spec.amount_metrics snapshot.now measured.now) }
{
    push_rendition_metric(out, RenditionMetric::ReceivedBytes, snapshot, measured)?;
    push_rendition_metric(out, RenditionMetric::MaxBytes, snapshot, measured)?;
    push_rendition_metric(out, RenditionMetric::KeptBytes, snapshot, measured)?;
    push_rendition_metric(out, RenditionMetric::Fragments, snapshot, measured)?;
    Ok(())
}

/// Appends the metrics of why sync samples are no places, and why no segment begins at a place.
#[tactic(auto, unfolding(crate::specs::Metrics::cut_metrics))]
fn push_cut_metrics(
    out: &mut Vec<u8>,
    snapshot: &Snapshot,
    measured: &Measured,
) -> Result<(), AllocError>
    ensures { OnOk result (out.new.items ≡ out.old.items ++ spec.cut_metrics snapshot.now measured.now) }
{
    push_rendition_metric(out, RenditionMetric::MissedSyncs, snapshot, measured)?;
    push_rendition_metric(out, RenditionMetric::SyncDistance, snapshot, measured)?;
    push_rendition_metric(out, RenditionMetric::Gaps, snapshot, measured)?;
    Ok(())
}

/// Appends the metrics of each rendition.
#[tactic(auto, unfolding(crate::specs::Metrics::rendition_metrics))]
pub(crate) fn push_rendition_metrics(
    out: &mut Vec<u8>,
    snapshot: &Snapshot,
    measured: &Measured,
) -> Result<(), AllocError>
    ensures { OnOk result (out.new.items ≡ out.old.items ++ spec.rendition_metrics snapshot.now measured.now) }
{
    push_progress_metrics(out, snapshot, measured)?;
    push_amount_metrics(out, snapshot, measured)?;
    push_cut_metrics(out, snapshot, measured)?;
    Ok(())
}
