//! The metrics that aren't of a state.

ghost use Rattle.std.specs.Prelude.{◌≡◌, ◌<◌, ◌++◌, OnOk};
ghost use Rattle.hls_metrics.specs.Measurements as spec;

use crate::lines::{
    push_counter, push_description, push_gauge, push_seconds_counter, push_seconds_gauge,
};
use crate::measured::Measured;
use crate::refusal_metrics::push_refusal_metrics;
use crate::request_kinds::STATUS_CODES;
use hls_text::push_number;
use std::alloc::AllocError;

/// Appends the metrics of connections, and of bytes read and written.
#[tactic(auto, unfolding(crate::specs::Measurements::traffic_metrics))]
fn push_traffic_metrics(out: &mut Vec<u8>, measured: &Measured) -> Result<(), AllocError>
    ensures { OnOk result (out.new.items ≡ out.old.items ++ spec.traffic_metrics measured.now) }
{
    push_counter(
        out,
        b"hls_connections_total",
        b"Connections that were accepted.",
        measured.accepted_connections,
    )?;
    push_counter(
        out,
        b"hls_received_bytes_total",
        b"Bytes that were read from connections.",
        measured.received_bytes,
    )?;
    push_counter(
        out,
        b"hls_sent_bytes_total",
        b"Bytes that were written to connections.",
        measured.sent_bytes,
    )?;
    Ok(())
}

/// Appends the metrics of what is open and waits.
#[tactic(auto, unfolding(crate::specs::Measurements::connection_metrics))]
fn push_connection_metrics(out: &mut Vec<u8>, measured: &Measured) -> Result<(), AllocError>
    ensures { OnOk result (out.new.items ≡ out.old.items ++ spec.connection_metrics measured.now) }
{
    push_gauge(
        out,
        b"hls_connections",
        b"Connections that are open.",
        measured.open_connections,
    )?;
    push_gauge(
        out,
        b"hls_responses_waiting",
        b"Responses that wait for a state, a job or the journal.",
        measured.waiting_responses,
    )?;
    Ok(())
}

/// Appends the metrics of sync samples.
#[tactic(auto, unfolding(crate::specs::Measurements::sync_metrics))]
fn push_sync_metrics(out: &mut Vec<u8>, measured: &Measured) -> Result<(), AllocError>
    ensures { OnOk result (out.new.items ≡ out.old.items ++ spec.sync_metrics measured.now) }
{
    push_gauge(
        out,
        b"hls_sync_samples",
        b"The last sync samples of rendition 0 that were checked, at most 100.",
        measured.checked_syncs,
    )?;
    push_gauge(
        out,
        b"hls_sync_samples_unplaced",
        b"Those that are no places: a rendition has no sync sample near enough.",
        measured.unplaced_syncs,
    )?;
    push_gauge(
        out,
        b"hls_sync_samples_unlisted",
        b"Those that are in no segment of the live playlists.",
        measured.unlisted_syncs,
    )?;
    Ok(())
}

/// Appends where the last sync sample begins that is no place.
fn push_unplaced_metric(out: &mut Vec<u8>, measured: &Measured) -> Result<(), AllocError>
    ensures { OnOk result (out.new.items ≡ out.old.items ++ spec.unplaced_metric measured.now) }
{
    push_seconds_gauge(
        out,
        b"hls_sync_sample_unplaced_seconds",
        b"Where the last one begins that is no place, on the encoders' clock; 0 if all are.",
        measured.unplaced_us,
    )
}

/// Appends the metrics of the process's memory.
#[tactic(auto, unfolding(crate::specs::Measurements::process_metrics))]
fn push_process_metrics(out: &mut Vec<u8>, measured: &Measured) -> Result<(), AllocError>
    ensures { OnOk result (out.new.items ≡ out.old.items ++ spec.process_metrics measured.now) }
{
    push_gauge(
        out,
        b"process_resident_memory_bytes",
        b"Resident memory of the process.",
        measured.resident_bytes,
    )?;
    push_gauge(
        out,
        b"process_virtual_memory_bytes",
        b"Address space of the process.",
        measured.virtual_bytes,
    )?;
    push_gauge(
        out,
        b"process_virtual_memory_max_bytes",
        b"The limit of the address space; 0 if there is none.",
        measured.max_virtual_bytes,
    )?;
    Ok(())
}

/// Appends the metrics of the process's files.
#[tactic(auto, unfolding(crate::specs::Measurements::file_metrics))]
fn push_file_metrics(out: &mut Vec<u8>, measured: &Measured) -> Result<(), AllocError>
    ensures { OnOk result (out.new.items ≡ out.old.items ++ spec.file_metrics measured.now) }
{
    push_gauge(
        out,
        b"process_open_fds",
        b"Files and sockets that the process has open.",
        measured.open_files,
    )?;
    push_gauge(
        out,
        b"process_max_fds",
        b"How many it may have open.",
        measured.max_files,
    )?;
    Ok(())
}

/// Appends the metrics of the process's times.
#[tactic(auto, unfolding(crate::specs::Measurements::time_metrics))]
fn push_time_metrics(out: &mut Vec<u8>, measured: &Measured) -> Result<(), AllocError>
    ensures { OnOk result (out.new.items ≡ out.old.items ++ spec.time_metrics measured.now) }
{
    push_seconds_counter(
        out,
        b"process_cpu_seconds_total",
        b"Processor time of all threads.",
        measured.cpu_us,
    )?;
    push_seconds_gauge(
        out,
        b"process_start_time_seconds",
        b"When the process began, since 1970.",
        measured.started_us,
    )?;
    Ok(())
}

/// Appends the metrics of the clock.
#[tactic(auto, unfolding(crate::specs::Measurements::clock_metrics))]
fn push_clock_metrics(out: &mut Vec<u8>, measured: &Measured) -> Result<(), AllocError>
    ensures { OnOk result (out.new.items ≡ out.old.items ++ spec.clock_metrics measured.now) }
{
    push_seconds_gauge(
        out,
        b"hls_uptime_seconds",
        b"How long the server has run.",
        measured.uptime_us,
    )?;
    push_seconds_gauge(
        out,
        b"hls_list_still_seconds",
        b"How long the live playlists have ended with the same segment.",
        measured.still_us,
    )?;
    Ok(())
}

/// Appends the metrics of mended units and the journal.
#[tactic(auto, unfolding(crate::specs::Measurements::repair_metrics))]
fn push_repair_metrics(out: &mut Vec<u8>, measured: &Measured) -> Result<(), AllocError>
    ensures { OnOk result (out.new.items ≡ out.old.items ++ spec.repair_metrics measured.now) }
{
    push_counter(
        out,
        b"hls_mended_fragments_total",
        b"Fragments that were mended before they were accepted.",
        measured.mended_fragments,
    )?;
    push_counter(
        out,
        b"hls_filled_fragments_total",
        b"Fragments that fill gaps of a rendition.",
        measured.filled_fragments,
    )?;
    push_gauge(
        out,
        b"hls_journal_lag_entries",
        b"Log entries that the journal doesn't have yet.",
        measured.journal_lag,
    )?;
    Ok(())
}

/// Appends the metrics of the journal.
#[tactic(auto, unfolding(crate::specs::Measurements::journal_metrics))]
fn push_journal_metrics(out: &mut Vec<u8>, measured: &Measured) -> Result<(), AllocError>
    ensures { OnOk result (out.new.items ≡ out.old.items ++ spec.journal_metrics measured.now) }
{
    push_gauge(
        out,
        b"hls_journal_lost",
        b"Whether the channel continues without its journal.",
        measured.journal_lost,
    )?;
    push_seconds_gauge(
        out,
        b"hls_journal_sync_age_seconds",
        b"How long ago the journal was synced last; 0 without one.",
        measured.sync_age_us,
    )?;
    Ok(())
}

/// Returns the name of a kind of routes.
fn route_kind(number: usize) -> &'static [u8]
    ensures { result.now ≡ spec.route_kind number }
{
    match number {
        0 => b"ingest",
        1 => b"finish",
        2 => b"live",
        3 => b"media",
        4 => b"catchup",
        5 => b"job",
        6 => b"status",
        7 => b"playlist",
        8 => b"segment",
        9 => b"programme",
        _ => b"other",
    }
}

/// Appends the name of the metric of requests, and the label with a route.
#[tactic(auto, unfolding(crate::specs::Measurements::route_label))]
fn push_route_label(out: &mut Vec<u8>, number: usize) -> Result<(), AllocError>
    ensures { OnOk result (out.new.items ≡ out.old.items ++ spec.route_label number) }
{
    out.extend_from_slice(b"hls_requests_total{route=\"")?;
    out.extend_from_slice(route_kind(number))?;
    Ok(())
}

/// Appends the label with a status.
#[tactic(auto, unfolding(crate::specs::Measurements::status_label))]
fn push_status_label(out: &mut Vec<u8>, number: usize) -> Result<(), AllocError>
    requires { number < 14 }
    ensures { OnOk result (out.new.items ≡ out.old.items ++ spec.status_label number) }
{
    out.extend_from_slice(b"\",status=\"")?;
    push_number(out, STATUS_CODES[number])?;
    out.extend_from_slice(b"\"} ")?;
    Ok(())
}

/// Appends the row of a kind of requests.
#[tactic(auto, unfolding(crate::specs::Measurements::request_row))]
fn push_request_row(out: &mut Vec<u8>, number: usize, count: u64) -> Result<(), AllocError>
    ensures { OnOk result (out.new.items ≡ out.old.items ++ spec.request_row number count) }
{
    push_route_label(out, number / 14)?;
    push_status_label(out, number % 14)?;
    push_number(out, count)?;
    out.push(b'\n')?;
    Ok(())
}

/// Appends the rows of the kinds of requests.
fn push_request_rows(out: &mut Vec<u8>, counts: &[u64]) -> Result<(), AllocError>
    ensures { OnOk result (out.new.items ≡ out.old.items ++ spec.request_rows_from 0 counts.now) }
{
    for (number, count) in counts.iter().enumerate() {
        push_request_row(out, number, *count)?;
    }
    Ok(())
}

/// Appends the metric of requests.
#[tactic(auto, unfolding(crate::specs::Measurements::request_metrics))]
fn push_request_metrics(out: &mut Vec<u8>, counts: &[u64]) -> Result<(), AllocError>
    ensures { OnOk result (out.new.items ≡ out.old.items ++ spec.request_metrics counts.now) }
{
    push_description(
        out,
        b"hls_requests_total",
        b"counter",
        b"Requests that were answered, by route and status.",
    )?;
    push_request_rows(out, counts)?;
    Ok(())
}

/// Appends the metrics of requests, and of what was planned for them.
#[tactic(auto, unfolding(crate::specs::Measurements::served_metrics))]
fn push_served_metrics(out: &mut Vec<u8>, measured: &Measured) -> Result<(), AllocError>
    ensures { OnOk result (out.new.items ≡ out.old.items ++ spec.served_metrics measured.now) }
{
    push_counter(
        out,
        b"hls_programme_plans_total",
        b"Plans of programmes by address: one for all who request it.",
        measured.programme_plans,
    )?;
    push_request_metrics(out, &measured.requests)?;
    Ok(())
}

/// Appends the metrics of connections and sync samples.
#[tactic(auto, unfolding(crate::specs::Measurements::channel_part))]
fn push_channel_part(out: &mut Vec<u8>, measured: &Measured) -> Result<(), AllocError>
    ensures { OnOk result (out.new.items ≡ out.old.items ++ spec.channel_part measured.now) }
{
    push_traffic_metrics(out, measured)?;
    push_connection_metrics(out, measured)?;
    push_sync_metrics(out, measured)?;
    push_unplaced_metric(out, measured)?;
    Ok(())
}

/// Appends the metrics of the process.
#[tactic(auto, unfolding(crate::specs::Measurements::process_part))]
fn push_process_part(out: &mut Vec<u8>, measured: &Measured) -> Result<(), AllocError>
    ensures { OnOk result (out.new.items ≡ out.old.items ++ spec.process_part measured.now) }
{
    push_process_metrics(out, measured)?;
    push_file_metrics(out, measured)?;
    push_time_metrics(out, measured)?;
    push_clock_metrics(out, measured)?;
    Ok(())
}

/// Appends the metrics of what was mended, kept, refused and answered.
#[tactic(auto, unfolding(crate::specs::Measurements::work_part))]
fn push_work_part(out: &mut Vec<u8>, measured: &Measured) -> Result<(), AllocError>
    ensures { OnOk result (out.new.items ≡ out.old.items ++ spec.work_part measured.now) }
{
    push_repair_metrics(out, measured)?;
    push_journal_metrics(out, measured)?;
    push_refusal_metrics(out, &measured.refusals)?;
    push_served_metrics(out, measured)?;
    Ok(())
}

/// Appends what a server measured.
#[tactic(auto, unfolding(crate::specs::Measurements::measured_metrics))]
pub(crate) fn push_measured_metrics(
    out: &mut Vec<u8>,
    measured: &Measured,
) -> Result<(), AllocError>
    ensures { OnOk result (out.new.items ≡ out.old.items ++ spec.measured_metrics measured.now) }
{
    push_channel_part(out, measured)?;
    push_process_part(out, measured)?;
    push_work_part(out, measured)?;
    Ok(())
}
