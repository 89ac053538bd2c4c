//! The metrics of a channel as a whole.

ghost use Rattle.std.specs.Prelude.{◌≡◌, ◌+◌, ◌++◌, OnOk, length};
ghost use Rattle.std.specs.Option.{option_copied};
ghost use Rattle.hls_places_laws.specs.Line.Live.{has_ended, segments_of};
ghost use Rattle.hls_core_laws.specs.Line.{line};
ghost use Rattle.hls_metrics.specs.Metrics as spec;

use crate::lines::{push_counter, push_gauge, push_seconds_gauge};
use hls_core::place_search::kept_place_count;
use hls_core::snapshot::{LOG_LIMIT, Snapshot};
use hls_live::{LiveLine, LiveSegment};
use hls_places::time_of;
use std::alloc::AllocError;

/// Returns the number of log entries, those that precede this process included.
fn log_entries(snapshot: &Snapshot) -> u64
    ensures { result ≡ spec.log_entries snapshot.now }
{
    snapshot.config().base().version() + snapshot.version()
}

/// Returns the number of entries at which the log is full.
fn max_log_entries(snapshot: &Snapshot) -> u64
    ensures { result ≡ spec.max_log_entries snapshot.now }
{
    snapshot.config().base().version() + LOG_LIMIT
}

/// Appends the metrics of the log.
#[tactic(auto, unfolding(crate::specs::Metrics::log_metrics))]
fn push_log_metrics(out: &mut Vec<u8>, snapshot: &Snapshot) -> Result<(), AllocError>
    ensures { OnOk result (out.new.items ≡ out.old.items ++ spec.log_metrics snapshot.now) }
{
    push_gauge(
        out,
        b"hls_log_entries",
        b"Entries of the log since the channel began.",
        log_entries(snapshot),
    )?;
    push_gauge(
        out,
        b"hls_log_entries_max",
        b"Entries at which the log is full.",
        max_log_entries(snapshot),
    )?;
    Ok(())
}

/// Returns the start of a segment in rendition 0, in microseconds; 0 if there is none.
fn begin_of(segment: Option<&LiveSegment>) -> u64
    ensures { result ≡ spec.begin_of (option_copied segment.entry) }
{
    match segment {
        None => 0,
        Some(segment) => time_of(&segment.from),
    }
}

/// Returns the end of a segment in rendition 0, in microseconds; 0 if there is none.
fn end_of(segment: Option<&LiveSegment>) -> u64
    ensures { result ≡ spec.end_of (option_copied segment.entry) }
{
    match segment {
        None => 0,
        Some(segment) => time_of(&segment.to),
    }
}

/// Returns where the live playlists begin, in microseconds; 0 without a segment.
fn list_begin(line: &LiveLine) -> u64
    ensures { result ≡ spec.list_begin line.now }
{
    let segments = line.segments();
    begin_of(segments.get(segments.first()))
}

/// Returns where the live playlists end, in microseconds; 0 without a segment.
fn list_end(line: &LiveLine) -> u64
    ensures { result ≡ spec.list_end line.now }
{
    let segments = line.segments();
    end_of(segments.get(segments.next().saturating_sub(1)))
}

/// Returns how many segments a live line keeps.
fn count_segments(line: &LiveLine) -> u64
    ensures { result ≡ length (segments_of line.now) }
{
    let segments = line.segments();
    segments.next() - segments.first()
}

/// Appends the metrics of the live window.
#[tactic(auto, unfolding(crate::specs::Metrics::window_metrics))]
fn push_window_metrics(out: &mut Vec<u8>, snapshot: &Snapshot) -> Result<(), AllocError>
    ensures { OnOk result (out.new.items ≡ out.old.items ++ spec.window_metrics snapshot.now) }
{
    let line = snapshot.line();
    push_seconds_gauge(
        out,
        b"hls_list_begin_seconds",
        b"Where the live playlists begin, on the encoders' clock.",
        list_begin(line),
    )?;
    push_seconds_gauge(
        out,
        b"hls_list_end_seconds",
        b"Where the live playlists end, on the encoders' clock.",
        list_end(line),
    )?;
    Ok(())
}

/// Returns how many segments have slid out of the live line, those that precede this process included.
fn removed_segments(snapshot: &Snapshot) -> u64
    ensures { result ≡ snapshot.now.config.base.segments + (line snapshot.now).removed }
{
    snapshot.config().base().segments() + snapshot.line().segments().first()
}

/// Appends the metrics of the live segments.
#[tactic(auto, unfolding(crate::specs::Metrics::segment_metrics))]
fn push_segment_metrics(out: &mut Vec<u8>, snapshot: &Snapshot) -> Result<(), AllocError>
    ensures { OnOk result (out.new.items ≡ out.old.items ++ spec.segment_metrics snapshot.now) }
{
    push_gauge(
        out,
        b"hls_segments",
        b"Segments of the live playlists.",
        count_segments(snapshot.line()),
    )?;
    push_counter(
        out,
        b"hls_segments_removed_total",
        b"Segments that slid out of the live playlists.",
        removed_segments(snapshot),
    )?;
    Ok(())
}

/// Returns 1 if the live playlists are complete, else 0.
fn ended_number(snapshot: &Snapshot) -> u64
    ensures { result ≡ spec.number_of_bool (has_ended (line snapshot.now)) }
{
    u64::from(snapshot.line().ended())
}

/// Appends the metrics of the live playlists as a whole.
#[tactic(auto, unfolding(crate::specs::Metrics::list_metrics))]
fn push_list_metrics(out: &mut Vec<u8>, snapshot: &Snapshot) -> Result<(), AllocError>
    ensures { OnOk result (out.new.items ≡ out.old.items ++ spec.list_metrics snapshot.now) }
{
    push_gauge(
        out,
        b"hls_list_target_seconds",
        b"The target duration of the live playlists.",
        snapshot.config().target(),
    )?;
    push_gauge(
        out,
        b"hls_channel_ended",
        b"Whether all renditions are finished and the live playlists are complete.",
        ended_number(snapshot),
    )?;
    Ok(())
}

/// Appends the metrics of catch-up: the places and the jobs.
#[tactic(auto, unfolding(crate::specs::Metrics::catchup_metrics))]
fn push_catchup_metrics(
    out: &mut Vec<u8>,
    snapshot: &Snapshot,
    jobs: usize,
) -> Result<(), AllocError>
    ensures { OnOk result (out.new.items ≡ out.old.items ++ spec.catchup_metrics snapshot.now jobs) }
{
    push_gauge(
        out,
        b"hls_places",
        b"Kept places where a programme can be cut.",
        kept_place_count(snapshot),
    )?;
    push_gauge(
        out,
        b"hls_jobs",
        b"Catch-up jobs, in any phase.",
        jobs as u64,
    )?;
    Ok(())
}

/// Appends the metrics of a channel with `jobs` jobs.
#[tactic(auto, unfolding(crate::specs::Metrics::channel_metrics))]
pub(crate) fn push_channel_metrics(
    out: &mut Vec<u8>,
    snapshot: &Snapshot,
    jobs: usize,
) -> Result<(), AllocError>
    ensures { OnOk result (out.new.items ≡ out.old.items ++ spec.channel_metrics snapshot.now jobs) }
{
    push_log_metrics(out, snapshot)?;
    push_segment_metrics(out, snapshot)?;
    push_window_metrics(out, snapshot)?;
    push_list_metrics(out, snapshot)?;
    push_catchup_metrics(out, snapshot, jobs)?;
    Ok(())
}
