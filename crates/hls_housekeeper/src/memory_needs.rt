//! How much memory a server needs by its settings, and the limits for its service.

ghost use Rattle.std.specs.Prelude.{◌≡◌, ◌≤◌, ◌^◌, ◌++◌, min, OnOk, IfOk};
ghost use Rattle.hls_housekeeper.specs.MemoryNeeds as spec;

use crate::memory::{bits_of, retained_us};
use crate::trim_backoff::backoff_ms;
use hls_core::snapshot::LOG_LIMIT;
use hls_settings::{Settings, ThreadSettings, WindowSettings};
use hls_text::push_number;
use std::alloc::{AllocError, Global};

/// The most bytes of a part.
const MOST: u64 = 1 << 56;

/// The least time that jobs hold media, in microseconds: an hour.
const HOUR_US: u64 = 3_600_000_000;

/// The bytes of incomplete units that a rendition may have: a large one of 64 MiB, and 16 MiB of small ones.
const INCOMPLETE: u64 = 83_886_080;

/// The entries from which a journal begins a new log, if at most half of them are kept.
const LONG_LOG: u64 = LOG_LIMIT / 16;

/// The seconds of twelve days, in milliseconds.
const DAYS_MS: u64 = 1_036_800_000;

/// The parts of a server's address space, in bytes.
#[derive(Clone, Copy, Drop)]
pub struct MemoryParts {
    /// The media that are kept.
    pub media: u64,
    /// The media that catch-up jobs hold beside them.
    pub jobs: u64,
    /// Incomplete units.
    pub arriving: u64,
    /// The log: of twelve days, or what a journal lets it have.
    pub log: u64,
    /// The stacks of the threads.
    pub threads: u64,
    pub connections: u64,
}

/// What a server may take, in bytes.
#[derive(Clone, Copy, Drop)]
pub struct MemoryNeeds {
    pub parts: MemoryParts,
    /// What the kernel may hold for the connections.
    pub sockets: u64,
    /// The parts, a quarter more, and the program itself.
    pub address_space: u64,
    /// The address space and the sockets.
    pub memory: u64,
}

/// Returns the number, or the most bytes of a part if that is less.
fn capped(bytes: u128) -> u64
    ensures value { result ≡ min bytes spec.most }
    ensures bound { result ≤ 2 ^ 56 }
{
    u64::try_from(bytes.min(u128::from(MOST))).unwrap_or(MOST)
}

/// Returns how many bytes a bit rate yields over a time in microseconds.
fn bytes_over(bits: u64, us: u128) -> u64
    requires bits { bits ≤ 2 ^ 48 }
    requires time { us ≤ 2 ^ 66 }
    ensures value { result ≡ spec.bytes_over bits us }
    ensures bound { result ≤ 2 ^ 56 }
{
    capped(u128::from(bits) * us / 8_000_000)
}

/// Returns how long jobs hold media, in microseconds.
fn held_us(timing: WindowSettings) -> u128
    requires { timing.target ≤ 3600 }
    ensures value { result ≡ spec.held_us timing }
    ensures bound { result ≤ 2 ^ 66 }
{
    retained_us(timing).max(u128::from(HOUR_US))
}

/// Returns how many entries the logs of a channel with a journal have at most: one that is long or of which most is kept, and the new one
/// that replaces it.
fn renewed_entries(renditions: u64, timing: WindowSettings) -> u64
    requires renditions { renditions ≤ 16 }
    requires target { timing.target ≤ 3600 }
    ensures value { result ≡ spec.renewed_entries renditions timing }
    ensures bound { result ≤ 4194304 }
{
    let kept = u128::from(renditions) * (retained_us(timing) / 2_000_000 + 2);
    let most = kept + (2 * kept).max(u128::from(LONG_LOG));
    u64::try_from(most.min(u128::from(LOG_LIMIT))).unwrap_or(LOG_LIMIT)
}

/// Returns how many entries the log gets in twelve days.
fn log_entries(renditions: u64, timing: WindowSettings) -> u64
    requires { renditions ≤ 16 }
    ensures value { result ≡ spec.log_entries renditions timing }
    ensures bound { result ≤ 4194304 }
{
    let trims = DAYS_MS / backoff_ms(timing.keep).max(2000);
    let slides = DAYS_MS * 1000 / timing.preferred.max(1);
    (renditions * 518_400 + (renditions * trims + slides)).min(LOG_LIMIT)
}

/// Returns how many entries the log has at most.
fn entries(renditions: u64, timing: WindowSettings, has_journal: bool) -> u64
    requires renditions { renditions ≤ 16 }
    requires target { timing.target ≤ 3600 }
    ensures value { result ≡ spec.entries_of has_journal renditions timing }
    ensures bound { result ≤ 4194304 }
{
    if has_journal {
        renewed_entries(renditions, timing)
    } else {
        log_entries(renditions, timing)
    }
}

/// Returns the parts: for a bit rate, a number of renditions, durations, threads, and whether there is a journal.
fn memory_parts(
    bits: u64,
    renditions: u64,
    timing: WindowSettings,
    workers: ThreadSettings,
    has_journal: bool,
) -> MemoryParts
    requires bits { bits ≤ 2 ^ 48 }
    requires renditions { renditions ≤ 16 }
    requires target { timing.target ≤ 3600 }
    ensures value { result ≡ spec.parts_of has_journal bits renditions timing workers }
    ensures bound { spec.sum_of result ≤ 2 ^ 59 }
{
    let threads = u128::from(workers.workers) + u128::from(workers.planners) + 2;
    MemoryParts {
        media: bytes_over(bits, retained_us(timing)),
        jobs: bytes_over(bits, held_us(timing)),
        arriving: INCOMPLETE * renditions,
        log: 400 * entries(renditions, timing, has_journal),
        threads: capped(8_388_608 * threads),
        connections: capped(1024 * u128::from(workers.connections)),
    }
}

/// Returns the needs with these parts.
fn needs_with(parts: MemoryParts, sockets: u64) -> MemoryNeeds
    requires parts { spec.sum_of parts ≤ 2 ^ 59 }
    requires sockets { sockets ≤ 2 ^ 56 }
    ensures { result ≡ spec.needs_with parts sockets }
{
    let process = parts.log + (parts.threads + parts.connections);
    let sum = parts.media + (parts.jobs + (parts.arriving + process));
    let address_space = 33_554_432 + (sum + sum / 4);
    MemoryNeeds {
        parts,
        sockets,
        address_space,
        memory: address_space + sockets,
    }
}

/// Returns what a server needs: for a bit rate, a number of renditions, durations, threads, and whether there is a journal.
pub fn memory_needs(
    bits: u64,
    renditions: u64,
    timing: WindowSettings,
    workers: ThreadSettings,
    has_journal: bool,
) -> MemoryNeeds
    requires bits { bits ≤ 2 ^ 48 }
    requires renditions { renditions ≤ 16 }
    requires target { timing.target ≤ 3600 }
    ensures { result ≡ spec.needs_of has_journal bits renditions timing workers }
{
    let sockets = capped(327_680 * u128::from(workers.connections));
    let parts = memory_parts(bits, renditions, timing, workers, has_journal);
    needs_with(parts, sockets)
}

/// Returns what the settings need, with or without a journal; `None` if the target duration is none that they can have.
pub fn settings_needs(settings: &Settings, has_journal: bool) -> Option<MemoryNeeds>
    ensures { result ≡ spec.needs_for has_journal settings.now.config.renditions settings.now.server.timing settings.now.server.workers }
{
    let server = settings.server;
    if server.timing.target > 3600 {
        return None;
    }
    let renditions = settings.config.renditions();
    Some(memory_needs(
        bits_of(renditions),
        (renditions.len() as u64).min(16),
        server.timing,
        server.workers,
        has_journal,
    ))
}

/// Appends a line with a part, in mebibytes.
#[tactic(auto, unfolding(crate::specs::MemoryNeeds::part_line))]
fn push_part_line(out: &mut Vec<u8>, name: &[u8], bytes: u64) -> Result<(), AllocError>
    ensures { OnOk result (out.new.items ≡ out.old.items ++ spec.part_line name.now bytes) }
{
    out.extend_from_slice(name)?;
    out.push(b' ')?;
    push_number(out, bytes / 1_048_576 + 1)?;
    out.push(b'\n')?;
    Ok(())
}

/// Appends a line with a limit, as systemd reads it.
#[tactic(auto, unfolding(crate::specs::MemoryNeeds::limit_line))]
fn push_limit_line(out: &mut Vec<u8>, name: &[u8], bytes: u64) -> Result<(), AllocError>
    ensures { OnOk result (out.new.items ≡ out.old.items ++ spec.limit_line name.now bytes) }
{
    out.extend_from_slice(name)?;
    out.push(b'=')?;
    push_number(out, bytes / 1_048_576 + 1)?;
    out.extend_from_slice(b"M\n")?;
    Ok(())
}

/// Appends the lines of media.
#[tactic(auto, unfolding(crate::specs::MemoryNeeds::media_lines))]
fn push_media_lines(out: &mut Vec<u8>, parts: &MemoryParts) -> Result<(), AllocError>
    ensures { OnOk result (out.new.items ≡ out.old.items ++ spec.media_lines parts.now) }
{
    push_part_line(out, b"media", parts.media)?;
    push_part_line(out, b"jobs", parts.jobs)?;
    push_part_line(out, b"arriving", parts.arriving)?;
    Ok(())
}

/// Appends the lines of what the process has beside media.
#[tactic(auto, unfolding(crate::specs::MemoryNeeds::process_lines))]
fn push_process_lines(out: &mut Vec<u8>, parts: &MemoryParts) -> Result<(), AllocError>
    ensures { OnOk result (out.new.items ≡ out.old.items ++ spec.process_lines parts.now) }
{
    push_part_line(out, b"log", parts.log)?;
    push_part_line(out, b"threads", parts.threads)?;
    push_part_line(out, b"connections", parts.connections)?;
    Ok(())
}

/// Appends the line of the sockets, and the limits for the service.
#[tactic(auto, unfolding(crate::specs::MemoryNeeds::limit_lines))]
fn push_limit_lines(out: &mut Vec<u8>, needs: &MemoryNeeds) -> Result<(), AllocError>
    ensures { OnOk result (out.new.items ≡ out.old.items ++ spec.limit_lines needs.now) }
{
    push_part_line(out, b"sockets", needs.sockets)?;
    push_limit_line(out, b"LimitAS", needs.address_space)?;
    push_limit_line(out, b"MemoryMax", needs.memory)?;
    Ok(())
}

/// Writes what is needed, part by part in mebibytes, and the limits for the service.
#[tactic(auto, unfolding(crate::specs::MemoryNeeds::needs_text))]
pub fn write_needs(alloc: Global, needs: &MemoryNeeds) -> Result<Vec<u8>, AllocError>
    ensures { IfOk result (λ text. text.items ≡ spec.needs_text needs.now) }
{
    let mut out = Vec::new(alloc);
    push_media_lines(&mut out, &needs.parts)?;
    push_process_lines(&mut out, &needs.parts)?;
    push_limit_lines(&mut out, needs)?;
    Ok(out)
}
