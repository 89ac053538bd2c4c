//! Warns before the first connection if the settings keep more media than fits in memory.

ghost use Rattle.std.specs.Prelude.{◌≡◌, ◌≤◌, ◌^◌};
ghost use Rattle.hls_housekeeper.specs.Memory.{bits_of, media_bytes_needed, retained_us};

use crate::operator_log::OperatorLog;
use crate::trim_backoff::backoff_ms;
use hls_core_laws::rendition::Rendition;
use hls_settings::{Settings, WindowSettings};
use hls_text::{MAX_DIGITS, parse_digits};
use std::alloc::Global;
use std::io::{Eprint, Read};
use std::rt::Files;
use std::{fs, str};

/// Bytes per megabyte, as sizes are logged.
const MEGABYTE: u64 = 1_000_000;

/// The size of the buffer for one file of `/proc` or of a control group.
pub(crate) const ROOM: usize = 4096;

/// The greatest sum of bit rates, in bits per second.
const MOST_BITS: u64 = 1 << 48;

/// Returns how long media are kept, in microseconds: the kept time, the window or five target durations if that is less, two target
/// durations, and a backoff. The kept time holds the window; live playlists may reach further back, by their oldest segment.
pub(crate) fn retained_us(timing: WindowSettings) -> u128
    requires { timing.target ≤ 3600 }
    ensures value { result ≡ retained_us timing }
    ensures bound { result ≤ 2 ^ 66 }
{
    let before = timing.window.min(timing.target * 5_000_000);
    let ahead = timing.target * 2_000_000 + backoff_ms(timing.keep) * 1000;
    u128::from(timing.keep) + u128::from(before) + u128::from(ahead)
}

/// Returns how many bytes of media a bit rate yields over the time that media are kept.
fn media_bytes_needed(bits: u64, timing: WindowSettings) -> u64
    requires bits { bits ≤ 2 ^ 48 }
    requires target { timing.target ≤ 3600 }
    ensures { result ≡ media_bytes_needed bits timing }
{
    let bytes = u128::from(bits) * retained_us(timing) / 8_000_000;
    u64::try_from(bytes).unwrap_or(u64::MAX)
}

/// Returns the sum of the renditions' declared bit rates, in bits per second, capped at 2^48.
pub(crate) fn bits_of(renditions: &[Rendition]) -> u64
    ensures value { result ≡ bits_of renditions.now }
    ensures bound { result ≤ 2 ^ 48 }
{
    let mut bits = 0u64;
    for rendition in renditions {
        bits = bits.saturating_add(rendition.bandwidth).min(MOST_BITS);
    }
    bits
}

/// Reads the text of a file, as far as it fits in the buffer.
pub(crate) fn read_text<'b, R: Files>(rt: &R, path: &str, room: &'b mut [u8]) -> Option<&'b str> {
    let mut file = fs::open(rt, path).ok()?;
    let len = file.read(room).ok()?;
    str::from_utf8(room.get(..len)?).ok()
}

/// Returns the word after a label at the start of a line, up to the next blank.
pub(crate) fn find_word_after<'t>(text: &'t str, label: &str) -> Option<&'t str> {
    for line in text.lines() {
        if let Some(rest) = line.strip_prefix(label) {
            return rest.split_whitespace().next();
        }
    }
    None
}

/// Returns the number after a label in a file; `None` if there is no number.
fn read_number_at<R: Files>(rt: &R, path: &str, label: &str) -> Option<u64> {
    let mut room = [0; ROOM];
    let word = find_word_after(read_text(rt, path, &mut room)?, label)?;
    parse_digits(word.as_bytes(), MAX_DIGITS)
}

/// Returns the machine's memory, in bytes.
fn machine_memory<R: Files>(rt: &R) -> Option<u64> {
    Some(read_number_at(rt, "/proc/meminfo", "MemTotal:")?.saturating_mul(1024))
}

/// Returns the limit of the process's address space, in bytes; `None` if it is unlimited.
fn address_space<R: Files>(rt: &R) -> Option<u64> {
    read_number_at(rt, "/proc/self/limits", "Max address space")
}

/// Returns the memory limit of the process's control group, in bytes; `None` if it has no limit (cgroups(7), version 2).
fn group_memory<R: Files>(rt: &R, alloc: Global) -> Option<u64> {
    let mut room = [0; ROOM];
    let group = find_word_after(read_text(rt, "/proc/self/cgroup", &mut room)?, "0::")?;
    let path = format!(in alloc; "/sys/fs/cgroup{group}/memory.max").ok()?;
    read_number_at(rt, path.as_str(), "")
}

/// Logs that the settings need more memory than there is.
fn log_memory_needed<E: Eprint>(
    log: &OperatorLog<'_, E>,
    needed: u64,
    what: &str,
    given: Option<u64>,
) {
    let Some(given) = given else {
        return;
    };
    if needed <= given {
        return;
    }
    let (level, needed, given) = (log.warning_prefix(), needed / MEGABYTE, given / MEGABYTE);
    let _ = eprintln!(log.rt;
        "{level}serve: these renditions need {needed} MB for --keep and --window, and {what} {given} MB"
    );
}

/// Warns of settings that keep more media than fits in memory, as far as the system reports how much there is.
pub fn log_memory<R: Eprint + Files>(log: &OperatorLog<'_, R>, alloc: Global, settings: &Settings) {
    let rt = log.rt;
    let renditions = settings.config.renditions();
    let timing = settings.server.timing;
    if timing.target > 3600 {
        return;
    }
    let needed = media_bytes_needed(bits_of(renditions), timing);
    log_memory_needed(log, needed, "this machine has", machine_memory(rt));
    log_memory_needed(
        log,
        needed,
        "this process's address space is limited to",
        address_space(rt),
    );
    log_memory_needed(
        log,
        needed,
        "its control group has",
        group_memory(rt, alloc),
    );
}
