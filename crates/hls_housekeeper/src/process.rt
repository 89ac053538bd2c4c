//! Measures the process: its memory, its files and its times, as the system reports them (proc(5)).

use crate::memory::{ROOM, find_word_after, read_text};
use hls_metrics::Measurements;
use hls_metrics::measurements::{load, store};
use hls_text::{MAX_DIGITS, parse_digits};
use hls_time::monotonic_ms;
use std::io::Read;
use std::rt::Files;
use std::time::{Clock, SystemTime};

/// The length of a tick of `/proc/self/stat`, in microseconds.
const TICK_US: u64 = 10_000;

/// The words after the program's name in `/proc/self/stat`: its time in user mode, its time in the kernel, and when it began, in ticks.
const USER_TIME: usize = 11;

const KERNEL_TIME: usize = 12;

const BEGIN_TIME: usize = 19;

/// The most reads of a folder's names: some 50000 files.
const MOST_READS: u64 = 64;

/// How many names of `/proc/self/fd` are of no file that was open before: the folder, its parent, and the handle that reads it.
const OTHER_NAMES: u64 = 3;

/// Returns the number in a word; 0 if there is none.
fn number_in(word: Option<&str>) -> u64 {
    match word {
        Some(word) => parse_digits(word.as_bytes(), MAX_DIGITS).unwrap_or(0),
        None => 0,
    }
}

/// Stores the memory that the process has.
fn measure_memory<R: Files>(rt: &R, measurements: &Measurements) {
    let mut room = [0; ROOM];
    if let Some(text) = read_text(rt, "/proc/self/status", &mut room) {
        let address_space = number_in(find_word_after(text, "VmSize:"));
        let resident = number_in(find_word_after(text, "VmRSS:"));
        store(
            &measurements.virtual_bytes,
            address_space.saturating_mul(1024),
        );
        store(&measurements.resident_bytes, resident.saturating_mul(1024));
    }
}

/// Stores the limits of the process.
fn measure_limits<R: Files>(rt: &R, measurements: &Measurements) {
    let mut room = [0; ROOM];
    if let Some(text) = read_text(rt, "/proc/self/limits", &mut room) {
        let address_space = number_in(find_word_after(text, "Max address space"));
        store(&measurements.max_virtual_bytes, address_space);
        store(
            &measurements.max_files,
            number_in(find_word_after(text, "Max open files")),
        );
    }
}

/// Counts the names, each ended by a zero byte, in a piece of a folder.
fn count_names(piece: Option<&[u8]>) -> u64 {
    match piece {
        Some(piece) => piece.iter().filter(|byte| **byte == 0).count() as u64,
        None => 0,
    }
}

/// Returns how many files and sockets the process has open.
fn count_open_files<R: Files>(rt: &R) -> u64 {
    let Ok(mut names) = rt.open_dir("/proc/self/fd") else {
        return 0;
    };
    let mut room = [0; ROOM];
    let mut count: u64 = 0;
    for _ in 0..MOST_READS {
        match names.read(&mut room) {
            Ok(len) if len > 0 => count = count.saturating_add(count_names(room.get(..len))),
            _ => break,
        }
    }
    count.saturating_sub(OTHER_NAMES)
}

/// Returns the microseconds since 1970-01-01T00:00:00Z; 0 if the clock can't be read.
fn unix_us<R: Clock>(rt: &R) -> u64 {
    let Ok(now) = SystemTime::now(rt) else {
        return 0;
    };
    match now.duration_since(SystemTime::UNIX_EPOCH) {
        Ok(passed) => passed
            .as_secs()
            .saturating_mul(1_000_000)
            .saturating_add(u64::from(passed.subsec_micros())),
        Err(_) => 0,
    }
}

/// Stores when the process began, once. `begun_us` counts from the start of the system, as the monotonic clock does.
fn measure_start<R: Clock>(rt: &R, measurements: &Measurements, begun_us: u64) {
    if load(&measurements.started_us) == 0 {
        let uptime_us = monotonic_ms(rt).saturating_mul(1000);
        let age_us = uptime_us.saturating_sub(begun_us);
        store(&measurements.started_us, unix_us(rt).saturating_sub(age_us));
    }
}

/// Stores the processor time of the process, and when it began.
fn measure_times<R: Files + Clock>(rt: &R, measurements: &Measurements) {
    let mut room = [0; ROOM];
    let Some(text) = read_text(rt, "/proc/self/stat", &mut room) else {
        return;
    };
    let Some((_, words)) = text.split_once(") ") else {
        return;
    };
    let user = number_in(words.split_whitespace().nth(USER_TIME));
    let kernel = number_in(words.split_whitespace().nth(KERNEL_TIME));
    let begun = number_in(words.split_whitespace().nth(BEGIN_TIME));
    store(
        &measurements.cpu_us,
        user.saturating_add(kernel).saturating_mul(TICK_US),
    );
    measure_start(rt, measurements, begun.saturating_mul(TICK_US));
}

/// Stores what the system reports of the process. A number that can't be read stays as it was.
pub fn measure_process<R: Files + Clock>(rt: &R, measurements: &Measurements) {
    measure_memory(rt, measurements);
    measure_limits(rt, measurements);
    measure_times(rt, measurements);
    store(&measurements.open_files, count_open_files(rt));
}
