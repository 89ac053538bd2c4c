//! Generates the name of a run.

use std::fs;
use std::io::Read;
use std::rt::Files;
use std::time::{Clock, SystemTime};

/// The letters and digits of a generated name: five bits each.
const LETTERS: [u8; 32] = *b"abcdefghijklmnopqrstuvwxyz234567";

/// Returns the letter of the lowest five bits.
fn letter(bits: u64) -> u8 {
    LETTERS[(bits % 32) as usize]
}

/// Reads random bytes of the system; `None` if it has none.
fn read_random<R: Files>(rt: &R) -> Option<[u8; 16]> {
    let mut bytes = [0; 16];
    let Ok(mut source) = fs::open(rt, "/dev/urandom") else {
        return None;
    };
    match source.read(&mut bytes) {
        Ok(16) => Some(bytes),
        _ => None,
    }
}

/// Returns nanoseconds since 1970 by the clock of the system; 0 if it can't be read.
pub fn read_clock<R: Clock>(rt: &R) -> u64 {
    let Ok(now) = SystemTime::now(rt) else {
        return 0;
    };
    match now.duration_since(SystemTime::UNIX_EPOCH) {
        Ok(passed) => passed
            .as_secs()
            .wrapping_mul(1_000_000_000)
            .wrapping_add(u64::from(passed.subsec_nanos())),
        Err(_) => 0,
    }
}

/// Generates the name of a run that no other process has: 16 letters and digits, 80 random bits. Without random bytes it is the time
/// of the clock, in nanoseconds.
pub fn generate_run<R: Files + Clock>(rt: &R) -> [u8; 16] {
    let mut run = [b'a'; 16];
    match read_random(rt) {
        Some(bytes) => {
            for (place, byte) in run.iter_mut().zip(bytes.iter()) {
                *place = letter(u64::from(*byte));
            }
        }
        None => {
            let mut rest = read_clock(rt);
            for place in run.iter_mut() {
                *place = letter(rest);
                rest /= 32;
            }
        }
    }
    run
}
