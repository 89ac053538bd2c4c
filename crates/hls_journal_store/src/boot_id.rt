//! The kernel's boot id: on the same boot nothing that was written is lost.

ghost use Rattle.std.specs.Prelude.{◌≡◌};
ghost use Rattle.hls_journal_store.specs.StartRecords.{is_same_boot};

use std::fs::{self, File};
use std::io::Read;
use std::rt::Files;

/// Where the kernel has it, as 32 hexadecimal digits and four dashes.
const BOOT_ID: &str = "/proc/sys/kernel/random/boot_id";

/// Returns the id of this boot; zeros if the kernel doesn't say.
pub(crate) fn read_boot_id<R: Files<File = File>>(rt: &R) -> [u8; 16] {
    let mut text = [0; 36];
    let Ok(mut file) = fs::open(rt, BOOT_ID) else {
        return [0; 16];
    };
    if file.read_exact(&mut text).is_err() {
        return [0; 16];
    }
    parse_boot_id(&text)
}

/// Whether two ids are of the same boot. Zeros are of no boot.
pub(crate) fn is_same_boot(a: &[u8; 16], b: &[u8; 16]) -> bool
    ensures { result ≡ is_same_boot a.now b.now }
{
    *a == *b && *a != [0; 16]
}

/// Returns the bytes of hexadecimal digits; other characters are passed over.
fn parse_boot_id(text: &[u8]) -> [u8; 16] {
    let mut id = [0u8; 16];
    let mut digits: usize = 0;
    for character in text {
        if let Some(value) = (*character as char).to_digit(16) {
            if let Some(byte) = id.get_mut(digits / 2) {
                *byte = byte.wrapping_mul(16).wrapping_add(value as u8);
            }
            digits = digits.saturating_add(1);
        }
    }
    id
}
