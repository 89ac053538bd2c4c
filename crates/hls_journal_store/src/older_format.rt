//! Logs in an older format: their checksums are others, so none of their records can be read.

ghost use Rattle.std.specs.Prelude.{◌≡◌, IsTrue, MatchOption};
ghost use Rattle.hls_journal_store.specs.OlderFormats.{IsOlder, version_at_front};

use crate::fault::{OpenFault, StorePart, open_fault};
use byteorder::{ByteOrder, LittleEndian};
use bytes::Bytes;
use hls_journal::{CHANNEL, FORMAT_VERSION, JournalFault};
use hls_journal_log::{HEADER_LEN, ReadLog};
use sqlite_disk::Disk;

/// Where the format's version is in a log: after the first record's header and the kind of its body.
const VERSION_AT: usize = 13;

/// Where it ends.
const VERSION_END: usize = 15;

/// Returns the version of a log in an older format, whatever the first record's checksum is.
pub(crate) fn find_older_version(text: &[u8]) -> Option<u16>
    ensures { MatchOption result (IsOlder text.now → ⊥) (λ version. IsOlder text.now × (version ≡ version_at_front text.now)) }
{
    if text.len() < VERSION_END || text[HEADER_LEN] != CHANNEL {
        return None;
    }
    let version = LittleEndian::read_u16(&text[VERSION_AT..]);
    if version == 0 || FORMAT_VERSION <= version {
        return None;
    }
    Some(version)
}

/// Refuses a log in an older format, given its records and its first bytes.
pub(crate) fn check_text(bodies: &[Bytes], text: &[u8]) -> Result<(), OpenFault> {
    if !bodies.is_empty() {
        return Ok(());
    }
    match find_older_version(text) {
        Some(version) => Err(OpenFault::Channel(JournalFault::UnknownVersion { version })),
        None => Ok(()),
    }
}

/// Refuses a log in an older format, which was read on a disk.
pub(crate) fn check_format<D: Disk>(disk: &mut D, read: &ReadLog) -> Result<(), OpenFault>
    requires { IsTrue (D.is_usable disk.old) }
{
    if !read.content.bodies.is_empty() || read.dropped < VERSION_END {
        return Ok(());
    }
    let mut front = [0; VERSION_END];
    match disk.read_at(0, &mut front) {
        Ok(()) => check_text(&read.content.bodies, &front),
        Err(error) => Err(open_fault(StorePart::Log, error)),
    }
}
