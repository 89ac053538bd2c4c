//! The stored media of a rendition.

ghost use Rattle.std.specs.Prelude.{◌≡◌};
ghost use Rattle.hls_journal_log.specs.Checksum.{checksum_of};

use bytes::Bytes;
use hls_journal_log::checksum_of;

/// Consecutive bytes of a rendition's resource: its init section, followed by all units that were ever accepted.
#[derive(Drop)]
pub struct MediaPiece {
    /// The offset of the first byte.
    pub start: u64,
    pub bytes: Bytes,
    /// The checksum of both. Whoever makes the piece computes it, in a thread of its own for example.
    pub sum: u64,
    ghost summed: { sum ≡ checksum_of start bytes },
}

impl MediaPiece {
    /// Bytes at an offset, and their checksum.
    pub fn new(start: u64, bytes: Bytes) -> MediaPiece
        ensures start { result.start ≡ start }
        ensures bytes { result.bytes ≡ bytes }
    {
        let sum = checksum_of(start, &bytes);
        MediaPiece { start, bytes, sum }
    }
}

/// The stored media of a rendition, in the order of their offsets. Each unit is in one piece, which is freed with the last of its units.
#[derive(Drop)]
pub struct StoredMedia {
    pub pieces: Vec<MediaPiece>,
}
