//! Finds sync points.

ghost use Rattle.std.specs.Prelude.{◌≡◌, ◌↔◌, IsTrue, MatchOption};
ghost use Rattle.hls_journal_log.specs.SyncPoints.{IsSyncPoint, synced_in, HasSyncPointBeyond};

use crate::checksum::checksum_of;
use crate::write::SYNC_MARK;
use crate::{HEADER_LEN, SYNC_POINT_LEN};
use byteorder::{ByteOrder, LittleEndian};

/// Returns the synced length that the sync point at the start of a text names, if there is one.
fn read_sync_point(text: &[u8]) -> Option<u64>
    ensures { MatchOption result (IsSyncPoint text.now → ⊥) (λ synced. IsSyncPoint text.now × (synced ≡ synced_in text.now)) }
{
    if text.len() < HEADER_LEN + SYNC_POINT_LEN {
        return None;
    }
    if LittleEndian::read_u32(text) as usize != SYNC_POINT_LEN {
        return None;
    }
    if text[HEADER_LEN..20] != SYNC_MARK[..] {
        return None;
    }
    let number = LittleEndian::read_u64(&text[20..]);
    let sum = checksum_of(number, &text[HEADER_LEN..HEADER_LEN + SYNC_POINT_LEN]).to_le_bytes();
    if text[4..HEADER_LEN] != sum[..] {
        return None;
    }
    Some(LittleEndian::read_u64(&text[28..]))
}

/// Whether a sync point anywhere in a text names a byte after this place.
pub fn has_sync_point_beyond(text: &[u8], place: u64) -> bool
    ensures { IsTrue result ↔ HasSyncPointBeyond place text.now }
{
    let mut at = 0;
    'places: while at < text.len() {
        if let Some(synced) = read_sync_point(&text[at..])
            && place < synced
        {
            return true;
        }
        at += 1;
    }
    false
}
