//! The head of a unit.

ghost use Rattle.std.specs.Prelude.{◌≡◌, ◌-◌, ◌≤◌, length, take, MatchOption};
ghost use Rattle.hls_journal_laws.specs.Heads.{IsHead};
ghost use Rattle.hls_journal.specs.Heads.{HasNoHead};

use hls_boxes::box_header::BoxHeader;
use hls_boxes::kinds::MDAT;

/// Returns the length of a unit's head: its bytes before the content of its last box, an `mdat`. None if the bytes aren't such boxes.
pub fn find_head_len(unit: &[u8]) -> Option<usize>
    ensures { MatchOption result (HasNoHead unit.now) (λ len. (len ≤ length unit.now) × IsHead (take len unit.now) (length unit.now - len)) }
{
    let mut at = 0;
    'boxes: while at < unit.len() {
        let rest = &unit[at..];
        let Some(header) = BoxHeader::read(rest) else {
            return None;
        };
        if header.size < header.head || (rest.len() as u64) < header.size {
            return None;
        }
        if header.kind == MDAT && header.size == rest.len() as u64 {
            return Some(at + header.head as usize);
        }
        at += header.size as usize;
    }
    None
}
