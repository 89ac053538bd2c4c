//! The effect of the next box of a stream.

ghost use Rattle.std.specs.Prelude.{◌≡◌, ◌-◌, length};
ghost use Rattle.hls_boxes.specs.Boxes.{header_at};
ghost use Rattle.hls_boxes.specs.Parts.{fault_of, effect_at};
ghost use Rattle.hls_boxes.specs.Feed.{needed_len};

use crate::box_effect::BoxEffect;
use crate::box_header::BoxHeader;
use crate::fault::BoxFault;
use crate::kinds::{INIT_LIMIT, MDAT, MOOF, MOOV, UNIT_LIMIT};

/// The first fault of a box with this header, in a part with `before` bytes before the box.
fn find_fault(header: BoxHeader, before: usize, has_moof: bool) -> Option<BoxFault>
    ensures { result ≡ fault_of header before has_moof }
{
    let BoxHeader { kind, head, size } = header;
    if size == 0 && head == 8 {
        return Some(BoxFault::OpenEnded);
    }
    if size < head {
        return Some(BoxFault::BadSize);
    }
    if kind == MDAT && !has_moof {
        return Some(BoxFault::MdatAlone);
    }
    if (kind == MOOF || kind == MOOV) && has_moof {
        return Some(BoxFault::MoofWithoutMdat);
    }
    let limit = if kind == MOOV { INIT_LIMIT } else { UNIT_LIMIT };
    if size > limit || before as u64 > limit - size {
        return Some(BoxFault::TooLarge);
    }
    None
}

/// The effect of the box at the start of the bytes, in a part with `before` bytes before it.
#[tactic(auto, unfolding(crate::specs::Parts::effect_at))]
pub(crate) fn read_box_effect(bytes: &[u8], before: usize, has_moof: bool) -> BoxEffect
    ensures { result ≡ effect_at bytes.now before has_moof }
{
    let Some(header) = BoxHeader::read(bytes) else {
        return BoxEffect::Incomplete;
    };
    if let Some(fault) = find_fault(header, before, has_moof) {
        return BoxEffect::Fault(fault);
    }
    if header.size > bytes.len() as u64 {
        return BoxEffect::Incomplete;
    }
    let size = header.size as usize;
    if header.kind == MOOV || header.kind == MDAT {
        return BoxEffect::Ends {
            kind: header.kind,
            size,
        };
    }
    BoxEffect::Continues {
        has_moof: has_moof || header.kind == MOOF,
        size,
    }
}

/// The number of bytes that the box at the start of the bytes still lacks, or that its header lacks, if that is incomplete.
pub(crate) fn count_missing_bytes(bytes: &[u8]) -> usize
    ensures { result ≡ needed_len (header_at bytes.now) (length bytes.now) - length bytes.now }
{
    let len = bytes.len();
    let needed = match BoxHeader::read(bytes) {
        Some(header) => header.size as usize,
        None if len < 8 => 8,
        None => 16,
    };
    needed.saturating_sub(len)
}
