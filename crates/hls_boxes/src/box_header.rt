//! The header of a box.

ghost use Rattle.std.specs.Prelude.{◌≡◌, ◌≤◌, IfSome};
ghost use Rattle.hls_boxes.specs.Boxes.{header_at};

use crate::numbers::{u32_at, u64_at};

/// The header of a box (ISO/IEC 14496-12 4.2.2), as written: its numbers aren't validated.
#[derive(Clone, Copy)]
pub struct BoxHeader {
    /// The four letters of the type, as a big-endian number.
    pub kind: u32,
    /// The length of the header in bytes: 8, or 16 if the size is a 64-bit number.
    pub head: u64,
    /// The length of the whole box in bytes, including its header, as the header says.
    pub size: u64,
}

impl BoxHeader {
    /// The header at the start of the bytes. None if not all of its 8 or 16 bytes are there.
    #[inline]
    #[tactic(auto, unfolding(crate::specs::Boxes::header_at))]
    pub fn read(bytes: &[u8]) -> Option<BoxHeader>
        ensures value { result ≡ header_at bytes.now }
        ensures head { IfSome result (λ h. 8 ≤ h.head) }
    {
        if bytes.len() < 8 {
            return None;
        }
        let kind = u32_at(bytes, 4);
        let size = u32_at(bytes, 0);
        if size != 1 {
            return Some(BoxHeader {
                kind,
                head: 8,
                size: u64::from(size),
            });
        }
        if bytes.len() < 16 {
            return None;
        }
        Some(BoxHeader {
            kind,
            head: 16,
            size: u64_at(bytes, 8),
        })
    }
}
