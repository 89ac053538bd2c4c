//! The boxes before the `moof` of a unit.

ghost use Rattle.std.specs.Prelude.{◌≡◌, option_map, IfOk};
ghost use Rattle.hls_mend_laws.specs.FragmentsRead.{front_of};
ghost use Rattle.hls_mend.specs.Views.{front_view};

use crate::box_splits::read_whole_header;
use hls_boxes::kinds::{MDAT, MOOF, MOOV};
use std::alloc::{AllocError, Global};

/// Segment index box (ISO/IEC 14496-12 8.16.3).
const SIDX: u32 = 0x73696478;

/// The boxes before the `moof` except `sidx`, and the bytes from the `moof` on.
#[derive(Drop)]
pub struct Front<'a> {
    pub kept: Vec<u8>,
    pub rest: &'a [u8],
}

/// Reads the boxes up to the `moof`. A `sidx` is left out, since its sizes and times are those of the unit as it was sent.
pub fn read_front(alloc: Global, unit: &[u8]) -> Result<Option<Front<'_>>, AllocError>
    ensures { IfOk result (λ o. option_map front_view o ≡ front_of unit.now) }
{
    let mut kept = Vec::new(alloc);
    let mut rest = unit;
    'boxes: while !rest.is_empty() {
        let Some(header) = read_whole_header(rest) else {
            return Ok(None);
        };
        let size = header.size as usize;
        match header.kind {
            MOOF => return Ok(Some(Front { kept, rest })),
            MOOV => return Ok(None),
            MDAT => return Ok(None),
            SIDX => rest = &rest[size..],
            _ => {
                kept.extend_from_slice(&rest[..size])?;
                rest = &rest[size..];
            }
        }
    }
    Ok(None)
}
