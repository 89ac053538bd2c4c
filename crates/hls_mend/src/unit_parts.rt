//! The parts of a unit with one track fragment (ISO/IEC 14496-12 8.8.4 to 8.8.8).

ghost use Rattle.std.specs.Prelude.{◌≡◌, option_map, IfOk};
ghost use Rattle.hls_mend_laws.specs.FragmentsRead.{traf_parts, moof_parts, with_moof, unit_parts};
ghost use Rattle.hls_mend.specs.Views.{front_view, traf_view, moof_view, unit_view};

use crate::box_splits::{only_box, split_box};
use crate::front::{Front, read_front};
use hls_boxes::kinds::{MDAT, MOOF};
use hls_boxes::numbers::u32_at;
use hls_media_laws::kinds::{TFDT, TFHD, TRAF, TRUN};
use std::alloc::{AllocError, Global};

/// Movie fragment header box (ISO/IEC 14496-12 8.8.5).
const MFHD: u32 = 0x6d666864;

/// The contents of the boxes of a `traf`.
#[derive(Clone, Copy)]
pub struct TrafParts<'a> {
    pub head: &'a [u8],
    pub time: &'a [u8],
    pub run: &'a [u8],
}

/// The sequence number of a `moof`, and the parts of its one `traf`.
#[derive(Clone, Copy)]
pub struct MoofParts<'a> {
    pub number: u32,
    pub traf: TrafParts<'a>,
}

/// The parts of a unit: the boxes before its `moof`, the `moof`, and the content of its `mdat`.
#[derive(Drop)]
pub struct UnitParts<'a> {
    pub front: Vec<u8>,
    pub moof: MoofParts<'a>,
    pub payload: &'a [u8],
}

/// The parts of the `traf` with this content, if it has exactly a `tfhd`, a `tfdt` and a `trun`, in this order.
#[tactic(auto, unfolding(hls_mend_laws::specs::FragmentsRead::traf_parts))]
fn split_traf(traf: &[u8]) -> Option<TrafParts<'_>>
    ensures { option_map traf_view result ≡ traf_parts traf.now }
{
    let head = split_box(TFHD, traf)?;
    let time = split_box(TFDT, head.rest)?;
    let run = only_box(TRUN, time.rest)?;
    Some(TrafParts {
        head: head.content,
        time: time.content,
        run,
    })
}

/// The parts of the `moof` with this content, if it has exactly an `mfhd` and a `traf`, in this order.
#[tactic(auto, unfolding(hls_mend_laws::specs::FragmentsRead::moof_parts))]
fn split_moof(moof: &[u8]) -> Option<MoofParts<'_>>
    ensures { option_map moof_view result ≡ moof_parts moof.now }
{
    let mfhd = split_box(MFHD, moof)?;
    let traf = split_traf(only_box(TRAF, mfhd.rest)?)?;
    if mfhd.content.len() < 8 {
        return None;
    }
    Some(MoofParts {
        number: u32_at(mfhd.content, 4),
        traf,
    })
}

/// The parts of a unit after the boxes before its `moof`.
fn split_after_front(front: Front<'_>) -> Option<UnitParts<'_>>
    ensures { option_map unit_view result ≡ with_moof (front_view front.entry) }
{
    let moof = split_box(MOOF, front.rest)?;
    let parts = split_moof(moof.content)?;
    let payload = only_box(MDAT, moof.rest)?;
    Some(UnitParts {
        front: front.kept,
        moof: parts,
        payload,
    })
}

/// The parts of a unit, if it has only boxes before its `moof`, the `moof`, and the `mdat`.
#[tactic(auto, unfolding(hls_mend_laws::specs::FragmentsRead::unit_parts))]
pub fn split_unit(alloc: Global, unit: &[u8]) -> Result<Option<UnitParts<'_>>, AllocError>
    ensures { IfOk result (λ o. option_map unit_view o ≡ unit_parts unit.now) }
{
    let Some(front) = read_front(alloc, unit)? else {
        return Ok(None);
    };
    Ok(split_after_front(front))
}
