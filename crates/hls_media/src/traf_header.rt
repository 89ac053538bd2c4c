//! The headers and decode times of track fragments (ISO/IEC 14496-12 8.8.6).

ghost use Rattle.std.proofs.Common.{rules};
ghost use Rattle.std.specs.Prelude.{◌≡◌, ◌+◌, ◌^◌, ◌≤◌, length};
ghost use Rattle.hls_media.specs.RisesBy.{RisesBy};
ghost use Rattle.hls_media.specs.TrafHeaders.{header_step, finished_header, header_of_traf};

use crate::box_visitor::{BoxVisitor, visit_boxes};
use crate::tfdt::parse_tfdt;
use crate::tfhd::{Tfhd, parse_tfhd};
use hls_media_laws::kinds::{TFDT, TFHD};
use hls_time::Ticks;

/// The header of a track fragment, and its decode time if it has one.
#[derive(Clone, Copy)]
pub struct TrafHeader {
    pub head: Tfhd,
    pub time: Option<u64>,
}

/// What was found of a track fragment's header so far.
#[derive(Clone, Copy)]
pub struct PartialTrafHeader {
    pub head: Option<Tfhd>,
    pub time: Option<u64>,
}

/// The first visitor of a `traf`, which reads its header.
#[derive(Clone, Copy)]
pub struct TrafVisitor;

impl BoxVisitor for TrafVisitor {
    type Found = PartialTrafHeader;

    ghost step = { λ _ s kind content. header_step s kind content };

    ghost known = { λ _ _ _. Unit {0} };

    ghost fields = { 1 };

    fn visit_box(
        &self,
        state: PartialTrafHeader,
        kind: u32,
        content: &[u8],
        ticks: &mut Ticks,
    ) -> Option<PartialTrafHeader> {
        match kind {
            TFHD if state.head.is_none() => Some(PartialTrafHeader {
                head: Some(parse_tfhd(content, ticks)?),
                ..state
            }),
            TFDT if state.time.is_none() => Some(PartialTrafHeader {
                time: Some(parse_tfdt(content, ticks)?),
                ..state
            }),
            TFHD | TFDT => None,
            _ => Some(state),
        }
    }

    ghost stays_known = { λ _ _ _ _ _ known. known };

    ghost some = { Prim.search rules };
}

/// The header, if there was a `tfhd`.
fn finish_traf_header(state: PartialTrafHeader) -> Option<TrafHeader>
    ensures { result ≡ finished_header state }
{
    let head = state.head?;
    Some(TrafHeader {
        head,
        time: state.time,
    })
}

/// The header of the track fragment with this content, if it is valid. Runs are ignored.
pub fn parse_traf_header(content: &[u8], ticks: &mut Ticks) -> Option<TrafHeader>
    requires len { length content.now ≤ 2 ^ 26 }
    requires room { ticks.old + length content.now ≤ 2 ^ 62 + 2 ^ 60 }
    ensures value { result ≡ header_of_traf content.now }
    ensures counted { RisesBy (length content.now) ticks.old ticks.new }
{
    let nothing = PartialTrafHeader {
        head: None,
        time: None,
    };
    let partial = visit_boxes(&TrafVisitor, nothing, content, ticks)?;
    finish_traf_header(partial)
}
