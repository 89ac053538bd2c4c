//! Media boxes and track boxes (ISO/IEC 14496-12 8.3.1, 8.4.1). The first box of each type counts.

ghost use Rattle.std.proofs.Common.{rules};
ghost use Rattle.std.specs.Prelude.{◌≡◌, ◌+◌, ◌^◌, ◌≤◌, length, IfSome};
ghost use Rattle.hls_media_laws.specs.Inits.{media_of as media_by_lists, track_at as track_by_lists};
ghost use Rattle.hls_media.specs.RisesBy.{RisesBy};
ghost use Rattle.hls_media.specs.FirstBoxes.{media_step, whole_media, media_weight, track_step, whole_track, track_weight};
ghost use Rattle.hls_media.specs.DurationBounds.{le-more};

use crate::box_fields::{read_handler, read_versioned_field};
use crate::box_visitor::{BoxVisitor, visit_boxes};
use hls_media_laws::kinds::{HDLR, MDHD, MDIA, TKHD};
use hls_media_laws::track::{Mdia, Track};
use hls_time::Ticks;

/// The timescale and the handler found in an `mdia` so far.
type PartialMdia = (Option<u32>, Option<u32>);

/// The number and the media found in a `trak` so far.
type PartialTrak = (Option<u32>, Option<Mdia>);

/// The visitor of an `mdia`, which reads its timescale and its handler.
#[derive(Clone, Copy)]
pub struct MdiaVisitor;

impl BoxVisitor for MdiaVisitor {
    type Found = PartialMdia;

    ghost step = { λ _ s kind content. media_step s kind content };

    ghost known = { λ _ n s. media_weight s ≤ n };

    ghost fields = { 1 };

    fn visit_box(
        &self,
        state: PartialMdia,
        kind: u32,
        content: &[u8],
        ticks: &mut Ticks,
    ) -> Option<PartialMdia> {
        let (scale, handler) = state;
        match kind {
            MDHD if scale.is_none() => Some((Some(read_versioned_field(content)?), handler)),
            HDLR if handler.is_none() => Some((scale, Some(read_handler(content)?))),
            _ => Some(state),
        }
    }

    ghost stays_known = { λ _ n m s. le-more n m (media_weight s) };

    ghost some = { Prim.search rules };
}

/// The media, if nothing is missing.
fn finish_mdia(state: PartialMdia) -> Option<Mdia>
    ensures value { result ≡ whole_media state }
    ensures least { IfSome result (λ _. 44 ≤ media_weight state) }
{
    let scale = state.0?;
    let handler = state.1?;
    Some(Mdia { scale, handler })
}

/// The timescale and the handler of the `mdia` with this content, if its relevant boxes are valid.
fn parse_mdia(content: &[u8], ticks: &mut Ticks) -> Option<Mdia>
    requires len { length content.now ≤ 2 ^ 26 }
    requires room { ticks.old + length content.now ≤ 2 ^ 62 + 2 ^ 60 }
    ensures value { result ≡ media_by_lists content.now }
    ensures least { IfSome result (λ _. 44 ≤ length content.now) }
    ensures counted { RisesBy (length content.now) ticks.old ticks.new }
{
    let found = visit_boxes(&MdiaVisitor, (None, None), content, ticks)?;
    finish_mdia(found)
}

/// The visitor of a `trak`, which reads its track number and its media.
#[derive(Clone, Copy)]
pub struct TrakVisitor;

impl BoxVisitor for TrakVisitor {
    type Found = PartialTrak;

    ghost step = { λ _ s kind content. track_step s kind content };

    ghost known = { λ _ n s. track_weight s ≤ n };

    ghost fields = { 1 };

    fn visit_box(
        &self,
        state: PartialTrak,
        kind: u32,
        content: &[u8],
        ticks: &mut Ticks,
    ) -> Option<PartialTrak> {
        let (id, media) = state;
        match kind {
            TKHD if id.is_none() => Some((Some(read_versioned_field(content)?), media)),
            MDIA if media.is_none() => Some((id, Some(parse_mdia(content, ticks)?))),
            _ => Some(state),
        }
    }

    ghost stays_known = { λ _ n m s. le-more n m (track_weight s) };

    ghost some = { Prim.search rules };
}

/// The track of these parts, still without defaults, if none is missing.
fn finish_trak(state: PartialTrak) -> Option<Track>
    ensures value { result ≡ whole_track state }
    ensures least { IfSome result (λ _. 76 ≤ track_weight state) }
{
    let id = state.0?;
    let media = state.1?;
    Some(Track {
        id,
        scale: media.scale,
        handler: media.handler,
        defaults: None,
    })
}

/// The track of the `trak` with this content, still without defaults, if its relevant boxes are valid.
///
/// The number of fields read in an init section isn't reported: it goes to a counter that is dropped.
pub fn parse_trak(content: &[u8]) -> Option<Track>
    requires { length content.now ≤ 2 ^ 20 }
    ensures value { result ≡ track_by_lists content.now }
    ensures least { IfSome result (λ _. 76 ≤ length content.now) }
{
    let found = visit_boxes(&TrakVisitor, (None, None), content, &mut Ticks::new())?;
    finish_trak(found)
}
