//! Reads video sample entries (ISO/IEC 14496-12 12.1).

ghost use Rattle.std.specs.Prelude.{◌+◌, ◌≡◌, ◌≤◌, length, option_map, option_and_then};
ghost use Rattle.hls_codecs.specs.Boxes.{box_in};
ghost use Rattle.hls_codecs.specs.Codecs.{half_at};
ghost use Rattle.hls_codecs.specs.Kinds.{colr_type};
ghost use Rattle.hls_codecs.specs.Tracks.{displayed_width, width_with, is_turned, size_from, display_size, colours_in, entry_colours, range_of_transfer, range_with, avc_entry, hevc_entry, av1_entry, vp9_entry, video_entry};

use crate::boxes::{byte_or_zero, find_box};
use crate::codec::{Codec, Colours, ParameterSets, USUAL_COLOURS};
use crate::configs::{read_av1, read_avc, read_hevc, read_vp9};
use crate::kinds::{
    AV01, AV1C, AVC1, AVC3, AVCC, COLR, HEV1, HVC1, HVCC, NCLC, NCLX, PASP, VP09, VPCC,
};
use crate::track_format::{DisplaySize, VideoRange};
use hls_boxes::numbers::u32_at;

/// The codec and the dynamic range of a video entry.
#[derive(Clone, Copy)]
pub struct VideoEntry {
    pub codec: Codec,
    pub range: Option<VideoRange>,
}

/// The number in the two bytes at `at`.
pub fn u16_at(bytes: &[u8], at: usize) -> u16
    requires { at + 2 ≤ length bytes.now }
    ensures { result ≡ half_at at bytes.now }
{
    u16::from(bytes[at]) * 256 + u16::from(bytes[at + 1])
}

/// The width in square pixels.
#[tactic(auto, unfolding(crate::specs::Tracks::displayed_width))]
fn displayed_width(width: u16, h: u32, v: u32) -> u32
    ensures { result ≡ displayed_width width h v }
{
    if h == 0 || v == 0 {
        return u32::from(width);
    }
    let square = (2 * u64::from(width) * u64::from(h) + u64::from(v)) / (2 * u64::from(v));
    if square == 0 || square >= 65536 {
        return u32::from(width);
    }
    square as u32
}

#[tactic(auto, unfolding(crate::specs::Tracks::width_with))]
fn width_with(width: u16, pasp: Option<&[u8]>) -> u32
    ensures { result ≡ width_with width (option_map (λ box. box.now) pasp.entry) }
{
    let Some(pasp) = pasp else {
        return u32::from(width);
    };
    if pasp.len() < 8 {
        return u32::from(width);
    }
    displayed_width(width, u32_at(pasp, 0), u32_at(pasp, 4))
}

/// Whether a `tkhd` box turns the picture by a quarter.
#[tactic(auto, unfolding(crate::specs::Tracks::is_turned))]
pub fn is_turned(tkhd: Option<&[u8]>) -> bool
    ensures { result ≡ is_turned (option_map (λ box. box.now) tkhd.entry) }
{
    let Some(tkhd) = tkhd else {
        return false;
    };
    if tkhd.len() < 60 {
        return false;
    }
    let at = if tkhd[0] == 1 { 52 } else { 40 };
    if tkhd.len() < at + 20 {
        return false;
    }
    u32_at(tkhd, at) == 0
        && u32_at(tkhd, at + 16) == 0
        && u32_at(tkhd, at + 4) != 0
        && u32_at(tkhd, at + 12) != 0
}

fn size_from(turned: bool, width: u32, height: u32) -> DisplaySize
    ensures { result ≡ size_from turned width height }
{
    if turned {
        return DisplaySize {
            width: height,
            height: width,
        };
    }
    DisplaySize { width, height }
}

/// The displayed size of the picture of an entry, with the boxes in it.
#[tactic(auto, unfolding(crate::specs::Tracks::display_size))]
pub fn display_size(turned: bool, entry: &[u8], boxes: &[u8]) -> Option<DisplaySize>
    requires { 78 ≤ length entry.now }
    ensures { result ≡ display_size turned entry.now boxes.now }
{
    let width = u16_at(entry, 24);
    let height = u16_at(entry, 26);
    if width == 0 || height == 0 {
        return None;
    }
    let square = width_with(width, find_box(boxes, PASP, 0));
    Some(size_from(turned, square, u32::from(height)))
}

fn colours_at(colr: &[u8], full_range: bool) -> Colours
    requires { 10 ≤ length colr.now }
    ensures { result ≡ record { primaries = half_at 4 colr.now; transfer = half_at 6 colr.now; matrix = half_at 8 colr.now; full_range = full_range } }
{
    Colours {
        primaries: u16_at(colr, 4),
        transfer: u16_at(colr, 6),
        matrix: u16_at(colr, 8),
        full_range,
    }
}

/// Reads the content of a `colr` box.
#[tactic(auto, unfolding(crate::specs::Tracks::colours_in))]
fn read_colours(colr: &[u8]) -> Option<Colours>
    ensures { result ≡ colours_in colr.now }
{
    if colr.len() < 10 {
        return None;
    }
    let kind = u32_at(colr, 0);
    if kind == NCLC {
        return Some(colours_at(colr, false));
    }
    if kind != NCLX || colr.len() < 11 {
        return None;
    }
    Some(colours_at(colr, colr[10] / 128 == 1))
}

/// Reads box `n` of the colours.
fn read_colours_of_box(boxes: &[u8], n: usize) -> Option<Colours>
    ensures { result ≡ option_and_then colours_in (box_in colr_type n boxes.now) }
{
    let Some(colr) = find_box(boxes, COLR, n) else {
        return None;
    };
    read_colours(colr)
}

/// The colours of an entry, from the boxes in it.
#[tactic(auto, unfolding(crate::specs::Tracks::entry_colours))]
fn entry_colours(boxes: &[u8]) -> Option<Colours>
    ensures { result ≡ entry_colours boxes.now }
{
    read_colours_of_box(boxes, 0).or(read_colours_of_box(boxes, 1))
}

fn range_of_transfer(transfer: u16) -> VideoRange
    ensures { result ≡ range_of_transfer transfer }
{
    match transfer {
        16 => VideoRange::Pq,
        18 => VideoRange::Hlg,
        _ => VideoRange::Sdr,
    }
}

fn range_with(deep: bool, colours: Option<Colours>) -> Option<VideoRange>
    ensures { result ≡ range_with deep colours }
{
    match colours {
        Some(colours) => Some(range_of_transfer(colours.transfer)),
        None if deep => None,
        None => Some(VideoRange::Sdr),
    }
}

#[tactic(auto, unfolding(crate::specs::Tracks::avc_entry))]
fn read_avc_entry(sets: ParameterSets, boxes: &[u8]) -> Option<VideoEntry>
    ensures { result ≡ avc_entry sets boxes.now }
{
    let Some(content) = find_box(boxes, AVCC, 0) else {
        return None;
    };
    let config = read_avc(sets, content)?;
    Some(VideoEntry {
        codec: Codec::Avc(config),
        range: range_with(false, entry_colours(boxes)),
    })
}

#[tactic(auto, unfolding(crate::specs::Tracks::hevc_entry))]
fn read_hevc_entry(sets: ParameterSets, boxes: &[u8]) -> Option<VideoEntry>
    ensures { result ≡ hevc_entry sets boxes.now }
{
    let Some(content) = find_box(boxes, HVCC, 0) else {
        return None;
    };
    let config = read_hevc(sets, content)?;
    let deep = byte_or_zero(content, 17) % 8 != 0;
    Some(VideoEntry {
        codec: Codec::Hevc(config),
        range: range_with(deep, entry_colours(boxes)),
    })
}

#[tactic(auto, unfolding(crate::specs::Tracks::av1_entry))]
fn read_av1_entry(boxes: &[u8]) -> Option<VideoEntry>
    ensures { result ≡ av1_entry boxes.now }
{
    let colours = entry_colours(boxes);
    let Some(content) = find_box(boxes, AV1C, 0) else {
        return None;
    };
    let config = read_av1(colours.unwrap_or(USUAL_COLOURS), content)?;
    Some(VideoEntry {
        codec: Codec::Av1(config),
        range: range_with(config.depth != 8, colours),
    })
}

#[tactic(auto, unfolding(crate::specs::Tracks::vp9_entry))]
fn read_vp9_entry(boxes: &[u8]) -> Option<VideoEntry>
    ensures { result ≡ vp9_entry boxes.now }
{
    let Some(content) = find_box(boxes, VPCC, 0) else {
        return None;
    };
    let config = read_vp9(content)?;
    let colours = entry_colours(boxes).unwrap_or(config.colours);
    Some(VideoEntry {
        codec: Codec::Vp9(config),
        range: Some(range_of_transfer(colours.transfer)),
    })
}

/// The codec and the range of a video entry of a format, from the boxes in it.
#[tactic(auto, unfolding(crate::specs::Tracks::video_entry))]
pub fn read_video_entry(format: u32, boxes: &[u8]) -> Option<VideoEntry>
    ensures { result ≡ video_entry format boxes.now }
{
    match format {
        AVC1 => read_avc_entry(ParameterSets::OutOfBand, boxes),
        AVC3 => read_avc_entry(ParameterSets::InBand, boxes),
        HVC1 => read_hevc_entry(ParameterSets::OutOfBand, boxes),
        HEV1 => read_hevc_entry(ParameterSets::InBand, boxes),
        AV01 => read_av1_entry(boxes),
        VP09 => read_vp9_entry(boxes),
        _ => None,
    }
}
