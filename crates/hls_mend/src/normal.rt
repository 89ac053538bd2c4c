//! The normal form of an init section.

ghost use Rattle.std.specs.Prelude.{◌≡◌, ◌++◌, is_some, length, take, drop, IfOk, IfSome, OnOk};
ghost use Rattle.hls_boxes.specs.Boxes.{box_at, child_of, children, IsWithin};
ghost use Rattle.hls_mend.specs.InitSections.{entry, plain_fields, fields_before, normal_boxes, normal_init, normal_box, normal_content, is_same_to_decoders as are_same_to_decoders};

use crate::blank::{push_blank, push_without_rates, times_len};
use crate::box_splits::read_whole_header;
use crate::kinds::{ESDS, HDLR, boxes_at, has_times, is_ignored, is_visual};
use hls_boxes::box_header::BoxHeader;
use std::alloc::{AllocError, Global};

/// The depth to which boxes within boxes are normalized.
const DEPTH: u32 = 8;

/// Whether boxes fill the content.
fn are_boxes(content: &[u8]) -> bool
    ensures { result ≡ is_some (children content.now) }
{
    let mut rest = content;
    'boxes: while !rest.is_empty() {
        let Some(header) = read_whole_header(rest) else {
            return false;
        };
        rest = &rest[header.size as usize..];
    }
    true
}

/// The first bytes, or all if there are fewer.
fn take_first(content: &[u8], count: usize) -> &[u8]
    ensures { result.now ≡ take count content.now }
{
    if content.len() < count {
        content
    } else {
        &content[..count]
    }
}

/// The bytes after the first ones.
fn skip_first(content: &[u8], count: usize) -> &[u8]
    ensures { result.now ≡ drop count content.now }
{
    if content.len() < count {
        &[]
    } else {
        &content[count..]
    }
}

/// Appends the fields of a box without boxes in it.
fn push_plain_fields(out: &mut Vec<u8>, kind: u32, content: &[u8]) -> Result<(), AllocError>
    ensures { OnOk result (out.new.items ≡ out.old.items ++ plain_fields kind content.now) }
{
    if has_times(kind) {
        return push_blank(out, 4, times_len(content), content);
    }
    if kind == ESDS {
        return push_without_rates(out, content);
    }
    let compared = if kind == HDLR {
        take_first(content, 24)
    } else {
        content
    };
    out.extend_from_slice(compared)?;
    Ok(())
}

/// Appends the fields before the boxes in a box.
fn push_fields_before(
    out: &mut Vec<u8>,
    kind: u32,
    at: usize,
    content: &[u8],
) -> Result<(), AllocError>
    ensures { OnOk result (out.new.items ≡ out.old.items ++ fields_before kind at content.now) }
{
    let fields = take_first(content, at);
    if is_visual(kind) {
        return push_blank(out, 42, 32, fields);
    }
    out.extend_from_slice(fields)?;
    Ok(())
}

/// Appends a type, a length and a content.
fn push_entry(out: &mut Vec<u8>, kind: u32, content: &[u8]) -> Result<(), AllocError>
    ensures { OnOk result (out.new.items ≡ out.old.items ++ entry kind content.now) }
{
    out.extend_from_slice(&kind.to_be_bytes())?;
    out.extend_from_slice(&(content.len() as u64).to_be_bytes())?;
    out.extend_from_slice(content)?;
    Ok(())
}

/// Appends the normal form of the content of a box; boxes in it are normalized to the given depth.
#[cycle(normal)]
fn push_content(
    alloc: Global,
    out: &mut Vec<u8>,
    kind: u32,
    content: &[u8],
    depth: u32,
) -> Result<(), AllocError>
    ensures { OnOk result (out.new.items ≡ out.old.items ++ normal_content (normal_boxes depth) kind content.now) }
{
    let Some(at) = boxes_at(kind) else {
        return push_plain_fields(out, kind, content);
    };
    push_fields_before(out, kind, at, content)?;
    push_boxes(alloc, out, skip_first(content, at), depth)
}

/// Appends the normal form of the box at the start of the bytes; boxes in it are normalized to the given depth.
#[cycle(normal)]
fn push_box(
    alloc: Global,
    out: &mut Vec<u8>,
    header: BoxHeader,
    bytes: &[u8],
    depth: u32,
) -> Result<(), AllocError>
    requires { IsWithin (length bytes.now) header }
    ensures { OnOk result (out.new.items ≡ out.old.items ++ normal_box (normal_boxes depth) (child_of header bytes.now)) }
{
    if is_ignored(header.kind) {
        return Ok(());
    }
    let mut inside = Vec::new(alloc);
    let content = &bytes[header.head as usize..header.size as usize];
    push_content(alloc, &mut inside, header.kind, content, depth)?;
    push_entry(out, header.kind, &inside)
}

/// Appends the normal form of boxes within boxes, to the given depth.
#[cycle(normal)]
fn push_boxes(
    alloc: Global,
    out: &mut Vec<u8>,
    content: &[u8],
    depth: u32,
) -> Result<(), AllocError>
    ensures { OnOk result (out.new.items ≡ out.old.items ++ normal_boxes depth content.now) }
{
    if depth == 0 {
        return out.extend_from_slice(content);
    }
    if !are_boxes(content) {
        return out.extend_from_slice(content);
    }
    let mut rest = content;
    'boxes: while !rest.is_empty() {
        let Some(header) = read_whole_header(rest) else {
            return Ok(());
        };
        push_box(alloc, out, header, rest, depth - 1)?;
        rest = &rest[header.size as usize..];
    }
    Ok(())
}

/// The normal form of an init section.
fn make_normal_init(alloc: Global, bytes: &[u8]) -> Result<Vec<u8>, AllocError>
    ensures { IfOk result (λ v. v.items ≡ normal_init bytes.now) }
{
    let mut out = Vec::new(alloc);
    push_boxes(alloc, &mut out, bytes, DEPTH)?;
    Ok(out)
}

/// Whether two init sections are the same to every decoder: equal except for bit rates and buffer sizes, creation and modification times,
/// compressor and handler names, and `btrt`, `udta` and `meta` boxes.
#[tactic(auto, unfolding(crate::specs::InitSections::is_same_to_decoders))]
pub fn is_same_to_decoders(alloc: Global, a: &[u8], b: &[u8]) -> Result<bool, AllocError>
    ensures { IfOk result (λ same. same ≡ are_same_to_decoders a.now b.now) }
{
    let a = make_normal_init(alloc, a)?;
    let b = make_normal_init(alloc, b)?;
    Ok(a.as_slice() == b.as_slice())
}
