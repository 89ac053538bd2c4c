//! Feeds a piece of the stream, box by box.

ghost use Rattle.std.specs.Prelude.{◌≡◌, [], IfOk, OnErr};
ghost use Rattle.hls_boxes.specs.Feed.{AppendsParts, EndsAtBox, IsPendingPart, AppendsPiece, NeedsMoreBytes};

use crate::box_effect::BoxEffect;
use crate::complete_part::CompletePart;
use crate::fault::BoxFault;
use crate::pending_part::{PendingPart, append_bytes};
use crate::read_box_effect::{count_missing_bytes, read_box_effect};
use std::alloc::{AllocError, Global};
use std::collections::VecDeque;
use std::mem;

/// Consumes the box that ends where the bytes end, if one does. If it ends a part, that part is appended to the complete ones.
fn finish_box(
    alloc: Global,
    pending: &mut PendingPart,
    whole: &mut VecDeque<CompletePart>,
) -> Result<Option<BoxFault>, AllocError>
    requires is_pending { IsPendingPart pending.old }
    requires at_box_end { EndsAtBox pending.old }
    ensures ok { IfOk result (λ fault. AppendsPiece pending.old whole.old.items [] fault pending.new whole.new.items) }
    ensures err { OnErr result ((pending.new ≡ pending.old) × (whole.new.items ≡ whole.old.items)) }
{
    match read_box_effect(&pending.bytes[pending.at..], pending.at, pending.has_moof) {
        BoxEffect::Incomplete => {}
        BoxEffect::Fault(fault) => return Ok(Some(fault)),
        BoxEffect::Continues { has_moof, size } => {
            pending.at += size;
            pending.has_moof = has_moof;
        }
        BoxEffect::Ends { kind, .. } => {
            whole.reserve(1)?;
            let PendingPart { bytes, .. } = mem::replace(pending, PendingPart::empty(alloc));
            whole.push_back_reserved(CompletePart { kind, bytes });
        }
    }
    Ok(None)
}

/// Consumes a piece, up to its end or the first fault. The bytes after a fault are kept with it.
pub(crate) fn feed_piece(
    alloc: Global,
    pending: &mut PendingPart,
    whole: &mut VecDeque<CompletePart>,
    piece: &[u8],
) -> Result<Option<BoxFault>, AllocError>
    requires { NeedsMoreBytes pending.old }
    ensures ok { IfOk result (λ fault. AppendsPiece pending.old whole.old.items piece.now fault pending.new whole.new.items) }
    ensures err { OnErr result (AppendsParts pending.old whole.old.items pending.new whole.new.items) }
{
    let mut rest = piece;
    while !rest.is_empty() {
        let missing = count_missing_bytes(&pending.bytes[pending.at..]);
        let (more, tail) = rest.split_at(missing.min(rest.len()));
        append_bytes(&mut pending.bytes, more, missing)?;
        rest = tail;
        if let Some(fault) = finish_box(alloc, pending, whole)? {
            pending.bytes.extend_from_slice(rest)?;
            return Ok(Some(fault));
        }
    }
    Ok(None)
}
