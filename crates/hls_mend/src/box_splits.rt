//! The box at the start of bytes, and the bytes after it.

ghost use Rattle.std.specs.Prelude.{◌≡◌, option_map, length, IfSome};
ghost use Rattle.hls_boxes.specs.Boxes.{box_at, IsWithin};
ghost use Rattle.hls_mend_laws.specs.FragmentsRead.{split_box as split_by_type, only_box as only_by_type};
ghost use Rattle.hls_mend.specs.Views.{split_view};

use hls_boxes::box_header::BoxHeader;

/// The content of a box, and the bytes after it.
#[derive(Clone, Copy)]
pub struct Split<'a> {
    pub content: &'a [u8],
    pub rest: &'a [u8],
}

/// The header at the start of the bytes, if its box is complete.
#[tactic(auto, unfolding(hls_boxes::specs::Boxes::box_at))]
pub fn read_whole_header(bytes: &[u8]) -> Option<BoxHeader>
    ensures value { result ≡ box_at bytes.now }
    ensures within { IfSome result (λ h. IsWithin (length bytes.now) h) }
{
    let header = BoxHeader::read(bytes)?;
    if header.size < header.head || (bytes.len() as u64) < header.size {
        return None;
    }
    Some(header)
}

/// The box at the start of the bytes, if it is complete and has this type.
#[tactic(auto, unfolding(hls_mend_laws::specs::FragmentsRead::split_box))]
pub fn split_box(kind: u32, bytes: &[u8]) -> Option<Split<'_>>
    ensures { option_map split_view result ≡ split_by_type kind bytes.now }
{
    let header = read_whole_header(bytes)?;
    if header.kind != kind {
        return None;
    }
    let size = header.size as usize;
    Some(Split {
        content: &bytes[header.head as usize..size],
        rest: &bytes[size..],
    })
}

/// The content of that box, if nothing follows it.
#[tactic(auto, unfolding(hls_mend_laws::specs::FragmentsRead::only_box))]
pub fn only_box(kind: u32, bytes: &[u8]) -> Option<&[u8]>
    ensures { option_map (λ s. s.now) result ≡ only_by_type kind bytes.now }
{
    let split = split_box(kind, bytes)?;
    if !split.rest.is_empty() {
        return None;
    }
    Some(split.content)
}
