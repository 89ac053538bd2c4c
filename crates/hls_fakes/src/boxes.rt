//! Boxes, byte by byte.

ghost use Rattle.std.specs.Prelude.{◌≡◌, ◌+◌, ◌*◌, ◌^◌, ◌<◌, [], ◌∷◌, length, map, IfOk};
ghost use Rattle.std.specs.List.{concat};
ghost use Rattle.hls_fakes.specs.Boxes.{number_bytes, box_of};

use std::alloc::{AllocError, Global};

/// A box (ISO/IEC 14496-12 4.2) with a four-letter type and its content in pieces.
///
/// A box that contains others gets their bytes as pieces: every other builder uses this one.
#[tactic(auto, unfolding(crate::specs::Boxes::box_of))]
pub fn box_bytes(alloc: Global, kind: &[u8; 4], pieces: &[&[u8]]) -> Result<Vec<u8>, AllocError>
    requires { 8 + length (concat (map (λ p. p.now) pieces.now)) < 2 ^ 32 }
    ensures bytes { IfOk result (λ v. v.items ≡ box_of kind.now (map (λ p. p.now) pieces.now)) }
    ensures len { IfOk result (λ v. length v.items ≡ 8 + length (concat (map (λ p. p.now) pieces.now))) }
{
    let content = concat_pieces(alloc, pieces)?;
    let size = 8 + content.len() as u32;
    let mut bytes = Vec::new(alloc);
    bytes.extend_from_slice(&size.to_be_bytes())?;
    bytes.extend_from_slice(kind)?;
    bytes.extend_from_slice(&content)?;
    Ok(bytes)
}

/// A box of 32-bit numbers; in a full box the first is its version (8 bits) and flags (24 bits).
pub fn number_box(alloc: Global, kind: &[u8; 4], numbers: &[u32]) -> Result<Vec<u8>, AllocError>
    requires { 8 + 4 * length numbers.now < 2 ^ 32 }
    ensures bytes { IfOk result (λ v. v.items ≡ box_of kind.now (number_bytes numbers.now ∷ [])) }
    ensures len { IfOk result (λ v. length v.items ≡ 8 + 4 * length numbers.now) }
{
    let content = number_bytes(alloc, numbers)?;
    box_bytes(alloc, kind, &[&content])
}

// 32-bit numbers in sequence.
pub(crate) fn number_bytes(alloc: Global, numbers: &[u32]) -> Result<Vec<u8>, AllocError>
    ensures bytes { IfOk result (λ v. v.items ≡ number_bytes numbers.now) }
    ensures len { IfOk result (λ v. length v.items ≡ 4 * length numbers.now) }
{
    let mut bytes = Vec::new(alloc);
    for number in numbers {
        bytes.extend_from_slice(&number.to_be_bytes())?;
    }
    Ok(bytes)
}

fn concat_pieces(alloc: Global, pieces: &[&[u8]]) -> Result<Vec<u8>, AllocError>
    ensures { IfOk result (λ v. v.items ≡ concat (map (λ p. p.now) pieces.now)) }
{
    let mut bytes = Vec::new(alloc);
    for piece in pieces {
        bytes.extend_from_slice(piece)?;
    }
    Ok(bytes)
}
