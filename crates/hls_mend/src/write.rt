//! Writes units of one track fragment, from the first byte to the last (ISO/IEC 14496-12 8.8.4 to 8.8.8, 8.8.12).

ghost use Rattle.std.specs.Prelude.{◌≡◌, ◌+◌, ◌*◌, ◌^◌, ◌<◌, [], ◌∷◌, ◌++◌, true, nat_le, length, option_map, IfOk, OnOk};
ghost use Rattle.std.specs.List.{flat_map};
ghost use Rattle.hls_boxes.specs.Kinds.{unit_limit};
ghost use Rattle.hls_mend_laws.specs.Bytes.{words, box_header, box_bytes};
ghost use Rattle.hls_mend_laws.specs.Fragments.{tfdt_of, trun_of, traf_of, moof_of, row, payload_offset, fragment_bytes};
ghost use Rattle.hls_mend_laws.specs.Retimed.{written};
ghost use Rattle.hls_mend.specs.Views.{parts_view};

use hls_boxes::kinds::{MDAT, MOOF, UNIT_LIMIT};
use hls_media_laws::kinds::{TFDT, TFHD, TRAF, TRUN};
use hls_mend_laws::sample::Sample;
use std::alloc::{AllocError, Global};

/// Movie fragment header box (ISO/IEC 14496-12 8.8.5).
const MFHD: u32 = 0x6d666864;

/// What a fragment is written from.
#[derive(Clone, Copy)]
pub struct FragmentParts<'a> {
    pub front: &'a [u8],
    pub number: u32,
    pub head: &'a [u8],
    pub start: u64,
    pub samples: &'a [Sample],
    pub payload: &'a [u8],
}

/// Two 32-bit numbers.
fn push_two(out: &mut Vec<u8>, first: u32, second: u32) -> Result<(), AllocError>
    ensures { OnOk result (out.new.items ≡ out.old.items ++ words (first ∷ second ∷ [])) }
{
    out.extend_from_slice(&first.to_be_bytes())?;
    out.extend_from_slice(&second.to_be_bytes())?;
    Ok(())
}

/// The header of a box whose content has this length.
fn push_header(out: &mut Vec<u8>, kind: u32, len: usize) -> Result<(), AllocError>
    requires { 8 + len < 2 ^ 32 }
    ensures { OnOk result (out.new.items ≡ out.old.items ++ box_header kind len) }
{
    push_two(out, 8 + len as u32, kind)
}

/// A box with a copy of this content.
#[tactic(auto, unfolding(hls_mend_laws::specs::Bytes::box_bytes))]
fn push_box(out: &mut Vec<u8>, kind: u32, content: &[u8]) -> Result<(), AllocError>
    requires { 8 + length content.now < 2 ^ 32 }
    ensures { OnOk result (out.new.items ≡ out.old.items ++ box_bytes (record { kind = kind; content = content.now })) }
{
    push_header(out, kind, content.len())?;
    out.extend_from_slice(content)?;
    Ok(())
}

/// The `tfdt` of a start.
#[tactic(auto, unfolding(hls_mend_laws::specs::Bytes::box_bytes))]
fn push_tfdt(out: &mut Vec<u8>, start: u64) -> Result<(), AllocError>
    ensures { OnOk result (out.new.items ≡ out.old.items ++ box_bytes (tfdt_of start)) }
{
    push_header(out, TFDT, 12)?;
    out.extend_from_slice(&0x0100_0000_u32.to_be_bytes())?;
    out.extend_from_slice(&start.to_be_bytes())?;
    Ok(())
}

/// The row of a sample.
fn push_row(out: &mut Vec<u8>, sample: Sample) -> Result<(), AllocError>
    ensures { OnOk result (out.new.items ≡ out.old.items ++ words (row sample)) }
{
    push_two(out, sample.duration, sample.size)?;
    push_two(out, sample.flags, sample.offset)?;
    Ok(())
}

/// The rows of the samples.
fn push_rows(out: &mut Vec<u8>, samples: &[Sample]) -> Result<(), AllocError>
    ensures { OnOk result (out.new.items ≡ out.old.items ++ words (flat_map row samples.now)) }
{
    for sample in samples {
        push_row(out, *sample)?;
    }
    Ok(())
}

/// The `trun` of the samples, whose bytes are at this offset from the `moof`.
#[tactic(auto, unfolding(hls_mend_laws::specs::Bytes::box_bytes))]
fn push_trun(out: &mut Vec<u8>, offset: u32, samples: &[Sample]) -> Result<(), AllocError>
    requires { 20 + 16 * length samples.now < 2 ^ 32 }
    ensures { OnOk result (out.new.items ≡ out.old.items ++ box_bytes (trun_of offset samples.now)) }
{
    push_header(out, TRUN, 12 + 16 * samples.len())?;
    push_two(out, 0x0100_0f01, samples.len() as u32)?;
    out.extend_from_slice(&offset.to_be_bytes())?;
    push_rows(out, samples)?;
    Ok(())
}

/// The `traf` of a fragment.
fn push_traf(out: &mut Vec<u8>, parts: FragmentParts<'_>) -> Result<(), AllocError>
    requires { payload_offset (parts_view parts) < 2 ^ 31 }
    ensures { OnOk result (out.new.items ≡ out.old.items ++ box_bytes (traf_of (parts_view parts.entry))) }
{
    let rows = 16 * parts.samples.len();
    push_header(out, TRAF, 48 + parts.head.len() + rows)?;
    push_box(out, TFHD, parts.head)?;
    push_tfdt(out, parts.start)?;
    push_trun(out, (88 + parts.head.len() + rows) as u32, parts.samples)?;
    Ok(())
}

/// The `moof` of a fragment.
fn push_moof(out: &mut Vec<u8>, parts: FragmentParts<'_>) -> Result<(), AllocError>
    requires { payload_offset (parts_view parts) < 2 ^ 31 }
    ensures { OnOk result (out.new.items ≡ out.old.items ++ box_bytes (moof_of (parts_view parts.entry))) }
{
    let rows = 16 * parts.samples.len();
    push_header(out, MOOF, 72 + parts.head.len() + rows)?;
    push_header(out, MFHD, 8)?;
    push_two(out, 0, parts.number)?;
    push_traf(out, parts)?;
    Ok(())
}

/// The whole unit.
fn push_unit(out: &mut Vec<u8>, parts: FragmentParts<'_>) -> Result<(), AllocError>
    requires { payload_offset (parts_view parts) + length parts.payload.now < 2 ^ 31 }
    ensures { OnOk result (out.new.items ≡ out.old.items ++ fragment_bytes (parts_view parts.entry)) }
{
    out.extend_from_slice(parts.front)?;
    push_moof(out, parts)?;
    push_box(out, MDAT, parts.payload)?;
    Ok(())
}

/// The bytes of a unit within the limit.
fn make_unit(alloc: Global, parts: FragmentParts<'_>) -> Result<Vec<u8>, AllocError>
    requires { payload_offset (parts_view parts) + length parts.payload.now < 2 ^ 31 }
    ensures { IfOk result (λ v. v.items ≡ fragment_bytes (parts_view parts.entry)) }
{
    let mut out = Vec::new(alloc);
    push_unit(&mut out, parts)?;
    Ok(out)
}

/// Whether the unit is within the limit of a unit.
fn is_within_limit(parts: FragmentParts<'_>) -> bool
    ensures value { result ≡ nat_le (length (fragment_bytes (parts_view parts.entry))) unit_limit }
    ensures small { result ≡ true → payload_offset (parts_view parts.entry) + length parts.entry.payload.now < 2 ^ 31 }
{
    let fields = 88 + parts.head.len() as u128 + 16 * parts.samples.len() as u128;
    parts.front.len() as u128 + fields + parts.payload.len() as u128 <= u128::from(UNIT_LIMIT)
}

/// The unit that the fragment is written as, or None if it is longer than a unit may be.
#[tactic(auto, unfolding(hls_mend_laws::specs::Retimed::written))]
pub fn write_unit(alloc: Global, parts: FragmentParts<'_>) -> Result<Option<Vec<u8>>, AllocError>
    ensures { IfOk result (λ o. option_map (λ v. v.items) o ≡ written (parts_view parts.entry)) }
{
    if !is_within_limit(parts) {
        return Ok(None);
    }
    Ok(Some(make_unit(alloc, parts)?))
}
