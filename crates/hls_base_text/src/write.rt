//! Writes a base.
ghost use Rattle.std.specs.Prelude.{◌≡◌, ◌++◌, IfOk};
ghost use Rattle.hls_base_text.specs.BaseText.{base_text, bytes_line, bytes_lines, names_of, number_line, said, text_line};

use hls_core::base::Base;
use hls_core_laws::rendition::Rendition;
use hls_text::push_number;
use std::alloc::{AllocError, Global};

/// Appends a line of a word and a text.
fn push_text_line(out: &mut Vec<u8>, word: &[u8], text: &[u8]) -> Result<(), AllocError>
    ensures { IfOk result (λ done. out.new.items ≡ out.old.items ++ text_line word.now text.now) }
{
    out.extend_from_slice(word)?;
    out.extend_from_slice(text)?;
    out.push(b'\n')?;
    Ok(())
}

/// Appends a line of a word and a number.
fn push_number_line(out: &mut Vec<u8>, word: &[u8], number: u64) -> Result<(), AllocError>
    ensures { IfOk result (λ done. out.new.items ≡ out.old.items ++ number_line word.now number) }
{
    out.extend_from_slice(word)?;
    push_number(out, number)?;
    out.push(b'\n')?;
    Ok(())
}

/// Appends a line with the bytes of a rendition.
fn push_bytes_line(out: &mut Vec<u8>, name: &[u8], number: u64) -> Result<(), AllocError>
    ensures { IfOk result (λ done. out.new.items ≡ out.old.items ++ bytes_line name.now number) }
{
    out.extend_from_slice(b"bytes ")?;
    out.extend_from_slice(name)?;
    push_number_line(out, b" ", number)?;
    Ok(())
}

/// Appends the lines with the bytes of each rendition.
#[tactic(auto, using(crate::proofs::Written::lines_next, crate::proofs::Written::lines_done))]
fn push_bytes_lines(
    out: &mut Vec<u8>,
    base: &Base,
    renditions: &[Rendition],
) -> Result<(), AllocError>
    ensures { IfOk result (λ done. out.new.items ≡ out.old.items ++ bytes_lines base.now (names_of renditions.now) 0) }
{
    let mut number = 0;
    while number < renditions.len() {
        push_bytes_line(out, &renditions[number].name, base.bytes(number))?;
        number += 1;
    }
    Ok(())
}

/// Returns a base's word for whether the first segment has a mark.
fn yes_or_no(marked: bool) -> &'static [u8]
    ensures { result.now ≡ said marked }
{
    if marked { b"yes" } else { b"no" }
}

/// Writes the base of a channel with these renditions, as it is read.
pub fn write_base(
    alloc: Global,
    base: &Base,
    renditions: &[Rendition],
) -> Result<Vec<u8>, AllocError>
    ensures { IfOk result (λ text. text.items ≡ base_text (names_of renditions.now) base.now) }
{
    let mut out = Vec::new(alloc);
    push_text_line(&mut out, b"run ", base.run_name())?;
    push_number_line(&mut out, b"segments ", base.segments())?;
    push_number_line(&mut out, b"marks ", base.marks())?;
    push_text_line(&mut out, b"marked ", yes_or_no(base.marked()))?;
    push_number_line(&mut out, b"version ", base.version())?;
    push_bytes_lines(&mut out, base, renditions)?;
    Ok(out)
}
