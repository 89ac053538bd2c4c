//! The lines of a text that explains names.

ghost use Rattle.std.specs.Prelude.{◌≡◌, ◌==◌, IfOk, option_map, position};
ghost use Rattle.hls_commands.specs.Explanations as spec;
ghost use Rattle.hls_commands.specs.Explanations.{name_in, names_of, row_of, explanation_of};

use std::alloc::{AllocError, Global};

/// Returns the index of the first colon of a line.
fn find_colon(line: &[u8]) -> Option<usize>
    ensures { result ≡ position (λ b. b == 58) line.now }
{
    line.iter().position(|b| *b == b':')
}

/// Returns a line's name: the text before its first colon.
#[tactic(auto, using(crate::proofs::Colons::name_before, crate::proofs::Colons::name_whole))]
fn name_in(line: &[u8]) -> &[u8]
    ensures { result.now ≡ name_in line.now }
{
    match find_colon(line) {
        Some(end) => &line[..end],
        None => line,
    }
}

/// Returns the first line of a text with this name, without its line feed; `None` if no line has it.
fn find_line<'a>(text: &'a [u8], name: &[u8]) -> Option<&'a [u8]>
    ensures { option_map (λ line. line.now) result ≡ spec.line_of text.now name.now }
{
    text.split(|b| *b == b'\n')
        .find(|line| name_in(line) == name)
}

/// Returns the names of a text's lines, each followed by a line feed.
fn list_names(alloc: Global, text: &[u8]) -> Result<Vec<u8>, AllocError>
    ensures { IfOk result (λ names. names.items ≡ names_of text.now) }
{
    let mut names = Vec::new(alloc);
    for line in text.split(|b| *b == b'\n') {
        names.extend_from_slice(name_in(line))?;
        names.push(b'\n')?;
    }
    Ok(names)
}

/// Returns the first line of a text with this name, followed by a line feed; `None` if no line has it.
fn copy_line(alloc: Global, text: &[u8], name: &[u8]) -> Result<Option<Vec<u8>>, AllocError>
    ensures { IfOk result (λ row. option_map (λ v. v.items) row ≡ row_of text.now name.now) }
{
    let Some(line) = find_line(text, name) else {
        return Ok(None);
    };
    let mut row = line.to_vec(alloc)?;
    row.push(b'\n')?;
    Ok(Some(row))
}

/// Returns a text's explanation of a name: the first line that has it, followed by a line feed, or `None` if no line has it. Without a
/// name, returns the names of all lines, each followed by a line feed.
pub(crate) fn find_explanation(
    alloc: Global,
    text: &[u8],
    name: Option<&[u8]>,
) -> Result<Option<Vec<u8>>, AllocError>
    ensures { IfOk result (λ explanation. option_map (λ v. v.items) explanation ≡ explanation_of text.now (option_map (λ n. n.now) name.entry)) }
{
    match name {
        Some(name) => copy_line(alloc, text, name),
        None => Ok(Some(list_names(alloc, text)?)),
    }
}
