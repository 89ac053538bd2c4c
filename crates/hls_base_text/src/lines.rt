//! The lines of a base, and the value of each.
ghost use Rattle.std.specs.Prelude.{◌≡◌, ◌∷◌, [], MatchOption, is_some, option_map};
ghost use Rattle.std.specs.List.{list_any};
ghost use Rattle.hls_text.specs.Lines.{cut_text};
ghost use Rattle.hls_base_text.specs.BaseText.{bytes_value, check_in, check_tail, is_known, names_of, value_after, value_in, values_in};

use crate::base_fault::BaseFault;
use crate::base_line::BaseLine;
use hls_core_laws::rendition::Rendition;
use hls_text::{take_line, take_prefix};

/// Returns what follows a word at the start of a line.
#[tactic(auto, using(crate::proofs::Values::after_none, crate::proofs::Values::after_some))]
fn value_after<'a>(line: &'a [u8], word: &[u8]) -> Option<&'a [u8]>
    ensures { option_map (λ v. v.now) result ≡ value_after word.now line.entry.now }
{
    take_prefix(line, word)
}

/// Returns the number of a line `bytes NAME N` with this name.
fn bytes_value<'a>(line: &'a [u8], name: &[u8]) -> Option<&'a [u8]>
    ensures { option_map (λ v. v.now) result ≡ bytes_value name.now line.entry.now }
{
    let rest = value_after(line, b"bytes ")?;
    let rest = value_after(rest, name)?;
    value_after(rest, b" ")
}

/// Returns the value of a line, if it is this one.
fn value_in<'a>(line: &'a [u8], key: BaseLine, renditions: &[Rendition]) -> Option<&'a [u8]>
    ensures { option_map (λ v. v.now) result ≡ value_in (names_of renditions.now) key line.entry.now }
{
    match key {
        BaseLine::Run => value_after(line, b"run "),
        BaseLine::Segments => value_after(line, b"segments "),
        BaseLine::Marks => value_after(line, b"marks "),
        BaseLine::Marked => value_after(line, b"marked "),
        BaseLine::Version => value_after(line, b"version "),
        BaseLine::Bytes(rendition) => match renditions.get(rendition) {
            Some(rendition) => bytes_value(line, &rendition.name),
            None => None,
        },
    }
}

/// Whether a line gives the bytes of one of these renditions.
fn is_of_rendition(line: &[u8], renditions: &[Rendition]) -> bool
    ensures { result ≡ list_any (λ name. is_some (bytes_value name line.now)) (names_of renditions.now) }
{
    for rendition in renditions {
        if bytes_value(line, &rendition.name).is_some() {
            return true;
        }
    }
    false
}

/// Whether a line is one of a base.
fn is_known(line: &[u8], renditions: &[Rendition]) -> bool
    ensures { result ≡ is_known (names_of renditions.now) line.now }
{
    value_after(line, b"run ").is_some()
        || value_after(line, b"segments ").is_some()
        || value_after(line, b"marks ").is_some()
        || value_after(line, b"marked ").is_some()
        || value_after(line, b"version ").is_some()
        || is_of_rendition(line, renditions)
}

/// Checks that nothing follows the last line.
fn check_tail(tail: &[u8]) -> Result<(), BaseFault>
    ensures { result ≡ check_tail tail.now }
{
    if tail.is_empty() {
        Ok(())
    } else {
        Err(BaseFault::Unfinished)
    }
}

/// Checks that each line of a text is one of a base.
#[tactic(auto, using(crate::proofs::LineSteps::known_line, crate::proofs::LineSteps::unknown_line, crate::proofs::LineSteps::last_line))]
pub(crate) fn check_lines(text: &[u8], renditions: &[Rendition]) -> Result<(), BaseFault>
    ensures { result ≡ check_in (names_of renditions.now) 0 (cut_text text.now).lines (cut_text text.now).tail }
{
    let mut rest = text;
    let mut number = 0;
    loop {
        let Some((line, after)) = take_line(rest) else {
            return check_tail(rest);
        };
        if !is_known(line, renditions) {
            return Err(BaseFault::Unknown(number));
        }
        rest = after;
        number += 1;
    }
}

/// Finds the first such line of a text. Returns its value, and the text after the line.
#[tactic(auto, using(crate::proofs::LineSteps::value_here, crate::proofs::LineSteps::value_later, crate::proofs::LineSteps::value_nowhere))]
pub(crate) fn find_value<'a>(
    text: &'a [u8],
    key: BaseLine,
    renditions: &[Rendition],
) -> Option<(&'a [u8], &'a [u8])>
    ensures { MatchOption result (values_in (names_of renditions.now) key (cut_text text.entry.now).lines ≡ []) (λ f. values_in (names_of renditions.now) key (cut_text text.entry.now).lines ≡ f.0.now ∷ values_in (names_of renditions.now) key (cut_text f.1.now).lines) }
{
    let mut rest = text;
    loop {
        let (line, after) = take_line(rest)?;
        if let Some(value) = value_in(line, key, renditions) {
            return Some((value, after));
        }
        rest = after;
    }
}
