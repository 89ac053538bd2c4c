//! Reads a base.
ghost use Rattle.std.specs.Prelude.{◌≡◌, ◌≤◌, length};
ghost use Rattle.hls_check_tables.specs.Tables.{rendition_limit};
ghost use Rattle.hls_text.specs.Digits.{number_of_digits};
ghost use Rattle.hls_text.specs.Lines.{cut_text};
ghost use Rattle.hls_base_text.specs.BaseText.{ReadsBase, ReadsText, MakesBase, bytes_in, fields_in, fields_of, limited, marked_in, names_of, number_in, run_in, text_in, yes_or_no};

use crate::base_fault::BaseFault;
use crate::base_fields::BaseFields;
use crate::base_line::BaseLine;
use crate::lines::{check_lines, find_value};
use hls_core::base::{BASE_LIMIT, Base};
use hls_core_laws::rendition::Rendition;
use hls_text::{MAX_DIGITS, parse_digits};

/// Returns the value of the only such line.
fn read_text<'a>(
    text: &'a [u8],
    key: BaseLine,
    renditions: &[Rendition],
) -> Result<&'a [u8], BaseFault>
    ensures { ReadsText result (text_in (names_of renditions.now) key (cut_text text.entry.now).lines) }
{
    let Some((value, after)) = find_value(text, key, renditions) else {
        return Err(BaseFault::Missing(key));
    };
    match find_value(after, key, renditions) {
        Some(_) => Err(BaseFault::Repeated(key)),
        None => Ok(value),
    }
}

/// Parses a number within the limit.
fn parse_number(value: &[u8]) -> Option<u64>
    ensures { result ≡ limited (number_of_digits 16 value.now) }
{
    let number = parse_digits(value, MAX_DIGITS)?;
    if number <= BASE_LIMIT {
        Some(number)
    } else {
        None
    }
}

fn read_number(text: &[u8], key: BaseLine, renditions: &[Rendition]) -> Result<u64, BaseFault>
    ensures { result ≡ number_in (names_of renditions.now) key (cut_text text.now).lines }
{
    let value = read_text(text, key, renditions)?;
    parse_number(value).ok_or(BaseFault::Invalid(key))
}

fn read_run(text: &[u8], renditions: &[Rendition]) -> Result<[u8; 16], BaseFault>
    ensures { result ≡ run_in (names_of renditions.now) (cut_text text.now).lines }
{
    let value = read_text(text, BaseLine::Run, renditions)?;
    Base::parse_run(value).ok_or(BaseFault::Invalid(BaseLine::Run))
}

fn parse_yes_or_no(value: &[u8]) -> Option<bool>
    ensures { result ≡ yes_or_no value.now }
{
    if value == b"yes".as_slice() {
        Some(true)
    } else if value == b"no".as_slice() {
        Some(false)
    } else {
        None
    }
}

fn read_marked(text: &[u8], renditions: &[Rendition]) -> Result<bool, BaseFault>
    ensures { result ≡ marked_in (names_of renditions.now) (cut_text text.now).lines }
{
    let value = read_text(text, BaseLine::Marked, renditions)?;
    parse_yes_or_no(value).ok_or(BaseFault::Invalid(BaseLine::Marked))
}

/// Reads the bytes of each rendition.
#[tactic(auto, using(crate::proofs::Bytes::bytes_next, crate::proofs::Bytes::bytes_stop, crate::proofs::Bytes::bytes_done))]
fn read_bytes(text: &[u8], renditions: &[Rendition]) -> Result<[u64; 16], BaseFault>
    requires { length renditions.now ≤ rendition_limit }
    ensures { result ≡ bytes_in (names_of renditions.now) (cut_text text.now).lines }
{
    let mut bytes = [0; 16];
    let mut rendition = 0;
    while rendition < renditions.len() {
        bytes[rendition] = read_number(text, BaseLine::Bytes(rendition), renditions)?;
        rendition += 1;
    }
    Ok(bytes)
}

/// Reads what the lines give.
fn read_fields(text: &[u8], renditions: &[Rendition]) -> Result<BaseFields, BaseFault>
    requires { length renditions.now ≤ rendition_limit }
    ensures { result ≡ fields_in (names_of renditions.now) (cut_text text.now).lines }
{
    let run = read_run(text, renditions)?;
    let segments = read_number(text, BaseLine::Segments, renditions)?;
    let marks = read_number(text, BaseLine::Marks, renditions)?;
    let marked = read_marked(text, renditions)?;
    let version = read_number(text, BaseLine::Version, renditions)?;
    let bytes = read_bytes(text, renditions)?;
    Ok(BaseFields {
        run,
        segments,
        marks,
        marked,
        bytes,
        version,
    })
}

/// Reads the lines of a text, each of which must be one of a base of a channel with these renditions.
fn read_all(text: &[u8], renditions: &[Rendition]) -> Result<BaseFields, BaseFault>
    requires { length renditions.now ≤ rendition_limit }
    ensures { result ≡ fields_of (names_of renditions.now) text.now }
{
    check_lines(text, renditions)?;
    read_fields(text, renditions)
}

/// Makes the base of the lines' values.
fn make_base(fields: BaseFields) -> Result<Base, BaseFault>
    ensures { MakesBase fields result }
{
    let BaseFields {
        run,
        segments,
        marks,
        marked,
        bytes,
        version,
    } = fields;
    Base::new(run, segments, marks, marked, bytes, version).ok_or(BaseFault::Inconsistent)
}

/// Reads the base of a channel with these renditions, at most 16. The text has one line for each part, in any order:
/// `run TEXT`, `segments N`, `marks N`, `marked yes` or `marked no`, `version N`, and `bytes NAME N` for each rendition. Each number is at
/// most 9 * 10^14.
pub fn read_base(text: &[u8], renditions: &[Rendition]) -> Result<Base, BaseFault>
    requires { length renditions.now ≤ rendition_limit }
    ensures { ReadsBase (names_of renditions.now) text.now result }
{
    let fields = read_all(text, renditions)?;
    make_base(fields)
}
