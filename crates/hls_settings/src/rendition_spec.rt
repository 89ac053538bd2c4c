//! The argument of a rendition.
ghost use Rattle.std.specs.Prelude.{◌≡◌, option_map, IfOk};
ghost use Rattle.hls_settings.specs.Numbers.{cut_at};
ghost use Rattle.hls_settings.specs.Renditions.{kind_of, rendition_by, rendition_of, rendition_with};
ghost use Rattle.hls_settings.specs.ParsedArgs.{parsed_args};
ghost use Rattle.hls_text.specs.Digits.{number_of_digits};

use crate::number::split_at_char;
use bytes::Bytes;
use hls_core_laws::rendition::Rendition;
use hls_text::{MAX_DIGITS, parse_digits};
use std::alloc::{AllocError, Global};

/// The parts of a rendition's argument, whatever their limits.
#[derive(Clone, Copy, Drop)]
pub struct RenditionSpec<'a> {
    name: &'a str,
    video: bool,
    bandwidth: u64,
    tolerance: u64,
}

/// Whether a kind is video.
fn parse_kind(text: &str) -> Option<bool>
    ensures { result ≡ kind_of text.now }
{
    if text == "video" {
        Some(true)
    } else if text == "audio" {
        Some(false)
    } else {
        None
    }
}

/// Parses the numbers of an argument, which have 1 to 16 digits.
fn spec_with_numbers<'a>(
    name: &'a str,
    video: bool,
    bandwidth: &str,
    tolerance: &str,
) -> Option<RenditionSpec<'a>>
    ensures { option_map parsed_args result ≡ rendition_with name.entry.now video (number_of_digits 16 bandwidth.entry.now) (number_of_digits 16 tolerance.entry.now) }
{
    let bandwidth = parse_digits(bandwidth.as_bytes(), MAX_DIGITS)?;
    let tolerance = parse_digits(tolerance.as_bytes(), MAX_DIGITS)?;
    Some(RenditionSpec {
        name,
        video,
        bandwidth,
        tolerance,
    })
}

/// Parses the kind and the numbers of an argument with this name.
fn spec_with_kind<'a>(name: &'a str, kind: &str, numbers: &str) -> Option<RenditionSpec<'a>>
    ensures { option_map parsed_args result ≡ rendition_by name.entry.now (kind_of kind.entry.now) (cut_at 58 numbers.entry.now) }
{
    let video = parse_kind(kind)?;
    let (bandwidth, tolerance) = split_at_char(numbers, ':')?;
    spec_with_numbers(name, video, bandwidth, tolerance)
}

/// Parses an argument `name:kind:bandwidth:tolerance`; the kind is `video` or `audio`, and the numbers have 1 to 16 digits.
pub fn parse_spec(text: &str) -> Option<RenditionSpec>
    ensures { option_map parsed_args result ≡ rendition_of text.now }
{
    let (name, rest) = split_at_char(text, ':')?;
    let (kind, numbers) = split_at_char(rest, ':')?;
    spec_with_kind(name, kind, numbers)
}

/// Makes the rendition of an argument.
pub fn make_rendition(alloc: Global, argument: RenditionSpec) -> Result<Rendition, AllocError>
    ensures { IfOk result (λ rendition. rendition ≡ parsed_args argument.entry) }
{
    Ok(Rendition {
        name: Bytes::copy_from_slice(alloc, argument.name.as_bytes())?,
        video: argument.video,
        bandwidth: argument.bandwidth,
        tolerance: argument.tolerance,
    })
}
