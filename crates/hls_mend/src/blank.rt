//! Fields of bytes that are replaced with zeros.

ghost use Rattle.std.specs.Prelude.{◌≡◌, ◌+◌, ◌^◌, ◌<◌, ◌≤◌, ◌++◌, replicate, OnOk};
ghost use Rattle.hls_mend.specs.InitSections.{blank, byte_at as byte_or_zero, length_len, config_at as config_by_descriptor, rates_at as rates_by_config, has_config as has_config_descriptor, without_rates, times_len as len_of_times};

use std::alloc::AllocError;

/// The longest field that is replaced: a compressor name.
const ZEROS: [u8; 32] = [0; 32];

/// The byte at `at`, or 0 after the end.
pub fn byte_at(content: &[u8], at: usize) -> u8
    ensures { result ≡ byte_or_zero content.now at }
{
    if at < content.len() { content[at] } else { 0 }
}

/// Appends the given number of zeros.
fn push_zeros(out: &mut Vec<u8>, count: usize) -> Result<(), AllocError>
    requires { count ≤ 32 }
    ensures { OnOk result (out.new.items ≡ out.old.items ++ replicate count 0) }
{
    out.extend_from_slice(&ZEROS[..count])?;
    Ok(())
}

/// Appends the content with zeros in place of `len` bytes at `at`.
#[tactic(auto, unfolding(crate::specs::InitSections::blank))]
pub fn push_blank(
    out: &mut Vec<u8>,
    at: usize,
    len: usize,
    content: &[u8],
) -> Result<(), AllocError>
    requires short { len ≤ 32 }
    requires low { at < 2 ^ 32 }
    ensures { OnOk result (out.new.items ≡ out.old.items ++ blank at len content.now) }
{
    if content.len() <= at {
        out.extend_from_slice(content)?;
        return Ok(());
    }
    let after = &content[at..];
    out.extend_from_slice(&content[..at])?;
    if after.len() <= len {
        return push_zeros(out, after.len());
    }
    push_zeros(out, len)?;
    out.extend_from_slice(&after[len..])?;
    Ok(())
}

/// The length of the creation and modification times.
pub fn times_len(content: &[u8]) -> usize
    ensures { result ≡ len_of_times content.now }
{
    if byte_at(content, 0) == 1 { 16 } else { 8 }
}

/// The number of bytes of the length field at `at` (ISO/IEC 14496-1 8.3.3).
#[tactic(auto, unfolding(crate::specs::InitSections::length_len))]
fn field_len(content: &[u8], at: usize) -> usize
    requires { at < 2 ^ 32 }
    ensures value { result ≡ length_len content.now at }
    ensures small { result ≤ 4 }
{
    if byte_at(content, at) < 128 {
        1
    } else if byte_at(content, at + 1) < 128 {
        2
    } else if byte_at(content, at + 2) < 128 {
        3
    } else {
        4
    }
}

/// The offset of the decoder configuration in an `esds`.
#[tactic(auto, unfolding(crate::specs::InitSections::config_at))]
fn config_at(content: &[u8]) -> usize
    ensures value { result ≡ config_by_descriptor content.now }
    ensures small { (8 ≤ result) × (result ≤ 12) }
{
    5 + field_len(content, 5) + 3
}

/// The offset of the buffer size and the bit rates in an `esds`.
#[tactic(auto, unfolding(crate::specs::InitSections::rates_at))]
fn rates_at(content: &[u8]) -> usize
    ensures value { result ≡ rates_by_config content.now }
    ensures small { result ≤ 20 }
{
    let config = config_at(content);
    config + 1 + field_len(content, config + 1) + 2
}

/// Whether an `esds` has a decoder configuration right after an ES descriptor without optional fields.
#[tactic(auto, unfolding(crate::specs::InitSections::has_config))]
fn has_config(content: &[u8]) -> bool
    ensures { result ≡ has_config_descriptor content.now }
{
    let config = config_at(content);
    byte_at(content, 4) == 3 && byte_at(content, config - 1) == 0 && byte_at(content, config) == 4
}

/// Appends the content of an `esds` without its buffer size and its bit rates.
#[tactic(auto, unfolding(crate::specs::InitSections::without_rates))]
pub fn push_without_rates(out: &mut Vec<u8>, content: &[u8]) -> Result<(), AllocError>
    ensures { OnOk result (out.new.items ≡ out.old.items ++ without_rates content.now) }
{
    if has_config(content) {
        return push_blank(out, rates_at(content), 11, content);
    }
    out.extend_from_slice(content)?;
    Ok(())
}
