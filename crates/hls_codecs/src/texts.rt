//! Writes a track's codec, channels and language as attributes of a playlist have them.

ghost use Rattle.std.specs.Prelude.{false, ◌≡◌, ◌==◌, ◌++◌, ◌<◌, OnOk};
ghost use Rattle.std.specs.List.{list_all};
ghost use Rattle.hls_codecs.specs.Texts.{hex_digit, hex_byte, hex_number, two_digits, flag_digit, point, avc_name, avc_text, hevc_name, space_text, tier_text, constraint_texts, compatibility_text, hevc_profile_text, hevc_level_text, hevc_text, colours_text, av1_tier, is_usual_av1, position_digit, av1_details, av1_text, is_usual_vp9, vp9_details, vp9_text, mp4a_text, codec_text, channels_text, letter, language_text};
ghost use Rattle.hls_codecs.specs.Codecs.{are_usual};

use crate::codec::{
    Av1Config, AvcConfig, Codec, Colours, HevcConfig, Mp4aConfig, ParameterSets, Vp9Config,
};
use crate::languages::short_language;
use crate::track_format::Channels;
use hls_text::push_number;
use std::alloc::AllocError;

fn hex_digit(capital: bool, n: u8) -> u8
    requires { n < 16 }
    ensures { result ≡ hex_digit capital n }
{
    if n < 10 {
        return 48 + n;
    }
    if capital { 55 + n } else { 87 + n }
}

/// Writes a byte as two hexadecimal digits.
fn push_hex_byte(out: &mut Vec<u8>, n: u8) -> Result<(), AllocError>
    ensures { OnOk result (out.new.items ≡ out.old.items ++ hex_byte false n) }
{
    out.push(hex_digit(false, n / 16))?;
    out.push(hex_digit(false, n % 16))?;
    Ok(())
}

/// Writes a number in as many capital hexadecimal digits as it needs, at most this many.
fn push_hex_number(out: &mut Vec<u8>, most: u32, n: u32) -> Result<(), AllocError>
    ensures { OnOk result (out.new.items ≡ out.old.items ++ hex_number most n) }
{
    if most == 0 {
        return Ok(());
    }
    if n >= 16 {
        push_hex_number(out, most - 1, n / 16)?;
    }
    out.push(hex_digit(true, (n % 16) as u8))?;
    Ok(())
}

/// Writes a number in at least two digits.
fn push_two_digits(out: &mut Vec<u8>, n: u16) -> Result<(), AllocError>
    ensures { OnOk result (out.new.items ≡ out.old.items ++ two_digits n) }
{
    if n < 10 {
        out.push(b'0')?;
    }
    push_number(out, u64::from(n))
}

/// Writes a point and a number in at least two digits.
fn push_field(out: &mut Vec<u8>, n: u16) -> Result<(), AllocError>
    ensures { OnOk result (out.new.items ≡ out.old.items ++ point (two_digits n)) }
{
    out.push(b'.')?;
    push_two_digits(out, n)
}

fn push_flag(out: &mut Vec<u8>, flag: bool) -> Result<(), AllocError>
    ensures { OnOk result (out.new.items ≡ out.old.items ++ flag_digit flag) }
{
    if flag {
        out.extend_from_slice(b"1")
    } else {
        out.extend_from_slice(b"0")
    }
}

fn push_avc_name(out: &mut Vec<u8>, sets: ParameterSets) -> Result<(), AllocError>
    ensures { OnOk result (out.new.items ≡ out.old.items ++ avc_name sets) }
{
    match sets {
        ParameterSets::OutOfBand => out.extend_from_slice(b"avc1."),
        ParameterSets::InBand => out.extend_from_slice(b"avc3."),
    }
}

#[tactic(auto, unfolding(crate::specs::Texts::avc_text))]
fn push_avc(out: &mut Vec<u8>, config: AvcConfig) -> Result<(), AllocError>
    ensures { OnOk result (out.new.items ≡ out.old.items ++ avc_text config) }
{
    push_avc_name(out, config.sets)?;
    push_hex_byte(out, config.profile)?;
    push_hex_byte(out, config.constraints)?;
    push_hex_byte(out, config.level)
}

fn push_hevc_name(out: &mut Vec<u8>, sets: ParameterSets) -> Result<(), AllocError>
    ensures { OnOk result (out.new.items ≡ out.old.items ++ hevc_name sets) }
{
    match sets {
        ParameterSets::OutOfBand => out.extend_from_slice(b"hvc1."),
        ParameterSets::InBand => out.extend_from_slice(b"hev1."),
    }
}

/// Writes the letter of a profile space.
fn push_space(out: &mut Vec<u8>, space: u8) -> Result<(), AllocError>
    ensures { OnOk result (out.new.items ≡ out.old.items ++ space_text space) }
{
    if space == 0 {
        return Ok(());
    }
    out.push(64 + space % 4)?;
    Ok(())
}

fn push_tier(out: &mut Vec<u8>, high: bool) -> Result<(), AllocError>
    ensures { OnOk result (out.new.items ≡ out.old.items ++ tier_text high) }
{
    if high {
        out.extend_from_slice(b".H")
    } else {
        out.extend_from_slice(b".L")
    }
}

/// Whether all bytes are 0.
fn are_zero(bytes: &[u8]) -> bool
    ensures { result ≡ list_all (λ c. c == 0) bytes.now }
{
    bytes.iter().all(|byte| *byte == 0)
}

/// Writes constraint bytes up to the last one that isn't 0.
fn push_constraints(out: &mut Vec<u8>, bytes: &[u8]) -> Result<(), AllocError>
    ensures { OnOk result (out.new.items ≡ out.old.items ++ constraint_texts bytes.now) }
{
    let mut rest = bytes;
    'bytes: while !are_zero(rest) {
        let [first, after @ ..] = rest else {
            return Ok(());
        };
        out.push(b'.')?;
        push_hex_number(out, 2, u32::from(*first))?;
        rest = after;
    }
    Ok(())
}

/// Writes the compatibility flags, the last one first.
fn push_compatibility(out: &mut Vec<u8>, flags: u32) -> Result<(), AllocError>
    ensures { OnOk result (out.new.items ≡ out.old.items ++ compatibility_text flags) }
{
    out.push(b'.')?;
    push_hex_number(out, 8, flags.reverse_bits())
}

#[tactic(auto, unfolding(crate::specs::Texts::hevc_profile_text))]
fn push_hevc_profile(out: &mut Vec<u8>, config: HevcConfig) -> Result<(), AllocError>
    ensures { OnOk result (out.new.items ≡ out.old.items ++ hevc_profile_text config) }
{
    push_hevc_name(out, config.sets)?;
    push_space(out, config.profile_space)?;
    push_number(out, u64::from(config.profile))?;
    push_compatibility(out, config.compatibility)
}

#[tactic(auto, unfolding(crate::specs::Texts::hevc_level_text))]
fn push_hevc_level(out: &mut Vec<u8>, config: HevcConfig) -> Result<(), AllocError>
    ensures { OnOk result (out.new.items ≡ out.old.items ++ hevc_level_text config) }
{
    push_tier(out, config.high_tier)?;
    push_number(out, u64::from(config.level))?;
    push_constraints(out, config.constraints.as_slice())
}

#[tactic(auto, unfolding(crate::specs::Texts::hevc_text))]
fn push_hevc(out: &mut Vec<u8>, config: HevcConfig) -> Result<(), AllocError>
    ensures { OnOk result (out.new.items ≡ out.old.items ++ hevc_text config) }
{
    push_hevc_profile(out, config)?;
    push_hevc_level(out, config)
}

fn are_usual(colours: Colours) -> bool
    ensures { result ≡ are_usual colours }
{
    colours.primaries == 1 && colours.transfer == 1 && colours.matrix == 1 && !colours.full_range
}

fn push_colours(out: &mut Vec<u8>, colours: Colours) -> Result<(), AllocError>
    ensures { OnOk result (out.new.items ≡ out.old.items ++ colours_text colours) }
{
    push_field(out, colours.primaries)?;
    push_field(out, colours.transfer)?;
    push_field(out, colours.matrix)
}

fn is_usual_av1(config: Av1Config) -> bool
    ensures { result ≡ is_usual_av1 config }
{
    !config.monochrome
        && config.subsampling_x
        && config.subsampling_y
        && config.position == 0
        && are_usual(config.colours)
}

fn position_digit(config: Av1Config) -> u8
    ensures { result ≡ position_digit config }
{
    if config.subsampling_x && config.subsampling_y {
        config.position
    } else {
        0
    }
}

#[tactic(auto, unfolding(crate::specs::Texts::av1_details))]
fn push_av1_details(out: &mut Vec<u8>, config: Av1Config) -> Result<(), AllocError>
    ensures { OnOk result (out.new.items ≡ out.old.items ++ av1_details config) }
{
    if is_usual_av1(config) {
        return Ok(());
    }
    out.push(b'.')?;
    push_flag(out, config.monochrome)?;
    out.push(b'.')?;
    push_flag(out, config.subsampling_x)?;
    push_flag(out, config.subsampling_y)?;
    push_number(out, u64::from(position_digit(config)))?;
    push_colours(out, config.colours)?;
    out.push(b'.')?;
    push_flag(out, config.colours.full_range)
}

fn push_av1_tier(out: &mut Vec<u8>, high: bool) -> Result<(), AllocError>
    ensures { OnOk result (out.new.items ≡ out.old.items ++ av1_tier high) }
{
    if high {
        out.extend_from_slice(b"H.")
    } else {
        out.extend_from_slice(b"M.")
    }
}

#[tactic(auto, unfolding(crate::specs::Texts::av1_text))]
fn push_av1(out: &mut Vec<u8>, config: Av1Config) -> Result<(), AllocError>
    ensures { OnOk result (out.new.items ≡ out.old.items ++ av1_text config) }
{
    out.extend_from_slice(b"av01.")?;
    push_number(out, u64::from(config.profile))?;
    push_field(out, u16::from(config.level))?;
    push_av1_tier(out, config.high_tier)?;
    push_two_digits(out, u16::from(config.depth))?;
    push_av1_details(out, config)
}

fn is_usual_vp9(config: Vp9Config) -> bool
    ensures { result ≡ is_usual_vp9 config }
{
    config.chroma == 1 && are_usual(config.colours)
}

#[tactic(auto, unfolding(crate::specs::Texts::vp9_details))]
fn push_vp9_details(out: &mut Vec<u8>, config: Vp9Config) -> Result<(), AllocError>
    ensures { OnOk result (out.new.items ≡ out.old.items ++ vp9_details config) }
{
    if is_usual_vp9(config) {
        return Ok(());
    }
    push_field(out, u16::from(config.chroma))?;
    push_colours(out, config.colours)?;
    out.extend_from_slice(b".0")?;
    push_flag(out, config.colours.full_range)
}

#[tactic(auto, unfolding(crate::specs::Texts::vp9_text))]
fn push_vp9(out: &mut Vec<u8>, config: Vp9Config) -> Result<(), AllocError>
    ensures { OnOk result (out.new.items ≡ out.old.items ++ vp9_text config) }
{
    out.extend_from_slice(b"vp09")?;
    push_field(out, u16::from(config.profile))?;
    push_field(out, u16::from(config.level))?;
    push_field(out, u16::from(config.depth))?;
    push_vp9_details(out, config)
}

#[tactic(auto, unfolding(crate::specs::Texts::mp4a_text))]
fn push_mp4a(out: &mut Vec<u8>, config: Mp4aConfig) -> Result<(), AllocError>
    ensures { OnOk result (out.new.items ≡ out.old.items ++ mp4a_text config) }
{
    match config {
        Mp4aConfig::Mpeg4(aot) => {
            out.extend_from_slice(b"mp4a.40.")?;
            push_number(out, u64::from(aot))
        }
        Mp4aConfig::Other(oti) => {
            out.extend_from_slice(b"mp4a.")?;
            push_hex_number(out, 2, u32::from(oti))
        }
    }
}

/// Writes a codec as in a CODECS attribute (RFC 6381).
#[tactic(auto, unfolding(crate::specs::Texts::codec_text))]
pub fn push_codec(out: &mut Vec<u8>, codec: Codec) -> Result<(), AllocError>
    ensures { OnOk result (out.new.items ≡ out.old.items ++ codec_text codec) }
{
    match codec {
        Codec::Avc(config) => push_avc(out, config),
        Codec::Hevc(config) => push_hevc(out, config),
        Codec::Av1(config) => push_av1(out, config),
        Codec::Vp9(config) => push_vp9(out, config),
        Codec::Mp4a(config) => push_mp4a(out, config),
        Codec::Ac3 => out.extend_from_slice(b"ac-3"),
        Codec::Ec3 => out.extend_from_slice(b"ec-3"),
        Codec::Opus => out.extend_from_slice(b"Opus"),
        Codec::Flac => out.extend_from_slice(b"fLaC"),
        Codec::Alac => out.extend_from_slice(b"alac"),
    }
}

/// Writes channels as in a CHANNELS attribute (RFC 8216 section 4.3.4.1).
#[tactic(auto, unfolding(crate::specs::Texts::channels_text))]
pub fn push_channels(out: &mut Vec<u8>, channels: Channels) -> Result<(), AllocError>
    ensures { OnOk result (out.new.items ≡ out.old.items ++ channels_text channels) }
{
    match channels {
        Channels::Plain(count) => push_number(out, u64::from(count)),
        Channels::JointObjects(count) => {
            push_number(out, u64::from(count))?;
            out.extend_from_slice(b"/JOC")
        }
    }
}

fn letter(n: u16) -> u8
    ensures { result ≡ letter n }
{
    96 + (n % 32) as u8
}

/// Writes a packed language as in a LANGUAGE attribute: its shortest code (RFC 5646 section 2.2.1).
#[tactic(auto, unfolding(crate::specs::Texts::language_text))]
pub fn push_language(out: &mut Vec<u8>, packed: u16) -> Result<(), AllocError>
    ensures { OnOk result (out.new.items ≡ out.old.items ++ language_text packed) }
{
    let letters = [letter(packed / 1024), letter(packed / 32), letter(packed)];
    match short_language(letters) {
        Some(code) => out.extend_from_slice(code),
        None => out.extend_from_slice(letters.as_slice()),
    }
}
