//! The record of a channel: the first of a journal.

ghost use Rattle.std.specs.Prelude.{◌≡◌, ℕ, ◌+◌, ◌++◌, ◌≤◌, ◌<◌, ◌==◌, ◌↔◌, not, IsTrue, length, take, drop, get_or, IfOk, IfErr, IfSome, OnOk, MatchOption};
ghost use Rattle.std.specs.List.{flat_map};
ghost use Rattle.byteorder.specs.Endian.{little_bytes};
ghost use Rattle.hls_journal.specs.declared.fault.JournalFault.TheVariants.{JournalOther};
ghost use Rattle.hls_core.specs.Bases.{IsNoBase};
ghost use Rattle.hls_journal.specs.Channels.{name_bytes, counts_bytes, base_bytes, epoch_bytes, rendition_bytes, config_bytes, header_bytes, channel_bytes, header_len, config_in, number_at, counts_in, base_in, boot_part, base_part, IsWholeBase, IsHeader, HasHeader, IsHeaderOf, JudgesVersion, JudgesConfigs, IsChannelFault};

use crate::fault::{ConfigField, JournalFault};
use crate::{CHANNEL, FORMAT_VERSION};
use byteorder::{ByteOrder, LittleEndian};
use hls_core::base::Base;
use hls_core::config::Config;
use hls_core_laws::rendition::Rendition;
use std::alloc::{AllocError, Global};

/// Where the boot id begins: after the kind and the version.
const BOOT_AT: usize = 3;

/// Where the base begins: its run, three numbers with a flag after the second, and the bytes of 16 renditions.
const BASE_AT: usize = 19;

/// Where the configuration begins.
const CONFIG_AT: usize = 188;

/// The bytes of a configuration before its renditions.
const RENDITIONS_AT: usize = 25;

/// The bytes of a rendition's name.
const NAME_LEN: usize = 32;

/// What the record of a channel says beside its configuration.
#[derive(Drop)]
pub struct ChannelHeader {
    /// The kernel's boot id when the journal was made: on the same boot nothing that was written is lost.
    pub boot: [u8; 16],
    /// What precedes the recordings, and the run.
    pub base: Base,
}

/// Returns the body of the record of a channel: its header, and the configuration.
pub fn make_channel_body(
    alloc: Global,
    config: &Config,
    header: &ChannelHeader,
) -> Result<Vec<u8>, AllocError>
    ensures { IfOk result (λ body. body.items ≡ channel_bytes config.now header.now) }
{
    let mut body = make_header(alloc, header)?;
    body.extend_from_slice(&make_config_bytes(alloc, config)?)?;
    Ok(body)
}

/// Returns the header of the body: the kind, the version of the format in two bytes, the boot id in 16, and the base in 169.
fn make_header(alloc: Global, header: &ChannelHeader) -> Result<Vec<u8>, AllocError>
    ensures { IfOk result (λ out. out.items ≡ header_bytes header.now) }
{
    let mut out = Vec::new(alloc);
    out.push(CHANNEL)?;
    out.extend_from_slice(&FORMAT_VERSION.to_le_bytes())?;
    out.extend_from_slice(&header.boot)?;
    push_base(&mut out, &header.base)?;
    Ok(out)
}

fn push_base(out: &mut Vec<u8>, base: &Base) -> Result<(), AllocError>
    ensures { OnOk result (out.new.items ≡ out.old.items ++ base_bytes base.now) }
{
    out.extend_from_slice(&base.run())?;
    push_number(out, base.segments())?;
    push_number(out, base.marks())?;
    out.push(u8::from(base.marked()))?;
    push_number(out, base.version())?;
    push_counts(out, base)
}

/// Appends the bytes that precede, of 16 renditions.
fn push_counts(out: &mut Vec<u8>, base: &Base) -> Result<(), AllocError>
    ensures { OnOk result (out.new.items ≡ out.old.items ++ counts_bytes base.now 16) }
{
    for rendition in 0..16 {
        push_number(out, base.bytes(rendition))?;
    }
    Ok(())
}

fn push_number(out: &mut Vec<u8>, number: u64) -> Result<(), AllocError>
    ensures { OnOk result (out.new.items ≡ out.old.items ++ little_bytes 8 number) }
{
    out.extend_from_slice(&number.to_le_bytes())?;
    Ok(())
}

/// The bytes of a configuration: target and preferred length, whether there is an epoch, the epoch, and the renditions.
fn make_config_bytes(alloc: Global, config: &Config) -> Result<Vec<u8>, AllocError>
    ensures { IfOk result (λ out. out.items ≡ config_bytes config.now) }
{
    let mut out = Vec::new(alloc);
    push_number(&mut out, config.target())?;
    push_number(&mut out, config.preferred())?;
    push_epoch(&mut out, config.epoch())?;
    push_renditions(&mut out, config.renditions())?;
    Ok(out)
}

fn push_epoch(out: &mut Vec<u8>, epoch: Option<i64>) -> Result<(), AllocError>
    ensures { OnOk result (out.new.items ≡ out.old.items ++ epoch_bytes epoch) }
{
    match epoch {
        None => {
            out.push(0)?;
            push_number(out, 0)?;
        }
        Some(us) => {
            out.push(1)?;
            push_number(out, us.unsigned_abs())?;
        }
    }
    Ok(())
}

fn push_renditions(out: &mut Vec<u8>, renditions: &[Rendition]) -> Result<(), AllocError>
    ensures { OnOk result (out.new.items ≡ out.old.items ++ flat_map rendition_bytes renditions.now) }
{
    for rendition in renditions {
        push_rendition(out, rendition)?;
    }
    Ok(())
}

/// The bytes of a rendition: its name in 32, whether it is video, its bandwidth and its tolerance.
fn push_rendition(out: &mut Vec<u8>, rendition: &Rendition) -> Result<(), AllocError>
    ensures { OnOk result (out.new.items ≡ out.old.items ++ rendition_bytes rendition.now) }
{
    push_name(out, &rendition.name)?;
    out.push(u8::from(rendition.video))?;
    push_number(out, rendition.bandwidth)?;
    push_number(out, rendition.tolerance)?;
    Ok(())
}

/// Appends a name, and zero bytes up to 32.
fn push_name(out: &mut Vec<u8>, name: &[u8]) -> Result<(), AllocError>
    ensures { OnOk result (out.new.items ≡ out.old.items ++ name_bytes name.now) }
{
    out.extend_from_slice(name)?;
    let zeros = [0; NAME_LEN];
    out.extend_from_slice(&zeros[..NAME_LEN.saturating_sub(name.len())])?;
    Ok(())
}

/// Reads the record of a channel, which must have this configuration; its base is the record's.
///
/// The faults are found in this order. `NoChannel`: another record. `UnknownVersion`: the format has another version. `NoChannel`: the
/// record is too short, or nothing can have its base. `JournalOther`: the first field in which the configurations differ.
pub fn read_channel(
    alloc: Global,
    body: &[u8],
    config: &Config,
) -> Result<ChannelHeader, JournalFault>
    ensures header { IfOk result (λ header. body.now ≡ channel_bytes config.now header) }
    ensures fault { IfErr result (IsChannelFault config.now body.now) }
{
    check_version(body)?;
    let Some(header) = read_header(alloc, body)? else {
        return Err(JournalFault::NoChannel);
    };
    let given = make_config_bytes(alloc, config)?;
    match compare_configs(config_part(body), &given) {
        Ok(()) => Ok(header),
        Err(fault) => Err(fault),
    }
}

/// Returns the configuration in a body.
fn config_part(body: &[u8]) -> &[u8]
    requires { 213 ≤ length body.now }
    ensures value { result.now ≡ config_in body.now }
    ensures len { 25 ≤ length result.now }
{
    &body[CONFIG_AT..]
}

fn check_version(body: &[u8]) -> Result<(), JournalFault>
    ensures { JudgesVersion body.now result }
{
    if body.len() < BOOT_AT || body[0] != CHANNEL {
        return Err(JournalFault::NoChannel);
    }
    let version = LittleEndian::read_u16(&body[1..]);
    if version != FORMAT_VERSION {
        return Err(JournalFault::UnknownVersion { version });
    }
    Ok(())
}

/// Returns the boot id and the base; `None` if the body is too short, or if nothing can have this base.
fn read_header(alloc: Global, body: &[u8]) -> Result<Option<ChannelHeader>, AllocError>
    ensures { IfOk result (λ header. MatchOption header (HasHeader body.now → ⊥) (IsHeaderOf body.now)) }
{
    if body.len() < CONFIG_AT + RENDITIONS_AT {
        return Ok(None);
    }
    let Some(header) = parse_header(body) else {
        return Ok(None);
    };
    let again = make_header(alloc, &header)?;
    if begins_with(body, &again) {
        return Ok(Some(header));
    }
    Ok(None)
}

/// Whether a body begins with this header.
fn begins_with(body: &[u8], header: &[u8]) -> bool
    requires { 213 ≤ length body.now }
    ensures { IsTrue result ↔ (take header_len body.now ≡ header.now) }
{
    let front = &body[..CONFIG_AT];
    front == header
}

/// Returns the boot id and the base in the bytes of a header, whatever the other bytes are.
fn parse_header(body: &[u8]) -> Option<ChannelHeader>
    requires { 213 ≤ length body.now }
    ensures { MatchOption result (IsNoBase (base_in (base_part body.now))) (λ header. IsHeader header × (header.boot ≡ boot_part body.now) × (header.base ≡ base_in (base_part body.now))) }
{
    let boot = copy_16(body, BOOT_AT);
    match parse_base(&body[BASE_AT..CONFIG_AT]) {
        Some(base) => Some(ChannelHeader { boot, base }),
        None => None,
    }
}

/// Returns the 16 bytes at a place.
fn copy_16(text: &[u8], at: usize) -> [u8; 16]
    requires { at + 16 ≤ length text.now }
    ensures { result ≡ take 16 (drop at text.now) }
{
    let mut bytes = [0; 16];
    bytes.copy_from_slice(&text[at..at + 16]);
    bytes
}

fn parse_base(text: &[u8]) -> Option<Base>
    requires { length text.now ≡ 169 }
    ensures value { MatchOption result (IsNoBase (base_in text.now)) (λ base. base ≡ base_in text.now) }
    ensures valid { IfSome result IsWholeBase }
{
    let run = copy_16(text, 0);
    let segments = read_number(text, 16);
    let marks = read_number(text, 24);
    let version = read_number(text, 33);
    Base::new(
        run,
        segments,
        marks,
        is_set(text, 32),
        parse_counts(counts_part(text)),
        version,
    )
}

/// Whether the byte at a place isn't zero.
fn is_set(text: &[u8], at: usize) -> bool
    requires { at < length text.now }
    ensures { result ≡ not (get_or text.now at 0 == 0) }
{
    text[at] != 0
}

fn counts_part(text: &[u8]) -> &[u8]
    requires { length text.now ≡ 169 }
    ensures value { result.now ≡ drop 41 text.now }
    ensures len { length result.now ≡ 128 }
{
    &text[41..]
}

fn parse_counts(text: &[u8]) -> [u64; 16]
    requires { length text.now ≡ 128 }
    ensures { result ≡ counts_in text.now 16 }
{
    let mut counts = [0; 16];
    for n in 0..16 {
        counts[n] = read_number(text, 8 * n);
    }
    counts
}

/// Compares two configurations: `JournalOther` has the first field in which they differ, with both values. Of renditions these are the
/// lengths of the configurations in bytes.
fn compare_configs(found: &[u8], given: &[u8]) -> Result<(), JournalFault>
    requires { (25 ≤ length found.now) × (25 ≤ length given.now) }
    ensures { JudgesConfigs found.now given.now result }
{
    let (journal, mine) = (read_number(found, 0), read_number(given, 0));
    if journal != mine {
        return Err(other(ConfigField::Target, journal, mine));
    }
    let (journal, mine) = (read_number(found, 8), read_number(given, 8));
    if journal != mine {
        return Err(other(ConfigField::Preferred, journal, mine));
    }
    if found[..RENDITIONS_AT] != given[..RENDITIONS_AT] {
        return Err(other(
            ConfigField::Epoch,
            read_number(found, 17),
            read_number(given, 17),
        ));
    }
    if found != given {
        return Err(other(
            ConfigField::Renditions,
            found.len() as u64,
            given.len() as u64,
        ));
    }
    Ok(())
}

/// Returns the number in the eight bytes at `at`.
fn read_number(text: &[u8], at: usize) -> u64
    requires { at + 8 ≤ length text.now }
    ensures { result ≡ number_at at text.now }
{
    LittleEndian::read_u64(&text[at..])
}

fn other(field: ConfigField, journal: u64, given: u64) -> JournalFault
    ensures { result ≡ JournalOther field journal given }
{
    JournalFault::JournalOther {
        field,
        journal,
        given,
    }
}
