//! The configuration of a channel, and its faults.

ghost use Rattle.std.specs.Prelude.{◌≡◌, ℕ, ◌*◌, ◌<◌, ◌≤◌, ◌↔◌, length, IsTrue, IfOk, slice_get, None, Some, Err, Any, MatchOption};
ghost use Rattle.std.specs.Str.{bytes_eq};
ghost use Rattle.hls_core_laws.specs.Config.{is_name_byte, IsName, IsRendition, IsRenditionAt, AreRenditions, IsEpoch, IsConfig};
ghost use Rattle.hls_core_laws.specs.Base.{IsBase};
ghost use Rattle.hls_core.specs.Bases.{config_after};
ghost use Rattle.hls_core.specs.Configures.{configured_from, Configures};
ghost use Rattle.hls_core.specs.FirstBad.{IsFirstBadRendition, has_name};

use crate::base::Base;
use bytes::Bytes;
use hls_check_tables::{RENDITION_LIMIT, TARGET_LIMIT};
use hls_core_laws::rendition::Rendition;
use hls_text::variant_name;
use std::alloc::{AllocError, Global};
use std::fmt::{self, Display, Formatter, Write};
use std::marker::Model;
use std::sync::Arc;
use thiserror::Error;

/// 9000-01-01T00:00:00Z in microseconds since 1970-01-01T00:00:00Z: the last possible epoch.
pub const LAST_EPOCH: i64 = 221845392000000000;

/// Why a configuration is refused.
#[derive(Clone, Copy, Debug, PartialEq, Eq, Error)]
pub enum ConfigFault {
    /// The target duration isn't 1 to 3600 seconds.
    BadTarget,
    /// The preferred segment length isn't 1 microsecond to the target duration.
    BadPreferred,
    /// The number of the first rendition that is outside its limits, or that has the name of an earlier one; 0 if there is no
    /// rendition, and 16 if the only fault is a seventeenth.
    BadRendition(usize),
    /// The epoch is before 1970, or after 9000-01-01T00:00:00Z.
    BadEpoch,
    /// Out of memory.
    Memory,
}

/// The configuration of a channel: 1 to 16 renditions, a target duration of 1 to 3600 seconds, a preferred segment length of 1
/// microsecond to the target, optionally the instant of time 0, from 1970 to 9000-01-01T00:00:00Z, and what precedes the recordings.
/// It never changes, and is shared by all states of the channel.
#[derive(Drop)]
pub struct Config {
    target: u64,
    preferred: u64,
    renditions: Arc<Vec<Rendition>>,
    epoch: Option<i64>,
    base: Base,
}

impl Model for Config {
    ghost use Rattle.hls_core_laws.specs.Config.{ConfigData, IsConfig};

    ghost Value = { ConfigData };

    ghost view = { λ c. record { target = c.target; preferred = c.preferred; renditions = c.renditions.value.items; epoch = c.epoch; base = c.base } };

    ghost invariant = { λ c. IsConfig (record { target = c.target; preferred = c.preferred; renditions = c.renditions.value.items; epoch = c.epoch; base = c.base }) };
}

impl ConfigFault {
    ghost use Rattle.hls_core.specs.ConfigFaultName.{name_of};

    /// Returns the variant's name, as programs print it.
    pub fn name(&self) -> &'static str
        ensures { result.now ≡ name_of self.now }
    {
        variant_name!(self; ConfigFault: BadTarget, BadPreferred, BadRendition, BadEpoch, Memory)
    }
}

impl Display for ConfigFault {
    fn fmt<W: Write>(&self, f: &mut Formatter<W>) -> fmt::Result {
        f.write_str(self.name())
    }
}

impl Config {
    /// Makes a configuration of a target duration in seconds, a preferred segment length in microseconds, and the renditions in
    /// order, without an epoch.
    pub fn new(
        alloc: Global,
        target: u64,
        preferred: u64,
        renditions: Vec<Rendition>,
    ) -> Result<Config, ConfigFault>
        ensures { Configures target preferred renditions.items None result }
    {
        Config::with_epoch(alloc, target, preferred, renditions, None)
    }

    /// Makes a configuration as `new` does, with an optional epoch: time 0 in microseconds since 1970-01-01T00:00:00Z.
    pub fn with_epoch(
        alloc: Global,
        target: u64,
        preferred: u64,
        renditions: Vec<Rendition>,
        epoch: Option<i64>,
    ) -> Result<Config, ConfigFault>
        ensures { Configures target preferred renditions.items epoch result }
    {
        if let Some(fault) = find_config_fault(target, preferred, &renditions, epoch) {
            return Err(fault);
        }
        match Arc::new(alloc, renditions) {
            Ok(renditions) => Ok(Config {
                target,
                preferred,
                renditions,
                epoch,
                base: Base::none(),
            }),
            Err(_) => Err(ConfigFault::Memory),
        }
    }

    /// Returns the same configuration over the same memory.
    pub fn share(&self) -> Result<Config, AllocError>
        ensures { IfOk result (λ c. c ≡ self.now) }
    {
        Ok(Config {
            target: self.target,
            preferred: self.preferred,
            renditions: Arc::try_clone(&self.renditions)?,
            epoch: self.epoch,
            base: self.base,
        })
    }

    /// Returns the configuration with this base.
    pub fn with_base(self, base: Base) -> Config
        ensures { result ≡ config_after self base }
    {
        let _ = base.segments(); // the proof needs that the base is valid
        let Config {
            target,
            preferred,
            renditions,
            epoch,
            base: _,
        } = self;
        Config {
            target,
            preferred,
            renditions,
            epoch,
            base,
        }
    }

    /// Returns the target duration in seconds (RFC 8216 4.3.3.1).
    pub fn target(&self) -> u64
        ensures value { result ≡ self.now.target }
        ensures valid { IsConfig self.now }
    {
        self.target
    }

    /// Returns the preferred segment length in microseconds.
    pub fn preferred(&self) -> u64
        ensures value { result ≡ self.now.preferred }
        ensures valid { IsConfig self.now }
    {
        self.preferred
    }

    /// Returns the renditions in order.
    pub fn renditions(&self) -> &[Rendition]
        ensures value { result.now ≡ self.now.renditions }
        ensures valid { IsConfig self.now }
    {
        &self.renditions
    }

    /// Returns the instant of time 0 in microseconds since 1970-01-01T00:00:00Z, if it is known.
    pub fn epoch(&self) -> Option<i64>
        ensures value { result ≡ self.now.epoch }
        ensures range { IsEpoch result }
        ensures valid { IsConfig self.now }
    {
        self.epoch
    }

    /// Returns what precedes the recordings.
    pub fn base(&self) -> &Base
        ensures value { result.now ≡ self.now.base }
        ensures base { IsBase self.now.base }
        ensures valid { IsConfig self.now }
    {
        &self.base
    }
}

/// Returns the first fault of a configuration, if any.
fn find_config_fault(
    target: u64,
    preferred: u64,
    renditions: &[Rendition],
    epoch: Option<i64>,
) -> Option<ConfigFault>
    ensures { MatchOption result (IsConfig (configured_from target preferred renditions.now epoch)) (λ fault. Configures target preferred renditions.now epoch (Err fault)) }
{
    if target == 0 || target > TARGET_LIMIT {
        return Some(ConfigFault::BadTarget);
    }
    if preferred == 0 || preferred > target * 1000000 {
        return Some(ConfigFault::BadPreferred);
    }
    if let Some(n) = first_bad_rendition(renditions) {
        return Some(ConfigFault::BadRendition(n));
    }
    if !is_epoch(epoch) {
        return Some(ConfigFault::BadEpoch);
    }
    None
}

/// Whether this is no epoch or a valid one: from 1970 to 9000-01-01T00:00:00Z.
fn is_epoch(epoch: Option<i64>) -> bool
    ensures { IsTrue result ↔ IsEpoch epoch }
{
    match epoch {
        None => true,
        Some(us) => 0 <= us && us <= LAST_EPOCH,
    }
}

/// Returns the number of the first rendition that is invalid at its number, if any.
fn first_bad_rendition(renditions: &[Rendition]) -> Option<usize>
    ensures { MatchOption result (AreRenditions renditions.now) (λ n. IsFirstBadRendition renditions.now n) }
{
    if renditions.is_empty() {
        return Some(0);
    }
    for (n, rendition) in renditions.iter().enumerate() {
        if n == RENDITION_LIMIT {
            return Some(n);
        }
        if !is_rendition_at(renditions, n, rendition) {
            return Some(n);
        }
    }
    None
}

fn is_rendition_at(renditions: &[Rendition], n: usize, rendition: &Rendition) -> bool
    requires { n < length renditions.now }
    ensures { IsTrue result ↔ IsRenditionAt renditions.now n rendition.now }
{
    if !is_rendition(rendition) {
        return false;
    }
    if !may_tolerate(n, rendition.tolerance) {
        return false;
    }
    !has_name(&renditions[..n], &rendition.name)
}

/// Whether a rendition may have this tolerance: the first one has none.
fn may_tolerate(n: usize, tolerance: u64) -> bool
    ensures { IsTrue result ↔ (n ≡ 0 → tolerance ≡ 0) }
{
    n != 0 || tolerance == 0
}

/// Whether a rendition is within its own limits.
fn is_rendition(rendition: &Rendition) -> bool
    ensures { IsTrue result ↔ IsRendition rendition.now }
{
    is_name(&rendition.name)
        && 1 <= rendition.bandwidth
        && rendition.bandwidth <= 1000000000000
        && rendition.tolerance <= 500000
}

fn is_name(name: &[u8]) -> bool
    ensures { IsTrue result ↔ IsName name.now }
{
    !name.is_empty() && name.len() <= 32 && name.iter().all(|byte| is_name_byte(*byte))
}

fn is_name_byte(byte: u8) -> bool
    ensures { result ≡ is_name_byte byte }
{
    byte.is_ascii_digit()
        || byte.is_ascii_uppercase()
        || byte.is_ascii_lowercase()
        || byte == b'-'
        || byte == b'_'
}

/// Whether one of the renditions has this name.
fn has_name(renditions: &[Rendition], name: &[u8]) -> bool
    ensures { result ≡ has_name renditions.now name.now }
{
    for rendition in renditions {
        if &rendition.name[..] == name {
            return true;
        }
    }
    false
}
