//! The channel into which a stream is recorded, and how it is listed.
ghost use Rattle.std.specs.Prelude.{◌≡◌, IfOk};
ghost use Rattle.hls_commands.specs.Listings.{CanList};
ghost use Rattle.hls_commands.specs.Channel.{config_of, listing_mode_of, stream_rendition};

use crate::listing_mode::ListingMode;
use bytes::Bytes;
use hls_core::config::{Config, ConfigFault};
use hls_core_laws::rendition::Rendition;
use hls_settings::CutOptions;
use std::alloc::{AllocError, Global};

/// Makes the only rendition.
fn make_rendition(alloc: Global) -> Result<Rendition, AllocError>
    ensures { IfOk result (λ r. r ≡ stream_rendition) }
{
    Ok(Rendition {
        name: Bytes::copy_from_slice(alloc, b"stream")?,
        video: true,
        bandwidth: 1,
        tolerance: 0,
    })
}

/// Makes the configuration of a channel of one rendition from the options.
pub fn make_config(alloc: Global, options: &CutOptions<'_>) -> Result<Config, AllocError>
    ensures { IfOk result (λ config. config ≡ config_of options.now) }
{
    let preferred = match options.preferred() {
        Some(length) => length,
        None => options.target() * 1_000_000,
    };
    let mut renditions = Vec::with_capacity(alloc, 1)?;
    renditions.push(make_rendition(alloc)?)?;
    match Config::with_epoch(
        alloc,
        options.target(),
        preferred,
        renditions,
        options.epoch(),
    ) {
        Ok(config) => Ok(config),
        Err(ConfigFault::Memory) => Err(AllocError),
        Err(_) => unreachable!(),
    }
}

/// Returns how the recorded stream is listed: each place begins a segment, or a least plan is made.
pub fn listing_mode(options: &CutOptions<'_>) -> ListingMode
    ensures value { result ≡ listing_mode_of options.now }
    ensures in_range { CanList result }
{
    if options.preferred().is_none() {
        return ListingMode::Each;
    }
    ListingMode::Planned {
        rule: options.rule(),
        certificate: options.wants_certificate(),
    }
}
