//! Reads the configuration boxes of video codecs.

ghost use Rattle.std.specs.Prelude.{◌≡◌};
ghost use Rattle.hls_codecs.specs.Codecs.{avc_config, hevc_config, av1_config, av1_depth, vp9_config};

use crate::codec::{Av1Config, AvcConfig, Colours, HevcConfig, ParameterSets, Vp9Config};
use hls_boxes::numbers::u32_at;

/// Reads the content of an `avcC` box.
#[tactic(auto, unfolding(crate::specs::Codecs::avc_config))]
pub fn read_avc(sets: ParameterSets, content: &[u8]) -> Option<AvcConfig>
    ensures { result ≡ avc_config sets content.now }
{
    if content.len() < 4 || content[0] != 1 {
        return None;
    }
    Some(AvcConfig {
        sets,
        profile: content[1],
        constraints: content[2],
        level: content[3],
    })
}

/// Reads the content of an `hvcC` box.
#[tactic(auto, unfolding(crate::specs::Codecs::hevc_config))]
pub fn read_hevc(sets: ParameterSets, content: &[u8]) -> Option<HevcConfig>
    ensures { result ≡ hevc_config sets content.now }
{
    if content.len() < 13 || content[0] != 1 {
        return None;
    }
    Some(HevcConfig {
        sets,
        profile_space: content[1] / 64,
        high_tier: content[1] / 32 % 2 == 1,
        profile: content[1] % 32,
        compatibility: u32_at(content, 2),
        constraints: [
            content[6],
            content[7],
            content[8],
            content[9],
            content[10],
            content[11],
        ],
        level: content[12],
    })
}

/// Bits per sample of AV1.
fn av1_depth(profile: u8, high: bool, twelve: bool) -> u8
    ensures { result ≡ av1_depth profile high twelve }
{
    if !high {
        return 8;
    }
    if profile == 2 && twelve { 12 } else { 10 }
}

/// Reads the content of an `av1C` box; the colours are those of `colr`.
#[tactic(auto, unfolding(crate::specs::Codecs::av1_config))]
pub fn read_av1(colours: Colours, content: &[u8]) -> Option<Av1Config>
    ensures { result ≡ av1_config colours content.now }
{
    if content.len() < 4 || content[0] != 0x81 {
        return None;
    }
    let profile = content[1] / 32;
    let flags = content[2];
    Some(Av1Config {
        profile,
        level: content[1] % 32,
        high_tier: flags / 128 == 1,
        depth: av1_depth(profile, flags / 64 % 2 == 1, flags / 32 % 2 == 1),
        monochrome: flags / 16 % 2 == 1,
        subsampling_x: flags / 8 % 2 == 1,
        subsampling_y: flags / 4 % 2 == 1,
        position: flags % 4,
        colours,
    })
}

/// Reads the content of a `vpcC` box.
#[tactic(auto, unfolding(crate::specs::Codecs::vp9_config))]
pub fn read_vp9(content: &[u8]) -> Option<Vp9Config>
    ensures { result ≡ vp9_config content.now }
{
    if content.len() < 12 || content[0] != 1 {
        return None;
    }
    Some(Vp9Config {
        profile: content[4],
        level: content[5],
        depth: content[6] / 16,
        chroma: content[6] / 2 % 8,
        colours: Colours {
            primaries: u16::from(content[7]),
            transfer: u16::from(content[8]),
            matrix: u16::from(content[9]),
            full_range: content[6] % 2 == 1,
        },
    })
}
