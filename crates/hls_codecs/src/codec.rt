//! The codec of a track, as the configuration box of its sample entry says.

/// Where the parameter sets of H.264 or H.265 are.
#[derive(Clone, Copy)]
pub enum ParameterSets {
    /// In the sample entry: `avc1`, `hvc1`.
    OutOfBand,
    /// In the samples too: `avc3`, `hev1`.
    InBand,
}

/// H.264 (ISO/IEC 14496-15 5.3.3.1).
#[derive(Clone, Copy)]
pub struct AvcConfig {
    pub sets: ParameterSets,
    /// `AVCProfileIndication`.
    pub profile: u8,
    /// `profile_compatibility`: the constraint flags.
    pub constraints: u8,
    /// `AVCLevelIndication`.
    pub level: u8,
}

/// H.265 (ISO/IEC 14496-15 8.3.3.1).
#[derive(Clone, Copy)]
pub struct HevcConfig {
    pub sets: ParameterSets,
    /// `general_profile_space`, below 4.
    pub profile_space: u8,
    /// `general_tier_flag`.
    pub high_tier: bool,
    /// `general_profile_idc`, below 32.
    pub profile: u8,
    /// `general_profile_compatibility_flags`.
    pub compatibility: u32,
    /// `general_constraint_indicator_flags`, six bytes.
    pub constraints: [u8; 6],
    /// `general_level_idc`.
    pub level: u8,
}

/// Colours as numbers (ISO/IEC 23091-2).
#[derive(Clone, Copy)]
pub struct Colours {
    /// `colour_primaries`.
    pub primaries: u16,
    /// `transfer_characteristics`.
    pub transfer: u16,
    /// `matrix_coefficients`.
    pub matrix: u16,
    /// `video_full_range_flag`.
    pub full_range: bool,
}

/// AV1 (AV1 in ISOBMFF 2.3.3).
#[derive(Clone, Copy)]
pub struct Av1Config {
    /// `seq_profile`, below 8.
    pub profile: u8,
    /// `seq_level_idx_0`, below 32.
    pub level: u8,
    /// `seq_tier_0`.
    pub high_tier: bool,
    /// Bits per sample: 8, 10 or 12.
    pub depth: u8,
    /// `monochrome`.
    pub monochrome: bool,
    /// `chroma_subsampling_x`.
    pub subsampling_x: bool,
    /// `chroma_subsampling_y`.
    pub subsampling_y: bool,
    /// `chroma_sample_position`, below 4.
    pub position: u8,
    pub colours: Colours,
}

/// VP9 (VP Codec ISO Media File Format Binding).
#[derive(Clone, Copy)]
pub struct Vp9Config {
    pub profile: u8,
    /// Ten times the level.
    pub level: u8,
    /// `bitDepth`, below 16.
    pub depth: u8,
    /// `chromaSubsampling`, below 8.
    pub chroma: u8,
    pub colours: Colours,
}

/// What an `mp4a` entry contains (RFC 6381 section 3.3).
#[derive(Clone, Copy)]
pub enum Mp4aConfig {
    /// MPEG-4 audio (`objectTypeIndication` 0x40), with its audio object type.
    Mpeg4(u8),
    /// Another `objectTypeIndication`, above 0.
    Other(u8),
}

/// The codec of a track.
#[derive(Clone, Copy)]
pub enum Codec {
    Avc(AvcConfig),
    Hevc(HevcConfig),
    Av1(Av1Config),
    Vp9(Vp9Config),
    Mp4a(Mp4aConfig),
    Ac3,
    Ec3,
    Opus,
    Flac,
    Alac,
}

/// Those of ITU-R BT.709 with limited range, which a string may leave out.
pub const USUAL_COLOURS: Colours = Colours {
    primaries: 1,
    transfer: 1,
    matrix: 1,
    full_range: false,
};
