//! The types of boxes below `mdia` and of sample entries, as big-endian numbers of their four letters.

/// Media information box (ISO/IEC 14496-12 8.4.4).
pub const MINF: u32 = 0x6d696e66;

/// Sample table box (ISO/IEC 14496-12 8.5.1).
pub const STBL: u32 = 0x7374626c;

/// Sample description box (ISO/IEC 14496-12 8.5.2).
pub const STSD: u32 = 0x73747364;

/// Protection scheme information box (ISO/IEC 14496-12 8.12.1).
pub const SINF: u32 = 0x73696e66;

/// Original format box (ISO/IEC 14496-12 8.12.2).
pub const FRMA: u32 = 0x66726d61;

/// Pixel aspect ratio box (ISO/IEC 14496-12 12.1.4).
pub const PASP: u32 = 0x70617370;

/// Colour information box (ISO/IEC 14496-12 12.1.5).
pub const COLR: u32 = 0x636f6c72;

/// Colour information as numbers.
pub const NCLX: u32 = 0x6e636c78;

/// The same in a QuickTime file, without a full range flag.
pub const NCLC: u32 = 0x6e636c63;

/// Sample entry of an encrypted video track (ISO/IEC 14496-12 8.12).
pub const ENCV: u32 = 0x656e6376;

/// Sample entry of an encrypted audio track.
pub const ENCA: u32 = 0x656e6361;

/// Sample entry of H.264, with its parameter sets (ISO/IEC 14496-15 5.4.2).
pub const AVC1: u32 = 0x61766331;

/// Sample entry of H.264 whose samples may have the parameter sets.
pub const AVC3: u32 = 0x61766333;

/// Configuration box of H.264.
pub const AVCC: u32 = 0x61766343;

/// Sample entry of H.265, with its parameter sets (ISO/IEC 14496-15 8.4.1).
pub const HVC1: u32 = 0x68766331;

/// Sample entry of H.265 whose samples may have the parameter sets.
pub const HEV1: u32 = 0x68657631;

/// Configuration box of H.265.
pub const HVCC: u32 = 0x68766343;

/// Sample entry of AV1.
pub const AV01: u32 = 0x61763031;

/// Configuration box of AV1.
pub const AV1C: u32 = 0x61763143;

/// Sample entry of VP9.
pub const VP09: u32 = 0x76703039;

/// Configuration box of VP9.
pub const VPCC: u32 = 0x76706343;

/// Sample entry of MPEG-4 audio (ISO/IEC 14496-14 6.7).
pub const MP4A: u32 = 0x6d703461;

/// Elementary stream descriptor box.
pub const ESDS: u32 = 0x65736473;

/// In a QuickTime file: the box around `esds`.
pub const WAVE: u32 = 0x77617665;

/// Sample entry of AC-3 (ETSI TS 102 366 F.3).
pub const AC3: u32 = 0x61632d33;

/// Configuration box of AC-3.
pub const DAC3: u32 = 0x64616333;

/// Sample entry of Enhanced AC-3 (ETSI TS 102 366 F.5).
pub const EC3: u32 = 0x65632d33;

/// Configuration box of Enhanced AC-3.
pub const DEC3: u32 = 0x64656333;

/// Sample entry of Opus.
pub const OPUS: u32 = 0x4f707573;

/// Configuration box of Opus.
pub const DOPS: u32 = 0x644f7073;

/// Sample entry of FLAC.
pub const FLAC: u32 = 0x664c6143;

/// Configuration box of FLAC.
pub const DFLA: u32 = 0x64664c61;

/// Sample entry of ALAC, and the configuration box in it.
pub const ALAC: u32 = 0x616c6163;
