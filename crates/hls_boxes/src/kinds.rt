//! The types of top-level boxes that the cut distinguishes, as big-endian numbers of their four letters, and the limits of the parts that
//! they end.

/// Movie box: it ends an init section (ISO/IEC 14496-12 8.2.1).
pub const MOOV: u32 = 0x6d6f6f76;

/// Movie fragment box: a unit has exactly one (ISO/IEC 14496-12 8.8.4).
pub const MOOF: u32 = 0x6d6f6f66;

/// Media data box: it ends a unit (ISO/IEC 14496-12 8.1.1).
pub const MDAT: u32 = 0x6d646174;

/// The maximum length of an init section in bytes, including loose boxes before its `moov`.
pub const INIT_LIMIT: u64 = 1048576;

/// The maximum length in bytes of a unit, and of the loose boxes of a part.
pub const UNIT_LIMIT: u64 = 67108864;
