//! The samples of a track fragment.

/// A sample of a track fragment: the four fields that a row of a `trun` may have (ISO/IEC 14496-12 8.8.8).
#[derive(Clone, Copy, Debug, PartialEq, Eq)]
pub struct Sample {
    /// In ticks of the track's timescale.
    pub duration: u32,
    /// In bytes.
    pub size: u32,
    /// Bit 0x00010000 says that the sample isn't a sync sample.
    pub flags: u32,
    /// The composition time offset, as the 32 bits of its field.
    pub offset: u32,
}
