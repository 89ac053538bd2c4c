//! Which fields of their samples the rows of a `trun` have.

/// A field of the rows.
#[derive(Clone, Copy)]
pub struct Column {
    /// Whether rows have the field.
    pub present: bool,
    /// The value of each sample if rows don't have the field.
    pub default: u32,
}

/// The fields of the rows of a `trun`, in the order in which a row has them (ISO/IEC 14496-12 8.8.8).
#[derive(Clone, Copy)]
pub struct RowFormat {
    pub duration: Column,
    pub size: Column,
    pub flags: Column,
    pub offset: Column,
}

/// The defaults of a track fragment's samples: those of its `tfhd`, or else those of its track's `trex`.
#[derive(Clone, Copy)]
pub struct SampleDefaults {
    /// In ticks.
    pub duration: Option<u32>,
    /// In bytes.
    pub size: Option<u32>,
    pub flags: Option<u32>,
}
