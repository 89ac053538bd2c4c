//! What a filler is made for.

/// When a filler starts, how long it lasts, and how many bytes its samples may have.
#[derive(Clone, Copy)]
pub struct FillerSpan {
    /// In ticks.
    pub start: u64,
    /// In ticks.
    pub ticks: u64,
    /// The most bytes of its samples.
    pub most: u32,
}

/// How long each frame of a codec lasts, as a fraction of ticks: `ticks` divided by `rate`.
#[derive(Clone, Copy)]
pub struct FrameLength {
    /// The samples of a frame in one channel, times the ticks per second.
    pub ticks: u64,
    /// The sampling rate in Hz.
    pub rate: u32,
}
