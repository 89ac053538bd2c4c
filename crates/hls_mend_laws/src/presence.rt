//! What the origin last heard from a rendition's encoder.

/// The state of a rendition's encoder. Times are readings of one monotonic clock, in microseconds.
#[derive(Clone, Copy)]
pub struct Presence {
    /// Whether the rendition has an init section and isn't finished.
    pub is_open: bool,
    /// When its last unit arrived that wasn't ahead of the channel, recorded or not.
    pub heard_us: u64,
    /// Whether the last unit that arrived was refused as ahead of the channel.
    pub is_ahead: bool,
}
