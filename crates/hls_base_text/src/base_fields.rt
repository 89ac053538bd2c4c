//! What the lines of a base give.

/// The values of a base's lines, whether or not they can precede a process together.
#[derive(Clone, Copy, Drop)]
pub struct BaseFields {
    /// The run's name, filled up with zero bytes.
    pub run: [u8; 16],
    pub segments: u64,
    pub marks: u64,
    pub marked: bool,
    /// By rendition; 0 after the last one.
    pub bytes: [u64; 16],
    pub version: u64,
}
