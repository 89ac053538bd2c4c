//! What is recorded for a unit.

use bytes::Bytes;
use hls_media_laws::facts::Facts;

/// A unit and its facts.
#[derive(Drop)]
pub struct ReadUnit {
    pub facts: Facts,
    pub bytes: Bytes,
}

/// What is recorded for a unit.
#[derive(Drop)]
pub struct MendedUnit {
    /// Fillers before it, in order.
    pub fillers: Vec<ReadUnit>,
    /// The unit, as it was sent or written again.
    pub unit: ReadUnit,
    /// Whether it was written again.
    pub is_changed: bool,
}
