//! The result of a step.

use crate::snapshot::Snapshot;
use std::sync::Arc;

/// The result of a step that wasn't refused.
#[derive(Drop)]
pub enum Stepped {
    /// The event is new: the snapshot after it.
    New(Arc<Snapshot>),
    /// The event duplicates what is there; the snapshot is unchanged, and the log has no new entry.
    Repeat,
}
