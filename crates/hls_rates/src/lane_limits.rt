//! The limits of a rendition.

ghost use Rattle.std.specs.Prelude.{◌≤◌};

use crate::rate::Rate;

/// The limits of a rendition.
#[derive(Clone, Copy, Debug, PartialEq, Eq, Drop)]
pub struct LaneLimits {
    pub units: Rate,
    pub bytes: Rate,
    /// For how long a body has a place that another one waits for, in milliseconds.
    pub patience_ms: u64,
    ghost some_units: { 1 ≤ units.per_second },
    ghost some_bytes: { 1 ≤ bytes.per_second },
}
