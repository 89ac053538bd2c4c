//! The parameters of a catch-up request.

/// What the query of a catch-up request asks of a channel: the programme from `start_us` to `stop_us`, the preferred length of its
/// segments, and the charge for each; all in microseconds. It doesn't matter here whether the channel has such a programme.
#[derive(Clone, Copy, Debug, PartialEq, Eq, Drop)]
pub struct CatchupParams {
    /// `from`.
    pub start_us: u64,
    /// `to`.
    pub stop_us: u64,
    /// `preferred`; `None` for the channel's own length.
    pub preferred: Option<u64>,
    /// `charge`; `None` for rule 1.
    pub charge: Option<u64>,
}
