//! A catch-up request.

use hls_check_tables::CostRule;

/// A programme that a client asks for, from `start_us` to `stop_us`, cut into segments near the `preferred` length, whose cost is
/// given by a rule; all in microseconds.
#[derive(Clone, Copy, Debug, PartialEq, Eq)]
pub struct Request {
    pub start_us: u64,
    pub stop_us: u64,
    pub preferred: u64,
    pub rule: CostRule,
}
