//! The query of a catch-up request.

ghost use Rattle.std.specs.Prelude.{◌≡◌};
ghost use Rattle.hls_api.specs.Queries.{query_fault_name};

/// A moment in a query.
#[derive(Clone, Copy, Debug, PartialEq, Eq, Drop)]
pub enum TimePoint {
    /// Microseconds from time 0.
    Time(u64),
    /// An instant: microseconds since 1970-01-01T00:00:00Z.
    Instant(i64),
}

/// The query of a catch-up request, independent of the channel: the start and the end of the programme, and in microseconds the
/// preferred length of its segments and the charge for each.
#[derive(Clone, Copy, Debug, PartialEq, Eq, Drop)]
pub struct CatchupQuery {
    /// `from`.
    pub start: TimePoint,
    /// `to`.
    pub stop: TimePoint,
    /// `preferred`; `None` for the channel's own length.
    pub preferred: Option<u64>,
    /// `charge`; `None` for rule 1.
    pub charge: Option<u64>,
}

/// Why a query is refused.
#[derive(Clone, Copy, Debug, PartialEq, Eq, Drop)]
pub enum QueryFault {
    /// A key is missing or invalid, or an instant is given but the channel has no epoch.
    BadQuery,
    /// The query is valid, but an instant precedes the channel's epoch.
    BeforeEpoch,
}

impl QueryFault {
    /// Returns its name, as replies print it.
    pub fn name(&self) -> &'static str
        ensures { result.now ≡ query_fault_name self.now }
    {
        match self {
            QueryFault::BadQuery => "BadQuery",
            QueryFault::BeforeEpoch => "BeforeEpoch",
        }
    }
}
