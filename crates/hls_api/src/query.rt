//! Parses the query of a catch-up request.

ghost use Rattle.std.specs.Prelude.{◌≡◌, ◌-ℤ◌, IfOk, map, option_copied};
ghost use Rattle.hls_http.specs.Query.{pair_bytes};
ghost use Rattle.hls_api.specs.Queries.{from_epoch, time_point_of, optional_in, programme_query_in, programme_query_of, query_in, query_of, time_of};
ghost use Rattle.hls_api.specs.Queries as spec;

use crate::catchup_params::CatchupParams;
use crate::catchup_query::{CatchupQuery, QueryFault, TimePoint};
use hls_catchup::{CostRule, Request};
use hls_core::snapshot::Snapshot;
use hls_http::{find_query_value, parse_query};
use hls_instants::parse_instant;
use hls_text::{MAX_DIGITS, parse_digits};
use std::alloc::{AllocError, Global};

/// Parses a moment: 1 to 16 digits, or an instant.
pub(crate) fn parse_time_point(text: &[u8]) -> Option<TimePoint>
    ensures { result ≡ time_point_of text.now }
{
    match parse_digits(text, MAX_DIGITS) {
        Some(us) => Some(TimePoint::Time(us)),
        None => parse_instant(text).map(TimePoint::Instant),
    }
}

/// Parses the number of an optional key; `None` if it is given and invalid.
fn parse_optional_number(text: Option<&[u8]>) -> Option<Option<u64>>
    ensures { result ≡ optional_in (option_copied text.entry) }
{
    match text {
        Some(text) => parse_digits(text, MAX_DIGITS).map(Some),
        None => Some(None),
    }
}

/// Reads the pairs of a query.
fn read_pairs(pairs: &[(Vec<u8>, Vec<u8>)]) -> Option<CatchupQuery>
    ensures { result ≡ query_of (map pair_bytes pairs.now) }
{
    Some(CatchupQuery {
        start: parse_time_point(find_query_value(pairs, b"from")?)?,
        stop: parse_time_point(find_query_value(pairs, b"to")?)?,
        preferred: parse_optional_number(find_query_value(pairs, b"preferred"))?,
        charge: parse_optional_number(find_query_value(pairs, b"charge"))?,
    })
}

/// Parses a query: `from` and `to`, each 1 to 16 digits or an instant, and optionally `preferred` and `charge`, each 1 to 16 digits;
/// `None` if one of them is invalid. Of a repeated key the first counts, and other keys are ignored. The query is decoded once; each of
/// its keys and values is allocated.
pub fn read_query(alloc: Global, query: &[u8]) -> Result<Option<CatchupQuery>, AllocError>
    ensures { IfOk result (λ said. said ≡ query_in query.now) }
{
    let pairs = parse_query(alloc, query)?;
    Ok(read_pairs(&pairs))
}

/// Reads the pairs of a programme's query.
fn read_programme_pairs(
    start: TimePoint,
    stop: TimePoint,
    pairs: &[(Vec<u8>, Vec<u8>)],
) -> Option<CatchupQuery>
    ensures { result ≡ programme_query_of start stop (map pair_bytes pairs.now) }
{
    Some(CatchupQuery {
        start,
        stop,
        preferred: parse_optional_number(find_query_value(pairs, b"preferred"))?,
        charge: parse_optional_number(find_query_value(pairs, b"charge"))?,
    })
}

/// Parses the query of a programme whose address says its start and its end: optionally `preferred` and `charge`, as `read_query` does.
pub fn read_programme_query(
    alloc: Global,
    start: TimePoint,
    stop: TimePoint,
    query: &[u8],
) -> Result<Option<CatchupQuery>, AllocError>
    ensures { IfOk result (λ said. said ≡ programme_query_in start stop query.now) }
{
    let pairs = parse_query(alloc, query)?;
    Ok(read_programme_pairs(start, stop, &pairs))
}

/// Returns how long after the epoch an instant is, in microseconds.
fn us_since_epoch(epoch: i64, instant: i64) -> Result<u64, QueryFault>
    ensures { result ≡ from_epoch (instant -ℤ epoch) }
{
    u64::try_from(i128::from(instant) - i128::from(epoch)).or(Err(QueryFault::BeforeEpoch))
}

/// Returns the time of a moment, in microseconds from time 0.
pub(crate) fn resolve_time(epoch: Option<i64>, moment: TimePoint) -> Result<u64, QueryFault>
    ensures { result ≡ time_of epoch moment }
{
    match (moment, epoch) {
        (TimePoint::Time(us), _) => Ok(us),
        (TimePoint::Instant(_), None) => Err(QueryFault::BadQuery),
        (TimePoint::Instant(us), Some(epoch)) => us_since_epoch(epoch, us),
    }
}

/// Resolves a query by a channel's epoch, the instant of time 0, which is subtracted from instants. Without an epoch, a query with an
/// instant is invalid; `BeforeEpoch` is returned only for a valid query.
pub fn resolve_query(epoch: Option<i64>, query: CatchupQuery) -> Result<CatchupParams, QueryFault>
    ensures { result ≡ spec.catchup_params_of epoch query }
{
    Ok(CatchupParams {
        start_us: resolve_time(epoch, query.start)?,
        stop_us: resolve_time(epoch, query.stop)?,
        preferred: query.preferred,
        charge: query.charge,
    })
}

/// Makes the request to a channel's state: without `preferred`, the channel's own segment length is preferred.
pub fn make_request(snapshot: &Snapshot, params: CatchupParams) -> Request
    ensures { result ≡ spec.request_for snapshot.now params }
{
    Request {
        start_us: params.start_us,
        stop_us: params.stop_us,
        preferred: params.preferred.unwrap_or(snapshot.config().preferred()),
        rule: CostRule::from_charge(params.charge),
    }
}
