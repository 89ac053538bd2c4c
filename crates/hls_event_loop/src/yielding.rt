//! Which connection is evicted when all places are in use.

ghost use Rattle.std.specs.Prelude.{◌≡◌};
ghost use Rattle.hls_event_loop.specs.Yielding.{is_crowded, is_in_body, yields_before, yields_before_without_bodies, may_yield, choose_yielding};

use crate::activity::{Activity, ConnectionStage};

/// Whether bodies take more than nine tenths of the places for connections. The last tenth is kept for lists, media and other encoders.
pub(crate) fn is_crowded(bodies: u64, places: u64) -> bool
    ensures { result ≡ is_crowded bodies places }
{
    9 * u128::from(places) < 10 * u128::from(bodies)
}

/// Whether a connection is in the middle of a request's body, whether that is read or held.
pub(crate) fn is_in_body(activity: Activity) -> bool
    ensures { result ≡ is_in_body activity }
{
    matches!(
        activity.stage,
        ConnectionStage::Ingesting | ConnectionStage::Held | ConnectionStage::Discarding
    )
}

/// Whether a connection may be evicted: it is idle, or its request head is incomplete; or, while bodies are crowded, it is within one.
fn may_yield(activity: Activity, crowded: bool) -> bool
    ensures { result ≡ may_yield crowded activity }
{
    match activity.stage {
        ConnectionStage::Idle | ConnectionStage::Head => true,
        _ => crowded && is_in_body(activity),
    }
}

/// Whether the first of two that have no body goes before the other: the longest idle first, then the youngest head.
fn yields_before_without_bodies(activity: Activity, other: Activity) -> bool
    ensures { result ≡ yields_before_without_bodies activity other }
{
    match activity.stage {
        ConnectionStage::Idle => other.stage != ConnectionStage::Idle
            || activity.moved_ms < other.moved_ms,
        _ => other.stage != ConnectionStage::Idle && activity.since_ms > other.since_ms,
    }
}

/// Whether the first of two connections that may be evicted goes before the other: bodies first, that with the fewest bytes before all.
fn yields_before(activity: Activity, other: Activity) -> bool
    ensures { result ≡ yields_before activity other }
{
    match (is_in_body(activity), is_in_body(other)) {
        (true, true) => activity.bytes < other.bytes,
        (false, false) => yields_before_without_bodies(activity, other),
        (is_first, _) => is_first,
    }
}

/// Returns the connection to evict: the one found so far, or this one, by its key. Connections within a response, and those that wait,
/// are never evicted; those within a body are only while bodies are `crowded`.
pub fn choose_yielding(
    found: Option<(usize, Activity)>,
    key: usize,
    activity: Activity,
    crowded: bool,
) -> Option<(usize, Activity)>
    ensures { result ≡ choose_yielding crowded found key activity }
{
    if !may_yield(activity, crowded) {
        return found;
    }
    match found {
        Some((_, other)) => {
            if yields_before(activity, other) {
                Some((key, activity))
            } else {
                found
            }
        }
        None => Some((key, activity)),
    }
}
