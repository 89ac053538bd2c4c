//! The number of the next segment of a channel's lists.

ghost use Rattle.std.specs.Prelude.{◌≡◌, ◌↔◌, ◌<◌, ◌-◌, ◌^◌, IsTrue, min};
ghost use Rattle.hls_journal_store.specs.Numbers.{next_in_line, next_segment};

use hls_core::snapshot::Snapshot;

/// Returns the number that a channel's next segment gets in its lists.
pub(crate) fn next_segment(snapshot: &Snapshot) -> u64
    ensures { result ≡ min (next_segment snapshot.now) (2 ^ 64 - 1) }
{
    let base = snapshot.config().base().segments();
    base.saturating_add(count_segments(snapshot))
}

/// Whether a channel's next segment would have a number below `served`.
pub(crate) fn is_stale(snapshot: &Snapshot, served: u64) -> bool
    ensures { IsTrue result ↔ next_segment snapshot.now < served }
{
    let base = snapshot.config().base().segments();
    base < served && count_segments(snapshot) < served - base
}

/// Returns how many segments a channel's line has had since its base.
fn count_segments(snapshot: &Snapshot) -> u64
    ensures { result ≡ next_in_line snapshot.now }
{
    snapshot.line().segments().next()
}
