//! Tests whether steps are allowed, one pair of places after another. The rendition that excluded the last pair of the same row, and the
//! one that excluded the last pair of the same column, are tested first. In a table that was made to be expensive a single rendition
//! excludes each pair.

ghost use Rattle.std.specs.Prelude.{◌≡◌, ◌<◌, ◌↔◌, length, IsTrue, MatchOption};
ghost use Rattle.hls_check_tables.specs.Tables.{IsTable};
ghost use Rattle.hls_check_tables.specs.Steps.{Allowed};

use hls_check_tables::{CertificateTable, spot_allowed};

/// Whether rendition `r` excludes the step from place `p` to place `q`. False if there is no such rendition.
#[inline(always)]
fn refuses_step(table: &CertificateTable, p: usize, q: usize, r: usize) -> bool
    requires valid { IsTable table.now }
    requires from_in { p < length table.now.places }
    requires to_in { q < length table.now.places }
    ensures { IsTrue result → Allowed table.now p q → ⊥ }
{
    r < table.rendition_count()
        && !spot_allowed(
            table.goal().target,
            table.place(p).get(r),
            table.place(q).get(r),
        )
}

/// The first rendition that excludes the step from place `p` to place `q`.
#[inline(always)]
fn first_refusing_rendition(table: &CertificateTable, p: usize, q: usize) -> Option<usize>
    requires valid { IsTable table.now }
    requires from_in { p < length table.now.places }
    requires to_in { q < length table.now.places }
    ensures { MatchOption result (Allowed table.now p q) (λ r. Allowed table.now p q → ⊥) }
{
    let (from, to) = (table.place(p), table.place(q));
    for r in 0..table.rendition_count() {
        if !spot_allowed(table.goal().target, from.get(r), to.get(r)) {
            return Some(r);
        }
    }
    None
}

/// Whether the step from place `p` to place `q` is allowed. The two renditions are tested first; the one that excludes the step replaces
/// them.
#[inline(always)]
pub fn is_step(
    table: &CertificateTable,
    p: usize,
    q: usize,
    row: &mut usize,
    column: &mut usize,
) -> bool
    requires valid { IsTable table.now }
    requires from_in { p < length table.now.places }
    requires to_in { q < length table.now.places }
    ensures { IsTrue result ↔ Allowed table.now p q }
{
    if refuses_step(table, p, q, *row) {
        return false;
    }
    if refuses_step(table, p, q, *column) {
        return false;
    }
    let Some(refusing) = first_refusing_rendition(table, p, q) else {
        return true;
    };
    *row = refusing;
    *column = refusing;
    false
}
