//! The order of places.

ghost use Rattle.std.specs.Prelude.{◌≡◌, ℕ, ◌<◌, ◌↔◌, length, IsTrue, MatchOption};
ghost use Rattle.hls_check_tables.specs.Tables.{spot_in};
ghost use Rattle.hls_check_tables.specs.Orders.{IsSpotInOrder, IsAfter, IsInOrder, IsSorted, IsFirstUnsorted, IsRising, AreRising};

use crate::certificate_table::CertificateTable;
use crate::spot::Spot;
use crate::spots::Spots;

fn is_spot_in_order(spot: Spot) -> bool
    ensures { IsTrue result ↔ IsSpotInOrder spot }
{
    spot.prev_end <= spot.start && spot.run_in <= spot.run_out
}

fn are_spots_in_order(place: &Spots) -> bool
    ensures { IsTrue result ↔ ((r : ℕ) → r < length place.now → IsSpotInOrder (spot_in place.now r)) }
{
    for r in 0..place.len() {
        if !is_spot_in_order(place.get(r)) {
            return false;
        }
    }
    true
}

fn is_after(earlier: &Spots, later: &Spots) -> bool
    requires some { 0 < length earlier.now }
    requires same { length later.now ≡ length earlier.now }
    ensures { IsTrue result ↔ IsAfter (length earlier.now) earlier.now later.now }
{
    for r in 0..earlier.len() {
        if earlier.get(r).fragment > later.get(r).fragment {
            return false;
        }
    }
    earlier.get(0).start < later.get(0).start
}

fn is_rising(earlier: &Spots, later: &Spots) -> bool
    requires { length later.now ≡ length earlier.now }
    ensures { IsTrue result ↔ IsRising (length earlier.now) earlier.now later.now }
{
    for r in 0..earlier.len() {
        let before = earlier.get(r);
        let after = later.get(r);
        if before.prev_end > after.prev_end {
            return false;
        }
        if before.run_in > after.run_in {
            return false;
        }
    }
    true
}

fn is_in_order(table: &CertificateTable, p: usize) -> bool
    requires { p < length table.now.places }
    ensures { IsTrue result ↔ IsInOrder table.now.renditions table.now.places p }
{
    let _ = table.len(); // the proof needs that the table is well formed
    if !are_spots_in_order(table.place(p)) {
        return false;
    }
    if p == 0 {
        return true;
    }
    is_after(table.place(p - 1), table.place(p))
}

/// The first place that is out of order: its spots aren't in order, or it isn't after the place before it.
pub fn first_unsorted(table: &CertificateTable) -> Option<usize>
    ensures { MatchOption result (IsSorted table.now) (IsFirstUnsorted table.now) }
{
    for p in 0..table.len() {
        if !is_in_order(table, p) {
            return Some(p);
        }
    }
    None
}

/// Whether neither ends nor gap counts decrease from any place to the next.
pub fn is_rising_throughout(table: &CertificateTable) -> bool
    ensures { IsTrue result ↔ AreRising table.now.renditions table.now.places }
{
    for p in 1..table.len() {
        if !is_rising(table.place(p - 1), table.place(p)) {
            return false;
        }
    }
    true
}
