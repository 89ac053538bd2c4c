//! Whether one snapshot follows another. No program calls it; `Turn::meet` does, which no program calls either.

ghost use Rattle.std.specs.Prelude.{◌≡◌, ◌↔◌, ℕ, ◌-◌, ◌≤◌, IsTrue, List, Some, slice_get};
ghost use Rattle.hls_core_laws.specs.Follows.{Follows, Extends, AllHaveSameBytes, HaveSameBytes, SameUnits};
ghost use Rattle.hls_core.specs.RenditionStates.{lane_of, held_of};

use crate::equality::{is_prefix, same_config};
use crate::rendition_state::RenditionState;
use crate::snapshot::Snapshot;
use hls_record::Recording;

/// Whether `b` follows `a`: both have the same configuration, the log of `a` is a prefix of that of `b`, and every init section and
/// unit that both keep has the same bytes in both. Doesn't allocate.
pub fn follows(a: &Snapshot, b: &Snapshot) -> bool
    ensures continues { IsTrue result ↔ Extends a.now b.now }
    ensures follows { IsTrue result ↔ Follows a.now b.now }
{
    if !same_config(a.config(), b.config()) {
        return false;
    }
    if !is_prefix(a.log(), b.log()) {
        return false;
    }
    all_have_same_bytes(a, b)
}

/// Whether everything that both keep has the same bytes in both.
fn all_have_same_bytes(a: &Snapshot, b: &Snapshot) -> bool
    ensures { IsTrue result ↔ AllHaveSameBytes a.now b.now }
{
    for rendition in 0..a.rendition_count().min(b.rendition_count()) {
        let Some(x) = a.rendition(rendition) else {
            unreachable!()
        };
        let Some(y) = b.rendition(rendition) else {
            unreachable!()
        };
        if !have_same_bytes(x, y) {
            return false;
        }
    }
    true
}

fn have_same_bytes(a: &RenditionState, b: &RenditionState) -> bool
    ensures { IsTrue result ↔ HaveSameBytes (lane_of a.now) (lane_of b.now) (held_of a.now) (held_of b.now) }
{
    match &a.recording {
        Some(x) => match &b.recording {
            Some(y) => *y.init_section_bytes() == *x.init_section_bytes() && same_units(x, y),
            None => x.init_section_bytes().is_empty(),
        },
        None => true,
    }
}

/// Whether the units that both recordings keep are the same.
fn same_units(a: &Recording, b: &Recording) -> bool
    ensures { IsTrue result ↔ SameUnits a.now.floor b.now.floor a.now.units b.now.units }
{
    for n in 0..a.count() {
        if let (Some(x), Some(y)) = (a.unit(n), b.unit(n)) {
            if *x != *y {
                return false;
            }
        }
    }
    true
}
