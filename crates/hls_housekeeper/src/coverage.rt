//! How many sync samples of rendition 0 became places and are in live segments.

ghost use Rattle.std.specs.Prelude.{◌≡◌, nat_lt};
ghost use Rattle.hls_housekeeper.specs.Coverage.{is_covered, count_uncovered, count_missing};

/// A half-open range of unit numbers of rendition 0.
#[derive(Clone, Copy, Default, Drop)]
pub struct UnitRange {
    pub from: u64,
    pub to: u64,
}

/// How many of the last hundred may fail to be places before it is logged.
const FEW: usize = 5;

/// Counts the units that aren't among the places' units.
pub fn count_missing(units: &[u64], places: &[u64]) -> usize
    ensures { result ≡ count_missing places.now units.now }
{
    let mut count = 0;
    for unit in units {
        if !places.contains(unit) {
            count += 1;
        }
    }
    count
}

/// Whether a unit is in one of the ranges.
fn is_covered(unit: u64, ranges: &[UnitRange]) -> bool
    ensures { result ≡ is_covered ranges.now unit }
{
    for range in ranges {
        if range.from <= unit && unit < range.to {
            return true;
        }
    }
    false
}

/// Counts the units that are in none of the ranges.
pub fn count_uncovered(units: &[u64], ranges: &[UnitRange]) -> usize
    ensures { result ≡ count_uncovered ranges.now units.now }
{
    let mut count = 0;
    for unit in units {
        if !is_covered(*unit, ranges) {
            count += 1;
        }
    }
    count
}

/// Whether `missing` places are enough to be logged: fewer than 95 of the last hundred sync samples became places.
pub fn is_uneven(missing: usize) -> bool
    ensures { result ≡ nat_lt 5 missing }
{
    missing > FEW
}
