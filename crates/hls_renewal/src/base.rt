//! The base of a renewed channel: what precedes the cut at which its log begins.

ghost use Rattle.std.specs.Prelude.{◌≡◌, ◌≤◌, ◌^◌, MatchOption};
ghost use Rattle.hls_core_laws.specs.IsState.{IsState};
ghost use Rattle.hls_core.specs.Bases.{IsNoBase};
ghost use Rattle.hls_playlists_laws.specs.CutBases.{base_of_cut};
ghost use Rattle.hls_renewal.specs.Cuts.{IsLineCut};
ghost use Rattle.hls_renewal.specs.Renewals.{bytes_before_cut, units_before};

use crate::line_cut::LineCut;
use hls_check_tables::RENDITION_LIMIT;
use hls_core::base::Base;
use hls_core::floors::rendition_count;
use hls_core::snapshot::Snapshot;
use hls_places::Place;
use hls_record::Recording;

/// Returns the base of a channel that continues at a cut of this one's line. `None` if its numbers would be above the limits of a base.
pub(crate) fn make_base(snapshot: &Snapshot, cut: &LineCut) -> Option<Base>
    requires { IsLineCut snapshot.now cut.now }
    ensures { MatchOption result (IsNoBase (base_of_cut snapshot.now cut.now.segments cut.now.place)) (λ base. base ≡ base_of_cut snapshot.now cut.now.segments cut.now.place) }
{
    let base = snapshot.config().base();
    let first = u64::from(base.marked() && cut.segments > 0);
    let marked = if cut.segments == 0 {
        base.marked()
    } else {
        cut.marked
    };
    Base::new(
        base.run(),
        base.segments() + cut.segments,
        base.marks() + cut.marks + first,
        marked,
        count_bytes(snapshot, cut),
        base.version() + snapshot.version(),
    )
}

/// Returns the bytes of units that precede a cut in each rendition.
fn count_bytes(snapshot: &Snapshot, cut: &LineCut) -> [u64; RENDITION_LIMIT]
    ensures { result ≡ (base_of_cut snapshot.now cut.now.segments cut.now.place).bytes }
{
    let mut bytes = [0; RENDITION_LIMIT];
    for rendition in 0..rendition_count(snapshot) {
        bytes[rendition] = count_bytes_of(snapshot, &cut.place, rendition);
    }
    bytes
}

fn count_bytes_of(snapshot: &Snapshot, place: &Place, rendition: usize) -> u64
    ensures value { result ≡ bytes_before_cut snapshot.now place.now rendition }
    ensures valid { IsState snapshot.now }
{
    let before = snapshot.config().base().bytes(rendition);
    let unit = place.spots.get_or_zero(rendition).fragment;
    match snapshot.recording(rendition) {
        Some(recording) => before + count_units_before(recording, unit),
        None => before,
    }
}

/// Returns how many bytes of units precede the unit of this number.
fn count_units_before(recording: &Recording, unit: u64) -> u64
    ensures value { result ≡ units_before recording.now unit }
    ensures small { result ≤ 2 ^ 40 }
{
    recording.offset(unit) - recording.offset(0)
}
