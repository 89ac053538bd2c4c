//! The resource of a recording from one unit to another.

ghost use Rattle.std.specs.Prelude.{◌≡◌, [], ◌∷◌, ◌<◌, ◌≤◌, ◌^◌, get_or, length};
ghost use Rattle.std.specs.Option.{option_copied};
ghost use Rattle.hls_record.specs.RecordingData.{unit_piece};
ghost use Rattle.hls_playlists_laws.specs.JobResource.{units_between, resource_of};
ghost use Rattle.hls_catchup.specs.Resources.{LocatesByte};

use hls_playlists::bytes_between;
use hls_record::Recording;

/// Returns the length of the resource in bytes: the recording's init section, then the units from number `first` to the one before
/// `end`.
#[tactic(auto, using(crate::proofs::Pieces::resource_long))]
pub fn resource_total(recording: &Recording, first: u64, end: u64) -> u64
    requires kept { recording.now.floor ≤ first }
    ensures { result ≡ length (resource_of recording.now.head recording.now.floor recording.now.units first end) }
{
    let _ = recording.count(); // the proof needs that the recording is well formed
    recording.offset(0) + bytes_between(recording, first, end)
}

/// Returns the bytes of that resource from byte `at` to the end of its init section or unit; `None` at or past the end. Copies nothing.
#[tactic(auto, using(crate::proofs::Pieces::piece_past, crate::proofs::Pieces::piece_there))]
pub fn resource_piece(recording: &Recording, first: u64, end: u64, at: u64) -> Option<&[u8]>
    requires kept { recording.now.floor ≤ first }
    ensures { option_copied result ≡ unit_piece (recording.now.head ∷ units_between recording.now.floor recording.now.units first end) at }
{
    let _ = recording.count(); // the proof needs that the recording is well formed
    let init_length = recording.offset(0);
    if at < init_length {
        return recording.piece(at);
    }
    if at - init_length >= bytes_between(recording, first, end) {
        return None;
    }
    recording.piece(recording.offset(first) + (at - init_length))
}

/// Returns a slice of that resource by its number: the init section, then each unit. Empty if there is no such slice.
pub fn resource_slice(recording: &Recording, first: u64, end: u64, number: u64) -> &[u8]
    requires kept { recording.now.floor ≤ first }
    ensures bytes { result.now ≡ get_or (recording.now.head ∷ units_between recording.now.floor recording.now.units first end) number [] }
    ensures few { length (recording.now.head ∷ units_between recording.now.floor recording.now.units first end) < 2 ^ 64 }
{
    let _ = recording.count(); // the proof needs that the recording is well formed
    if number == 0 {
        return recording.init_section_bytes().as_slice();
    }
    if end.saturating_sub(first) < number {
        return b"";
    }
    match recording.unit(first + (number - 1)) {
        Some(unit) => unit.as_slice(),
        None => b"",
    }
}

/// Returns the position of byte `at` of that resource: the number of its slice, and the offset in it. `None` at or past the end. Takes
/// logarithmic time.
pub fn locate_resource_byte(
    recording: &Recording,
    first: u64,
    end: u64,
    at: u64,
) -> Option<(u64, u64)>
    requires kept { recording.now.floor ≤ first }
    ensures { LocatesByte (recording.now.head ∷ units_between recording.now.floor recording.now.units first end) at result }
{
    let _ = recording.count(); // the proof needs that the recording is well formed
    let init_length = recording.offset(0);
    if at < init_length {
        return Some((0, at));
    }
    if bytes_between(recording, first, end) <= at - init_length {
        return None;
    }
    let offset = recording.offset(first) + (at - init_length);
    let unit = recording.find_unit(offset);
    Some((unit - first + 1, offset - recording.offset(unit)))
}
