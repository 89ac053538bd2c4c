//! Refused bodies of encoders by the name of the refusal.

ghost use Rattle.std.specs.Prelude.{◌≡◌};
ghost use Rattle.hls_metrics.specs.Refusals as spec;

/// How many refusals are counted apart: those of boxes, of media, and of the channel, and all others as one.
pub const REFUSAL_KINDS: usize = 30;

/// The number of the others.
const OTHER_REFUSAL: usize = 29;

/// Returns the name of a fault of boxes.
fn box_fault_name(number: usize) -> &'static [u8]
    ensures { result.now ≡ spec.box_fault_name number }
{
    match number {
        0 => b"BadSize",
        1 => b"TooLarge",
        2 => b"OpenEnded",
        3 => b"MdatAlone",
        4 => b"MoofWithoutMdat",
        _ => b"Truncated",
    }
}

/// Returns the name of a fault of an init section or a unit.
fn media_fault_name(number: usize) -> &'static [u8]
    ensures { result.now ≡ spec.media_fault_name number }
{
    match number {
        0 => b"BadBox",
        1 => b"NoTrack",
        2 => b"TooManyTracks",
        3 => b"ZeroScale",
        4 => b"NoDefault",
        5 => b"NoTimingTraf",
        6 => b"TwoTimingTrafs",
        7 => b"NoDecodeTime",
        8 => b"BaseOffset",
        9 => b"UnknownTrack",
        10 => b"EmptyFragment",
        11 => b"DataOutside",
        _ => b"TimeTooLarge",
    }
}

/// Returns the name of a refusal of the channel or of the body.
fn channel_refusal_name(number: usize) -> &'static [u8]
    ensures { result.now ≡ spec.channel_refusal_name number }
{
    match number {
        0 => b"UnknownRendition",
        1 => b"NoInit",
        2 => b"InitChanged",
        3 => b"Overlap",
        4 => b"Finished",
        5 => b"LedgerFull",
        6 => b"RecordingFull",
        7 => b"AheadOfChannel",
        8 => b"BadFraming",
        9 => b"Memory",
        _ => b"Other",
    }
}

/// Returns the name of a kind of refusals.
pub(crate) fn refusal_name(number: usize) -> &'static [u8]
    ensures { result.now ≡ spec.refusal_name number }
{
    if number < 6 {
        box_fault_name(number)
    } else if number < 19 {
        media_fault_name(number - 6)
    } else {
        channel_refusal_name(number - 19)
    }
}

/// Returns the number of the refusal of this name. An unknown one counts as one of the others.
pub fn refusal_kind(name: &[u8]) -> usize {
    for number in 0..OTHER_REFUSAL {
        if refusal_name(number) == name {
            return number;
        }
    }
    OTHER_REFUSAL
}
