//! Where the bytes of a rendition's resource are stored: place x in file x / 64 MiB, at x mod 64 MiB. The place of a byte is its offset
//! in the resource and what precedes the resource by the channel's base, so a unit keeps its place when the channel is renewed.

ghost use Rattle.std.specs.Prelude.{◌≡◌, ◌-◌, ◌/◌, ◌%◌, ◌<◌, min};

/// The bytes of a media file.
pub const MEDIA_FILE_LEN: u64 = 67108864;

/// Consecutive bytes that are in one media file.
#[derive(Clone, Copy, Drop)]
pub struct MediaSpan {
    /// The number of the file.
    pub number: u64,
    /// The offset of the first of them in the file.
    pub place: u64,
    /// How many there are.
    pub len: usize,
}

/// Returns where the first of `len` bytes from a place on is, and how many of them are in that file.
pub fn find_span(at: u64, len: usize) -> MediaSpan
    ensures number { result.number ≡ at / 67108864 }
    ensures place { result.place ≡ at % 67108864 }
    ensures len { result.len ≡ min len (67108864 - at % 67108864) }
    ensures some { 0 < len → 0 < result.len }
{
    let place = at % MEDIA_FILE_LEN;
    MediaSpan {
        number: at / MEDIA_FILE_LEN,
        place,
        len: len.min((MEDIA_FILE_LEN - place) as usize),
    }
}
