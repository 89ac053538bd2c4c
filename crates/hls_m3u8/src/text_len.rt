//! The length of a playlist's text, so that its buffer is allocated once.
//!
//! A wrong length would only cost time and memory: the writer grows its buffer if necessary.

ghost use Rattle.std.specs.Prelude.{◌≤◌};

use crate::playlist::{ByteRange, InitSection, MediaPlaylist, MediaSegment, PlaylistKind};

fn count_digits(n: u64) -> usize
    ensures { result ≤ 20 }
{
    match n.checked_ilog10() {
        None => 1,
        Some(log) => log as usize + 1,
    }
}

// The length of a range and the text around it.
fn range_len(range: Option<ByteRange>, around: &str) -> usize {
    match range {
        None => 0,
        Some(bytes) => around.len().saturating_add(
            count_digits(bytes.length) + 1 + count_digits(bytes.offset),
        ),
    }
}

fn map_len(map: &Option<InitSection>) -> usize {
    match map {
        None => 0,
        Some(m) => "#EXT-X-MAP:URI=\"\"\n"
            .len()
            .saturating_add(m.uri.len())
            .saturating_add(range_len(m.range, ",BYTERANGE=\"\"")),
    }
}

fn segment_len(segment: &MediaSegment) -> usize {
    let mark = if segment.mark {
        "#EXT-X-DISCONTINUITY\n".len()
    } else {
        0
    };
    let date = if segment.date.is_some() {
        "#EXT-X-PROGRAM-DATE-TIME:YYYY-MM-DDTHH:MM:SS.mmmZ\n".len()
    } else {
        0
    };
    (mark + date)
        .saturating_add("#EXTINF:.000000,\n".len() + count_digits(segment.us / 1_000_000))
        .saturating_add(range_len(segment.range, "#EXT-X-BYTERANGE:\n"))
        .saturating_add(segment.uri.len())
        .saturating_add("\n".len())
}

fn head_len(list: &MediaPlaylist) -> usize {
    let numbers = "#EXTM3U\n#EXT-X-VERSION:\n#EXT-X-TARGETDURATION:\n".len()
        + "#EXT-X-MEDIA-SEQUENCE:\n#EXT-X-DISCONTINUITY-SEQUENCE:\n".len()
        + count_digits(list.version)
        + count_digits(list.target)
        + count_digits(list.media_sequence)
        + count_digits(list.discontinuity_sequence);
    let kind = match list.kind {
        None => 0,
        Some(PlaylistKind::Vod) => "#EXT-X-PLAYLIST-TYPE:VOD\n".len(),
        Some(PlaylistKind::Event) => "#EXT-X-PLAYLIST-TYPE:EVENT\n".len(),
    };
    (numbers + kind).saturating_add(map_len(&list.map))
}

// The number of bytes of the playlist's text.
pub(crate) fn text_len(list: &MediaPlaylist) -> usize {
    let end = if list.ended {
        "#EXT-X-ENDLIST\n".len()
    } else {
        0
    };
    let mut len = head_len(list).saturating_add(end);
    for segment in &list.segments {
        len = len.saturating_add(segment_len(segment));
    }
    len
}
