//! The text of a VOD playlist.

ghost use Rattle.std.specs.Prelude.{length, IfOk};
ghost use Rattle.hls_m3u8.specs.PlaylistForms.{vod_list};
ghost use Rattle.hls_m3u8.specs.HasText.{HasText};
ghost use Rattle.hls_m3u8.specs.Written.{IsWritten};

use bytes::ByteStr;
use hls_m3u8::{MediaPlaylist, MediaSegment, write_media};
use hls_record::Recording;
use std::alloc::{AllocError, Global};

/// Writes the VOD playlist with these segments of the recording's resource.
pub fn write_vod_playlist(
    alloc: Global,
    target: u64,
    recording: &Recording,
    uri: ByteStr,
    segments: Vec<MediaSegment>,
) -> Result<Vec<u8>, AllocError>
    requires { HasText (vod_list target uri (length recording.now.head) segments.items) }
    ensures { IfOk result (λ text. IsWritten (vod_list target uri (length recording.now.head) segments.items) text.items) }
{
    let init_length = recording.init_section_bytes().len() as u64;
    let list = MediaPlaylist::vod(target, uri, init_length, segments);
    write_media(alloc, &list)
}
