//! Reads a playlist with failing allocations.

use crate::playlist_texts::ONE_UNIT;
use hls_m3u8::{ListFault, MediaPlaylist, read_media};
use std::alloc::Global;
use std::test::Fail;

// Reads again after an allocation failure.
fn read_with_retry(alloc: Global, text: &[u8]) -> Result<MediaPlaylist, ListFault> {
    match read_media(alloc, text) {
        Err(ListFault::Memory) => read_media(alloc, text),
        answer => answer,
    }
}

// With any one allocation failing, the second attempt returns the playlist; a text that isn't a playlist is rejected without allocating.
#[test]
fn out_of_memory_is_told_last(rt: HostRuntime) -> Result<(), Fail> {
    let list = read_with_retry(rt.alloc(), ONE_UNIT.as_bytes())?;
    assert_eq!(rt; list.segments.len(), 1);
    assert_eq!(rt; list.segments[0].uri.as_str(), "media.mp4");
    assert_eq!(rt; list.target, 6);
    match read_media(rt.alloc(), b"#EXTM3U\n#EXTINF:1\na\n#EXT-X-ENDLIST:") {
        Err(ListFault::BadTag { line }) => assert_eq!(rt; line, 4),
        _ => assert!(rt; false),
    }
    Ok(())
}
