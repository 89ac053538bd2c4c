//! Texts that are both written and read.

pub const ONE_UNIT: &str = "#EXTM3U
#EXT-X-VERSION:6
#EXT-X-TARGETDURATION:6
#EXT-X-MEDIA-SEQUENCE:0
#EXT-X-DISCONTINUITY-SEQUENCE:0
#EXT-X-PLAYLIST-TYPE:VOD
#EXT-X-MAP:URI=\"media.mp4\",BYTERANGE=\"600@0\"
#EXTINF:4.000000,
#EXT-X-BYTERANGE:1000@600
media.mp4
#EXT-X-ENDLIST
";

/// The tags of that playlist, up to its segment.
pub fn head() -> &'static str {
    match ONE_UNIT.split_once("#EXTINF") {
        Some((tags, _segment)) => tags,
        None => "",
    }
}

/// A live playlist from which one segment was removed.
pub const LIVE: &str = "#EXTM3U
#EXT-X-VERSION:6
#EXT-X-TARGETDURATION:6
#EXT-X-MEDIA-SEQUENCE:1
#EXT-X-DISCONTINUITY-SEQUENCE:0
#EXT-X-MAP:URI=\"/media/0.mp4\",BYTERANGE=\"600@0\"
#EXTINF:4.000000,
#EXT-X-BYTERANGE:1000@1600
/media/0.mp4
#EXTINF:5.000000,
#EXT-X-BYTERANGE:1000@2600
/media/0.mp4
#EXTINF:5.000000,
#EXT-X-BYTERANGE:1000@3600
/media/0.mp4
#EXTINF:4.000000,
#EXT-X-BYTERANGE:1000@4600
/media/0.mp4
";
