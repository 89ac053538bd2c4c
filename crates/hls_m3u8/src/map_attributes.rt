//! The attributes of EXT-X-MAP that were read so far (RFC 8216 section 4.3.2.5).

ghost use Rattle.hls_m3u8.specs.ReaderRecords as records;

use crate::playlist::ByteRange;
use crate::uri_range::UriRef;
use std::marker::Model;

/// The URI and the range, if an attribute gave them.
#[derive(Drop)]
pub(crate) struct MapAttributes<'a> {
    pub(crate) uri: Option<UriRef<'a>>,
    pub(crate) range: Option<ByteRange>,
}

impl<'a> Model for MapAttributes<'a> {
    ghost Value = { records.MapAttributes };

    ghost view = { λ r. record { uri = r.uri; range = r.range } };
}
