//! A resource and a range of its bytes, as a text names them.

ghost use Rattle.std.specs.Prelude.{◌≡◌, ℕ, List};
ghost use Rattle.hls_m3u8.specs.ReaderRecords as records;

use crate::playlist::ByteRange;
use std::marker::Model;

/// A URI as in the text. Contracts see its bytes.
#[derive(Drop)]
pub(crate) struct UriRef<'a> {
    text: &'a str,
}

impl<'a> Model for UriRef<'a> {
    ghost Value = { List ℕ };

    ghost view = { λ u. u.text.now };
}

impl<'a> UriRef<'a> {
    pub(crate) fn new(text: &'a str) -> UriRef<'a>
        ensures { result ≡ text.entry.now }
    {
        UriRef { text }
    }

    pub(crate) fn text(&self) -> &'a str
        ensures { result.now ≡ self.now }
    {
        self.text
    }
}

/// A range of a resource: that of EXT-X-MAP, or of the last segment.
#[derive(Drop)]
pub(crate) struct UriRange<'a> {
    pub(crate) uri: UriRef<'a>,
    pub(crate) range: Option<ByteRange>,
}

impl<'a> Model for UriRange<'a> {
    ghost Value = { records.UriRange };

    ghost view = { λ r. record { uri = r.uri; range = r.range } };
}
