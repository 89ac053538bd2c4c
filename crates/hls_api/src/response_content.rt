//! The body of a response: bytes, or a text that is partly written.

ghost use Rattle.std.specs.Prelude.{◌≡◌, IfOk};
ghost use Rattle.hls_api.specs.ResponseContents.{content_of};

use crate::response_body::ResponseBody;
use bytes::Bytes;
use hls_io::ResourceRange;
use hls_jobs::CertificateWriter;
use hls_playlists::LivePlaylistWriter;
use std::alloc::{AllocError, Global};

/// The body of a response.
#[derive(Drop)]
pub(crate) enum ResponseContent {
    /// Bytes.
    Whole(ResourceRange<ResponseBody>),
    /// A live playlist's text, partly written.
    List(LivePlaylistWriter),
    /// A certificate's text, partly written.
    Certificate(CertificateWriter),
}

/// Makes a body from a text.
fn text_range(text: Vec<u8>) -> ResourceRange<ResponseBody>
    ensures { result ≡ text.items }
{
    let len = text.len() as u64;
    ResourceRange::new(ResponseBody::Text(text), 0, 0, len)
}

/// Makes a body from a text that is shared.
fn shared_range(text: Bytes) -> ResourceRange<ResponseBody>
    ensures { result ≡ text }
{
    let len = text.len() as u64;
    ResourceRange::new(ResponseBody::Shared(text), 0, 0, len)
}

impl ResponseContent {
    /// Makes a body from a text.
    pub fn from_text(text: Vec<u8>) -> ResponseContent
        ensures { content_of result ≡ text.items }
    {
        ResponseContent::Whole(text_range(text))
    }

    /// Makes a body from a text that is shared.
    pub fn from_shared(text: Bytes) -> ResponseContent
        ensures { content_of result ≡ text }
    {
        ResponseContent::Whole(shared_range(text))
    }

    /// Makes a body from a live playlist's text, and writes one part of it, which completes a short one.
    pub fn from_playlist(
        alloc: Global,
        mut text: LivePlaylistWriter,
    ) -> Result<ResponseContent, AllocError>
        ensures { IfOk result (λ content. content_of content ≡ text) }
    {
        if text.write_some(alloc)? {
            return Ok(ResponseContent::List(text));
        }
        Ok(ResponseContent::from_text(text.finish(alloc)?))
    }

    /// Makes a body from a certificate's text, and writes one part of it, which completes a short one.
    pub fn from_certificate(mut text: CertificateWriter) -> Result<ResponseContent, AllocError>
        ensures { IfOk result (λ content. content_of content ≡ text) }
    {
        if text.write_some()? {
            return Ok(ResponseContent::Certificate(text));
        }
        Ok(ResponseContent::from_text(text.finish()?))
    }

    /// Writes all that remains of a partly written text.
    pub fn finish(self, alloc: Global) -> Result<ResourceRange<ResponseBody>, AllocError>
        ensures { IfOk result (λ media. media ≡ content_of self) }
    {
        match self {
            ResponseContent::Whole(media) => Ok(media),
            ResponseContent::List(text) => Ok(text_range(text.finish(alloc)?)),
            ResponseContent::Certificate(text) => Ok(text_range(text.finish()?)),
        }
    }
}
