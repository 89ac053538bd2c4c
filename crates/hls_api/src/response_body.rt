//! Where the bytes of a response's body are.

use crate::media_responses::MediaResource;
use bytes::Bytes;
use hls_io::Resource;

/// Where the bytes of a response's body are.
#[derive(Drop)]
pub enum ResponseBody {
    /// A text.
    Text(Vec<u8>),
    /// A text that others have too.
    Shared(Bytes),
    /// Media, whose bytes stay in the recording.
    Media(MediaResource),
}

impl Resource for ResponseBody {
    ghost use Rattle.hls_api.specs.ResponseContents.{slices_of};

    ghost slices = { slices_of };

    fn slice(&self, number: u64) -> &[u8] {
        match self {
            ResponseBody::Text(text) => { if number == 0 { text.as_slice() } else { b"" } }
            ResponseBody::Shared(text) => { if number == 0 { text.as_slice() } else { b"" } }
            ResponseBody::Media(resource) => resource.slice(number),
        }
    }
}
