//! The URI of a rendition's resource.

ghost use Rattle.std.specs.Prelude.{◌≡◌, IfOk};
ghost use Rattle.hls_playlists_laws.specs.JobPlaylists.{resource_uri};

use bytes::ByteStr;
use std::alloc::{AllocError, Global};

/// Returns the URI of a rendition's resource in a folder.
pub fn resource_uri(alloc: Global, folder: &str, rendition: usize) -> Result<ByteStr, AllocError>
    ensures { IfOk result (λ uri. uri ≡ resource_uri folder.now rendition) }
{
    ByteStr::from_string(format!(in alloc; "{folder}{rendition}.mp4")?)
}
