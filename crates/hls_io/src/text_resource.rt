//! A text as a resource.

ghost use Rattle.std.specs.Prelude.{◌≡◌, []};

use crate::resource::Resource;
use crate::resource_range::ResourceRange;

/// A text as a resource of one slice.
#[derive(Clone, Copy)]
pub struct TextResource<'a> {
    bytes: &'a [u8],
}

impl Resource for TextResource<'_> {
    ghost use Rattle.std.specs.Prelude.{[], ◌∷◌};

    ghost slices = { λ text. text.bytes.now ∷ [] };

    fn slice(&self, number: u64) -> &[u8] {
        if number == 0 { self.bytes } else { b"" }
    }
}

impl<'a> TextResource<'a> {
    /// The whole text.
    pub fn as_range(bytes: &'a [u8]) -> ResourceRange<TextResource<'a>>
        ensures { result ≡ bytes.entry.now }
    {
        ResourceRange::new(TextResource { bytes }, 0, 0, bytes.len() as u64)
    }
}
