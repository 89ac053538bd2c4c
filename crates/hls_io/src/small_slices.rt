//! Copies small slices after a text.

ghost use Rattle.std.specs.Prelude.{◌≡◌, ◌++◌};

use crate::resource::Resource;
use crate::resource_range::ResourceRange;

/// The maximum number of bytes of a slice that is copied.
pub const MAX_GATHERED_BYTES: usize = 16384;

/// Copies the next bytes after a text, slice by slice, as long as they are small and the text's buffer has room for a whole one.
pub(crate) fn gather_slices<R: Resource>(text: &mut Vec<u8>, media: &mut ResourceRange<R>)
    ensures { text.new.items ++ media.new ≡ text.old.items ++ media.old }
{
    while !media.is_empty() {
        let next = media.chunk();
        let count = next.len();
        if count > MAX_GATHERED_BYTES || count > text.capacity() - text.len() {
            return;
        }
        let Ok(()) = text.extend_from_slice(next) else {
            unreachable!();
        };
        media.advance(count as u64);
    }
}
