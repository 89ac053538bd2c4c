//! A complete part.

ghost use Rattle.std.specs.Prelude.{◌≡◌, IfOk, IfErr};
ghost use Rattle.hls_boxes.specs.Parts.{part_of};

use crate::kinds::MOOV;
use crate::part::Part;
use bytes::Bytes;
use std::alloc::AllocFailed;

/// A complete part that wasn't taken yet.
#[derive(Drop)]
pub(crate) struct CompletePart {
    /// The type of the box that ends it.
    pub(crate) kind: u32,
    /// Its bytes, in an allocation of their own.
    pub(crate) bytes: Vec<u8>,
}

impl CompletePart {
    /// Converts to a part whose bytes are shared; none is copied.
    pub(crate) fn into_part(self) -> Result<Part, AllocFailed<CompletePart>>
        ensures ok { IfOk result (λ part. part ≡ part_of self.kind self.bytes.items) }
        ensures err { IfErr result (λ failed. (failed.value.kind ≡ self.kind) × (failed.value.bytes.items ≡ self.bytes.items)) }
    {
        let CompletePart { kind, bytes } = self;
        match Bytes::from_vec(bytes) {
            Ok(bytes) if kind == MOOV => Ok(Part::Init(bytes)),
            Ok(bytes) => Ok(Part::Unit(bytes)),
            Err(failed) => Err(AllocFailed {
                value: CompletePart {
                    kind,
                    bytes: failed.value,
                },
            }),
        }
    }
}
