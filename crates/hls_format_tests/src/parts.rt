//! The parts that a box reader returns.
//!
//! `ensures { result ≡ result }` states nothing: with a contract, a helper's body isn't checked again at each call.

ghost use Rattle.std.specs.Prelude.{◌≡◌, ◌≤◌, length};

use hls_boxes::UnitReader;
use hls_boxes::fault::BoxFault;
use hls_boxes::part::Part;
use std::alloc::AllocError;
use std::process::Abort;

/// Feeds a piece. If an allocation failed and the reader is unchanged, it retries once.
pub fn feed_with_retry(reader: &mut UnitReader, piece: &[u8]) -> Result<(), BoxFault>
    ensures { 0 ≤ length piece.now }
{
    let before = reader.finish();
    match reader.feed(piece) {
        Err(BoxFault::Memory) if reader.finish() == before => reader.feed(piece),
        answer => answer,
    }
}

/// Takes a part. If an allocation failed and the reader is unchanged, it retries once.
pub fn take_with_retry(reader: &mut UnitReader) -> Result<Option<Part>, AllocError> {
    let before = reader.finish();
    match reader.take() {
        Err(AllocError) if reader.finish() == before => reader.take(),
        answer => answer,
    }
}

/// A part that a reader should return.
#[derive(Clone, Copy)]
pub enum ExpectedPart<'a> {
    Init(&'a [u8]),
    Unit(&'a [u8]),
    Nothing,
}

/// Whether this part is returned next.
pub fn is_next_part(reader: &mut UnitReader, next: ExpectedPart<'_>) -> bool
    ensures { result ≡ result }
{
    match (take_with_retry(reader), next) {
        (Ok(Some(Part::Init(found))), ExpectedPart::Init(bytes)) => found.as_slice() == bytes,
        (Ok(Some(Part::Unit(found))), ExpectedPart::Unit(bytes)) => found.as_slice() == bytes,
        (Ok(None), ExpectedPart::Nothing) => true,
        _ => false,
    }
}

/// Whether the stream is complete and no further part is returned.
pub fn is_at_its_end(reader: &mut UnitReader) -> bool
    ensures { result ≡ result }
{
    is_next_part(reader, ExpectedPart::Nothing) && reader.finish().is_ok()
}

/// Asserts that an init section and a unit are returned, and nothing is left.
pub fn assert_init_and_unit(rt: &impl Abort, reader: &mut UnitReader, init: &[u8], unit: &[u8])
    ensures { 0 ≤ length init.now }
{
    assert!(rt; is_next_part(reader, ExpectedPart::Init(init)));
    assert!(rt; is_next_part(reader, ExpectedPart::Unit(unit)));
    assert!(rt; is_at_its_end(reader));
}
