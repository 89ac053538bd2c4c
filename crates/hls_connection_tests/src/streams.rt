//! Requests with encoders' bodies.

ghost use Rattle.std.specs.Prelude.{◌<◌, ◌^◌, IfOk, length};

use hls_fakes::{init_bytes, unit_bytes};
use std::alloc::{AllocError, Global};

/// An init section of 600 bytes, with 90000 ticks per second.
pub fn init(alloc: Global) -> Result<Vec<u8>, AllocError>
    ensures { IfOk result (λ bytes. length bytes.items < 2 ^ 64) }
{
    init_bytes(alloc, b"vide", 90000)
}

/// The unit of 4 s and 1000 bytes with this number, from 0.
pub fn unit(alloc: Global, number: u32) -> Result<Vec<u8>, AllocError>
    ensures { IfOk result (λ bytes. length bytes.items < 2 ^ 64) }
{
    unit_bytes(alloc, u64::from(number) * 360_000, 360_000, true, 1000)
}

/// An init section and the first units.
pub fn stream(alloc: Global, units: u32) -> Result<Vec<u8>, AllocError>
    ensures { IfOk result (λ bytes. length bytes.items < 2 ^ 64) }
{
    let mut bytes = init(alloc)?;
    for number in 0..units {
        bytes.extend_from_slice(&unit(alloc, number)?)?;
    }
    Ok(bytes)
}

/// A PUT of a body with its length, and further fields, to a rendition.
pub fn put(
    alloc: Global,
    rendition: usize,
    fields: &str,
    body: &[u8],
) -> Result<Vec<u8>, AllocError>
    ensures { IfOk result (λ bytes. length bytes.items < 2 ^ 64) }
{
    let len = body.len();
    let head = format!(in alloc;
        "PUT /ingest/{rendition} HTTP/1.1\r\nHost: a\r\n{fields}Content-Length: {len}\r\n\r\n"
    )?;
    let mut text = head.into_bytes();
    text.extend_from_slice(body)?;
    Ok(text)
}
