//! Reads the records of no event.

ghost use Rattle.std.specs.Prelude.{◌≡◌, ◌↔◌, max, IsTrue};
ghost use Rattle.hls_journal_laws.specs.Bodies.{kind_in};
ghost use Rattle.hls_journal.specs.Asides.{ids_in, highest_ids, IsClosed};

use crate::{CLOSED, IDS};
use byteorder::{ByteOrder, LittleEndian};
use bytes::Bytes;

/// Returns the number that all job ids are below which may have been given out, as the records say; 0 if none says so.
pub fn find_ids(bodies: &[Bytes]) -> u64
    ensures { result ≡ highest_ids bodies.now }
{
    let mut ids = 0;
    for body in bodies {
        ids = raise_ids(ids, body);
    }
    ids
}

fn raise_ids(ids: u64, body: &[u8]) -> u64
    ensures { result ≡ max ids (ids_in body.now) }
{
    ids.max(read_ids(body))
}

fn read_ids(body: &[u8]) -> u64
    ensures { result ≡ ids_in body.now }
{
    if body.len() != 12 || body[0] != IDS {
        return 0;
    }
    LittleEndian::read_u64(&body[4..])
}

/// Whether the last record says that the journal was closed.
pub fn is_closed(bodies: &[Bytes]) -> bool
    ensures { IsTrue result ↔ IsClosed bodies.now }
{
    match bodies.last() {
        Some(body) => is_closed_body(body),
        None => false,
    }
}

fn is_closed_body(body: &[u8]) -> bool
    ensures { IsTrue result ↔ (kind_in body.now ≡ 8) }
{
    match body.first() {
        Some(kind) => *kind == CLOSED,
        None => false,
    }
}
