//! The floors that a journal's trims reach.

ghost use Rattle.std.specs.Prelude.{◌≡◌, ℕ, max, length, get_or, IfOk};
ghost use Rattle.hls_journal_laws.specs.Floors.{floor_in, highest_floor};

use crate::TRIMMED;
use byteorder::{ByteOrder, LittleEndian};
use bytes::Bytes;
use std::alloc::{AllocError, Global};

/// How many renditions a record can name.
pub const RENDITIONS: usize = 256;

/// Returns the highest floor that a record trims a rendition to, for each of 256 renditions; 0 if it is never trimmed.
pub fn find_floors(alloc: Global, bodies: &[Bytes]) -> Result<Vec<u64>, AllocError>
    ensures floors { IfOk result (λ floors. (r : ℕ) → get_or floors.items r 0 ≡ highest_floor bodies.now r) }
    ensures count { IfOk result (λ floors. length floors.items ≡ 256) }
{
    let mut floors = vec![in alloc; 0u64; RENDITIONS]?;
    for body in bodies {
        raise_floor(&mut floors, body);
    }
    Ok(floors)
}

/// Raises the floor that a record trims to, if it is a record of a trim.
fn raise_floor(floors: &mut [u64], body: &[u8])
    requires { length floors.old ≡ 256 }
    ensures len { length floors.new ≡ 256 }
    ensures floors { (r : ℕ) → get_or floors.new r 0 ≡ max (get_or floors.old r 0) (floor_in body.now r) }
{
    if body.len() != 12 || body[0] != TRIMMED {
        return;
    }
    let rendition = body[3] as usize;
    let floor = LittleEndian::read_u64(&body[4..]);
    floors[rendition] = floors[rendition].max(floor);
}
