//! The floors of the renditions: how much of each is trimmed.

ghost use Rattle.std.specs.Prelude.{◌≡◌, ◌≤◌, length, take};
ghost use Rattle.hls_check_tables.specs.Tables.{rendition_limit};
ghost use Rattle.hls_core_laws.specs.State.{channel};
ghost use Rattle.hls_core_laws.specs.Places.{floors};

use crate::place_search::floor_of;
use crate::snapshot::Snapshot;
use hls_check_tables::RENDITION_LIMIT;

/// Returns the number of renditions of the channel.
pub fn rendition_count(snapshot: &Snapshot) -> usize
    ensures configured { result ≡ length snapshot.now.config.renditions }
    ensures lanes { result ≡ length (channel snapshot.now).lanes }
    ensures few { result ≤ rendition_limit }
{
    snapshot.config().renditions().len()
}

/// Returns for each rendition the number of the first unit that isn't trimmed; 0 if it hasn't begun, and past the last rendition.
pub fn floors_of(snapshot: &Snapshot) -> [u64; RENDITION_LIMIT]
    ensures { take (length (channel snapshot.now).lanes) result ≡ floors snapshot.now }
{
    let mut floors = [0; RENDITION_LIMIT];
    for rendition in 0..rendition_count(snapshot) {
        floors[rendition] = floor_of(snapshot, rendition);
    }
    floors
}
