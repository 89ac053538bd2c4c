//! Restores the channel of a log, without the newest records whose media a power loss took.

use crate::fault::OpenFault;
use crate::kept_units::find_kept_units;
use crate::media_read::read_media;
use crate::media_starts::MediaStarts;
use byteorder::{ByteOrder, LittleEndian};
use bytes::Bytes;
use hls_core::base::Base;
use hls_core::config::Config;
use hls_core::snapshot::Snapshot;
use hls_journal::{JournalFault, restore_records};
use hls_journal_log::{HEADER_LEN, SYNC_POINT_KIND, SYNC_POINT_LEN};
use std::alloc::Global;
use std::fs::File;
use std::rt::Files;
use std::sync::Arc;
use std::thread::Threads;

/// A channel that the first records of a log restored.
#[derive(Drop)]
pub(crate) struct Restored {
    pub(crate) snapshot: Arc<Snapshot>,
    /// How many records these are.
    pub(crate) count: usize,
    /// How many units were read.
    pub(crate) units: usize,
}

/// What a journal is restored with: its media's folder, its configuration and its base.
#[derive(Drop)]
pub(crate) struct Source<'a> {
    pub(crate) media: &'a str,
    pub(crate) config: &'a Config,
    pub(crate) base: Base,
}

/// Restores a channel from the records after the first. Of those that no sync covered, the first whose unit the media don't have is
/// passed over with all that follow: a power loss may leave a record without its unit. `synced` is the number of the others.
pub(crate) fn restore_prefix<R: Files<File = File> + Threads + Sync>(
    rt: &R,
    alloc: Global,
    source: &Source<'_>,
    records: &[Bytes],
    synced: usize,
) -> Result<Restored, OpenFault> {
    let mut count = records.len();
    'prefixes: while synced <= count {
        match restore_first(rt, alloc, source, &records[..count]) {
            Err(OpenFault::Channel(JournalFault::MissingUnit { record }))
                if synced < record && record <= count => {
                count = record - 1;
            }
            outcome => return outcome,
        }
    }
    restore_first(rt, alloc, source, records)
}

/// Restores a channel from these records and no others.
fn restore_first<R: Files<File = File> + Threads + Sync>(
    rt: &R,
    alloc: Global,
    source: &Source<'_>,
    records: &[Bytes],
) -> Result<Restored, OpenFault> {
    let index = find_kept_units(alloc, records)?;
    let stored = read_media(
        rt,
        alloc,
        source.media,
        &index,
        source.config.renditions().len(),
        &MediaStarts::of_base(&source.base),
    )?;
    let config = source.config.share()?.with_base(source.base);
    let snapshot = restore_records(alloc, config, records, &stored)?;
    Ok(Restored {
        snapshot,
        count: records.len(),
        units: index.units.len(),
    })
}

/// Returns how many of a log's records were synced, as its sync points say.
pub(crate) fn count_synced(bodies: &[Bytes]) -> usize {
    let mut synced = 0;
    for body in bodies {
        synced = read_synced(body).max(synced);
    }
    let mut count: usize = 0;
    let mut end: u64 = 0;
    for body in bodies {
        end = end.saturating_add((HEADER_LEN as u64).saturating_add(body.len() as u64));
        if end <= synced {
            count = count.saturating_add(1);
        }
    }
    count
}

/// Returns how many bytes of the log were synced, if the record is a sync point.
fn read_synced(body: &[u8]) -> u64 {
    if body.len() != SYNC_POINT_LEN || body[0] != SYNC_POINT_KIND {
        return 0;
    }
    LittleEndian::read_u64(&body[16..])
}

/// Returns the bytes of records.
pub(crate) fn count_bytes(bodies: &[Bytes]) -> usize {
    let mut len: usize = 0;
    for body in bodies {
        len = len.saturating_add(HEADER_LEN.saturating_add(body.len()));
    }
    len
}
