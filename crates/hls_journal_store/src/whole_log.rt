//! Makes the records of a whole log by several threads.

ghost use Rattle.std.specs.Prelude.{◌≡◌, ◌+◌, ◌<◌, ◌≤◌, length, min, OnOk};
ghost use Rattle.hls_journal_store.specs.Batches.{number_in, rendition_in};

use crate::batch::{Batch, Position, copy_position, count_entry, find_rendition, make_batch};
use crate::fault::BatchFault;
use hls_core::snapshot::Snapshot;
use hls_core_laws::event::LoggedEvent;
use rayon::prelude::*;
use std::alloc::{AllocError, Global};
use std::thread::Threads;

/// The most entries of a part, which one thread makes.
const PART_ENTRIES: u64 = 256;

/// The number of parts that are made in parallel before their records are written.
const ROUND_PARTS: usize = 32;

/// Makes the records of the parts of a channel's log that begin at these positions, with one thread for each processor.
pub(crate) fn make_parts<R: Threads + Sync>(
    rt: &R,
    alloc: Global,
    snapshot: &Snapshot,
    starts: &[Position],
) -> Result<Vec<Result<Batch, BatchFault>>, AllocError> {
    starts
        .par_iter()
        .with_min_len(1)
        .map(|from: &Position| -> Result<Batch, BatchFault> {
            make_batch(alloc, snapshot, from, PART_ENTRIES)
        })
        .collect(rt, alloc)
}

/// Returns where the next parts of a channel's log begin, and moves `from` to their end.
pub(crate) fn find_parts(
    alloc: Global,
    snapshot: &Snapshot,
    from: &mut Position,
) -> Result<Vec<Position>, BatchFault>
    ensures { OnOk result (from.old.version < length snapshot.now.log → from.old.version < from.new.version) }
{
    let mut starts = Vec::new(alloc);
    'parts: while starts.len() < ROUND_PARTS && from.version < snapshot.version() {
        push_copy(alloc, &mut starts, from)?;
        skip_part(snapshot, from)?;
    }
    Ok(starts)
}

fn push_copy(alloc: Global, starts: &mut Vec<Position>, from: &Position) -> Result<(), AllocError> {
    starts.push(copy_position(alloc, from)?)?;
    Ok(())
}

/// Moves a position over a part of a channel's log.
fn skip_part(snapshot: &Snapshot, position: &mut Position) -> Result<(), BatchFault>
    ensures { OnOk result (position.old.version ≤ length snapshot.now.log → position.new.version ≡ min (length snapshot.now.log) (position.old.version + 256)) }
{
    let end = snapshot
        .version()
        .min(position.version.saturating_add(PART_ENTRIES));
    'entries: while position.version < end {
        let Some(entry) = snapshot.log().get(position.version) else {
            unreachable!()
        };
        count_unit(&mut position.counts, &entry.event)?;
        position.version += 1;
    }
    Ok(())
}

/// Counts the unit of a logged event, if it has one.
fn count_unit(counts: &mut [u64], event: &LoggedEvent) -> Result<(), BatchFault> {
    let number = counts.get(find_rendition(event)).copied().unwrap_or(0);
    count_entry(counts, event, number)
}
