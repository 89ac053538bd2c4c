//! Finds the first step that doesn't respect the prices, by blocks of rows that are examined in parallel, with one thread for each
//! processor. If no thread can be created, the calling thread examines all of them.

ghost use Rattle.std.specs.Prelude.{◌≡◌, ℕ, ◌+◌, ◌*◌, ◌<◌, ◌≤◌, length};
ghost use Rattle.hls_check_tables.specs.Tables.{IsTable};
ghost use Rattle.hls_check_tables.specs.Certificates.{claim_data};
ghost use Rattle.hls_check.specs.Rows.{claimed_prices, DecidesBlock, IsFirstBadBlockOrNone, IsFirstBrokenOrNone};

use crate::rows::{BLOCK_ROWS, first_broken_in_block};
use hls_check_tables::{CertificateTable, Claim};
use rayon::prelude::*;
use std::thread::Threads;

/// The minimum number of blocks for a thread: starting a thread costs more than examining these.
const MIN_BLOCKS: usize = 4;

/// The number of blocks in a round. After a round with a fault no further block is examined.
const ROUND_BLOCKS: usize = 64;

/// Whether some step from a block of places doesn't respect the prices.
fn is_bad_block(table: &CertificateTable, claim: &Claim, block: usize) -> bool
    requires valid { IsTable table.now }
    requires in_range { block * 32 < length table.now.places }
    requires one_each { length (claimed_prices (claim_data claim.now)) ≡ length table.now.places }
    ensures { DecidesBlock table.now (claim_data claim.now) block result }
{
    first_broken_in_block(table, claim, block * BLOCK_ROWS).is_some()
}

/// The first of some blocks with a step that doesn't respect the prices.
fn first_bad_block(
    rt: &(impl Threads + Sync),
    table: &CertificateTable,
    claim: &Claim,
    from: usize,
    to: usize,
) -> Option<usize>
    requires valid { IsTable table.now }
    requires order { from ≤ to }
    requires in_range { (block : ℕ) → block < to → block * 32 < length table.now.places }
    requires one_each { length (claimed_prices (claim_data claim.now)) ≡ length table.now.places }
    ensures { IsFirstBadBlockOrNone table.now (claim_data claim.now) from to result }
{
    (from..to)
        .into_par_iter()
        .with_min_len(MIN_BLOCKS)
        .find_first(
            rt,
            |block: &usize| -> bool
                requires { IsTable table.now × (block.now * 32 < length table.now.places) × (length (claimed_prices (claim_data claim.now)) ≡ length table.now.places) }
                ensures { DecidesBlock table.entry.now (claim_data claim.entry.now) block.now result }
            { is_bad_block(table, claim, *block) },
        )
}

/// Returns the result of `first_broken_step`, computed in parallel.
pub fn first_broken_step_in_parallel(
    rt: &(impl Threads + Sync),
    table: &CertificateTable,
    claim: &Claim,
) -> Option<(usize, usize)>
    requires { length (claimed_prices (claim_data claim.now)) ≡ length table.now.places }
    ensures { IsFirstBrokenOrNone table.now (claim_data claim.now) result }
{
    let blocks = table.len().div_ceil(BLOCK_ROWS);
    let mut done = 0;
    while done < blocks {
        let next = blocks.min(done + ROUND_BLOCKS);
        if let Some(block) = first_bad_block(rt, table, claim, done, next) {
            return first_broken_in_block(table, claim, block * BLOCK_ROWS);
        }
        done = next;
    }
    None
}
