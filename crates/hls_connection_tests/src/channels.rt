//! Channels for sessions over memory, with a target duration of 6 s and a preferred length of 4 s.

ghost use Rattle.std.specs.Prelude.{◌≡◌, ◌≤◌, IfOk};

use bytes::Bytes;
use hls_catchup::JobFault;
use hls_connection::act_log::ActLog;
use hls_connection::alone::Alone;
use hls_core::config::Config;
use hls_core::snapshot::Snapshot;
use hls_core_laws::rendition::Rendition;
use hls_jobs::{JobTable, run_job};
use std::alloc::{AllocError, Global};
use std::sync::Arc;

/// Makes a video rendition of 3 Mbit/s.
pub fn video(alloc: Global) -> Result<Rendition, AllocError>
    ensures { IfOk result (λ rendition. rendition.tolerance ≡ 0) }
{
    Ok(Rendition {
        name: Bytes::copy_from_slice(alloc, b"v1")?,
        video: true,
        bandwidth: 3_000_000,
        tolerance: 0,
    })
}

/// Makes the state of a channel of one rendition with or without an epoch, without any events; `None` if an allocation failed.
pub fn first_snapshot(alloc: Global, epoch: Option<i64>) -> Option<Snapshot> {
    let mut renditions = Vec::new(alloc);
    renditions.push(video(alloc).ok()?).ok()?;
    let config = Config::with_epoch(alloc, 6, 4_000_000, renditions, epoch).ok()?;
    Snapshot::first(alloc, config).ok()
}

/// Makes a channel in this state, without jobs.
pub fn new_alone(alloc: Global, snapshot: Snapshot) -> Result<Alone, AllocError>
    ensures { IfOk result (λ own. own.number ≡ 0) }
{
    Ok(Alone {
        alloc,
        snapshot: Arc::new(alloc, snapshot)?,
        number: 0,
        jobs: JobTable::new(alloc)?,
        acts: ActLog::new(),
    })
}

/// Runs all waiting jobs.
pub fn run_all(alloc: Global, own: &mut Alone) -> Result<(), JobFault>
    ensures { 0 ≤ own.new.number }
{
    for _ in 0..64u32 {
        let Some(work) = own.jobs.take_work() else {
            return Ok(());
        };
        own.jobs.finish(run_job(alloc, work))?;
    }
    Ok(())
}
