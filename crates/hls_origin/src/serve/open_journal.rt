//! Opens the journal of a channel, and logs what was restored.

use crate::journal::FolderFault;
use crate::serve::generate_run::{generate_run, read_clock};
use hls_core::config::Config;
use hls_core::snapshot::Snapshot;
use hls_housekeeper::OperatorLog;
use hls_journal::JournalFault;
use hls_journal_store::{
    OpenFault, OpenedStore, StoreFollower, StoreStart, SyncMode, begin_anew, open_store,
};
use hls_settings::{JournalSettings, PrintableArgument, SyncSetting};
use hls_time::monotonic_ms;
use std::alloc::Global;
use std::fmt::{self, Display, Formatter, Write};
use std::fs::File;
use std::io::Eprint;
use std::rt::{Env, Files};
use std::sync::Arc;
use std::thread::Threads;

/// The journal of a channel.
#[derive(Drop)]
pub struct ChannelJournal {
    /// It has the state in which the channel starts.
    pub follower: StoreFollower,
    /// How often it is synced, in milliseconds, if it is by time.
    pub sync_interval_ms: Option<u64>,
    /// Whether encoders are refused once it is lost.
    pub refuses_if_lost: bool,
}

/// What a channel starts with.
#[derive(Drop)]
pub struct ChannelStart {
    pub snapshot: Snapshot,
    /// The first id of a job; 1 for a new channel.
    pub first_job: u64,
    pub journal: Option<ChannelJournal>,
}

/// Why the journal of a channel can't be opened.
#[derive(Clone, Copy, Drop)]
pub enum JournalStop {
    /// Out of memory.
    Memory,
    /// The arguments describe another channel than the journal does; the cause was logged.
    Other,
    /// Nothing can be restored; the cause was logged.
    Failed,
}

/// What a start found in a folder.
#[derive(Drop)]
struct StartLine<'a> {
    start: &'a StoreStart,
    passed_ms: u64,
}

impl<'a> Display for StartLine<'a> {
    fn fmt<W: Write>(&self, f: &mut Formatter<W>) -> fmt::Result {
        let start = self.start;
        if start.is_new {
            return f.write_str("a new channel");
        }
        let (seconds, rest) = (self.passed_ms / 1000, self.passed_ms % 1000);
        write!(
            f,
            "restored version {} in {seconds}.{rest:03} s",
            start.version
        )?;
        write!(
            f,
            " ({} units, {} bytes of log)",
            start.units, start.log_bytes
        )?;
        write!(f, "; dropped {} bytes", start.dropped)?;
        if start.may_lack {
            f.write_str(
                "; the machine ended meanwhile, and what wasn't synced is lost: the paths have a new run",
            )?;
        }
        Ok(())
    }
}

/// Returns when a journal with these settings is synced.
fn sync_mode(sync: SyncSetting) -> (SyncMode, Option<u64>) {
    match sync {
        SyncSetting::Never => (SyncMode::Never, None),
        SyncSetting::Every(interval_ms) => (SyncMode::Timed, Some(interval_ms)),
        SyncSetting::Each => (SyncMode::Each, None),
    }
}

/// Logs why a folder restores no channel.
fn report_stop<R: Eprint + Env>(rt: &R, folder: &str, fault: &OpenFault) -> JournalStop {
    let level = OperatorLog::new(rt).error_prefix();
    let (name, line) = (PrintableArgument(folder), FolderFault(fault));
    let _ = eprintln!(rt; "{level}serve: journal {name}: {line}");
    match fault {
        OpenFault::Memory | OpenFault::Channel(JournalFault::Memory) => JournalStop::Memory,
        OpenFault::Channel(JournalFault::JournalOther { .. }) => JournalStop::Other,
        _ => JournalStop::Failed,
    }
}

/// Begins a new channel after the one in a folder. Logs where its lists begin.
fn begin_channel(
    host: &HostRuntime,
    alloc: Global,
    folder: &str,
    config: &Config,
    new_run: [u8; 16],
) -> Result<(), JournalStop> {
    let now_s = read_clock(host) / 1_000_000_000;
    match begin_anew(host, alloc, folder, config, new_run, now_s) {
        Ok(Some(base)) => {
            let (name, segments) = (PrintableArgument(folder), base.segments());
            let _ = eprintln!(host;
                "serve: journal {name}: starts an empty channel: lists continue with segment {segments}"
            );
            Ok(())
        }
        Ok(None) => Ok(()),
        Err(fault) => Err(report_stop(host, folder, &fault)),
    }
}

/// Opens the journal in a folder: the channel that it has, or a new one with this configuration, read by threads of `rt`. Logs what was restored.
pub fn open_journal<R: Files<File = File> + Threads + Sync>(
    rt: &R,
    host: &HostRuntime,
    alloc: Global,
    folder: &str,
    config: Config,
    settings: JournalSettings,
) -> Result<ChannelStart, JournalStop> {
    let began_ms = monotonic_ms(host);
    let (mode, sync_interval_ms) = sync_mode(settings.sync);
    let new_run = generate_run(host);
    if settings.begins_anew {
        begin_channel(host, alloc, folder, &config, new_run)?;
    }
    let OpenedStore {
        follower,
        snapshot,
        start,
    } = match open_store(rt, alloc, folder, config, mode, new_run) {
        Ok(opened) => opened,
        Err(fault) => return Err(report_stop(host, folder, &fault)),
    };
    let name = PrintableArgument(folder);
    let line = StartLine {
        start: &start,
        passed_ms: monotonic_ms(host).saturating_sub(began_ms),
    };
    let _ = eprintln!(host; "serve: journal {name}: {line}");
    let Ok(snapshot) = Arc::try_unwrap(snapshot) else {
        return Err(JournalStop::Memory);
    };
    Ok(ChannelStart {
        snapshot,
        first_job: start.first_job,
        journal: Some(ChannelJournal {
            follower,
            sync_interval_ms,
            refuses_if_lost: settings.refuses_if_lost,
        }),
    })
}
