//! `serve`, from its arguments to its end.
ghost use Rattle.std.specs.Prelude.{◌≡◌, map, IfOk, IfErr, Ok};
ghost use Rattle.hls_settings.specs.JournalSettings.{journal_settings_of};
ghost use Rattle.hls_origin.specs.ServeRun.{AreSettings, EndsServe, IsServed};

use crate::serve::generate_run::generate_run;
use crate::serve::journal_follower::JournalFollower;
use crate::serve::load_base::{BaseFileFault, load_base};
use crate::serve::open_journal::{ChannelJournal, ChannelStart, JournalStop, open_journal};
use crate::serve::renew_log::{LastState, NextStart};
use hls_core::base::Base;
use hls_core::snapshot::Snapshot;
use hls_housekeeper::{OperatorLog, log_listening};
use hls_journal_store::RenewalGate;
use hls_server::{ServerJournal, ServerStart, log_start, run_server};
use hls_settings::{
    JournalSettings, JournalSettingsFault, ListenAddress, Settings, SettingsFault,
    find_base_argument, find_journal_argument, read_journal_settings, read_settings,
};
use std::alloc::{AllocError, Global};
use std::convert::AsStr;
use std::fs::File;
use std::io::Eprint;
use std::net::{Ipv4Addr, Net, SocketAddrV4, TcpListener, TcpStream};
use std::rt::{Env, Files};
use std::sync::atomic::AtomicU64;
use std::sync::{Arc, Wait};
use std::thread::Threads;
use std::time::Clock;

/// The result of `serve`. While it serves, only a signal ends it.
#[derive(Clone, Copy, Drop)]
pub enum ServeEnd {
    /// The server has ended: status 0.
    Done,
    /// An argument is invalid, and nothing was started: status 2.
    Usage(SettingsFault),
    /// The base can't be taken, and nothing was started: status 2.
    Base(BaseFileFault),
    /// An option of a journal is invalid, and nothing was started: status 2.
    Journal(JournalSettingsFault),
    /// `--journal` names no folder, and nothing was started: status 2.
    NoFolder,
    /// The folder of the journal has another channel, and nothing was started: status 2.
    OtherJournal,
    /// The journal can't be opened: status 1.
    JournalFailed,
    /// Listening on the address failed: status 1.
    BindFailed,
    /// Out of memory: status 1.
    Memory,
}

fn socket_address(address: ListenAddress) -> SocketAddrV4 {
    let ip = Ipv4Addr::new(address.a, address.b, address.c, address.d);
    SocketAddrV4::new(ip, address.port)
}

/// Returns the base of a new channel, with the run that is given or a generated one.
fn new_base<R: Files + Clock>(rt: &R, run: Option<[u8; 16]>) -> Base {
    let run = match run {
        Some(run) => run,
        None => generate_run(rt),
    };
    Base::of_run(run).unwrap_or(Base::none())
}

/// Returns the base in a file. A run that is given must be the base's.
fn given_base<R: Files>(rt: &R, path: &str, settings: &Settings) -> Result<Base, BaseFileFault> {
    let base = load_base(rt, path, settings.config.renditions())?;
    match settings.server.run {
        Some(run) if run != base.run() => Err(BaseFileFault::OtherRun),
        _ => Ok(base),
    }
}

/// Returns the settings with the base that the arguments name, or with that of a new channel.
fn with_base<R: Files + Clock>(
    rt: &R,
    settings: Settings,
    path: Option<&str>,
) -> Result<Settings, BaseFileFault> {
    let base = match path {
        Some(path) => given_base(rt, path, &settings)?,
        None => new_base(rt, settings.server.run),
    };
    let Settings { server, config } = settings;
    Ok(Settings {
        server,
        config: config.with_base(base),
    })
}

/// Returns the start of a channel without a journal: it is empty.
fn plain_start(alloc: Global, settings: &Settings) -> Result<ChannelStart, AllocError> {
    Ok(ChannelStart {
        snapshot: Snapshot::first(alloc, settings.config.share()?)?,
        first_job: 1,
        journal: None,
    })
}

/// Returns the start of a channel: with a journal, what its folder has.
fn start_channel<R: Files<File = File> + Threads + Sync>(
    rt: &R,
    host: &HostRuntime,
    alloc: Global,
    settings: &Settings,
    folder: Option<&str>,
    journal: JournalSettings,
) -> Result<ChannelStart, JournalStop> {
    let Some(folder) = folder else {
        return match plain_start(alloc, settings) {
            Ok(start) => Ok(start),
            Err(_) => Err(JournalStop::Memory),
        };
    };
    let Ok(config) = settings.config.share() else {
        return Err(JournalStop::Memory);
    };
    let start = open_journal(rt, host, alloc, folder, config, journal)?;
    match settings.server.run {
        Some(run) if run != start.snapshot.config().base().run() => {
            let level = OperatorLog::new(host).warning_prefix();
            let _ = eprintln!(host;
                "{level}serve: --run is for a new channel: the journal's has another run"
            );
        }
        _ => {}
    }
    Ok(start)
}

/// Serves a channel. Each time its log is replaced, the server ends and the next one begins on the same listener.
fn serve_logs<R>(
    rt: &R,
    host: &HostRuntime,
    alloc: Global,
    settings: &Settings,
    listener: &TcpListener,
    start: ChannelStart,
) -> ServeEnd
where
    R: Net<Listener = TcpListener, Stream = TcpStream>
        + Threads
        + Wait
        + Clock
        + Eprint
        + Env
        + Sync,
    ensures { IsServed result }
{
    let ChannelStart {
        snapshot,
        first_job,
        mut journal,
    } = start;
    let mut channel = ServerChannel {
        snapshot,
        first_job,
        renewal: RenewalGate {
            entries: 0,
            at_ms: 0,
        },
        is_lost: false,
    };
    for _ in rt.forever() {
        let mut next = None;
        let start = start_server(rt, host, alloc, channel, &mut journal, &mut next);
        if run_server(rt, alloc, settings, listener, None, start).is_err() {
            return ServeEnd::Memory;
        }
        let Some(last) = next else {
            return ServeEnd::Done;
        };
        let next = continue_channel(rt, host, alloc, &mut journal, last);
        channel = match ServerChannel::from_next(next) {
            Some(channel) => channel,
            None => return ServeEnd::Memory,
        };
    }
    unreachable!()
}

/// Replaces the log of a channel between two servers. Returns what the next one starts with.
fn continue_channel<T: Threads + Sync>(
    threads: &T,
    host: &HostRuntime,
    alloc: Global,
    journal: &mut Option<ChannelJournal>,
    last: LastState,
) -> NextStart {
    match journal {
        Some(journal) => last.renew_log(threads, host, alloc, &mut journal.follower),
        None => last.continue_log(host),
    }
}

/// The channel that a server starts with.
#[derive(Drop)]
struct ServerChannel {
    snapshot: Snapshot,
    /// The first id of a job.
    first_job: u64,
    /// From when on the log is replaced.
    renewal: RenewalGate,
    /// Whether its journal is lost. The folder stays locked.
    is_lost: bool,
}

impl ServerChannel {
    /// What a server left for the next one; none if something still holds the snapshot.
    fn from_next(next: NextStart) -> Option<ServerChannel> {
        match Arc::try_unwrap(next.snapshot) {
            Ok(snapshot) => Some(ServerChannel {
                snapshot,
                first_job: next.first_job,
                renewal: next.renewal,
                is_lost: next.is_lost,
            }),
            Err(_) => None,
        }
    }
}

/// Returns the journal of a server that follows a channel whose journal isn't lost.
fn server_journal<'a, T: Threads + Sync>(
    threads: &'a T,
    host: &'a HostRuntime,
    alloc: Global,
    (first_job, renewal): (u64, RenewalGate),
    journal: &'a mut ChannelJournal,
    next: &'a mut Option<LastState>,
) -> ServerJournal<JournalFollower<'a, T>> {
    let sync_interval_ms = journal.sync_interval_ms;
    let refuses_if_lost = journal.refuses_if_lost;
    let follower = JournalFollower {
        threads,
        host,
        alloc,
        follower: &mut journal.follower,
        refuses_if_lost,
        first_job,
        renewal,
        is_ending: false,
        is_lost: false,
        next,
        logged_at_ms: AtomicU64::new(0),
    };
    ServerJournal {
        follower,
        sync_interval_ms,
        refuses_if_lost,
    }
}

/// Returns what the server of a channel starts with. It leaves the last state in `next` if the log is to be replaced.
fn start_server<'a, T: Threads + Sync>(
    threads: &'a T,
    host: &'a HostRuntime,
    alloc: Global,
    channel: ServerChannel,
    journal: &'a mut Option<ChannelJournal>,
    next: &'a mut Option<LastState>,
) -> ServerStart<'a, JournalFollower<'a, T>> {
    let ServerChannel {
        snapshot,
        first_job,
        renewal,
        is_lost,
    } = channel;
    let (refuses_encoders, followed) = match journal {
        None => (false, None),
        Some(journal) if is_lost => (journal.refuses_if_lost, None),
        Some(journal) => (
            false,
            Some(server_journal(threads, host, alloc, (first_job, renewal), journal, next)),
        ),
    };
    ServerStart {
        host,
        snapshot,
        first_job,
        journal: followed,
        refuses_encoders,
    }
}

/// Listens, and serves a channel. Logs where it listens.
fn serve_channel<R>(
    rt: &R,
    host: &HostRuntime,
    alloc: Global,
    settings: &Settings,
    start: ChannelStart,
) -> ServeEnd
where
    R: Net<Listener = TcpListener, Stream = TcpStream>
        + Threads
        + Wait
        + Clock
        + Eprint
        + Env
        + Sync,
    ensures { IsServed result }
{
    let Ok(listener) = TcpListener::bind(rt, socket_address(settings.server.address)) else {
        return ServeEnd::BindFailed;
    };
    if let Ok(address) = listener.local_addr() {
        log_listening(rt, address, settings);
    }
    log_start(&OperatorLog::new(host), alloc, settings);
    serve_logs(rt, host, alloc, settings, &listener, start)
}

/// The arguments of `serve`.
#[derive(Drop)]
pub struct ServeArguments<'a> {
    /// With the base that the channel has if it is new.
    pub settings: Settings,
    pub journal: JournalSettings,
    /// The folder of the journal.
    pub folder: Option<&'a str>,
}

/// Reads the arguments of `serve`. Returns how it ends if one is invalid.
pub fn read_serve_arguments<'a, S: AsStr>(
    host: &HostRuntime,
    alloc: Global,
    arguments: &'a [S],
) -> Result<ServeArguments<'a>, ServeEnd>
    ensures settings { IfOk result (λ given. AreSettings (map S.text arguments.entry.now)) }
    ensures journal { IfOk result (λ given. journal_settings_of (map S.text arguments.entry.now) ≡ Ok given.journal) }
    ensures fault { IfErr result (EndsServe (map S.text arguments.entry.now)) }
{
    let settings = match read_settings(alloc, arguments) {
        Ok(settings) => settings,
        Err(SettingsFault::Memory) => return Err(ServeEnd::Memory),
        Err(fault) => return Err(ServeEnd::Usage(fault)),
    };
    let journal = match read_journal_settings(arguments) {
        Ok(journal) => journal,
        Err(fault) => return Err(ServeEnd::Journal(fault)),
    };
    let folder = find_journal_argument(arguments);
    if folder == Some("") {
        return Err(ServeEnd::NoFolder);
    }
    match with_base(host, settings, find_base_argument(arguments)) {
        Ok(settings) => Ok(ServeArguments {
            settings,
            journal,
            folder,
        }),
        Err(fault) => Err(ServeEnd::Base(fault)),
    }
}

/// Reads the arguments, opens the journal if there is one, listens, and serves; files are the host's. Logs to standard error where it
/// listens, what was restored, and the result of each encoder's body.
pub fn run_serve<'a, S: AsStr, R>(
    rt: &R,
    host: &HostRuntime,
    alloc: Global,
    arguments: &'a [S],
) -> ServeEnd
where
    R: Net<Listener = TcpListener, Stream = TcpStream>
        + Files<File = File>
        + Threads
        + Wait
        + Clock
        + Eprint
        + Env
        + Sync,
    ensures { EndsServe (map S.text arguments.entry.now) result }
{
    let ServeArguments {
        settings,
        journal,
        folder,
    } = match read_serve_arguments(host, alloc, arguments) {
        Ok(given) => given,
        Err(end) => return end,
    };
    match start_channel(rt, host, alloc, &settings, folder, journal) {
        Ok(start) => serve_channel(rt, host, alloc, &settings, start),
        Err(JournalStop::Memory) => ServeEnd::Memory,
        Err(JournalStop::Other) => ServeEnd::OtherJournal,
        Err(JournalStop::Failed) => ServeEnd::JournalFailed,
    }
}
