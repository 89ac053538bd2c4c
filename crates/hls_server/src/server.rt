//! The server: its threads, from their start to their end.

ghost use Rattle.std.specs.Prelude.{◌≡◌, ◌+◌, ◌≤◌, All, IsFalse, IsTrue, max, min};

use crate::body_lanes::BodyLanes;
use crate::durability::Durability;
use crate::follower::{FollowerContext, StateFollower, run_follower};
use crate::handler::ServerHandler;
use crate::limits::{connection_count, waiting_limit, worker_count};
use hls_connection::channel_handle::ChannelHandle;
use hls_connection::shared_channel::SharedChannel;
use hls_core::snapshot::Snapshot;
use hls_event_loop::{WorkerIo, WorkerLoads, open_file_limit, run_worker, tune_listener};
use hls_housekeeper::{
    LogThrottle, OperatorLog, ServerStatus, ThreadCounts, log_ended_worker, log_fewer_threads,
    measure_process, run_housekeeper,
};
use hls_jobs::{Gate, Jobs, work_loop};
use hls_mend::EncoderSigns;
use hls_metrics::Measurements;
use hls_metrics::measurements::add;
use hls_settings::{Settings, ThreadSettings};
use hls_time::monotonic_ms;
use hls_turn::{Pass, Turn};
use std::alloc::{AllocError, Global};
use std::cell::Cell;
use std::io::Eprint;
use std::net::{Net, TcpListener, TcpStream};
use std::rt::Env;
use std::sync::Wait;
use std::sync::atomic::{AtomicBool, Ordering};
use std::thread::{self, JoinHandle, Scope, Threads};
use std::time::Clock;

/// The most workers: each has a pass, and so has the housekeeper. With a journal its follower has one, too, and there is one fewer.
pub const MOST_WORKERS: u64 = 63;

/// The journal of a channel.
#[derive(Drop)]
pub struct ServerJournal<F> {
    /// It has the state in which the server starts.
    pub follower: F,
    /// How often it is synced, in milliseconds, if it is by time.
    pub sync_interval_ms: Option<u64>,
    /// Whether encoders are refused once it is lost; else the channel continues without it.
    pub refuses_if_lost: bool,
}

/// What a server starts with.
#[derive(Drop)]
pub struct ServerStart<'a, F> {
    /// The system whose files the housekeeper reads.
    pub host: &'a HostRuntime,
    /// The channel as it is then.
    pub snapshot: Snapshot,
    /// The first id of a job; 1 for a new channel.
    pub first_job: u64,
    pub journal: Option<ServerJournal<F>>,
    /// Whether encoders are refused from the start, since the journal was lost.
    pub refuses_encoders: bool,
}

/// How much workers serve, by the options and the limit of open files.
#[derive(Clone, Copy)]
struct ThreadLimits {
    /// The most workers.
    worker_count: u64,
    /// How many connections a worker holds at most.
    connection_count: u64,
    /// How many responses of a worker wait at most.
    most_waiting: u64,
}

/// What the threads of a server share.
#[derive(Clone, Copy)]
struct ServerContext<'a> {
    /// The system whose files the housekeeper reads: another runtime's files can't be used in a thread.
    host: &'a HostRuntime,
    alloc: Global,
    settings: &'a Settings,
    channel: &'a SharedChannel<'a>,
    /// The listener of the workers.
    listener: &'a TcpListener,
    limits: ThreadLimits,
    /// What the workers know of each other.
    worker_loads: &'a WorkerLoads,
    throttle: &'a LogThrottle,
    /// Whether all workers have ended.
    closed: &'a AtomicBool,
    /// How far the journal is durable.
    durability: &'a Durability,
    /// Where encoders' bodies are slowed down.
    lanes: &'a BodyLanes,
}

/// Wakes responses that wait for a job or a plan whenever one ends, and counts plans. Once the workers are to end, no further job runs.
#[derive(Drop)]
struct WakingGate<'a, R> {
    rt: &'a R,
    worker_loads: &'a WorkerLoads,
    measurements: &'a Measurements,
}

impl<'a, R: Clock> Gate for WakingGate<'a, R> {
    fn enter(&self, _id: u64) -> bool {
        !self.worker_loads.is_ending()
    }

    fn now_ms(&self) -> u64 {
        monotonic_ms(self.rt)
    }

    fn leave(&self, _id: u64) {
        self.worker_loads.wake_waiting();
    }

    fn note_planned(&self) {
        add(&self.measurements.programme_plans, 1);
        self.worker_loads.wake_waiting();
    }
}

impl<'a> ServerStatus for ServerContext<'a> {
    fn job_count<R: Wait>(&self, rt: &R) -> usize {
        self.channel.jobs.len(rt)
    }

    fn signs(&self) -> &EncoderSigns {
        self.channel.signs
    }

    fn measurements(&self) -> &Measurements {
        self.channel.measurements
    }

    fn note_kept(&self, rendition: usize, bytes: u64) {
        self.lanes.note_kept(rendition, bytes);
    }

    fn connection_count(&self) -> u64 {
        self.worker_loads.connection_count()
    }

    fn remove_unused_jobs<R: Wait>(&self, rt: &R, now: u64) {
        if let Some(life_s) = self.settings.server.job_life_s {
            let life_ms = life_s.saturating_mul(1000);
            self.channel.jobs.remove_unused(rt, now, life_ms);
        }
    }

    fn measure_process(&self) {
        measure_process(self.host, self.channel.measurements);
    }

    fn is_closed(&self) -> bool {
        self.closed.load(Ordering::SeqCst)
    }

    fn written_version(&self) -> u64 {
        self.durability.read().version
    }

    fn journal_busy_ms(&self, now: u64) -> u64 {
        self.durability.busy_ms(now)
    }
}

/// The number of passes: one for each worker that is asked for, 1 to 63, the housekeeper's, and the follower's if there is a journal.
/// They are 64 at most.
fn pass_count(workers: u64, has_journal: bool) -> u16
    ensures plain { IsFalse has_journal → result ≡ max 1 (min workers 63) + 1 }
    ensures followed { IsTrue has_journal → result ≡ max 1 (min workers 62) + 2 }
    ensures few { (1 ≤ result) × (result ≤ 64) }
{
    if has_journal {
        return (workers.clamp(1, MOST_WORKERS - 1) + 2) as u16;
    }
    (workers.clamp(1, MOST_WORKERS) + 1) as u16
}

/// Serves connections from a channel, which begins as `start` says. Each worker accepts the given number of connections, or serves
/// forever if none is given, or until the follower of the journal wants the server to end. The housekeeper, the follower and the planners
/// end when all workers have. The planners finish the jobs that wait by then, unless it ends for its follower.
///
/// A worker holds many connections at once, and none of them may be silent or slow forever. If a thread can't be started, the others
/// serve, and a line is logged; without its follower a channel with a journal isn't served. An allocation failure is returned before a
/// thread is started, or if no worker could be. Accepts on the listener don't block meanwhile. May wait.
pub fn run_server<'a, R: Net<Listener = TcpListener, Stream = TcpStream>, F: StateFollower + Send>(
    rt: &R,
    alloc: Global,
    settings: &'a Settings,
    listener: &'a TcpListener,
    connections: Option<u64>,
    start: ServerStart<'a, F>,
) -> Result<(), AllocError>
where
    R: Threads + Wait + Clock + Eprint + Env + Sync,
    F: Drop,
{
    let ServerStart {
        host,
        snapshot,
        first_job,
        journal,
        refuses_encoders,
    } = start;
    let durability = find_durability(&snapshot, journal.is_some());
    let count = pass_count(settings.server.workers.workers, journal.is_some());
    let (turn, passes) = Turn::new(rt, alloc, snapshot, count)?;
    if refuses_encoders {
        turn.refuse_encoders();
    }
    let jobs = Jobs::starting_at(alloc, first_job)?;
    let measurements = Measurements::new(alloc)?;
    let limits = find_limits(settings.server.workers);
    let worker_loads = make_loads(alloc, limits, connections)?;
    let signs = EncoderSigns::new();
    let lanes = BodyLanes::new(alloc, settings)?;
    let channel = SharedChannel {
        turn: &turn,
        jobs: &jobs,
        measurements: &measurements,
        signs: &signs,
        wait_ms: u64::from(settings.server.wait_s).saturating_mul(1000),
        plan_wait_ms: settings.server.workers.idle_timeout_s.saturating_mul(1000),
    };
    let (throttle, closed) = (LogThrottle::new(), AtomicBool::new(false));
    let context = ServerContext {
        host,
        alloc,
        settings,
        channel: &channel,
        listener,
        limits,
        worker_loads: &worker_loads,
        throttle: &throttle,
        closed: &closed,
        durability: &durability,
        lanes: &lanes,
    };
    run_listening(rt, &context, passes, journal)
}

/// Runs the threads of a server. Accepts on its listener don't block meanwhile.
fn run_listening<R: Net<Listener = TcpListener, Stream = TcpStream>, F: StateFollower + Send>(
    rt: &R,
    context: &ServerContext<'_>,
    passes: Vec<Pass>,
    journal: Option<ServerJournal<F>>,
) -> Result<(), AllocError>
where
    R: Threads + Wait + Clock + Eprint + Env + Sync,
    F: Drop,
    requires { All (λ p. p.turn ≡ context.now.channel.now.turn.now) passes.items }
{
    tune_listener(context.listener);
    let ran = run_threads(rt, context, passes, journal);
    let _ = context.listener.set_nonblocking(false);
    ran
}

/// Returns how far the first state of a channel is durable.
fn find_durability(snapshot: &Snapshot, has_journal: bool) -> Durability {
    if has_journal {
        Durability::new(Some(snapshot.version()))
    } else {
        Durability::new(None)
    }
}

/// Returns how much workers serve.
fn find_limits(workers: ThreadSettings) -> ThreadLimits {
    let files = open_file_limit();
    ThreadLimits {
        worker_count: worker_count(workers, files),
        connection_count: connection_count(workers, files),
        most_waiting: waiting_limit(workers, files),
    }
}

/// Makes what the workers know of each other.
fn make_loads(
    alloc: Global,
    limits: ThreadLimits,
    connections: Option<u64>,
) -> Result<WorkerLoads, AllocError> {
    let most = connections.unwrap_or(u64::MAX);
    match WorkerLoads::new(alloc, limits.worker_count, limits.connection_count, most) {
        Ok(worker_loads) => Ok(worker_loads),
        Err(_) => Err(AllocError),
    }
}

/// Serves connections on one thread, and logs if the system doesn't let it.
fn run_worker_thread<R: Wait + Clock + Eprint>(
    rt: &R,
    context: &ServerContext<'_>,
    io: WorkerIo,
    pass: Pass,
)
    requires { pass.turn ≡ context.now.channel.now.turn.now }
{
    let handler = ServerHandler {
        rt,
        alloc: context.alloc,
        handle: ChannelHandle::new(rt, context.alloc, context.channel, pass),
        durability: context.durability,
        lanes: context.lanes,
        settings: context.settings,
        throttle: context.throttle,
        worker_loads: context.worker_loads,
        waiting: Cell::new(0),
        most_waiting: context.limits.most_waiting,
    };
    let idle_timeout_s = context.settings.server.workers.idle_timeout_s;
    if let Err(error) = run_worker(
        rt,
        context.alloc,
        io,
        context.worker_loads,
        handler,
        idle_timeout_s,
    ) {
        log_ended_worker(rt, error);
    }
}

/// Runs the housekeeper on one thread.
fn run_housekeeper_thread<R: Wait + Clock + Eprint + Env>(
    rt: &R,
    context: &ServerContext<'_>,
    mut pass: Pass,
)
    requires { pass.turn ≡ context.now.channel.now.turn.now }
{
    let turn = context.channel.turn;
    run_housekeeper(
        rt,
        context.alloc,
        turn,
        context.settings,
        context,
        &mut pass,
    );
}

/// Runs the follower of the journal on one thread.
fn run_follower_thread<R: Wait + Clock, F: StateFollower + Drop>(
    rt: &R,
    context: &ServerContext<'_>,
    mut journal: ServerJournal<F>,
    mut pass: Pass,
)
    requires { pass.turn ≡ context.now.channel.now.turn.now }
{
    let what = FollowerContext {
        alloc: context.alloc,
        turn: context.channel.turn,
        durability: context.durability,
        worker_loads: context.worker_loads,
        measurements: context.channel.measurements,
        sync_interval_ms: journal.sync_interval_ms,
        refuses_if_lost: journal.refuses_if_lost,
    };
    run_follower(rt, what, &mut journal.follower, context, &mut pass);
}

/// Starts a thread for each pass, which serves connections. Returns the threads that were started.
fn start_workers<'s, E, R: Net<Listener = TcpListener, Stream = TcpStream>>(
    scope: &Scope<'s, E>,
    rt: &'s R,
    context: &'s ServerContext<'s>,
    passes: Vec<Pass>,
    mut started: Vec<JoinHandle<()>>,
) -> Vec<JoinHandle<()>>
where
    R: Wait + Clock + Eprint + Sync,
    requires { All (λ p. p.turn ≡ context.now.channel.now.turn.now) passes.items }
{
    for pass in passes {
        if started.len() as u64 >= context.limits.worker_count {
            continue;
        }
        let Ok(io) = WorkerIo::listen_on(rt, context.alloc, context.listener) else {
            continue;
        };
        let worker = scope.spawn(
            move || -> ()
                requires { pass.turn ≡ context.now.channel.now.turn.now }
            { run_worker_thread(rt, context, io, pass) },
        );
        if let Ok(worker) = worker {
            let _ = started.push(worker);
        }
    }
    started
}

/// Starts the threads that run jobs. Returns how many were started.
fn start_planners<'s, E, R: Wait + Clock + Sync>(
    scope: &Scope<'s, E>,
    rt: &'s R,
    context: &'s ServerContext<'s>,
) -> u64 {
    let (alloc, jobs) = (context.alloc, context.channel.jobs);
    let mut started: u64 = 0;
    for _ in 0..context.settings.server.workers.planners {
        let gate = WakingGate {
            rt,
            worker_loads: context.worker_loads,
            measurements: context.channel.measurements,
        };
        let planner = scope.spawn(move || work_loop(rt, alloc, jobs, &gate));
        if planner.is_ok() {
            started = started.saturating_add(1);
        }
    }
    started
}

/// Ends the housekeeper, the follower and the planners.
fn close_server<R: Wait>(rt: &R, context: &ServerContext<'_>) {
    context.channel.jobs.close(rt);
    context.closed.store(true, Ordering::SeqCst);
    context.channel.turn.tell(rt);
    context.durability.call(rt);
}

/// Runs the workers, with a pass each, and the planners, to the end of the workers. Returns how many workers were started.
fn run_workers<'s, E, R: Net<Listener = TcpListener, Stream = TcpStream>>(
    scope: &Scope<'s, E>,
    rt: &'s R,
    context: &'s ServerContext<'s>,
    passes: Vec<Pass>,
    has_housekeeper: bool,
) -> Result<u64, AllocError>
where
    R: Threads + Wait + Clock + Eprint + Env + Sync,
    requires { All (λ p. p.turn ≡ context.now.channel.now.turn.now) passes.items }
{
    let room = Vec::with_capacity(context.alloc, passes.len())?;
    let planners = context.settings.server.workers.planners;
    let wanted = ThreadCounts::all(passes.len(), planners);
    let workers = start_workers(scope, rt, context, passes, room);
    let started = ThreadCounts {
        has_housekeeper,
        workers: workers.len() as u64,
        planners: start_planners(scope, rt, context),
    };
    log_fewer_threads(&OperatorLog::new(rt), started, wanted);
    for worker in workers {
        worker.join(rt);
    }
    Ok(started.workers)
}

/// Runs a thread for each pass, and the planners: the last pass is the housekeeper's, the one before it the follower's if there is a
/// journal, and the others serve connections.
fn run_threads<R: Net<Listener = TcpListener, Stream = TcpStream>, F: StateFollower + Send>(
    rt: &R,
    context: &ServerContext<'_>,
    passes: Vec<Pass>,
    journal: Option<ServerJournal<F>>,
) -> Result<(), AllocError>
where
    R: Threads + Wait + Clock + Eprint + Env + Sync,
    F: Drop,
    requires { All (λ p. p.turn ≡ context.now.channel.now.turn.now) passes.items }
{
    thread::scope(
        thread::scope_env(),
        rt,
        move |scope| -> Result<(), AllocError>
            requires { All (λ p. p.turn ≡ context.now.channel.now.turn.now) passes.items }
        {
            let mut passes = passes;
            let Some(last) = passes.pop() else {
                return Ok(());
            };
            if let Some(journal) = journal {
                let Some(pass) = passes.pop() else {
                    return Ok(());
                };
                let follower = scope.spawn(
                    move || -> ()
                        requires { pass.turn ≡ context.now.channel.now.turn.now }
                    { run_follower_thread(rt, context, journal, pass) },
                );
                if follower.is_err() {
                    return Err(AllocError);
                }
            }
            let keeper = scope.spawn(
                move || -> ()
                    requires { last.turn ≡ context.now.channel.now.turn.now }
                { run_housekeeper_thread(rt, context, last) },
            );
            let ran = run_workers(scope, rt, context, passes, keeper.is_ok());
            close_server(rt, context);
            match ran {
                Ok(workers) if workers > 0 => Ok(()),
                _ => Err(AllocError),
            }
        },
    )
}
