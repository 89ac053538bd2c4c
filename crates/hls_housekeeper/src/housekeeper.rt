//! The housekeeper: keeps the channel to its window, and warns of limits that come near.

ghost use Rattle.std.specs.Prelude.{◌≡◌, ℕ, Option, IfOk, None, Some};
ghost use Rattle.hls_core.specs.Upkeeps.{IsUpkeepOf};
ghost use Rattle.hls_core_laws.specs.PassView.{MaySeeLater};
ghost use Rattle.hls_mend_laws.specs.declared.settings.MendSettings.{MendSettings};
ghost use Rattle.hls_housekeeper.specs.Housekeeping.{SubmitsUpkeep, EndsRound, RunsUpkeep};

use crate::alert::is_alert_due;
use crate::encoder_watch::{EncoderWatch, WatchClock};
use crate::filling::{FillTarget, fill_renditions};
use crate::monitor::{ChannelStatus, Monitor};
use crate::operator_log::{OperatorLog, log_refused_upkeep};
use crate::progress::channel_time;
use crate::server_status::ServerStatus;
use crate::trim_backoff::TrimBackoff;
use crate::trim_hold::{TrimHold, WrittenUnits};
use hls_core::floors::rendition_count;
use hls_core::snapshot::Snapshot;
use hls_core::upkeep::upkeep;
use hls_core_laws::event::Event;
use hls_core_laws::refusal::Refusal;
use hls_settings::{Settings, WindowSettings};
use hls_time::monotonic_ms;
use hls_turn::{Pass, Turn};
use std::alloc::Global;
use std::io::Eprint;
use std::rt::Env;
use std::sync::Wait;
use std::thread;
use std::time::{Clock, Duration};

/// How long the housekeeper sleeps once nothing is due, in milliseconds. Units that arrive within that time share one round, so
/// encoders that send many per second don't compete with it for the turn at each one.
const REST_MS: u64 = 10;

/// The retry interval after an allocation failure, in milliseconds. Memory is freed when a body, a reply or a job ends, and none
/// of these notifies the housekeeper; and where no unit can be accepted meanwhile, only its trim makes room.
const RETRY_MS: u64 = 1000;

/// How long the housekeeper sleeps while the journal is behind the channel, in milliseconds: a disk that stalls is noticed, even if no unit
/// arrives.
const BEHIND_MS: u64 = 100;

/// How a round of upkeep ended, if no event was refused.
#[derive(Clone, Copy)]
pub enum UpkeepOutcome {
    /// Nothing is due.
    UpToDate,
    /// Nothing is due any more, and units were trimmed.
    Trimmed,
    /// A trim is due, but is held back.
    BackedOff,
}

/// Returns the next event that is due, if any.
fn next_event<R: Wait>(
    rt: &R,
    alloc: Global,
    turn: &Turn,
    timing: WindowSettings,
    pass: &mut Pass,
) -> Result<Option<Event>, Refusal>
    requires { pass.old.turn ≡ turn.now }
    ensures ours { pass.new.turn ≡ turn.now }
    ensures looked { MaySeeLater pass.old.known pass.new.known }
    ensures due { IfOk result (IsUpkeepOf pass.new.known.seen timing.window timing.keep) }
{
    match turn.look(rt, alloc, pass) {
        Ok(snapshot) => Ok(upkeep(&snapshot, timing.window, timing.keep)),
        Err(_) => Err(Refusal::Memory),
    }
}

/// Submits the event that upkeep yields: a slide or a trim.
fn submit_upkeep<R: Wait>(
    rt: &R,
    alloc: Global,
    turn: &Turn,
    timing: WindowSettings,
    pass: &mut Pass,
    event: Event,
) -> Result<(), Refusal>
    requires ours { pass.old.turn ≡ turn.now }
    requires due { IsUpkeepOf pass.old.known.seen timing.window timing.keep (Some event) }
    ensures ours { pass.new.turn ≡ turn.now }
    ensures submits { SubmitsUpkeep timing.window timing.keep pass.old.known pass.new.known }
{
    match turn.submit(rt, alloc, pass, event) {
        Ok(_) => Ok(()),
        Err(refusal) => Err(refusal),
    }
}

/// Submits what is due until nothing is or an event is refused. A trim that is held back waits, and only the rest is submitted.
fn run_upkeep<R: Wait>(
    rt: &R,
    alloc: Global,
    turn: &Turn,
    timing: WindowSettings,
    hold: TrimHold,
    pass: &mut Pass,
) -> Result<UpkeepOutcome, Refusal>
    requires { pass.old.turn ≡ turn.now }
    ensures ours { pass.new.turn ≡ turn.now }
    ensures keeps { (mending : Option MendSettings) → RunsUpkeep mending timing.window timing.keep pass.old.known pass.new.known }
    ensures ends { IfOk result (EndsRound hold timing.window timing.keep pass.new.known.seen) }
{
    let mut trimmed = false;
    for _ in rt.forever() {
        let Some(event) = next_event(rt, alloc, turn, timing, pass)? else {
            return Ok(if trimmed {
                UpkeepOutcome::Trimmed
            } else {
                UpkeepOutcome::UpToDate
            });
        };
        if let Event::Trim { rendition, floor } = &event {
            if hold.holds_back(*rendition, *floor) {
                return Ok(UpkeepOutcome::BackedOff);
            }
            trimmed = true;
        }
        submit_upkeep(rt, alloc, turn, timing, pass, event)?;
    }
    unreachable!()
}

/// The housekeeper between its rounds.
#[derive(Clone, Copy)]
struct Housekeeper {
    /// When a refused event was last logged, in milliseconds of the clock; 0 if never.
    logged_at_ms: u64,
    backoff: TrimBackoff,
    written: WrittenUnits,
    /// Whether the journal doesn't have all of the state that was seen last.
    is_behind: bool,
}

impl Housekeeper {
    /// Notes a state of the channel, and how many versions the journal has.
    fn note_journal(&mut self, written: u64, snapshot: &Snapshot) {
        self.written.update(written, snapshot);
        self.is_behind = written < snapshot.version();
    }

    /// Returns what holds trims back at a moment of the clock and of the channel.
    fn find_hold(&self, now: u64, time: u64) -> TrimHold {
        TrimHold {
            resting: self.backoff.is_active(now, time),
            written: self.written.counts,
        }
    }
}

/// What the housekeeper does after a round.
#[derive(Clone, Copy)]
struct NextRound {
    /// How long it sleeps, in milliseconds.
    length: u64,
    /// Whether it runs the next round even if nothing notifies it.
    again: bool,
}

/// The pause after a round that left nothing to do, or only what another unit may change.
const SHORT: NextRound = NextRound {
    length: REST_MS,
    again: false,
};

/// Logs a refused event, at most once a minute. Returns when one was last logged, in milliseconds of the clock (0: never), for
/// `logged_at_ms`.
fn log_refusal<E: Eprint>(
    log: &OperatorLog<'_, E>,
    refusal: Refusal,
    logged_at_ms: u64,
    now: u64,
) -> u64 {
    if !is_alert_due(logged_at_ms, now) {
        return logged_at_ms;
    }
    log_refused_upkeep(log, refusal);
    now
}

/// Updates the housekeeper after a round, and returns its pause, at a moment of the clock and of the channel. Where a trim waits or an
/// allocation failed, it runs again by itself, since nothing else may notify it.
fn plan_next_round<E: Eprint>(
    log: &OperatorLog<'_, E>,
    keep: u64,
    housekeeper: &mut Housekeeper,
    round: Result<UpkeepOutcome, Refusal>,
    now: u64,
    time: u64,
) -> NextRound {
    match round {
        Ok(UpkeepOutcome::UpToDate) => SHORT,
        Ok(UpkeepOutcome::Trimmed) => {
            housekeeper.backoff = TrimBackoff::start(keep, now, time);
            SHORT
        }
        Ok(UpkeepOutcome::BackedOff) => NextRound {
            length: REST_MS,
            again: true,
        },
        Err(refusal) => {
            housekeeper.logged_at_ms = log_refusal(log, refusal, housekeeper.logged_at_ms, now);
            let again = refusal == Refusal::Memory;
            let length = if again { RETRY_MS } else { REST_MS };
            NextRound { length, again }
        }
    }
}

/// Fills the renditions that are away, if units are mended.
fn run_filling<R: Wait>(
    rt: &R,
    alloc: Global,
    turn: &Turn,
    settings: &Settings,
    watch: &mut EncoderWatch,
    pass: &mut Pass,
) -> Result<(), Refusal>
    requires { pass.old.turn ≡ turn.now }
    ensures ours { pass.new.turn ≡ turn.now }
    ensures keeps { (window keep : ℕ) → RunsUpkeep settings.now.server.mending window keep pass.old.known pass.new.known }
{
    let Some(mending) = settings.server.mending else {
        return Ok(());
    };
    let silent = watch.silent;
    let target = FillTarget {
        settings: mending,
        silent: &silent,
        rendition: 0,
    };
    fill_renditions(rt, alloc, turn, target, pass, &mut watch.fillers)
}

/// Watches the encoders, if units are mended.
fn watch_encoders<E: Eprint, H: ServerStatus>(
    log: &OperatorLog<'_, E>,
    settings: &Settings,
    snapshot: &Snapshot,
    status: &H,
    watch: &mut EncoderWatch,
    now: u64,
) {
    if settings.server.mending.is_some() {
        let clock = WatchClock {
            now,
            wait_ms: u64::from(settings.server.wait_s).saturating_mul(1000),
        };
        watch.update(log, settings.config.renditions(), snapshot, status, clock);
    }
}

/// Notes how many bytes of each rendition a state keeps.
fn note_kept<H: ServerStatus>(snapshot: &Snapshot, status: &H) {
    for rendition in 0..rendition_count(snapshot) {
        if let Some(recording) = snapshot.recording(rendition) {
            let trimmed = recording.offset(recording.floor());
            status.note_kept(rendition, recording.total().saturating_sub(trimmed));
        }
    }
}

/// Inspects the channel, if that is due.
fn inspect_channel<R: Wait + Eprint, H: ServerStatus>(
    log: &OperatorLog<'_, R>,
    settings: &Settings,
    snapshot: &Snapshot,
    status: &H,
    monitor: &mut Monitor,
    now: u64,
) {
    if monitor.is_due(now) {
        status.measure_process();
        note_kept(snapshot, status);
        let inspected = ChannelStatus {
            measurements: status.measurements(),
            settings,
            snapshot,
            jobs: status.job_count(log.rt),
            connections: status.connection_count(),
            journal_busy_ms: status.journal_busy_ms(now),
        };
        monitor.inspect(log, &inspected, now);
    }
}

/// The pause after a round in which renditions were filled too. Where an allocation failed, or the journal is behind, the housekeeper runs
/// again by itself.
fn plan_after_filling<E: Eprint>(
    log: &OperatorLog<'_, E>,
    housekeeper: &mut Housekeeper,
    filled: Result<(), Refusal>,
    now: u64,
    pause: NextRound,
) -> NextRound {
    if let Err(refusal) = filled {
        housekeeper.logged_at_ms = log_refusal(log, refusal, housekeeper.logged_at_ms, now);
        if refusal == Refusal::Memory {
            return NextRound {
                length: RETRY_MS,
                again: true,
            };
        }
    }
    if pause.again || !housekeeper.is_behind {
        return pause;
    }
    NextRound {
        length: BEHIND_MS,
        again: true,
    }
}

/// Runs upkeep whenever it is notified, until the server has closed, and fills the renditions that are away if units are mended; retries
/// by itself after an allocation failure. The only events that it submits are those that upkeep yields, and fillers. Logs what the
/// operator has to know of the channel. May wait.
pub fn run_housekeeper<R: Wait + Clock + Eprint + Env, H: ServerStatus>(
    rt: &R,
    alloc: Global,
    turn: &Turn,
    settings: &Settings,
    status: &H,
    pass: &mut Pass,
)
    requires { pass.old.turn ≡ turn.now }
    ensures ours { pass.new.turn ≡ turn.now }
    ensures keeps { RunsUpkeep settings.now.server.mending settings.now.server.timing.window settings.now.server.timing.keep pass.old.known pass.new.known }
{
    let log = OperatorLog::new(rt);
    let timing = settings.server.timing;
    let mut housekeeper = Housekeeper {
        logged_at_ms: 0,
        backoff: TrimBackoff::none(),
        written: WrittenUnits::new(),
        is_behind: false,
    };
    let mut monitor = Monitor::new(monotonic_ms(rt).max(1));
    let mut watch = EncoderWatch::new();
    for _ in rt.forever() {
        turn.wait_told(rt);
        let now = monotonic_ms(rt).max(1);
        status.remove_unused_jobs(rt, now);
        let mut time = 0;
        if let Ok(snapshot) = turn.look(rt, alloc, pass) {
            time = channel_time(&snapshot);
            housekeeper.note_journal(status.written_version(), &snapshot);
            inspect_channel(&log, settings, &snapshot, status, &mut monitor, now);
            watch_encoders(&log, settings, &snapshot, status, &mut watch, now);
        }
        let filled = run_filling(rt, alloc, turn, settings, &mut watch, pass);
        let hold = housekeeper.find_hold(now, time);
        let round = run_upkeep(rt, alloc, turn, timing, hold, pass);
        let pause = plan_next_round(&log, timing.keep, &mut housekeeper, round, now, time);
        let pause = plan_after_filling(&log, &mut housekeeper, filled, now, pause);
        if pause.again {
            turn.tell(rt);
        }
        if status.is_closed() {
            return;
        }
        let _ = thread::sleep(rt, Duration::from_millis(pause.length));
    }
}
