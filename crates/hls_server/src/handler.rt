//! The handler of a worker's connections.

ghost use Rattle.std.specs.Prelude.{◌≡◌, ◌⊎◌, IsFalse};
ghost use Rattle.hls_http.specs.ResponseText.{out_of_memory_text};
ghost use Rattle.hls_api.specs.Acts.{knowledge_of};
ghost use Rattle.hls_connection.specs.Histories.{new_history};
ghost use Rattle.hls_connection.specs.Connections.{IsBetweenParts, IsStatus, IsIdleOrBlocked, KeeperSuits, Waits, WantsRead, history, stage, steps_left};
ghost use Rattle.hls_server.specs.{HistoryGrowth.{serves_on, serves_nothing}, HandlerConnections.{HasStage, IsHeld, ServesHeld, socket_end, unsent}, SendGates.{Covers, unless_held}};

use crate::body_lanes::BodyLanes;
use crate::durability::Durability;
use crate::log_lines::refusal_name;
use crate::logged_connection::{AccessRecord, LoggedConnection};
use crate::observer::{ClientObserver, log_slow_response, log_slowed_body};
use crate::request_counts::kind_of_request;
use crate::send_gate::{NeededPoint, SendGate};
use hls_api::ingest::IngestStop;
use hls_api::route::Route;
use hls_connection::channel_handle::ChannelHandle;
use hls_connection::connection::Connection;
use hls_connection::events::IngestReport;
use hls_connection::laws::suits_is_stable;
use hls_core::StreamFault;
use hls_event_loop::{ConnectionEnd, ConnectionStage, Handler, WorkerLoads};
use hls_housekeeper::{DisplayName, LogThrottle, log_failed_accept, may_log};
use hls_http::response_parts::{Status, out_of_memory_text};
use hls_http::{Method, SessionEnd};
use hls_metrics::measurements::{add, subtract};
use hls_rates::{BodyShare, BodyTurn};
use hls_settings::Settings;
use hls_time::monotonic_ms;
use std::alloc::Global;
use std::cell::Cell;
use std::io::{self, Eprint, Read};
use std::net::SocketAddr;
use std::sync::Wait;
use std::time::Clock;

/// A turn that made a response is logged if it took at least this long, in milliseconds, since the worker's other connections waited for
/// it. A long text is made in many turns.
const SLOW_MS: u64 = 50;

/// Serves the connections of a worker by a handle of the channel, and logs their requests.
#[derive(Drop)]
pub struct ServerHandler<'a, R: Wait> {
    pub rt: &'a R,
    pub alloc: Global,
    pub handle: ChannelHandle<'a, R>,
    /// How far the channel's journal is durable.
    pub durability: &'a Durability,
    /// Where encoders' bodies are slowed down.
    pub lanes: &'a BodyLanes,
    /// The names of the renditions, and whether each request is logged.
    pub settings: &'a Settings,
    pub throttle: &'a LogThrottle,
    /// What the workers know of each other; it wakes waiting responses.
    pub worker_loads: &'a WorkerLoads,
    /// How many responses of this worker wait.
    pub waiting: Cell<u64>,
    /// How many of them wait at most.
    pub most_waiting: u64,
}

impl<'a, R: Wait> ServerHandler<'a, R> {
    /// Returns the time for a connection's turn; `None` if its response may not wait: too many do, or the workers are to end.
    fn time_to_wait(&self, logged: &LoggedConnection, now: u64) -> Option<u64> {
        let may_wait = logged.connection.is_waiting() || self.waiting.get() < self.most_waiting;
        if may_wait && !self.worker_loads.is_ending() {
            Some(now)
        } else {
            None
        }
    }

    /// Counts a response that begins to wait, or ends its wait.
    fn count_waiting(&self, waited: bool, waits: bool) {
        let waiting = self.waiting.get();
        let all = &self.handle.channel.measurements.waiting_responses;
        match (waited, waits) {
            (false, true) => {
                self.waiting.set(waiting.saturating_add(1));
                add(all, 1);
            }
            (true, false) => {
                self.waiting.set(waiting.saturating_sub(1));
                subtract(all, 1);
            }
            _ => {}
        }
    }

    /// Counts bytes that were read.
    fn count_received(&self, read: &io::Result<usize>) {
        if let Ok(count) = read {
            add(
                &self.handle.channel.measurements.received_bytes,
                *count as u64,
            );
        }
    }

    /// Counts a request that was answered in this turn. One for the metrics wakes the housekeeper, which measures for the next one even if
    /// nothing arrives.
    fn count_request(&self, client: &ClientObserver<'a, R>) {
        if let Some(access_line) = client.access_line.get() {
            let kind = kind_of_request(&access_line);
            self.handle.channel.measurements.count_request(kind);
            if matches!(access_line.route, Some(Route::Metrics)) {
                self.handle.channel.turn.tell(self.rt);
            }
        }
    }

    /// Wakes responses that wait for a job, if one may have been removed in this turn.
    fn wake_after_removal(&self, client: &ClientObserver<'a, R>) {
        match client.access_line.get() {
            Some(access_line) if access_line.method == Method::Delete => {
                self.worker_loads.wake_waiting();
            }
            _ => {}
        }
    }

    /// Sets what must be durable before the next bytes are sent, and calls the follower if it isn't yet.
    fn set_gate(&self, gate: &mut SendGate, is_exempt: bool, is_receiving: bool)
        ensures covers { Covers self.now.handle.pass.known.seen gate.new.needed }
        ensures exempt { gate.new.needed.is_exempt ≡ is_exempt }
        ensures version { IsFalse is_exempt → gate.new.needed.version ≡ self.now.handle.seen }
    {
        *gate = SendGate {
            needed: NeededPoint::of_handle(&self.handle, self.durability, is_exempt),
            durable: self.durability.read(),
            is_receiving,
            is_paused: false,
        };
        if gate.is_closed() {
            self.durability.call(self.rt);
        }
    }

    /// Returns the observer of a peer's requests for one turn.
    fn observer(&self, peer: SocketAddr) -> ClientObserver<'a, R> {
        ClientObserver {
            rt: self.rt,
            settings: self.settings,
            address: peer,
            head_read: Cell::new(false),
            access_line: Cell::new(None),
            ingested: Cell::new(None),
        }
    }

    /// Notes a sign of life of an encoder if its body has more units than `before`, and that its last unit was ahead of the channel if it was.
    fn note_ingested(&self, report: IngestReport, before: u64, now_ms: u64) {
        let signs = self.handle.channel.signs;
        if count_heard(report) > before {
            signs.note_unit(report.rendition, now_ms);
        }
        if let Err(IngestStop::Refused(StreamFault::AheadOfChannel)) = report.result {
            signs.note_ahead(report.rendition, now_ms);
        }
    }

    /// Notes what arrived of encoders' bodies in a turn, if units are mended: of the body that was received before, and of one that is
    /// received now.
    fn note_units(
        &self,
        before: Option<IngestReport>,
        client: &ClientObserver<'a, R>,
        after: Option<IngestReport>,
        now_ms: u64,
    ) {
        let mut heard = before.map_or(0, count_heard);
        let mut earlier = before;
        if let Some(ended) = client.ingested.get() {
            self.note_ingested(ended, heard, now_ms);
            self.count_repairs(earlier, ended);
            self.count_refusal(ended);
            heard = 0;
            earlier = None;
        }
        if let Some(report) = after {
            self.note_ingested(report, heard, now_ms);
            self.count_repairs(earlier, report);
        }
    }

    /// Takes what a turn received of encoders' bodies: of the body that was received before, and of one that is received now. A body that is
    /// over waits for nothing.
    fn take_bodies(
        &self,
        share: &mut BodyShare,
        before: Option<IngestReport>,
        client: &ClientObserver<'a, R>,
        after: Option<IngestReport>,
        now_ms: u64,
    ) {
        let mut earlier = before.map_or(0, count_parts);
        if let Some(ended) = client.ingested.get() {
            self.take_body(share, ended, earlier, false, now_ms);
            self.leave_lane(share, now_ms);
            earlier = 0;
        }
        if let Some(report) = after {
            self.take_body(share, report, earlier, true, now_ms);
        }
        share.received = 0;
    }

    /// Takes what a turn received of a body that had some parts before. A body that waits for the place that it leaves is woken.
    fn take_body(
        &self,
        share: &mut BodyShare,
        report: IngestReport,
        earlier: u64,
        is_open: bool,
        now_ms: u64,
    ) {
        let turn = BodyTurn {
            rendition: report.rendition,
            parts: count_parts(report).saturating_sub(earlier),
            is_open,
            now_ms,
        };
        if self.lanes.take_turn(self.rt, share, turn) {
            self.worker_loads.wake_waiting();
        }
    }

    /// Whether an encoder's body, if one is received, waits before it is read. A body that waits for a place that it leaves is woken.
    fn is_paused(&self, share: &mut BodyShare, body: Option<IngestReport>, now_ms: u64) -> bool {
        if body.is_none() {
            return false;
        }
        let (is_held, is_wanted) = self.lanes.holds(self.rt, share, now_ms);
        if is_wanted {
            self.worker_loads.wake_waiting();
        }
        is_held
    }

    /// Frees what a body has that is over, or whose connection is given up. A body that waits for its place is woken.
    fn leave_lane(&self, share: &mut BodyShare, now_ms: u64) {
        if self.lanes.leave(self.rt, share, now_ms) {
            self.worker_loads.wake_waiting();
        }
    }

    /// Counts a body that was refused.
    fn count_refusal(&self, ended: IngestReport) {
        if let Some(name) = refusal_name(ended.result) {
            let measurements = self.handle.channel.measurements;
            measurements.count_refusal(name.as_bytes());
        }
    }

    /// Notes the time, and removes unused jobs before one can be used again, if they are removed at all.
    fn note_time(&self, now_ms: u64) {
        if let Some(life_s) = self.settings.server.job_life_s {
            let jobs = self.handle.channel.jobs;
            if jobs.note_time(now_ms) {
                jobs.remove_unused(self.rt, now_ms, life_s.saturating_mul(1000));
            }
        }
    }

    /// Counts units of a body that were mended, and its fillers, since an earlier report of it.
    fn count_repairs(&self, earlier: Option<IngestReport>, report: IngestReport) {
        let measurements = self.handle.channel.measurements;
        let mended = earlier.map_or(0, |earlier| earlier.counts.mended);
        let filled = earlier.map_or(0, |earlier| earlier.counts.filled);
        let counts = report.counts;
        add(
            &measurements.mended_fragments,
            counts.mended.saturating_sub(mended),
        );
        add(
            &measurements.filled_fragments,
            counts.filled.saturating_sub(filled),
        );
    }
}

/// Counts bytes that were read of a connection's body.
fn count_read(share: &mut BodyShare, read: &io::Result<usize>) {
    if let Ok(count) = read {
        share.count_read(*count as u64);
    }
}

/// Whether what was answered in a turn shows no media: a report for operators, or a refusal of something else than media.
fn is_exempt<E>(client: &ClientObserver<'_, E>) -> bool {
    let Some(answered) = client.access_line.get() else {
        return false;
    };
    match answered.route {
        None | Some(Route::Status | Route::Metrics | Route::Run) => true,
        Some(Route::Ingest(_) | Route::Finish(_)) => false,
        _ => is_refusal(answered.status),
    }
}

/// Whether a status refuses a request, whatever media there are.
fn is_refusal(status: Status) -> bool {
    matches!(
        status,
        Status::BadRequest
            | Status::MethodNotAllowed
            | Status::ContentTooLarge
            | Status::HeadTooLarge
            | Status::Unavailable
            | Status::InsufficientStorage
    )
}

/// Returns how many units of a body are signs of life of its encoder, recorded or not. Retransmitted ones aren't, as retransmitted init
/// sections aren't.
fn count_heard(report: IngestReport) -> u64 {
    let counts = report.counts;
    counts
        .units
        .saturating_add(counts.mended)
        .saturating_add(counts.dropped)
}

/// Returns how many parts of a body were handled, whatever became of them, and fillers before them: each takes an entry of the log too.
fn count_parts(report: IngestReport) -> u64 {
    let counts = report.counts;
    count_heard(report)
        .saturating_add(counts.inits)
        .saturating_add(counts.repeats)
        .saturating_add(counts.filled)
}

impl<'a, R: Wait + Clock + Eprint> ServerHandler<'a, R> {
    /// Logs a response that took long to make.
    fn log_slow(&self, client: &ClientObserver<'a, R>, started_ms: u64) {
        let Some(access_line) = client.access_line.get() else {
            return;
        };
        let rt = self.rt;
        let now = monotonic_ms(rt);
        let passed = now.saturating_sub(started_ms);
        if passed >= SLOW_MS && may_log(&self.throttle.slow_response, now) {
            log_slow_response(rt, passed, access_line);
        }
    }

    /// Logs that a body isn't read for a while, if it is paused.
    fn log_slowed(&self, is_paused: bool, share: &BodyShare, now_ms: u64) {
        if !is_paused {
            return;
        }
        let renditions = self.settings.config.renditions();
        if let Some(rendition) = renditions.get(share.rendition)
            && may_log(&self.throttle.slowed_body, now_ms)
        {
            log_slowed_body(self.rt, DisplayName(&rendition.name));
        }
    }

    /// Notes what became of a request in a turn that began at `started_ms`, if requests are logged. After an allocation failure the request
    /// isn't logged.
    fn note_response(
        &self,
        access: &mut Option<Box<AccessRecord>>,
        client: &ClientObserver<'a, R>,
        started_ms: u64,
    ) {
        if !self.settings.server.logs_requests {
            return;
        }
        let access_line = client.access_line.get();
        if client.head_read.get() || (access.is_none() && access_line.is_some()) {
            let begun = AccessRecord {
                since_ms: started_ms,
                access_line: None,
            };
            *access = Box::new(self.alloc, begun).ok();
        }
        if let (Some(access), Some(_)) = (access, access_line) {
            access.access_line = access_line;
        }
    }

    /// Notes how many bytes the client took, and whether more wait.
    fn note_sent(&self, access: &mut Option<Box<AccessRecord>>, count: usize, more: bool) {
        let Some(request) = access else {
            return;
        };
        request.count_sent(count);
        if !more && request.access_line.is_some() {
            request.log(self.rt, monotonic_ms(self.rt), true);
            *access = None;
        }
    }
}

impl<'a, R: Wait + Clock + Eprint> Handler for ServerHandler<'a, R> {
    type Connection = LoggedConnection;

    ghost valid = { λ handler logged. KeeperSuits (knowledge_of handler.handle.pass.known handler.handle.acts) logged.connection };

    ghost becomes = { λ a before traffic b now. ServesHeld (knowledge_of a.handle.pass.known a.handle.acts) before traffic
        (knowledge_of b.handle.pass.known b.handle.acts) now };

    ghost is_new = { λ logged. history logged.connection ≡ new_history };

    ghost pending = { unsent };

    ghost may_read = { λ logged. WantsRead logged.connection × (IsHeld logged → ⊥) };

    ghost needs_io = { λ logged. (IsIdleOrBlocked logged.connection ⊎ Waits logged.connection) ⊎ IsHeld logged };

    ghost max_steps = { λ logged. steps_left logged.connection };

    ghost waits = { λ logged. Waits logged.connection ⊎ IsHeld logged };

    ghost own_end = { λ logged. unless_held logged.gate (history logged.connection).pending (socket_end (stage logged.connection)) };

    ghost has_stage = { HasStage };

    ghost between_parts = { λ logged. IsBetweenParts logged.connection };

    ghost out_of_memory_reply = { out_of_memory_text };

    fn open(&self) -> LoggedConnection {
        add(&self.handle.channel.measurements.accepted_connections, 1);
        LoggedConnection {
            connection: Connection::new(
                &self.handle,
                self.settings.server.mending,
                self.settings.server.timing.shown_us,
            ),
            access: None,
            gate: SendGate::new(self.durability.read()),
            share: BodyShare::new(),
        }
    }

    fn advance(
        &mut self,
        logged: &mut LoggedConnection,
        peer: SocketAddr,
        has_hung_up: bool,
    ) -> bool {
        suits_is_stable();
        let started_ms = monotonic_ms(self.rt);
        let before = logged.connection.ingest_progress();
        if has_hung_up {
            logged.share.go_last();
        }
        logged.gate.is_paused = self.is_paused(&mut logged.share, before, started_ms);
        if logged.is_held() {
            logged.gate.durable = self.durability.read();
            if logged.is_held() {
                return false;
            }
            if logged.connection.wants_write() {
                return false;
            }
        }
        let client = self.observer(peer);
        self.handle.now_ms = started_ms;
        let waited = logged.connection.is_waiting();
        self.note_time(started_ms);
        let now = self.time_to_wait(logged, started_ms);
        let more = logged.connection.advance(&mut self.handle, now, &client);
        let after = logged.connection.ingest_progress();
        self.set_gate(&mut logged.gate, is_exempt(&client), after.is_some());
        self.take_bodies(&mut logged.share, before, &client, after, started_ms);
        logged.gate.is_paused = self.is_paused(&mut logged.share, after, started_ms);
        self.log_slowed(logged.gate.is_paused, &logged.share, started_ms);
        self.count_waiting(waited, logged.connection.is_waiting());
        self.note_units(before, &client, after, started_ms);
        self.count_request(&client);
        self.wake_after_removal(&client);
        self.log_slow(&client, started_ms);
        self.note_response(&mut logged.access, &client, started_ms);
        more
    }

    fn read<S: Read>(&self, logged: &mut LoggedConnection, reader: &mut S) -> io::Result<usize> {
        let read = logged.connection.read_from(reader);
        self.count_received(&read);
        count_read(&mut logged.share, &read);
        read
    }

    fn output<'v>(&self, logged: &'v LoggedConnection) -> &'v [u8] {
        if logged.is_held() {
            return &[];
        }
        logged.connection.output()
    }

    fn mark_sent(&self, logged: &mut LoggedConnection, count: usize) {
        if logged.is_held() {
            return;
        }
        logged.connection.mark_sent(count);
        add(&self.handle.channel.measurements.sent_bytes, count as u64);
        self.note_sent(&mut logged.access, count, logged.connection.wants_write());
    }

    fn wants_write(&self, logged: &LoggedConnection) -> bool {
        logged.connection.wants_write() && !logged.is_held()
    }

    fn wants_read(&self, logged: &LoggedConnection) -> bool {
        logged.connection.wants_read() && !logged.is_held()
    }

    fn is_waiting(&self, logged: &LoggedConnection) -> bool {
        logged.connection.is_waiting() || logged.is_held()
    }

    fn end(&self, logged: &LoggedConnection) -> Option<ConnectionEnd> {
        if logged.is_held() {
            return None;
        }
        match logged.connection.end()? {
            SessionEnd::Closed | SessionEnd::Refused => Some(ConnectionEnd::Responded),
            _ => Some(ConnectionEnd::Closed),
        }
    }

    fn stage(&self, logged: &LoggedConnection) -> ConnectionStage {
        if logged.is_held() {
            return logged.gate.held_stage();
        }
        logged.connection.status()
    }

    fn is_between_parts(&self, logged: &LoggedConnection) -> bool {
        logged.connection.is_between_parts()
    }

    fn out_of_memory_text(&self) -> &'static [u8] {
        out_of_memory_text()
    }

    fn abandon(&self, logged: &LoggedConnection, peer: SocketAddr) {
        self.count_waiting(logged.connection.is_waiting(), false);
        let mut share = logged.share;
        self.leave_lane(&mut share, monotonic_ms(self.rt));
        logged.connection.report_read_failure(&self.observer(peer));
        if let Some(access) = &logged.access {
            access.log(self.rt, monotonic_ms(self.rt), false);
        }
    }

    fn note_failed_accept(&self, error: io::Error) {
        let rt = self.rt;
        if may_log(&self.throttle.failed_accept, monotonic_ms(rt)) {
            log_failed_accept(rt, error);
        }
    }

    ghost unchanged = { λ handler logged. serves_nothing (knowledge_of handler.handle.pass.known handler.handle.acts) logged };

    ghost composed = { λ a b c u v w s t first second. serves_on s t first second };
}
