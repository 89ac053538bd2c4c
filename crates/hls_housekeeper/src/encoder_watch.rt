//! Watches the encoders: which renditions are silent for too long, and what the operator has to know of them.

use crate::alert::{Alert, AlertChange};
use crate::display::DisplayName;
use crate::operator_log::OperatorLog;
use crate::progress::MOST_RENDITIONS;
use crate::server_status::ServerStatus;
use crate::warnings::{log_ahead, log_away, log_in_place, log_returned};
use hls_core::snapshot::Snapshot;
use hls_core_laws::rendition::Rendition;
use hls_metrics::measurements::add;
use std::io::Eprint;

/// What is known of the encoders: since when each is unheard, which are away, and the alerts about them. An encoder is away if it wasn't
/// heard for longer than the wait while another one was present.
#[derive(Clone, Copy)]
pub struct EncoderWatch {
    /// Since when each rendition is open and watched, in milliseconds of the clock; 0 if it isn't.
    since: [u64; MOST_RENDITIONS],
    /// For each rendition, whether mending takes it as silent: its encoder is away, or no encoder was heard for longer than the wait.
    pub silent: [bool; MOST_RENDITIONS],
    /// For each rendition, whether its encoder is away.
    is_away: [bool; MOST_RENDITIONS],
    /// For each rendition, whether its encoder was unheard when another one came back; at the next return of one it is away.
    is_missed: [bool; MOST_RENDITIONS],
    /// Since when an encoder is present, in milliseconds of the clock; 0 if none is.
    present_since: u64,
    /// When an encoder was last heard, in milliseconds of the clock; 0 if never.
    newest: u64,
    /// The number of fillers of each rendition since its encoder went away.
    pub fillers: [u64; MOST_RENDITIONS],
    /// How many of these fillers are in the metric already.
    counted_fillers: u64,
    /// For each rendition, the alert that its encoder is away.
    away: [Alert; MOST_RENDITIONS],
    /// For each rendition, the alert that its units are refused as ahead of the channel.
    ahead: [Alert; MOST_RENDITIONS],
}

/// Whether a rendition has begun and isn't finished.
fn is_open(snapshot: &Snapshot, rendition: usize) -> bool {
    snapshot.recording(rendition).is_some() && snapshot.is_finished(rendition) == Some(false)
}

/// Returns the sum of numbers.
fn sum(numbers: &[u64]) -> u64 {
    numbers
        .iter()
        .fold(0, |sum: u64, number| sum.saturating_add(*number))
}

impl EncoderWatch {
    /// Nothing is known.
    pub fn new() -> EncoderWatch {
        EncoderWatch {
            since: [0; MOST_RENDITIONS],
            silent: [false; MOST_RENDITIONS],
            is_away: [false; MOST_RENDITIONS],
            is_missed: [false; MOST_RENDITIONS],
            present_since: 0,
            newest: 0,
            fillers: [0; MOST_RENDITIONS],
            counted_fillers: 0,
            away: [Alert::new(); MOST_RENDITIONS],
            ahead: [Alert::new(); MOST_RENDITIONS],
        }
    }

    /// Finds the renditions whose encoders are away, and logs the news: nothing was heard of them for more than `wait_ms`, while another one
    /// was there. So once the first encoder comes back after an outage of all, the others have as long to follow before they are filled.
    pub fn update<E: Eprint, H: ServerStatus>(
        &mut self,
        log: &OperatorLog<'_, E>,
        renditions: &[Rendition],
        snapshot: &Snapshot,
        status: &H,
        clock: WatchClock,
    ) {
        self.count_fillers(status);
        let count = renditions.len().min(MOST_RENDITIONS);
        let mut newest = 0;
        for number in 0..count {
            let silence_ms = self.silence_ms(number, snapshot, status, clock.now);
            self.silent[number] = silence_ms > clock.wait_ms;
            if self.since[number] > 0 {
                newest = clock.now.saturating_sub(silence_ms).max(newest);
            }
        }
        let is_any_present = self.find_away(count, newest, clock);
        for number in 0..count {
            let name = DisplayName(&renditions[number].name);
            self.log_news(log, number, name, is_any_present, clock.now);
            self.log_jump(
                log,
                number,
                name,
                status.signs().is_ahead(number),
                clock.now,
            );
        }
        self.counted_fillers = sum(&self.fillers);
    }

    /// Finds which of the silent renditions are away: once another encoder is there for more than `wait_ms`, or for the second time. One that
    /// was away stays so until its encoder is heard again. Returns whether an encoder is there. Nothing runs while none is, so that is seen
    /// from when an encoder was last heard, now and before.
    fn find_away(&mut self, count: usize, newest: u64, clock: WatchClock) -> bool {
        let is_any_present = newest > 0 && clock.now.saturating_sub(newest) <= clock.wait_ms;
        let was_none_present = newest.saturating_sub(self.newest) > clock.wait_ms;
        let begins = is_any_present && (was_none_present || self.present_since == 0);
        if begins || !is_any_present {
            self.present_since = if begins { clock.now } else { 0 };
        }
        self.newest = newest;
        let present_ms = clock.now.saturating_sub(self.present_since);
        let is_due = is_any_present && present_ms > clock.wait_ms;
        for number in 0..count.min(MOST_RENDITIONS) {
            let is_silent = self.silent[number];
            let is_due = is_due || (begins && self.is_missed[number]);
            self.is_away[number] = is_silent && (self.is_away[number] || is_due);
            self.is_missed[number] = is_silent && (self.is_missed[number] || begins);
            self.silent[number] = is_silent && (self.is_away[number] || !is_any_present);
        }
        is_any_present
    }

    /// Counts the fillers since the last call of `update`.
    fn count_fillers<H: ServerStatus>(&self, status: &H) {
        let fillers = sum(&self.fillers).saturating_sub(self.counted_fillers);
        add(&status.measurements().filled_fragments, fillers);
    }

    /// How long nothing was heard of a rendition's encoder, in milliseconds; 0 if the rendition isn't open.
    fn silence_ms<H: ServerStatus>(
        &mut self,
        number: usize,
        snapshot: &Snapshot,
        status: &H,
        now: u64,
    ) -> u64 {
        if number >= MOST_RENDITIONS {
            return 0;
        }
        if !is_open(snapshot, number) {
            self.since[number] = 0;
            return 0;
        }
        if self.since[number] == 0 {
            self.since[number] = now;
        }
        let heard = status.signs().last_heard_ms(number).max(self.since[number]);
        now.saturating_sub(heard)
    }

    /// Logs that a rendition's units are refused as ahead of the channel, at most once a minute, and that they no longer are.
    fn log_jump<E: Eprint>(
        &mut self,
        log: &OperatorLog<'_, E>,
        number: usize,
        name: DisplayName<'_>,
        is_ahead: bool,
        now: u64,
    ) {
        if number >= MOST_RENDITIONS {
            return;
        }
        match self.ahead[number].update(is_ahead, true, now) {
            AlertChange::Raised => log_ahead(log, name),
            AlertChange::Cleared => log_in_place(log, name),
            AlertChange::Unchanged => {}
        }
    }

    /// Logs that a rendition is away, at most once a minute, and that its encoder is back. While no encoder is there, it is no news that one
    /// is away.
    fn log_news<E: Eprint>(
        &mut self,
        log: &OperatorLog<'_, E>,
        number: usize,
        name: DisplayName<'_>,
        is_any_present: bool,
        now: u64,
    ) {
        if number >= MOST_RENDITIONS {
            return;
        }
        match self.away[number].update(self.is_away[number], is_any_present, now) {
            AlertChange::Raised => log_away(log, name, self.fillers[number]),
            AlertChange::Cleared => {
                log_returned(log, name, self.fillers[number]);
                self.fillers[number] = 0;
            }
            AlertChange::Unchanged => {}
        }
    }
}

/// A moment of the clock, and how long nothing may be heard of an encoder, in milliseconds.
#[derive(Clone, Copy)]
pub struct WatchClock {
    pub now: u64,
    pub wait_ms: u64,
}
