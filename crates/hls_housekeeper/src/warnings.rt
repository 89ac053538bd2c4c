//! The operator's log lines of what is about to go wrong while the server runs.

use crate::display::DisplayName;
use crate::gauge::LimitWarning;
use crate::lag::LateRendition;
use crate::operator_log::OperatorLog;
use std::fmt::{self, Display, Formatter, Write};
use std::io::Eprint;

/// Microseconds per millisecond.
const MILLISECOND: u64 = 1000;

/// Microseconds per second.
const SECOND: u64 = 1_000_000;

/// Milliseconds per minute.
const MINUTE: u64 = 60_000;

/// Logs that the live playlists wait for a rendition.
pub fn log_late<E: Eprint>(log: &OperatorLog<'_, E>, name: DisplayName<'_>, late: LateRendition) {
    let (rt, level) = (log.rt, log.warning_prefix());
    if !late.begun {
        let _ = eprintln!(rt; "{level}serve: live lists wait for {name}, which has not begun");
        return;
    }
    let lag = late.lag / SECOND;
    let _ = eprintln!(rt; "{level}serve: live lists wait for {name}, {lag} s behind");
}

/// Logs that the live playlists no longer wait for a rendition.
pub fn log_recovered<E: Eprint>(log: &OperatorLog<'_, E>) {
    let _ = eprintln!(log.rt; "serve: live lists continue");
}

/// Logs that a write to the journal, or a sync, takes long.
pub fn log_stalled_journal<E: Eprint>(log: &OperatorLog<'_, E>, busy_ms: u64) {
    let (rt, level) = (log.rt, log.warning_prefix());
    let seconds = busy_ms / 1000;
    let _ = eprintln!(rt;
        "{level}serve: journal: the disk has been busy for {seconds} s: responses with media wait for it"
    );
}

/// Logs that the journal is written again.
pub fn log_resumed_journal<E: Eprint>(log: &OperatorLog<'_, E>) {
    let _ = eprintln!(log.rt; "serve: journal: the disk answers again");
}

/// Logs that nothing is heard of a rendition's encoder, so that the rendition is filled.
pub fn log_away<E: Eprint>(log: &OperatorLog<'_, E>, name: DisplayName<'_>, fillers: u64) {
    let (rt, level) = (log.rt, log.warning_prefix());
    let _ = eprintln!(rt; "{level}serve: {name} is away and is filled, {fillers} fillers so far");
}

/// Logs that a rendition's encoder is back.
pub fn log_returned<E: Eprint>(log: &OperatorLog<'_, E>, name: DisplayName<'_>, fillers: u64) {
    let _ = eprintln!(log.rt; "serve: {name} is back after {fillers} fillers");
}

/// Logs that a rendition's units are refused as ahead of the channel.
pub fn log_ahead<E: Eprint>(log: &OperatorLog<'_, E>, name: DisplayName<'_>) {
    let (rt, level) = (log.rt, log.warning_prefix());
    let _ = eprintln!(rt;
        "{level}serve: {name} is refused as AheadOfChannel while others continue"
    );
}

/// Logs that a rendition's units are no longer ahead of the channel.
pub fn log_in_place<E: Eprint>(log: &OperatorLog<'_, E>, name: DisplayName<'_>) {
    let _ = eprintln!(log.rt; "serve: {name} is no longer ahead of the channel");
}

/// A resource that fills up towards its limit.
#[derive(Clone, Copy)]
pub enum LimitedResource<'a> {
    /// The log, with its capacity in entries.
    Log(u64),
    /// The recording of a rendition, with its capacity in bytes.
    Recording(DisplayName<'a>, u64),
}

impl<'a> Display for LimitedResource<'a> {
    fn fmt<W: Write>(&self, f: &mut Formatter<W>) -> fmt::Result {
        match self {
            LimitedResource::Log(limit) => write!(f, "the log's {limit} entries"),
            LimitedResource::Recording(name, limit) => write!(f, "{name}'s {limit} bytes"),
        }
    }
}

/// Logs how much of a resource that can't grow is used.
pub fn log_limit<E: Eprint>(
    log: &OperatorLog<'_, E>,
    resource: LimitedResource<'_>,
    warning: LimitWarning,
) {
    let (rt, percent) = (log.rt, warning.level);
    let level = if percent < 95 {
        log.warning_prefix()
    } else {
        log.error_prefix()
    };
    let Some(left) = warning.left else {
        let _ = eprintln!(rt; "{level}serve: {percent} % of {resource} are used");
        return;
    };
    let (hours, minutes) = (left / MINUTE / 60, left / MINUTE % 60);
    let _ = eprintln!(rt;
        "{level}serve: {percent} % of {resource} are used: at this rate the rest lasts {hours} h {minutes} min"
    );
}

/// Logs that the samples of a rendition are encrypted.
pub fn log_encrypted<E: Eprint>(log: &OperatorLog<'_, E>, name: DisplayName<'_>) {
    let level = log.warning_prefix();
    let _ = eprintln!(log.rt; "{level}serve: {name} is encrypted, and playlists name no key");
}

/// Logs that jobs hold more than half of their places.
pub fn log_many_jobs<E: Eprint>(log: &OperatorLog<'_, E>, jobs: usize) {
    let level = log.warning_prefix();
    let _ = eprintln!(log.rt;
        "{level}serve: catch-up jobs hold {jobs} of 64 places: each stays until it is deleted"
    );
}

/// Logs that jobs hold at most half of their places again.
pub fn log_fewer_jobs<E: Eprint>(log: &OperatorLog<'_, E>, jobs: usize) {
    let _ = eprintln!(log.rt; "serve: catch-up jobs hold {jobs} of 64 places again");
}

/// The rendition without which most of the missing sync samples would be places, as far as it is known.
#[derive(Clone, Copy)]
pub struct BlockingRendition<'a> {
    pub name: DisplayName<'a>,
    /// The greatest distance between its nearest sync samples and rendition 0's, in microseconds.
    pub away: u64,
    pub tolerance: u64,
    pub finished: bool,
}

impl<'a> Display for BlockingRendition<'a> {
    fn fmt<W: Write>(&self, f: &mut Formatter<W>) -> fmt::Result {
        let name = self.name;
        if self.finished {
            return write!(f, "{name} is finished");
        }
        let away = self.away.div_ceil(MILLISECOND);
        let tolerance = self.tolerance / MILLISECOND;
        write!(
            f,
            "{name}'s units begin up to {away} ms away and its tolerance is {tolerance} ms"
        )
    }
}

/// Logs how many of the last sync samples of the first rendition aren't places.
pub fn log_missing<E: Eprint>(
    log: &OperatorLog<'_, E>,
    first: DisplayName<'_>,
    missing: usize,
    all: usize,
    blocking: Option<BlockingRendition<'_>>,
) {
    let (rt, level) = (log.rt, log.warning_prefix());
    let _ = match blocking {
        None => eprintln!(rt;
            "{level}serve: {missing} of the last {all} sync samples of {first} are no places"
        ),
        Some(blocking) => eprintln!(rt;
            "{level}serve: {missing} of the last {all} sync samples of {first} are no places: {blocking}"
        ),
    };
}

/// Logs how many of the last sync samples of the first rendition are in no live segment.
pub fn log_uncovered<E: Eprint>(
    log: &OperatorLog<'_, E>,
    first: DisplayName<'_>,
    uncovered: usize,
    all: usize,
    target: u64,
) {
    let level = log.warning_prefix();
    let _ = eprintln!(log.rt;
        "{level}serve: {uncovered} of the last {all} sync samples of {first} are in no live segment: no place follows within the target of {target} s"
    );
}
