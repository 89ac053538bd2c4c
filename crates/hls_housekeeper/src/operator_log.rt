//! The operator's log: each line is one write to standard error. A line that can't be written is dropped.

use crate::display::{DisplayNames, DisplaySettings};
use hls_core_laws::refusal::Refusal;
use hls_settings::Settings;
use std::env::{Env, FillError};
use std::fmt::Display;
use std::io::{Eprint, Error};
use std::net::SocketAddr;

/// Writes a line of the server's.
pub fn log_line<E: Eprint, D: Display + Drop>(rt: &E, line: D) {
    let _ = eprintln!(rt; "serve: {line}");
}

/// The log for warnings and errors.
#[derive(Drop)]
pub struct OperatorLog<'a, E> {
    pub rt: &'a E,
    /// Whether a journal reads the log: then each line begins with its level.
    pub journal: bool,
}

impl<'a, E: Env> OperatorLog<'a, E> {
    /// Detects a journal by `JOURNAL_STREAM` (systemd.exec(5)); a journal parses levels (sd-daemon(3)).
    pub fn new(rt: &'a E) -> OperatorLog<'a, E> {
        let mut value = [0; 64];
        let found = rt.var("JOURNAL_STREAM", &mut value);
        OperatorLog {
            rt,
            journal: !matches!(found, Err(FillError::NotPresent)),
        }
    }
}

impl<'a, E> OperatorLog<'a, E> {
    /// Returns the prefix of a warning: something will go wrong.
    pub fn warning_prefix(&self) -> &'static str {
        if self.journal { "<4>" } else { "" }
    }

    /// Returns the prefix of an error: something has gone wrong.
    pub fn error_prefix(&self) -> &'static str {
        if self.journal { "<3>" } else { "" }
    }
}

/// Logs that the server listens: its address, its renditions, and the settings in force.
pub fn log_listening<E: Eprint>(rt: &E, address: SocketAddr, settings: &Settings) {
    let names = DisplayNames(settings.config.renditions());
    let limits = DisplaySettings(settings);
    let _ = eprintln!(rt; "serve: listening on {address}, renditions{names}, {limits}");
}

/// Logs an event of the housekeeper that was refused, or that couldn't be computed.
pub fn log_refused_upkeep<E: Eprint>(log: &OperatorLog<'_, E>, refusal: Refusal) {
    let (level, name) = (log.error_prefix(), refusal.name());
    let _ = eprintln!(log.rt; "{level}serve: upkeep refused {name}");
}

/// Logs a failed accept; the caller does so at most once a minute.
pub fn log_failed_accept<E: Eprint>(rt: &E, error: Error) {
    let _ = eprintln!(rt; "serve: accept failed, tried again until it works: {error}");
}

/// Logs a worker that can't continue.
pub fn log_ended_worker<E: Eprint>(rt: &E, error: Error) {
    let _ = eprintln!(rt; "serve: a worker has ended: {error}");
}
