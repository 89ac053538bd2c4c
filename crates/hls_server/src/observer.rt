//! The observer of a connection.

use crate::log_lines::{AccessLine, IngestLine, method_name};
use hls_api::route_path::RoutePath;
use hls_connection::events::{IngestReport, Observer, SessionEvent};
use hls_housekeeper::{DisplayName, log_line};
use hls_settings::Settings;
use std::cell::Cell;
use std::io::Eprint;
use std::net::SocketAddr;

/// Logs a response that took this many milliseconds to make, while the worker's other connections waited; once a minute at most.
pub fn log_slow_response<E: Eprint>(rt: &E, milliseconds: u64, access_line: AccessLine) {
    let (method, path) = (
        method_name(access_line.method),
        RoutePath(access_line.route),
    );
    let _ = eprintln!(rt; "serve: a response took {milliseconds} ms to make: {method} {path}");
}

/// Logs that the bodies of a rendition are read more slowly than they arrive; once a minute at most.
pub fn log_slowed_body<E: Eprint>(rt: &E, name: DisplayName<'_>) {
    let _ = eprintln!(rt;
        "serve: {name} is read more slowly than it arrives: too many fragments or bytes for its --unit-rate and bandwidth, or several long fragments at once"
    );
}

/// The observer of a connection for one turn: it logs an encoder's body that ended, and notes what became of a request.
#[derive(Drop)]
pub struct ClientObserver<'a, E> {
    pub rt: &'a E,
    /// The names of the renditions.
    pub settings: &'a Settings,
    pub address: SocketAddr,
    /// Whether a request's head was completed in this turn.
    pub head_read: Cell<bool>,
    /// The request that was answered in this turn; nothing of its response was taken yet.
    pub access_line: Cell<Option<AccessLine>>,
    /// The encoder's body that ended in this turn.
    pub ingested: Cell<Option<IngestReport>>,
}

impl<'a, E: Eprint> ClientObserver<'a, E> {
    /// Logs it with the rendition's name, or without one if there is no such rendition.
    fn log_ingest(&self, ingested: IngestReport) {
        let found = self.settings.config.renditions().get(ingested.rendition);
        let line = IngestLine {
            name: found.map_or(DisplayName(b""), |found| DisplayName(&found.name)),
            peer: self.address,
            counts: ingested.counts,
            is_mended: ingested.is_mended,
            ended: ingested.result,
        };
        log_line(self.rt, line);
    }
}

impl<'a, E: Eprint> Observer for ClientObserver<'a, E> {
    fn report(&self, event: &SessionEvent) {
        match *event {
            SessionEvent::HeadRead { .. } => self.head_read.set(true),
            SessionEvent::Ingested(ingested) => {
                self.ingested.set(Some(ingested));
                self.log_ingest(ingested);
            }
            SessionEvent::Responded {
                method,
                route,
                status,
            } => self.access_line.set(Some(AccessLine {
                peer: self.address,
                method,
                route,
                status,
                bytes: 0,
                milliseconds: 0,
                whole: false,
            })),
        }
    }
}
