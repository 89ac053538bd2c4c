//! What a session reports to its observer.

use hls_api::ingest::{IngestCounts, IngestStop};
use hls_api::route::Route;
use hls_http::Method;
use hls_http::response_parts::Status;

/// How an encoder's body ended, or why no more of it is accepted.
#[derive(Clone, Copy, Drop)]
pub struct IngestReport {
    /// The rendition that it was for.
    pub rendition: usize,
    /// Whether its units are mended.
    pub is_mended: bool,
    /// How many of its parts were accepted.
    pub counts: IngestCounts,
    /// Why no more of it is accepted, if it didn't end.
    pub result: Result<(), IngestStop>,
}

/// What is reported of a session while it runs. No contract of a session covers it.
#[derive(Clone, Copy, Drop)]
pub enum SessionEvent {
    /// A request's head is complete; its body, if it has one, is read next.
    HeadRead {
        /// The request's method.
        method: Method,
        /// What its path names.
        route: Option<Route>,
    },
    /// An encoder's body ended, or no more of it is accepted.
    Ingested(IngestReport),
    /// A response was made; it isn't written yet.
    Responded {
        /// The request's method; an unknown one if no head could be read.
        method: Method,
        /// What its path names.
        route: Option<Route>,
        /// The status of the response.
        status: Status,
    },
}

/// Observes a session: a value of each connection, since a keeper may serve many.
pub trait Observer {
    /// Reports an event. No contract covers what becomes of it.
    fn report(&self, event: &SessionEvent);
}

/// Reports an event if there is one.
pub(crate) fn report_some<O: Observer>(observer: &O, event: Option<SessionEvent>) {
    if let Some(event) = event {
        observer.report(&event);
    }
}

/// Ignores all events.
#[derive(Clone, Copy, Drop)]
pub struct NoObserver;

impl Observer for NoObserver {
    fn report(&self, _event: &SessionEvent) {}
}
