//! The log lines about clients.

use hls_api::ingest::{IngestCounts, IngestStop};
use hls_api::route::Route;
use hls_api::route_path::RoutePath;
use hls_housekeeper::DisplayName;
use hls_http::response_parts::Status;
use hls_http::{BodyEnd, Method};
use std::fmt::{self, Display, Formatter, Write};
use std::net::SocketAddr;

/// The name of the refusal of an encoder's body, if it was refused.
pub(crate) fn refusal_name(ended: Result<(), IngestStop>) -> Option<&'static str> {
    match ended {
        Err(IngestStop::Refused(fault)) => Some(fault.name()),
        Err(IngestStop::Memory) => Some("Memory"),
        Err(IngestStop::Stopped(BodyEnd::BadFraming)) => Some("BadFraming"),
        _ => None,
    }
}

/// How an encoder's body ended.
fn describe_end(ended: Result<(), IngestStop>) -> (&'static str, &'static str) {
    if let Some(name) = refusal_name(ended) {
        return ("refused ", name);
    }
    match ended {
        Err(IngestStop::Stopped(BodyEnd::CutShort)) => ("cut short", ""),
        Err(IngestStop::Stopped(BodyEnd::ReadFailed)) => ("read failed", ""),
        _ => ("done", ""),
    }
}

/// An encoder's body that ended.
#[derive(Drop)]
pub struct IngestLine<'a> {
    pub name: DisplayName<'a>,
    pub peer: SocketAddr,
    pub counts: IngestCounts,
    /// Whether its units are mended.
    pub is_mended: bool,
    pub ended: Result<(), IngestStop>,
}

impl<'a> Display for IngestLine<'a> {
    fn fmt<W: Write>(&self, f: &mut Formatter<W>) -> fmt::Result {
        let (how, fault) = describe_end(self.ended);
        let (name, peer, counts) = (self.name, self.peer, self.counts);
        let (inits, units, repeats) = (counts.inits, counts.units, counts.repeats);
        write!(f, "ingest {name} from {peer}: {how}{fault}")?;
        write!(f, " init {inits} accepted {units} repeated {repeats}")?;
        if !self.is_mended {
            return Ok(());
        }
        let (mended, filled, dropped) = (counts.mended, counts.filled, counts.dropped);
        write!(f, " mended {mended} filled {filled} dropped {dropped}")
    }
}

/// A method's name.
pub(crate) fn method_name(method: Method) -> &'static str {
    match method {
        Method::Get => "GET",
        Method::Head => "HEAD",
        Method::Post => "POST",
        Method::Put => "PUT",
        Method::Delete => "DELETE",
        Method::Other => "OTHER",
    }
}

/// A request that was answered, and how much of its response the client took.
#[derive(Clone, Copy, Drop)]
pub struct AccessLine {
    pub peer: SocketAddr,
    pub method: Method,
    pub route: Option<Route>,
    pub status: Status,
    /// How many bytes of the response were taken, with its head.
    pub bytes: u64,
    /// The time since the request's head was complete.
    pub milliseconds: u64,
    /// Whether the whole response was taken.
    pub whole: bool,
}

impl Display for AccessLine {
    fn fmt<W: Write>(&self, f: &mut Formatter<W>) -> fmt::Result {
        let method = method_name(self.method);
        let path = RoutePath(self.route);
        let status = self.status as u16;
        write!(f, "request {method} {path} from {}: {status}", self.peer)?;
        let end = if self.whole { "" } else { ", broken off" };
        write!(f, ", {} bytes in {} ms{end}", self.bytes, self.milliseconds)
    }
}
