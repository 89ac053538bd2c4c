//! Why HTTP alone refuses a request.

ghost use Rattle.std.specs.Prelude.{◌≡◌};
ghost use Rattle.hls_http.specs.ResponseText.{fault_name, fault_status};

use crate::response_parts::Status;
use hls_text::variant_name;
use std::fmt::{self, Display, Formatter, Write};
use thiserror::Error;

/// Why a request is refused by the rules of HTTP. It is printed as its variant's name.
#[derive(Clone, Copy, Debug, PartialEq, Eq, Error)]
pub enum HttpFault {
    /// No following bytes make the input a head, or an HTTP/1.1 head doesn't have exactly one Host: 400.
    BadHead,
    /// A head of more than 16384 bytes or 64 fields: 431.
    HeadTooLarge,
    /// Content-Length or Transfer-Encoding is invalid, or a body breaks the grammar of chunks: 400.
    BadFraming,
    /// A discarded body has more than 65536 bytes: 413.
    TooLarge,
    /// A range that begins at or past the total, or asks for the last 0 bytes: 416.
    RangeOutside,
    /// A known path doesn't allow this method: 405.
    BadMethod,
    /// An unknown path, rendition or job: 404.
    NotFound,
    /// The range contains a trimmed byte: 410.
    Gone,
    /// The resource doesn't exist yet: 409.
    Conflict,
    /// Out of memory: 503.
    Memory,
    /// A store is full: 507.
    Full,
}

impl HttpFault {
    /// Returns the variant's name, as replies print it.
    pub fn name(&self) -> &'static str
        ensures { result.now ≡ fault_name self.now }
    {
        variant_name!(self; HttpFault: BadHead, HeadTooLarge, BadFraming, TooLarge, RangeOutside, BadMethod, NotFound, Gone, Conflict, Memory, Full)
    }

    /// Returns the status of its reply.
    pub fn status(&self) -> Status
        ensures { result ≡ fault_status self.now }
    {
        match self {
            HttpFault::BadHead | HttpFault::BadFraming => Status::BadRequest,
            HttpFault::HeadTooLarge => Status::HeadTooLarge,
            HttpFault::TooLarge => Status::ContentTooLarge,
            HttpFault::RangeOutside => Status::RangeNotSatisfiable,
            HttpFault::BadMethod => Status::MethodNotAllowed,
            HttpFault::NotFound => Status::NotFound,
            HttpFault::Gone => Status::Gone,
            HttpFault::Conflict => Status::Conflict,
            HttpFault::Memory => Status::Unavailable,
            HttpFault::Full => Status::InsufficientStorage,
        }
    }
}

impl Display for HttpFault {
    fn fmt<W: Write>(&self, f: &mut Formatter<W>) -> fmt::Result {
        f.write_str(self.name())
    }
}
