//! What to do with a request once its head is read.

use crate::fault::HttpFault;
use crate::framing::BodyFraming;

/// What to do with a request whose head was read.
#[derive(Clone, Copy, Drop)]
pub enum RequestAction {
    /// It is refused before its body is read.
    Refuse {
        /// The reason.
        fault: HttpFault,
        /// Whether the connection ends, since a part of the body is still to come.
        closing: bool,
    },
    /// Its body is ingested in parts.
    Ingest(BodyFraming),
    /// Its body, of at most 65536 bytes, is read to its end and discarded; then the rest of the request is examined.
    Discard(BodyFraming),
}
