//! Heads of requests.

ghost use Rattle.std.specs.Prelude.{take};
ghost use Rattle.httparse.specs.{Grammar.RequestHead, Spans.{IsRequestAt, IsRequestWithin}};
ghost use Rattle.hls_http.specs.ReadHeads.{FindsHead, IsHead};

use crate::fault::HttpFault;
use crate::fields::{
    closes_connection, expects_continue, parse_client_field, parse_framing, parse_range_field,
    parse_wait_field,
};
use crate::framing::BodyFraming;
use crate::limits::{MOST_FIELDS, MOST_HEAD};
use crate::method::Method;
use crate::range_spec::RangeSpec;
use httparse::spans::{EMPTY_HEADER_SPAN, HeaderSpan, RequestSpans, Span, parse_request};
use httparse::{Error, Status};

/// The parts of a request head that matter here. The head's text is what the source has taken last.
#[derive(Clone, Copy)]
pub struct ParsedHead {
    /// The request method.
    pub method: Method,
    /// The range of the request target in the head's text.
    pub target: Span,
    /// The framing of the body; BadHead if the Host is wrong, else BadFraming if the body's length can't be determined.
    pub body: Result<BodyFraming, HttpFault>,
    /// Whether the client waits for 100 Continue.
    pub expects: bool,
    /// Whether the connection ends after this request.
    pub closes: bool,
    /// What its Range field asks for.
    pub range: RangeSpec,
    /// How many seconds its Prefer field lets the response wait; none if it says nothing of that.
    pub wait: Option<u64>,
    /// The number of the client that its X-Client field names; 0 if there is no such field.
    pub client: u64,
}

/// Why a text doesn't begin with a head.
#[derive(Clone, Copy, Drop)]
pub enum HeadFault {
    /// More bytes are needed.
    Partial,
    /// No following bytes make it a head.
    Invalid,
    /// It exceeds the limits.
    TooLarge,
}

/// Why no head could be read.
#[derive(Clone, Copy, Debug, PartialEq, Eq, Drop)]
pub enum HeadEnd {
    /// The input ended between two requests.
    Closed,
    /// The input ended inside a head.
    CutShort,
    /// The bytes can't become a head.
    BadHead,
    /// The head exceeds 16384 bytes or 64 fields.
    HeadTooLarge,
    /// A read failed, and was counted.
    ReadFailed,
}

/// Summarizes a head from its spans.
fn summarize_head(text: &[u8], headers: &[HeaderSpan], spans: &RequestSpans) -> ParsedHead
    requires within { IsRequestWithin text.now headers.now spans.now }
    ensures { (h : RequestHead) → IsRequestAt text.now headers.now spans.now h → IsHead h result (take spans.now.len text.now) }
{
    let found = &headers[..spans.headers];
    let minor = spans.version;
    ParsedHead {
        method: Method::from_name(spans.method.of(text)),
        target: spans.path,
        body: parse_framing(text, found, minor),
        expects: expects_continue(text, found, minor),
        closes: closes_connection(text, found, minor),
        range: parse_range_field(text, found),
        wait: parse_wait_field(text, found),
        client: parse_client_field(text, found),
    }
}

/// Finds the head at the front of a text, and its length including the empty lines before it. Doesn't allocate.
#[tactic(auto, using(crate::proofs::HeadLaws::head_past, crate::proofs::HeadLaws::partial_past))]
pub fn find_head(text: &[u8]) -> Result<(ParsedHead, usize), HeadFault>
    ensures { FindsHead text.now result }
{
    let mut headers = [EMPTY_HEADER_SPAN; MOST_FIELDS];
    match parse_request(text, &mut headers) {
        Ok(Status::Complete(spans)) if spans.len > MOST_HEAD => Err(HeadFault::TooLarge),
        Ok(Status::Complete(spans)) => Ok((summarize_head(text, &headers, &spans), spans.len)),
        Ok(Status::Partial) if text.len() < MOST_HEAD => Err(HeadFault::Partial),
        Ok(Status::Partial) => Err(HeadFault::TooLarge),
        Err(Error::TooManyHeaders) => Err(HeadFault::TooLarge),
        Err(_) => Err(HeadFault::Invalid),
    }
}
