//! What to do with a request once its head is read, by its fields, its path and its body, in that order.

ghost use Rattle.std.specs.Prelude.{◌≡◌, ◌≤◌, List, ℕ};
ghost use Rattle.httparse.specs.Grammar.{RequestHead};
ghost use Rattle.hls_http.specs.{Requests.framing_of_head, ReadHeads.IsHead};
ghost use Rattle.hls_http.specs.Actions as spec;

use crate::fault::HttpFault;
use crate::framing::BodyFraming;
use crate::head::ParsedHead;
use crate::limits::MOST_DISCARDED;
use crate::remaining::announced_len;
use crate::request_action::RequestAction;

/// Whether the body has been read to its end.
pub fn is_over(body: BodyFraming) -> bool
    ensures { result ≡ spec.is_over body }
{
    matches!(body, BodyFraming::Length(0))
}

/// Decides what to do with a request, given whether its path is known and whether the route ingests its body in parts. A fault of the
/// fields comes first, then an unknown path, then a discarded body whose Content-Length exceeds 65536 bytes. So a discarded body
/// never has more bytes [announced](crate::remaining::announced_len).
pub fn decide_action(head: &ParsedHead, known: bool, ingests: bool) -> RequestAction
    ensures action { (h : RequestHead) (text : List ℕ) → IsHead h head.now text → result ≡ spec.action_by (framing_of_head h) known ingests }
    ensures by { result ≡ spec.action_by head.now.body known ingests }
    ensures fits { (body : BodyFraming) → result ≡ RequestAction.Discard body → spec.announced_len body ≤ 65536 }
{
    let (fault, closing) = match head.body {
        Err(fault) => (fault, true),
        Ok(body) if !known => (HttpFault::NotFound, !is_over(body)),
        Ok(body) if ingests => return RequestAction::Ingest(body),
        Ok(body) if announced_len(body) <= MOST_DISCARDED => return RequestAction::Discard(body),
        Ok(_) => (HttpFault::TooLarge, true),
    };
    RequestAction::Refuse { fault, closing }
}

/// Whether 100 Continue is sent before the body is read (RFC 9110 10.1.1).
pub fn sends_continue(head: &ParsedHead, action: RequestAction) -> bool
    ensures { (h : RequestHead) (text : List ℕ) → IsHead h head.now text → result ≡ spec.sends_continue h action }
{
    match action {
        RequestAction::Refuse { .. } => false,
        RequestAction::Ingest(body) | RequestAction::Discard(body) => head.expects
            && !is_over(body),
    }
}

/// Whether the reply says `Connection: close`: it is sent early, before the body was read to its end, or the request asks for it (RFC
/// 9112 9.6).
pub fn sends_close(head: &ParsedHead, early: bool) -> bool
    ensures { (h : RequestHead) (text : List ℕ) → IsHead h head.now text → result ≡ spec.sends_close h early }
{
    early || head.closes
}
