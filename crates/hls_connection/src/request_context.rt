//! What is kept of a request's head while its body is read.

ghost use Rattle.hls_api.specs.declared.route.ServedChannel.{ServedChannel};
ghost use Rattle.std.specs.{Prelude.{◌≡◌, ◌≤◌, ℕ, Some, IfOk, length}, Option.is_some};
ghost use Rattle.httparse.specs.{Grammar.RequestHead, Spans.span_bytes};
ghost use Rattle.hls_http.specs.{declared.framing.BodyFraming.BodyFraming, Actions.announced_len, Actions.action_by};
ghost use Rattle.hls_http.specs.ReadHeads.{IsHead};
ghost use Rattle.hls_api.specs.{Exchanges.{params_of, action_for}};
ghost use Rattle.hls_connection.specs.RequestContexts.{HasQuery, IsContextOf};
ghost use Rattle.hls_api.specs.Routes as spec;

use hls_api::catchup_query::CatchupQuery;
use hls_api::parse_route::{parse_route, takes_ingest};
use hls_api::route::{Route, ServedChannel};
use hls_api::{read_programme_query, read_query};
use hls_http::{ParsedHead, RequestAction, decide_action, split_target};
use std::alloc::{AllocError, Global};

/// The query of a catch-up request or of one for a programme, `None` if it is invalid, or an allocation failure.
pub type QueryResult = Result<Option<CatchupQuery>, AllocError>;

/// What is kept of a request's head, whose text is gone once its body is read.
#[derive(Clone, Copy)]
pub struct RequestContext {
    /// What the head says.
    pub head: ParsedHead,
    /// What its path names.
    pub route: Option<Route>,
    /// The query of a catch-up request or of one for a programme, `None` if it is invalid, or an allocation failure.
    pub query: QueryResult,
}

/// The target in a head's text.
fn request_target<'a>(text: &'a [u8], head: &ParsedHead) -> &'a [u8]
    ensures { head.now.target.start ≤ head.now.target.end → head.now.target.end ≤ length text.now → result.now ≡ span_bytes text.now head.now.target }
{
    text.get(head.target.start..head.target.end).unwrap_or(b"")
}

/// Reads the query of a catch-up request, or of one for a programme. That of another request isn't read.
fn read_catchup_query(alloc: Global, route: Option<Route>, text: &[u8]) -> QueryResult
    ensures { HasQuery route text.now result }
{
    match route {
        Some(Route::CatchUp) => read_query(alloc, text),
        Some(Route::Programme(start, stop, _)) => read_programme_query(alloc, start, stop, text),
        _ => Ok(None),
    }
}

/// Returns what is kept of a head, in a channel.
pub fn make_context(
    alloc: Global,
    text: &[u8],
    channel: ServedChannel,
    head: ParsedHead,
) -> RequestContext
    ensures { (h : RequestHead) → IsHead h head text.now → IsContextOf channel h result }
{
    let (path, query) = split_target(request_target(text, &head));
    let route = parse_route(channel, path);
    RequestContext {
        head,
        route,
        query: read_catchup_query(alloc, route, query),
    }
}

/// Decides what is done with a request.
pub fn action_for(context: &RequestContext) -> RequestAction
    ensures action { (channel : ServedChannel) (h : RequestHead) → IsContextOf channel h context.now → result ≡ action_for h (params_of channel h) }
    ensures by { result ≡ action_by context.now.head.body (is_some context.now.route) (spec.takes_ingest context.now.route context.now.head.method) }
    ensures fits { (body : BodyFraming) → result ≡ RequestAction.Discard body → announced_len body ≤ 65536 }
{
    decide_action(
        &context.head,
        context.route.is_some(),
        takes_ingest(context.route, context.head.method),
    )
}
