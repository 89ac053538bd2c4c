//! Sends responses: the bytes, and the connection's state after them.

ghost use Rattle.hls_api.specs.declared.route.ServedChannel.{ServedChannel};
ghost use Rattle.std.specs.Prelude.{◌≡◌, ℕ, List, [], true, false};
ghost use Rattle.httparse.specs.Grammar.{RequestHead};
ghost use Rattle.hls_http.specs.{declared.request_action.RequestAction.RequestAction as ActionOf, ResponseText.out_of_memory_response, Actions.sends_close as closes_by};
ghost use Rattle.hls_api.specs.Exchanges.{IsDue, IsDueWithoutHead, continue_prefix, to_head as is_for_head};
ghost use Rattle.hls_connection.specs.{RequestContexts.IsContextOf, RequestContexts.IsDueFor, States.RespondsWith, States.SendsResponse, States.respond_step};
ghost use Rattle.hls_api.specs.Responses as replies;

use crate::act_log::ActLog;
use crate::events::{Observer, SessionEvent};
use crate::request_context::RequestContext;
use crate::state::{Transition, state_after};
use hls_api::parse_route::is_head_request;
use hls_api::route::Route;
use hls_api::{Response, ResponseBody, fault_response, into_send_buffer};
use hls_http::response_parts::{Status, out_of_memory_head_text, out_of_memory_text};
use hls_http::{HttpFault, Method, sends_close};
use hls_io::SendBuffer;
use std::alloc::{AllocError, Global};

/// Reports the status of a response.
fn report_response<O: Observer>(
    observer: &O,
    method: Method,
    route: Option<Route>,
    response: &Result<Response, AllocError>,
) {
    let status = match response {
        Ok(response) => response.status(),
        Err(_) => Status::Unavailable,
    };
    observer.report(&SessionEvent::Responded {
        method,
        route,
        status,
    });
}

/// Sends an output, and then continues or ends.
fn send(output: SendBuffer<ResponseBody>, closing: bool, success: bool, acts: ActLog) -> Transition
    ensures { result ≡ respond_step output closing success acts }
{
    Transition {
        state: state_after(closing, success),
        output,
        acts,
        more: true,
    }
}

/// The fixed response to an allocation failure, which allocates nothing; to HEAD without its body.
fn send_out_of_memory(to_head: bool, acts: ActLog) -> Transition
    ensures { result ≡ respond_step (out_of_memory_response to_head) true false acts }
{
    let text = if to_head {
        out_of_memory_head_text()
    } else {
        out_of_memory_text()
    };
    send(SendBuffer::from_static(text), true, false, acts)
}

/// Sends a response; if there was no memory for it or for its head, the fixed one.
fn send_response(
    alloc: Global,
    response: Result<Response, AllocError>,
    closing: bool,
    to_head: bool,
    acts: ActLog,
) -> Transition
    ensures { (first : List ℕ) → RespondsWith (IsDueFor first response closing to_head) first acts result }
{
    let Ok(response) = response else {
        return send_out_of_memory(to_head, acts);
    };
    let success = response.status().is_success();
    match into_send_buffer(alloc, response, closing, to_head) {
        Ok(output) => send(output, closing, success, acts),
        Err(_) => send_out_of_memory(to_head, acts),
    }
}

/// Responds to a request; `early` says that its body wasn't received to the end. The acts are the request's.
pub(crate) fn respond<O: Observer>(
    alloc: Global,
    observer: &O,
    context: &RequestContext,
    response: Result<Response, AllocError>,
    early: bool,
    acts: ActLog,
) -> Transition
    ensures responds { (channel : ServedChannel) (h : RequestHead) (first : List ℕ) → IsContextOf channel h context.now
        → RespondsWith (IsDueFor first response (closes_by h early) (is_for_head h)) first acts result }
    ensures sends { SendsResponse acts result }
{
    report_response(observer, context.head.method, context.route, &response);
    let closing = sends_close(&context.head, early);
    let to_head = is_head_request(context.head.method);
    send_response(alloc, response, closing, to_head, acts)
}

/// Refuses a request.
pub(crate) fn refuse_request<O: Observer>(
    alloc: Global,
    observer: &O,
    context: &RequestContext,
    fault: HttpFault,
    early: bool,
    acts: ActLog,
) -> Transition
    ensures responds { (channel : ServedChannel) (h : RequestHead) (action : ActionOf) → IsContextOf channel h context.now
        → RespondsWith (IsDue h action (replies.fault_answer fault) early) (continue_prefix h action) acts result }
    ensures sends { SendsResponse acts result }
{
    let response = fault_response(alloc, fault);
    respond(alloc, observer, context, response, early, acts)
}

/// Refuses input that can't become a head.
pub(crate) fn refuse_head<O: Observer>(alloc: Global, observer: &O, fault: HttpFault) -> Transition
    ensures { RespondsWith (IsDueWithoutHead fault) [] [] result }
{
    let response = fault_response(alloc, fault);
    report_response(observer, Method::Other, None, &response);
    send_response(alloc, response, true, false, ActLog::new())
}
