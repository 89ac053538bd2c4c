//! The states of a connection, and what a step leads to.

ghost use Rattle.std.specs.Prelude.{◌≡◌};
ghost use Rattle.hls_connection.specs.States.{state_after, step_without_output};

use crate::act_log::ActLog;
use crate::receive::ReceivingBody;
use crate::request_context::RequestContext;
use hls_api::catchup_query::TimePoint;
use hls_api::route::{ProgrammeFile, Route};
use hls_api::{Response, ResponseBody};
use hls_catchup::Request;
use hls_http::SessionEnd;
use hls_io::SendBuffer;

/// What a connection does if nothing waits to be sent. (While something does, it sends that, whatever its state.)
#[derive(Drop)]
pub(crate) enum ConnectionState {
    /// Reads the head of the next request.
    Head,
    /// Receives a request's body.
    Receive(ReceivingBody),
    /// Waits with a response until a job or a plan is finished, after the request's body.
    Wait(WaitingResponse),
    /// Writes a response that is made in parts, after the request's body.
    Write(WritingResponse),
    /// Nothing more: it ended by itself.
    Ended(SessionEnd),
}

/// A programme whose plan a response waits for: what its address says, and the plan's request.
#[derive(Clone, Copy)]
pub(crate) struct AwaitedPlan {
    pub start: TimePoint,
    pub stop: TimePoint,
    pub file: ProgrammeFile,
    pub request: Request,
}

/// What a response waits for.
#[derive(Clone, Copy)]
pub(crate) enum Awaited {
    /// The job of this id.
    Job(u64),
    /// The plan of a programme.
    Plan(AwaitedPlan),
}

/// A response that waits until a job or a plan is finished, with its request, whose body was received, and the keeper's acts for it. It
/// holds no thread, and its connection isn't read from.
#[derive(Drop)]
pub(crate) struct WaitingResponse {
    pub context: RequestContext,
    pub awaited: Awaited,
    pub acts: ActLog,
    /// When it is answered at the latest, in milliseconds of the clock.
    pub deadline_ms: u64,
}

/// A response that is made in parts, so that other connections have their turn between them, with its request, whose body was
/// received, and the keeper's acts for it. It is made from the snapshot that was seen then, whatever happens meanwhile.
#[derive(Drop)]
pub(crate) struct WritingResponse {
    pub context: RequestContext,
    pub route: Route,
    pub acts: ActLog,
    pub response: Response,
    /// How many more parts are made at most before it is sent.
    pub parts: u32,
}

/// What a step leads to.
#[derive(Drop)]
pub(crate) struct Transition {
    /// The next state.
    pub state: ConnectionState,
    /// What is sent.
    pub output: SendBuffer<ResponseBody>,
    /// The keeper's acts for the request that is over, if one is.
    pub acts: ActLog,
    /// Whether there may be more to do at once.
    pub more: bool,
}

impl Transition {
    /// Nothing is sent, and no request is over.
    pub fn without_output(state: ConnectionState, more: bool) -> Transition
        ensures { result ≡ step_without_output state more }
    {
        Transition {
            state,
            output: SendBuffer::new(),
            acts: ActLog::new(),
            more,
        }
    }
}

/// The state after a response: the next request's head, unless it closes the connection.
pub(crate) fn state_after(closing: bool, success: bool) -> ConnectionState
    ensures { result ≡ state_after closing success }
{
    match (closing, success) {
        (false, _) => ConnectionState::Head,
        (true, true) => ConnectionState::Ended(SessionEnd::Closed),
        (true, false) => ConnectionState::Ended(SessionEnd::Refused),
    }
}
