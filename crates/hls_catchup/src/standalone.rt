//! Calls that no program makes, for uses of this crate alone: a whole run on one thread, and the bytes of a reply's resource from a
//! byte on. They are built from what the program runs: `step` and `answer`, and the resource of a recording.

ghost use Rattle.std.specs.Prelude.{◌≡◌, Some, IfOk};
ghost use Rattle.hls_core_laws.specs.Runs.{first_state, AreFitting};
ghost use Rattle.hls_catchup.specs.Play.{events_in, AppendsAnswer, IsPlayed};
ghost use Rattle.hls_catchup.specs.Replies.{IsAnswered};
ghost use Rattle.std.specs.Option.{option_copied};
ghost use Rattle.hls_catchup.specs.Resources.{parts_in, piece_of};

use crate::cut_request::answer;
use crate::fault::CatchFault;
use crate::reply::Reply;
use crate::reply_units::find_reply_units;
use crate::request::Request;
use crate::resource::resource_piece;
use hls_core::config::Config;
use hls_core::replay::apply_event;
use hls_core::snapshot::Snapshot;
use hls_core_laws::event::Event;
use std::alloc::{AllocError, Global};
use std::sync::Arc;

/// An action on a channel.
#[derive(Drop)]
pub enum Action {
    /// An event, with the number of the worker that submits it.
    Event(u16, Event),
    /// A request, answered from the state that it meets.
    Ask(Request),
}

/// Returns the last state of a run and, in order, the answer to each of its requests from the state before it. A refused event leaves
/// the state unchanged; an allocation failure ends the call, so no answer is out of memory.
pub fn play(
    alloc: Global,
    config: Config,
    actions: &[Action],
) -> Result<(Arc<Snapshot>, Vec<Result<Reply, CatchFault>>), AllocError>
    requires { AreFitting (first_state config) (events_in actions.now) }
    ensures { IfOk result (λ played. IsPlayed config actions.now played.0.value played.1.items) }
{
    let mut state = Arc::new(alloc, Snapshot::first(alloc, config)?)?;
    let mut answers = Vec::new(alloc);
    for action in actions {
        match action {
            Action::Event(by, event) => state = apply_event(alloc, state, *by, event)?,
            Action::Ask(request) => push_answer(alloc, &mut answers, &state, *request)?,
        }
    }
    Ok((state, answers))
}

/// Appends the answer to a request to the others.
fn push_answer(
    alloc: Global,
    answers: &mut Vec<Result<Reply, CatchFault>>,
    state: &Arc<Snapshot>,
    request: Request,
) -> Result<(), AllocError>
    ensures { IfOk result (λ done. AppendsAnswer state.now.value request answers.old.items answers.new.items) }
{
    answers.push(try_answer(alloc, state, request)?)?;
    Ok(())
}

/// Answers a request, or fails if it ran out of memory.
fn try_answer(
    alloc: Global,
    state: &Arc<Snapshot>,
    request: Request,
) -> Result<Result<Reply, CatchFault>, AllocError>
    ensures { IfOk result (λ answer. IsAnswered state.now.value request (Some answer)) }
{
    match answer(alloc, state, request) {
        Ok(reply) => Ok(Ok(reply)),
        Err(CatchFault::Memory) => Err(AllocError),
        Err(fault) => Ok(Err(fault)),
    }
}

/// Returns the bytes of a rendition's resource from byte `at` to the end of its init section or unit; `None` at or past the end, if
/// there is no such rendition, or if the programme has no plan. Copies nothing, and doesn't allocate.
pub fn reply_piece(reply: &Reply, rendition: usize, at: u64) -> Option<&[u8]>
    ensures { option_copied result ≡ piece_of (parts_in reply.now rendition) at }
{
    let span = find_reply_units(reply, rendition)?;
    resource_piece(span.recording, span.first, span.end, at)
}
