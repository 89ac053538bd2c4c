//! The answer to a job's request.

ghost use Rattle.std.specs.Prelude.{◌≡◌, Err, IfOk, Ok, Some};
ghost use Rattle.std.specs.Result.{result_map_both};
ghost use Rattle.hls_catchup.specs.Jobs.Answers.{IsRight};
ghost use Rattle.hls_catchup.specs.Replies.{IsAnswered};

use crate::fault::CatchFault;
use crate::reply::Reply;
use crate::request::Request;
use hls_core::snapshot::Snapshot;
use std::alloc::{AllocError, Global};
use std::marker::Model;
use std::sync::Arc;

/// The answer to a job's request: a reply, or why there is none. Out of memory is no answer.
///
/// A contract sees the state that answers, the request and the result, which is always the right one. It never changes, and is
/// shared, not copied.
#[derive(Drop)]
pub struct JobAnswer {
    inner: JobAnswerInner,
}

#[derive(Drop)]
enum JobAnswerInner {
    /// A reply, which holds its snapshot and its request.
    Replied(Arc<Reply>),
    /// The snapshot refuses the request.
    Refused {
        snapshot: Arc<Snapshot>,
        request: Request,
        fault: CatchFault,
    },
}

impl Model for JobAnswer {
    ghost use Rattle.hls_catchup.specs.Jobs.Answers.{AnsweredData, model_of, IsRight};

    ghost Value = { AnsweredData };

    ghost view = { model_of };

    ghost invariant = { λ a. IsRight (model_of a) };
}

impl JobAnswer {
    /// Makes an answer from a reply.
    pub fn from_reply(alloc: Global, reply: Reply) -> Result<JobAnswer, AllocError>
        ensures { IfOk result (λ a. a ≡ record { state = reply.state; request = reply.request; result = Ok reply }) }
    {
        // its contract says that the reply is right
        let _ = reply.snapshot();
        let inner = JobAnswerInner::Replied(Arc::new(alloc, reply)?);
        Ok(JobAnswer { inner })
    }

    /// Makes an answer from the reason why a snapshot has no reply to a request.
    pub fn from_fault(snapshot: Arc<Snapshot>, request: Request, fault: CatchFault) -> JobAnswer
        requires { IsAnswered snapshot.value request (Some (Err fault)) }
        ensures { result ≡ record { state = snapshot.value; request = request; result = Err fault } }
    {
        let inner = JobAnswerInner::Refused {
            snapshot,
            request,
            fault,
        };
        JobAnswer { inner }
    }

    /// Returns the same answer over the same memory.
    pub fn share(&self) -> Result<JobAnswer, AllocError>
        ensures { IfOk result (λ a. a ≡ self.now) }
    {
        let inner = match &self.inner {
            JobAnswerInner::Replied(reply) => JobAnswerInner::Replied(Arc::try_clone(reply)?),
            JobAnswerInner::Refused {
                snapshot,
                request,
                fault,
            } => JobAnswerInner::Refused {
                snapshot: Arc::try_clone(snapshot)?,
                request: *request,
                fault: *fault,
            },
        };
        Ok(JobAnswer { inner })
    }

    /// Returns the snapshot that answers.
    pub fn snapshot(&self) -> &Snapshot
        ensures value { result.now ≡ self.now.state }
        ensures right { IsRight self.now }
    {
        match &self.inner {
            JobAnswerInner::Replied(reply) => reply.snapshot(),
            JobAnswerInner::Refused { snapshot, .. } => snapshot,
        }
    }

    /// Returns the request.
    pub fn request(&self) -> Request
        ensures value { result ≡ self.now.request }
        ensures right { IsRight self.now }
    {
        match &self.inner {
            JobAnswerInner::Replied(reply) => reply.request(),
            JobAnswerInner::Refused { request, .. } => *request,
        }
    }

    /// Returns the reply, or why there is none.
    pub fn result(&self) -> Result<&Arc<Reply>, CatchFault>
        ensures value { result_map_both (λ reply. reply.now.value) (λ fault. fault) result ≡ self.now.result }
        ensures right { IsRight self.now }
    {
        match &self.inner {
            JobAnswerInner::Replied(reply) => Ok(reply),
            JobAnswerInner::Refused { fault, .. } => Err(*fault),
        }
    }
}
