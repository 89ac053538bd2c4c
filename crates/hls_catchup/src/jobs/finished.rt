//! The result of a job.

ghost use Rattle.std.specs.Prelude.{◌≡◌};
ghost use Rattle.hls_catchup.specs.Jobs.Finished.{IsAnswerFor, HasOwnAnswer};

use crate::jobs::answer::JobAnswer;
use crate::request::Request;
use std::alloc::AllocError;
use std::marker::Model;

/// The result of a job: its id, and the version (the number of log entries) and the request for which it ran.
///
/// If there is an answer, it is one of that version to that request.
#[derive(Drop)]
pub struct Finished {
    id: u64,
    version: u64,
    request: Request,
    answer: Result<JobAnswer, AllocError>,
}

impl Model for Finished {
    ghost use Rattle.hls_catchup.specs.Jobs.Finished.{FinishedData, model_of, HasOwnAnswer};

    ghost Value = { FinishedData };

    ghost view = { model_of };

    ghost invariant = { λ f. HasOwnAnswer (model_of f) };
}

impl Finished {
    /// Makes the result of a job that ran for a version and a request.
    pub fn new(
        id: u64,
        version: u64,
        request: Request,
        answer: Result<JobAnswer, AllocError>,
    ) -> Finished
        requires { IsAnswerFor version request answer }
        ensures { result ≡ record { id = id; version = version; request = request; answer = answer } }
    {
        Finished {
            id,
            version,
            request,
            answer,
        }
    }

    /// Returns the job's id.
    pub fn id(&self) -> u64
        ensures { result ≡ self.now.id }
    {
        self.id
    }

    /// Returns the number of log entries of the snapshot that answers.
    pub fn version(&self) -> u64
        ensures { result ≡ self.now.version }
    {
        self.version
    }

    /// Returns the request.
    pub fn request(&self) -> Request
        ensures { result ≡ self.now.request }
    {
        self.request
    }

    /// Returns the answer, or out of memory.
    pub fn into_answer(self) -> Result<JobAnswer, AllocError>
        ensures value { result ≡ self.answer }
        ensures right { HasOwnAnswer self }
    {
        self.answer
    }
}
