//! The reply to a request.

ghost use Rattle.std.specs.Prelude.{◌≡◌, IfOk};
ghost use Rattle.hls_catchup.specs.Requests.{IsRightAnswer};
ghost use Rattle.hls_catchup.specs.Replies.{IsRightReply};

use crate::cut_result::CutResult;
use crate::request::Request;
use hls_core::snapshot::Snapshot;
use std::alloc::AllocError;
use std::marker::Model;
use std::sync::Arc;

/// The answer to a request: it holds the snapshot from which it was cut, so no later event changes it.
#[derive(Drop)]
pub struct Reply {
    snapshot: Arc<Snapshot>,
    request: Request,
    cut_result: CutResult,
}

impl Model for Reply {
    ghost use Rattle.hls_catchup.specs.Replies.{ReplyData, model_of};
    ghost use Rattle.hls_catchup.specs.Requests.{IsRightAnswer};

    ghost Value = { ReplyData };

    ghost view = { model_of };

    ghost invariant = { λ r. IsRightAnswer r.snapshot.value r.request r.cut_result };
}

impl Reply {
    /// Makes the reply of a snapshot to a request, given that the cut result is right.
    pub fn new(snapshot: Arc<Snapshot>, request: Request, cut_result: CutResult) -> Reply
        requires { IsRightAnswer snapshot.value request cut_result }
        ensures reply { IsRightReply snapshot.value request result }
        ensures cut_result { result.cut_result ≡ cut_result }
    {
        Reply {
            snapshot,
            request,
            cut_result,
        }
    }

    /// Returns the snapshot that answers.
    pub fn snapshot(&self) -> &Snapshot
        ensures value { result.now ≡ self.now.state }
        ensures right { IsRightAnswer self.now.state self.now.request self.now.cut_result }
    {
        &self.snapshot
    }

    /// Returns the same snapshot, shared.
    pub fn share_snapshot(&self) -> Result<Arc<Snapshot>, AllocError>
        ensures { IfOk result (λ snapshot. snapshot.value ≡ self.now.state) }
    {
        Arc::try_clone(&self.snapshot)
    }

    /// Returns the request.
    pub fn request(&self) -> Request
        ensures { result ≡ self.now.request }
    {
        self.request
    }

    /// Returns the playlists with their certificate, or the certificate that there is no plan.
    pub fn cut_result(&self) -> &CutResult
        ensures { result.now ≡ self.now.cut_result }
    {
        &self.cut_result
    }
}
