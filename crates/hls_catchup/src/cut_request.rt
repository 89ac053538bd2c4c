//! Answers to requests.

ghost use Rattle.std.specs.Prelude.{Err, MatchResult};
ghost use Rattle.hls_catchup.specs.Requests.{IsTableFor, IsRightAnswer};
ghost use Rattle.hls_catchup.specs.Replies.{IsReplyTo};

use crate::cut::cut_programme;
use crate::cut_result::CutResult;
use crate::fault::CatchFault;
use crate::place_table::table_of;
use crate::recordings::collect_recordings;
use crate::reply::Reply;
use crate::request::Request;
use hls_core::snapshot::Snapshot;
use std::alloc::Global;
use std::sync::Arc;

/// Answers a request from one snapshot: a least plan of the programme's table with a playlist for each rendition, or the proof that
/// there is no plan, with its certificate; or the first fault.
pub fn answer(
    alloc: Global,
    snapshot: &Arc<Snapshot>,
    request: Request,
) -> Result<Reply, CatchFault>
    ensures { IsReplyTo snapshot.now.value request result }
{
    match cut_request(alloc, snapshot, request) {
        Ok(cut_result) => Ok(Reply::new(Arc::try_clone(snapshot)?, request, cut_result)),
        Err(fault) => Err(fault),
    }
}

/// Cuts the programme of a request, or returns the first fault.
fn cut_request(
    alloc: Global,
    snapshot: &Snapshot,
    request: Request,
) -> Result<CutResult, CatchFault>
    ensures { MatchResult result (IsRightAnswer snapshot.now request) (λ fault. IsTableFor snapshot.now request (Err fault)) }
{
    match table_of(alloc, snapshot, request) {
        Ok(table) => {
            let _ = table.len(); // the proof needs that the table is well formed
            let Some(recordings) = collect_recordings(alloc, snapshot)? else {
                unreachable!()
            };
            let epoch = snapshot.config().epoch();
            Ok(cut_programme(alloc, recordings.as_slice(), epoch, table)?)
        }
        Err(fault) => Err(fault),
    }
}
