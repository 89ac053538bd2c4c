//! The resource of a rendition, from a reply alone.

ghost use Rattle.std.specs.Prelude.{◌≡◌, IfNone, IfSome, None};
ghost use Rattle.hls_catchup.specs.Resources.{parts_in, length_of_parts};
ghost use Rattle.hls_catchup.specs.ReplyUnits.{AreReplyUnits};

use crate::cut_result::CutResult;
use crate::reply::Reply;
use crate::resource::resource_total;
use hls_record::Recording;

/// The units of a recording that are in a reply's resource: those from number `first` to the one before `end`.
#[derive(Clone, Copy)]
pub struct ReplyUnits<'a> {
    pub recording: &'a Recording,
    pub first: u64,
    pub end: u64,
}

/// Returns the units of a rendition's resource. `None` if there is no such rendition, or the programme has no plan.
#[tactic(auto, using(hls_playlists::proofs::Places::place_long))]
pub fn find_reply_units(reply: &Reply, rendition: usize) -> Option<ReplyUnits<'_>>
    ensures some { IfSome result (AreReplyUnits reply.now rendition) }
    ensures none { IfNone result (parts_in reply.now rendition ≡ None) }
{
    match reply.cut_result() {
        CutResult::Cut { certificate, .. } => {
            let recording = reply.snapshot().recording(rendition)?;
            let table = certificate.table();
            let last = table.len() - 1;
            Some(ReplyUnits {
                recording,
                first: table.place(0).get(rendition).fragment,
                end: table.place(last).get(rendition).fragment,
            })
        }
        CutResult::NoCut { .. } => None,
    }
}

/// Returns the length of a rendition's resource in bytes: its init section, then the units of the programme. `None` if there is no such
/// rendition, or the programme has no plan. Doesn't allocate.
pub fn reply_total(reply: &Reply, rendition: usize) -> Option<u64>
    ensures { result ≡ length_of_parts (parts_in reply.now rendition) }
{
    let span = find_reply_units(reply, rendition)?;
    Some(resource_total(span.recording, span.first, span.end))
}
