//! The statuses of the replies to refused encoders' bodies.

ghost use Rattle.std.specs.Prelude.{◌≡◌};
ghost use Rattle.hls_api.specs.Faults as spec;

use hls_boxes::fault::BoxFault;
use hls_core::StreamFault;
use hls_core_laws::refusal::Refusal;
use hls_http::response_parts::Status;
use hls_media_laws::fault::MediaFault;

/// Returns the status of a channel's refusal: 404 for an unknown rendition, 507 if a store is full, 503 if out of memory, else 409.
pub fn refusal_status(refusal: Refusal) -> Status
    ensures { result ≡ spec.core_status refusal }
{
    match refusal {
        Refusal::UnknownRendition => Status::NotFound,
        Refusal::LedgerFull => Status::InsufficientStorage,
        Refusal::RecordingFull => Status::InsufficientStorage,
        Refusal::Memory => Status::Unavailable,
        _ => Status::Conflict,
    }
}

/// Returns the status of the reply to a refused encoder's body: 413 for a part that is too large, 503 if out of memory, 400 for every
/// other fault of a part, 409 for a unit that is ahead of the channel, and else that of the channel's refusal.
pub fn stream_fault_status(fault: StreamFault) -> Status
    ensures { result ≡ spec.status_of fault }
{
    match fault {
        StreamFault::Boxes(BoxFault::TooLarge) => Status::ContentTooLarge,
        StreamFault::Boxes(BoxFault::Memory) => Status::Unavailable,
        StreamFault::Media(MediaFault::Memory) => Status::Unavailable,
        StreamFault::Core(refusal) => refusal_status(refusal),
        StreamFault::AheadOfChannel => Status::Conflict,
        _ => Status::BadRequest,
    }
}
