//! One rendition of a snapshot.

ghost use Rattle.std.specs.Prelude.{◌≡◌, IfOk, Some};

use hls_record::Recording;
use std::alloc::{AllocError, Global};
use std::sync::Arc;

/// One rendition of a snapshot: its recording, once it has begun, and whether it is finished.
#[derive(Drop)]
pub(crate) struct RenditionState {
    pub(crate) recording: Option<Recording>,
    pub(crate) finished: bool,
}

impl RenditionState {
    ghost use Rattle.hls_core.specs.RenditionStates.{lane_of};

    /// Makes the state of a rendition that has begun, shared between snapshots.
    pub(crate) fn with_recording(
        alloc: Global,
        recording: Recording,
        finished: bool,
    ) -> Result<Arc<RenditionState>, AllocError>
        ensures { IfOk result (λ rendition_state. rendition_state.value ≡ record { recording = Some recording; finished = finished }) }
    {
        let rendition_state = RenditionState {
            recording: Some(recording),
            finished,
        };
        Ok(Arc::new(alloc, rendition_state)?)
    }

    /// Returns the number of the first unit that isn't trimmed.
    pub(crate) fn floor(&self) -> u64
        ensures { result ≡ (lane_of self.now).floor }
    {
        match &self.recording {
            Some(recording) => recording.floor(),
            None => 0,
        }
    }
}
