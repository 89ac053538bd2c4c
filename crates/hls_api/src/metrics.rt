//! The response with a channel's metrics, whose memory is set aside.

ghost use Rattle.std.specs.Prelude.{◌≡◌, [], IfOk};
ghost use Rattle.hls_api.specs.Responses as spec;

use crate::response::Response;
use crate::text_responses::shared_text_response;
use bytes::Bytes;
use hls_core::snapshot::Snapshot;
use hls_http::response_parts::Status;
use hls_metrics::{Measured, push_metrics};
use std::alloc::{AllocError, Global};
use std::mem;

/// The bytes that are set aside for the metrics of a channel without renditions. They take three quarters of them, with numbers of ten
/// digits.
const CHANNEL_ROOM: usize = 24 << 10;

/// The bytes that are set aside for the metrics of a rendition.
const RENDITION_ROOM: usize = 2 << 10;

/// The memory of the metrics' text. It is set aside when a server starts, and used again for each response, so that metrics are shown while
/// there is no memory for anything of their size. While a client still loads one response, another one takes memory of its own.
#[derive(Drop)]
pub struct MetricsMemory {
    text: Bytes,
}

/// Sets memory aside: a text of one byte, since empty bytes keep none.
fn set_aside(alloc: Global, renditions: usize) -> Result<Bytes, AllocError> {
    let room = CHANNEL_ROOM.saturating_add(renditions.saturating_mul(RENDITION_ROOM));
    let mut text = Vec::with_capacity(alloc, room)?;
    text.push(b'\n')?;
    Ok(Bytes::from_vec(text)?)
}

impl MetricsMemory {
    /// Sets memory aside for the metrics of a channel, if there is any. Otherwise that of the first response is kept.
    pub fn new(alloc: Global, renditions: usize) -> MetricsMemory {
        match set_aside(alloc, renditions) {
            Ok(text) => MetricsMemory { text },
            Err(_) => MetricsMemory { text: Bytes::new() },
        }
    }

    /// Takes the memory as an empty text; other memory if a client still loads the last response.
    fn take(&mut self, alloc: Global) -> Vec<u8>
        ensures { result.items ≡ [] }
    {
        match mem::replace(&mut self.text, Bytes::new()).try_into_mut() {
            Ok(memory) => match memory.into_vec() {
                Ok(mut text) => {
                    text.clear();
                    text
                }
                Err(_) => Vec::new(alloc),
            },
            Err(loaded) => {
                self.text = loaded;
                Vec::new(alloc)
            }
        }
    }

    /// Returns the response with the metrics of a channel with `jobs` jobs, and what its server measured, in Prometheus' text format.
    pub fn show(
        &mut self,
        alloc: Global,
        snapshot: &Snapshot,
        jobs: usize,
        measured: &Measured,
    ) -> Result<Response, AllocError>
        ensures { IfOk result (λ a. a ≡ spec.metrics_answer snapshot.now jobs measured.now) }
    {
        let mut out = self.take(alloc);
        let written = push_metrics(&mut out, snapshot, jobs, measured);
        let text = Bytes::from_vec(out)?;
        let shown: Result<Bytes, AllocError> = text.clone();
        self.text = text;
        written?;
        Ok(shared_text_response(Status::Done, shown?))
    }
}

/// Returns the response with the metrics of a channel, as [`MetricsMemory::show`] does, in memory that isn't set aside.
pub fn metrics_response(
    alloc: Global,
    snapshot: &Snapshot,
    jobs: usize,
    measured: &Measured,
) -> Result<Response, AllocError>
    ensures { IfOk result (λ a. a ≡ spec.metrics_answer snapshot.now jobs measured.now) }
{
    let mut memory = MetricsMemory { text: Bytes::new() };
    memory.show(alloc, snapshot, jobs, measured)
}
