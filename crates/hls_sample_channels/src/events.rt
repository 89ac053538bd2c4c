//! Events with media.

ghost use Rattle.std.specs.Prelude.{◌≡◌, IfOk, true};
ghost use Rattle.hls_fakes.specs.Init.{init_bytes};
ghost use Rattle.hls_fakes.specs.UnitBytes.{unit_bytes};
ghost use Rattle.hls_core_laws.specs.State.{State};
ghost use Rattle.hls_core_laws.specs.Moves.{IsFitting, IsFittingAsSeen};
ghost use Rattle.hls_sample_channels.specs.Samples.{IsBeginEvent, IsAcceptEvent};

use crate::fault::SampleFault;
use bytes::Bytes;
use hls_core::snapshot::Snapshot;
use hls_core_laws::event::Event;
use hls_fakes::{init_bytes, unit_bytes};
use hls_media::{read_facts, read_init};
use std::alloc::Global;

/// Makes the event of a rendition's init section, with this four-letter handler and timescale (ticks per second).
pub fn begin_event(
    alloc: Global,
    rendition: usize,
    handler: &[u8; 4],
    scale: u32,
) -> Result<Event, SampleFault>
    ensures fits { IfOk result (λ event. (s : State) → IsFitting s event) }
    ensures seen { IfOk result (λ event. (s : State) → IsFittingAsSeen s event) }
    ensures bytes { IfOk result (λ event. IsBeginEvent rendition (init_bytes handler.now scale) event) }
{
    let bytes = init_bytes(alloc, handler, scale)?;
    let init = read_init(alloc, &bytes)?;
    let bytes = Bytes::from_vec(bytes)?;
    Ok(Event::Begin {
        rendition,
        init,
        bytes,
    })
}

/// Makes the event of a unit of a rendition that has begun; its start and duration are in ticks.
pub fn accept_event(
    alloc: Global,
    snapshot: &Snapshot,
    rendition: usize,
    start: u64,
    ticks: u32,
) -> Result<Event, SampleFault>
    ensures fits { IfOk result (λ event. IsFitting snapshot.now event) }
    ensures seen { IfOk result (λ event. IsFittingAsSeen snapshot.now event) }
    ensures bytes { IfOk result (λ event. IsAcceptEvent rendition (unit_bytes start ticks true 1000) event) }
{
    let Some(recording) = snapshot.recording(rendition) else {
        return Err(SampleFault::NotBegun);
    };
    let bytes = unit_bytes(alloc, start, ticks, true, 1000)?;
    let facts = read_facts(recording.init(), &bytes)?;
    let bytes = Bytes::from_vec(bytes)?;
    Ok(Event::Accept {
        rendition,
        facts,
        bytes,
    })
}
