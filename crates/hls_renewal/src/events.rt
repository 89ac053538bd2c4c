//! The events of a renewed channel: its renditions from a cut of its live line on.

ghost use Rattle.std.specs.Prelude.{◌≡◌, ◌-◌, [], ◌∷◌, ◌++◌, length, IfOk, OnOk};
ghost use Rattle.std.specs.Option.{option_copied};
ghost use Rattle.hls_core_laws.specs.declared.event.Event.TheVariants.{Begin};
ghost use Rattle.hls_renewal.specs.Renewals.{units_from, media_from, end_of, renditions_from, slide_by, renewal_events};

use crate::line_cut::LineCut;
use hls_check_tables::Spot;
use hls_core::snapshot::Snapshot;
use hls_core_laws::event::Event;
use hls_record::Recording;
use std::alloc::{AllocError, Global};

/// Returns the events of a channel that continues at a cut of this one's line, each with its worker: of each rendition the init section,
/// the units from the cut on, and the end; then the slide to the front of the line. The units share the channel's memory.
pub(crate) fn make_events(
    alloc: Global,
    snapshot: &Snapshot,
    cut: &LineCut,
) -> Result<Vec<(u16, Event)>, AllocError>
    ensures { IfOk result (λ events. events.items ≡ renewal_events snapshot.now cut.now) }
{
    let mut events = Vec::new(alloc);
    push_renditions(&mut events, snapshot, cut.place.spots.as_slice())?;
    push_slide(
        &mut events,
        snapshot.line().removed().saturating_sub(cut.segments),
    )?;
    Ok(events)
}

/// Pushes the renditions, each from its spot.
fn push_renditions(
    events: &mut Vec<(u16, Event)>,
    snapshot: &Snapshot,
    spots: &[Spot],
) -> Result<(), AllocError>
    ensures { OnOk result (events.new.items ≡ events.old.items ++ renditions_from snapshot.now 0 spots.now) }
{
    for (rendition, spot) in spots.iter().enumerate() {
        push_media(
            events,
            snapshot.recording(rendition),
            rendition,
            spot.fragment,
        )?;
        push_end(events, snapshot.is_finished(rendition), rendition)?;
    }
    Ok(())
}

/// Pushes the init section of a rendition, if it has begun, and its units from a number on.
fn push_media(
    events: &mut Vec<(u16, Event)>,
    recording: Option<&Recording>,
    rendition: usize,
    from: u64,
) -> Result<(), AllocError>
    ensures { OnOk result (events.new.items ≡ events.old.items ++ media_from rendition (option_copied recording.entry) from) }
{
    let Some(recording) = recording else {
        return Ok(());
    };
    push_begin(events, recording, rendition)?;
    push_units(events, recording, rendition, from)
}

/// Pushes the end of a rendition, if it is finished.
fn push_end(
    events: &mut Vec<(u16, Event)>,
    finished: Option<bool>,
    rendition: usize,
) -> Result<(), AllocError>
    ensures { OnOk result (events.new.items ≡ events.old.items ++ end_of rendition finished) }
{
    if finished == Some(true) {
        events.push((0, Event::Finish { rendition }))?;
    }
    Ok(())
}

/// Pushes the slide of a line, if it has slid.
fn push_slide(events: &mut Vec<(u16, Event)>, count: u64) -> Result<(), AllocError>
    ensures { OnOk result (events.new.items ≡ events.old.items ++ slide_by count) }
{
    if count > 0 {
        events.push((0, Event::Slide { count }))?;
    }
    Ok(())
}

fn push_begin(
    events: &mut Vec<(u16, Event)>,
    recording: &Recording,
    rendition: usize,
) -> Result<(), AllocError>
    ensures { OnOk result (events.new.items ≡ events.old.items ++ (0, Begin rendition recording.now.init recording.now.head) ∷ []) }
{
    let init = recording.init().share()?;
    let bytes = recording.init_section_bytes().clone()?;
    events.push((
        0,
        Event::Begin {
            rendition,
            init,
            bytes,
        },
    ))?;
    Ok(())
}

/// Pushes the units of a rendition from a number on, as far as they are kept.
fn push_units(
    events: &mut Vec<(u16, Event)>,
    recording: &Recording,
    rendition: usize,
    from: u64,
) -> Result<(), AllocError>
    ensures { OnOk result (events.new.items ≡ events.old.items ++ units_from rendition recording.now from (length recording.now.facts - from)) }
{
    for n in from..recording.count() {
        let (Some(facts), Some(unit)) = (recording.facts(n), recording.unit(n)) else {
            return Ok(());
        };
        let bytes = unit.clone()?;
        events.push((
            0,
            Event::Accept {
                rendition,
                facts,
                bytes,
            },
        ))?;
    }
    Ok(())
}
