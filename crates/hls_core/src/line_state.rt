//! The common places of a channel and its live line, kept up to date with the recordings.

ghost use Rattle.std.specs.Prelude.{◌≡◌, ◌+◌, ◌<◌, ◌≤◌, [], ◌∷◌, ◌++◌, Some, None, length, map, take, IfOk, IfSome};
ghost use Rattle.hls_blocks.specs.Numbered.{next_of, with_item, list_limit};
ghost use Rattle.hls_places_laws.specs.Places.{places_after};
ghost use Rattle.hls_places_laws.specs.SearchPositions.{IsCursor};
ghost use Rattle.hls_places_laws.specs.Line.Live.{live_after_all};
ghost use Rattle.hls_core.specs.Unbegun.{HasUnbegunRendition};
ghost use Rattle.hls_core.specs.LineState.{HasRoomFor, IsAdvancedLineState};
ghost use Rattle.hls_core.specs.RenditionStates.{sources_by};
ghost use Rattle.hls_check_tables.specs.Tables.{rendition_limit};

use crate::config::Config;
use crate::rendition_state::RenditionState;
use hls_blocks::Shared;
use hls_live::LiveLine;
use hls_places::{Place, PlaceAdvance, PlaceCursor, RenditionSource};
use std::alloc::{AllocError, Global};
use std::sync::Arc;

/// The common places so far, the cursor of the search for them, and their live line.
#[derive(Drop)]
pub(crate) struct LineState {
    pub(crate) places: Shared<Place>,
    pub(crate) cursor: Arc<PlaceCursor>,
    pub(crate) line: Arc<LiveLine>,
}

impl LineState {
    ghost use Rattle.hls_core.specs.LineState.{IsFirstLineState, IsAfterAdvance, HasLine};

    /// Returns the state with no places, before all units of each rendition.
    pub(crate) fn first(alloc: Global, config: &Config) -> Result<Arc<LineState>, AllocError>
        ensures { IfOk result (λ p. IsFirstLineState config.now p.value) }
    {
        let cursor = PlaceCursor::first(alloc, config.renditions().len())?;
        let cursor = shared_cursor(alloc, cursor)?;
        let line = LiveLine::fresh(alloc, config.target(), config.preferred());
        let line = shared_line(alloc, line)?;
        let places = Shared::empty(alloc);
        make_line_state(alloc, places, cursor, line)
    }

    /// Returns the same places with another line.
    pub(crate) fn with_line(
        &self,
        alloc: Global,
        line: LiveLine,
    ) -> Result<Arc<LineState>, AllocError>
        ensures { IfOk result (λ p. HasLine self.now line p.value) }
    {
        let line = shared_line(alloc, line)?;
        let cursor = Arc::try_clone(&self.cursor)?;
        let places = self.places.share(alloc)?;
        make_line_state(alloc, places, cursor, line)
    }

    /// Appends the places that an advance passed.
    fn with_advance(
        &self,
        alloc: Global,
        advance: PlaceAdvance,
    ) -> Result<Arc<LineState>, AllocError>
        requires room { next_of self.now.places + length advance.places.items < list_limit }
        requires progress { HasRoomFor self.now.line.value advance.places.items }
        ensures { IfOk result (λ p. IsAfterAdvance self.now advance p.value) }
    {
        let line = advance_line_through(alloc, &self.line, &advance.places)?;
        let cursor = shared_cursor(alloc, advance.cursor)?;
        let places = push_places(alloc, &self.places, advance.places)?;
        make_line_state(alloc, places, cursor, line)
    }
}

/// Appends the places that are decided by now, and gives them to the line. While some rendition hasn't begun there are none.
pub(crate) fn advance_line_state(
    alloc: Global,
    line_state: &Arc<LineState>,
    config: &Config,
    rendition_states: &[Arc<RenditionState>],
) -> Result<Arc<LineState>, AllocError>
    requires some { 1 ≤ length rendition_states.now }
    requires few { length rendition_states.now ≤ rendition_limit }
    requires count { length config.now.renditions ≡ length rendition_states.now }
    requires cursor { IsCursor line_state.now.value.cursor.value (sources_by config.now (map (λ a. a.value) rendition_states.now)) }
    requires room { next_of line_state.now.value.places + length (places_after (sources_by config.now (map (λ a. a.value) rendition_states.now)) line_state.now.value.cursor.value.done) < list_limit }
    requires progress { HasRoomFor line_state.now.value.line.value (places_after (sources_by config.now (map (λ a. a.value) rendition_states.now)) line_state.now.value.cursor.value.done) }
    ensures { IfOk result (λ p. IsAdvancedLineState (sources_by config.now (map (λ a. a.value) rendition_states.now)) line_state.now.value p.value) }
{
    let old: &LineState = line_state;
    let gathered = make_sources(alloc, config, rendition_states)?;
    match gathered {
        Some(sources) => {
            let advance = old.cursor.advance(alloc, &sources)?;
            old.with_advance(alloc, advance)
        }
        None => Arc::try_clone(line_state),
    }
}

/// Shares the parts between snapshots.
fn make_line_state(
    alloc: Global,
    places: Shared<Place>,
    cursor: Arc<PlaceCursor>,
    line: Arc<LiveLine>,
) -> Result<Arc<LineState>, AllocError>
    ensures { IfOk result (λ p. p.value ≡ record { places = places; cursor = cursor; line = line }) }
{
    let line_state = LineState {
        places,
        cursor,
        line,
    };
    Ok(Arc::new(alloc, line_state)?)
}

/// Puts a cursor into an Arc. An Arc is dropped in one step, so each new value is put into its own Arc at once.
fn shared_cursor(alloc: Global, cursor: PlaceCursor) -> Result<Arc<PlaceCursor>, AllocError>
    ensures { IfOk result (λ shared. shared.value ≡ cursor) }
{
    Ok(Arc::new(alloc, cursor)?)
}

/// Puts a line into an Arc.
fn shared_line(alloc: Global, line: LiveLine) -> Result<Arc<LiveLine>, AllocError>
    ensures { IfOk result (λ shared. shared.value ≡ line) }
{
    Ok(Arc::new(alloc, line)?)
}

/// Returns the renditions as the search for places sees them; `None` if one hasn't begun.
fn make_sources<'a>(
    alloc: Global,
    config: &Config,
    rendition_states: &'a [Arc<RenditionState>],
) -> Result<Option<Vec<RenditionSource<'a>>>, AllocError>
    requires count { length config.now.renditions ≡ length rendition_states.now }
    ensures lacks { IfOk result (λ all. all ≡ None → HasUnbegunRendition (map (λ a. a.value) rendition_states.entry.now)) }
    ensures gathers { IfOk result (λ all. IfSome all (λ v. v.items ≡ sources_by config.now (map (λ a. a.value) rendition_states.entry.now))) }
{
    let mut sources = Vec::with_capacity(alloc, rendition_states.len())?;
    for r in 0..rendition_states.len() {
        let Some(source) = make_source(config, rendition_states, r) else {
            return Ok(None);
        };
        sources.push(source)?;
    }
    Ok(Some(sources))
}

/// Returns a rendition as the search for places sees it; `None` if it hasn't begun.
fn make_source<'a>(
    config: &Config,
    rendition_states: &'a [Arc<RenditionState>],
    r: usize,
) -> Option<RenditionSource<'a>>
    requires count { length config.now.renditions ≡ length rendition_states.now }
    requires there { r < length rendition_states.now }
    ensures next { IfSome result (λ source. take (r + 1) (sources_by config.now (map (λ a. a.value) rendition_states.entry.now)) ≡ take r (sources_by config.now (map (λ a. a.value) rendition_states.entry.now)) ++ source ∷ []) }
    ensures lacks { result ≡ None → HasUnbegunRendition (map (λ a. a.value) rendition_states.entry.now) }
{
    let renditions = config.renditions();
    let rendition_state: &RenditionState = &rendition_states[r];
    let Some(recording) = &rendition_state.recording else {
        return None;
    };
    let tolerance = renditions[r].tolerance;
    Some(RenditionSource::new(recording, tolerance, rendition_state.finished))
}

/// Returns the line after all of these places.
fn advance_line_through(
    alloc: Global,
    line: &Arc<LiveLine>,
    places: &[Place],
) -> Result<Arc<LiveLine>, AllocError>
    requires { HasRoomFor line.now.value places.now }
    ensures { IfOk result (λ all. all.value ≡ live_after_all line.now.value places.now) }
{
    let mut all = Arc::try_clone(line)?;
    for place in places {
        let progress = all.with_place(alloc, place)?;
        all = shared_line(alloc, progress)?;
    }
    Ok(all)
}

/// Appends these places to the list.
fn push_places(
    alloc: Global,
    list: &Shared<Place>,
    more: Vec<Place>,
) -> Result<Shared<Place>, AllocError>
    requires { next_of list.now + length more.items < list_limit }
    ensures { IfOk result (λ all. all ≡ record { first = list.now.first; items = list.now.items ++ more.items }) }
{
    let mut all = list.share(alloc)?;
    for place in more {
        all = push_place(alloc, all, place)?;
    }
    Ok(all)
}

/// Appends this place to the list.
fn push_place(alloc: Global, list: Shared<Place>, place: Place) -> Result<Shared<Place>, AllocError>
    requires { next_of list < list_limit }
    ensures { IfOk result (λ s. s ≡ with_item list place) }
{
    list.pushed(alloc, place)
}
