//! Snapshots: a channel at one moment.

ghost use Rattle.std.specs.Prelude.{◌≡◌, ℕ, ◌+◌, ◌<◌, ◌≤◌, [], ◌∷◌, ◌++◌, length, map, IfOk, IfSome, IfNone, None, slice_get, slice_set, nat_le};
ghost use Rattle.std.specs.Option.{option_copied};
ghost use Rattle.hls_core_laws.specs.Config.{IsConfig};
ghost use Rattle.hls_core_laws.specs.State.{channel, log_limit};
ghost use Rattle.hls_core_laws.specs.IsState.{IsState};
ghost use Rattle.hls_places_laws.specs.Sources.{AreSources};
ghost use Rattle.hls_core_laws.specs.Places.{sources, places};
ghost use Rattle.hls_check_tables.specs.Tables.{spot_in};
ghost use Rattle.hls_places_laws.specs.Line.Live.{front_of, without_front};
ghost use Rattle.hls_core_laws.specs.declared.event.Event.TheVariants.{Slide};
ghost use Rattle.hls_core_laws.specs.Line.{line};
ghost use Rattle.hls_core_laws.specs.Outcome.{New, outcome_of, trim_limit};
ghost use Rattle.hls_core_laws.specs.Moves.{state_with_entry};
ghost use Rattle.hls_core_laws.specs.Workers.{events_by};
ghost use Rattle.hls_core_laws.specs.Runs.{first_state};
ghost use Rattle.hls_core.specs.RenditionStates.{fresh_rendition_state};
ghost use Rattle.hls_blocks.specs.Numbered.{next_of, item_at};

use crate::config::Config;
use crate::line_state::{LineState, advance_line_state};
use crate::rendition_state::RenditionState;
use hls_blocks::Shared;
use hls_core_laws::event::{Entry, LoggedEvent};
use hls_core_laws::rendition::Rendition;
use hls_live::LiveLine;
use hls_places::Place;
use hls_record::Recording;
use std::alloc::{AllocError, Global};
use std::marker::Model;
use std::sync::Arc;

/// The most entries of a log.
pub const LOG_LIMIT: u64 = 4194304;

/// A channel at one moment: its configuration, its whole log, and the bytes that it keeps.
///
/// A contract sees it as its state. Later snapshots share what hasn't changed, and never change an earlier one.
#[derive(Drop)]
pub struct Snapshot {
    config: Config,
    log: Shared<Entry>,
    rendition_states: Vec<Arc<RenditionState>>,
    line_state: Arc<LineState>,
}

impl Model for Snapshot {
    ghost use Rattle.hls_core_laws.specs.State.{State};

    ghost Value = { State };

    ghost use Rattle.hls_core.specs.Model.{model_of, IsSoundSnapshot};

    ghost view = { model_of };

    ghost invariant = { IsSoundSnapshot };
}

impl Snapshot {
    ghost use Rattle.hls_core.specs.RenditionStates.{HasRenditionState, MayReplaceRendition, MayTrim, with_rendition};
    ghost use Rattle.hls_core.specs.Model.{model_of, IsSoundSnapshot, inside_after};
    ghost use Rattle.hls_core.specs.Getters.{recording_of, finished_at};

    /// Returns the opening state of a channel: an empty log, and no rendition has begun.
    pub fn first(alloc: Global, config: Config) -> Result<Snapshot, AllocError>
        ensures { IfOk result (λ s. s ≡ first_state config) }
    {
        let line_state = LineState::first(alloc, &config)?;
        let rendition_states = make_renditions(alloc, config.renditions())?;
        Ok(Snapshot {
            config,
            log: Shared::empty(alloc),
            rendition_states,
            line_state,
        })
    }

    /// Returns the channel's configuration.
    pub fn config(&self) -> &Config
        ensures value { result.now ≡ self.now.config }
        ensures valid { IsState self.now }
    {
        &self.config
    }

    /// Returns the log; its entries count from 0.
    pub fn log(&self) -> &Shared<Entry>
        ensures value { result.now ≡ record { first = 0; items = self.now.log } }
        ensures valid { IsState self.now }
    {
        &self.log
    }

    /// Returns the number of log entries.
    pub fn version(&self) -> u64
        ensures value { result ≡ length self.now.log }
        ensures valid { IsState self.now }
    {
        entry_count(&self.log)
    }

    /// Returns the recording of a rendition, once it has begun.
    pub fn recording(&self, rendition: usize) -> Option<&Recording>
        ensures value { option_copied result ≡ recording_of self.now rendition }
        ensures valid { IsState self.now }
    {
        match self.rendition(rendition) {
            Some(rendition_state) => rendition_state.recording.as_ref(),
            None => None,
        }
    }

    /// Whether a rendition is finished; `None` if the channel has no such rendition.
    pub fn is_finished(&self, rendition: usize) -> Option<bool>
        ensures value { result ≡ finished_at self.now rendition }
        ensures valid { IsState self.now }
    {
        match self.rendition(rendition) {
            Some(rendition_state) => Some(rendition_state.finished),
            None => None,
        }
    }

    /// Returns the common places so far, in order of time, whether or not their fragments are trimmed; they count from 0.
    pub fn places(&self) -> &Shared<Place>
        ensures value { result.now ≡ record { first = 0; items = places self.now } }
        ensures valid { IsState self.now }
        ensures sources { AreSources (sources self.now) }
    {
        &self.line_state.places
    }

    /// Returns the live line: the segments that are kept, and where it continues.
    pub fn line(&self) -> &LiveLine
        ensures value { result.now ≡ line self.now }
        ensures valid { IsState self.now }
    {
        &self.line_state.line
    }

    /// Returns the number of log entries of the worker `by`.
    pub fn count_entries_by(&self, by: u16) -> u64
        ensures { result ≡ length (events_by by self.now.log) }
    {
        let mut count = 0;
        for n in 0..self.version() {
            let Some(entry) = entry_at(&self.log, n) else {
                unreachable!()
            };
            if entry.by == by {
                count += 1;
            }
        }
        count
    }

    /// Returns the number of renditions.
    pub(crate) fn rendition_count(&self) -> usize
        ensures { result ≡ length self.now.bytes }
    {
        self.rendition_states.len()
    }

    /// Whether the log is full.
    pub(crate) fn is_full(&self) -> bool
        ensures { result ≡ nat_le log_limit (length self.now.log) }
    {
        self.version() >= LOG_LIMIT
    }

    /// Returns the state of a rendition.
    pub(crate) fn rendition(&self, rendition: usize) -> Option<&RenditionState>
        ensures some { IfSome result (λ rendition_state. HasRenditionState self.now rendition rendition_state.now) }
        ensures none { IfNone result (slice_get (channel self.now).lanes rendition ≡ None) }
        ensures valid { IsState self.now }
    {
        if rendition >= self.rendition_states.len() {
            return None;
        }
        let rendition_state: &RenditionState = &self.rendition_states[rendition];
        Some(rendition_state)
    }

    /// Returns the snapshot with one more entry and a rendition's state replaced.
    pub(crate) fn with_rendition(
        &self,
        alloc: Global,
        entry: Entry,
        rendition: usize,
        rendition_state: Arc<RenditionState>,
    ) -> Result<Arc<Snapshot>, AllocError>
        requires room { length self.now.log < log_limit }
        requires there { rendition < length self.now.bytes }
        requires take { MayReplaceRendition self.now entry rendition rendition_state.value }
        ensures { IfOk result (λ s. s.value ≡ with_rendition self.now entry rendition rendition_state.value) }
    {
        let rendition_states = replace_rendition(
            alloc,
            &self.rendition_states,
            rendition,
            rendition_state,
        )?;
        let line_state = advance_line_state(
            alloc,
            &self.line_state,
            &self.config,
            &rendition_states,
        )?;
        self.with_entry(alloc, entry, rendition_states, line_state)
    }

    /// Returns the snapshot with one more entry and a rendition's state replaced by one that only drops kept units: places and line stay.
    pub(crate) fn with_trim(
        &self,
        alloc: Global,
        entry: Entry,
        rendition: usize,
        rendition_state: Arc<RenditionState>,
    ) -> Result<Arc<Snapshot>, AllocError>
        requires room { length self.now.log < log_limit }
        requires there { rendition < length self.now.bytes }
        requires trim { MayTrim self.now entry rendition rendition_state.value }
        ensures { IfOk result (λ s. s.value ≡ with_rendition self.now entry rendition rendition_state.value) }
    {
        let line_state = Arc::try_clone(&self.line_state)?;
        let rendition_states = replace_rendition(
            alloc,
            &self.rendition_states,
            rendition,
            rendition_state,
        )?;
        self.with_entry(alloc, entry, rendition_states, line_state)
    }

    /// Returns the snapshot after a slide to this line.
    pub(crate) fn with_slide(
        &self,
        alloc: Global,
        by: u16,
        count: u64,
        now: LiveLine,
    ) -> Result<Arc<Snapshot>, AllocError>
        requires room { length self.now.log < log_limit }
        requires new { outcome_of self.now (Slide count) ≡ New }
        requires slid { now ≡ without_front count (line self.now) }
        ensures { IfOk result (λ s. s.value ≡ state_with_entry self.now by (Slide count)) }
    {
        let line_state = self.line_state.with_line(alloc, now)?;
        let rendition_states = share_renditions(alloc, &self.rendition_states)?;
        let event = LoggedEvent::Slid { count };
        self.with_entry(alloc, Entry { by, event }, rendition_states, line_state)
    }

    /// Returns the snapshot with one more entry, with these rendition states and places.
    fn with_entry(
        &self,
        alloc: Global,
        entry: Entry,
        rendition_states: Vec<Arc<RenditionState>>,
        line_state: Arc<LineState>,
    ) -> Result<Arc<Snapshot>, AllocError>
        requires room { length self.now.log < log_limit }
        requires kept { IsSoundSnapshot (inside_after self.now entry rendition_states line_state) }
        ensures { IfOk result (λ s. s.value ≡ model_of (inside_after self.now entry rendition_states line_state)) }
    {
        let config = self.config.share()?;
        let log = self.log.pushed(alloc, entry)?;
        let next = Snapshot {
            config,
            log,
            rendition_states,
            line_state,
        };
        Ok(Arc::new(alloc, next)?)
    }

    /// Returns how far the floor of a rendition may rise: to the unit at which the line begins.
    pub(crate) fn trim_limit(&self, rendition: usize) -> u64
        ensures { result ≡ trim_limit (front_of (line self.now)) rendition }
    {
        match self.line_state.line.front() {
            Some(place) => get_fragment(place, rendition),
            None => 0,
        }
    }
}

/// Returns the number of a place's unit in a rendition; 0 if it has none there.
pub(crate) fn get_fragment(place: &Place, rendition: usize) -> u64
    ensures { result ≡ (spot_in place.now.spots rendition).fragment }
{
    place.spots.get_or_zero(rendition).fragment
}

/// Returns the number of entries of a log.
pub(crate) fn entry_count(log: &Shared<Entry>) -> u64
    ensures { result ≡ next_of log.now }
{
    log.next()
}

/// Returns entry number `n` of a log.
pub(crate) fn entry_at(log: &Shared<Entry>, n: u64) -> Option<&Entry>
    ensures { option_copied result ≡ item_at log.now n }
{
    log.get(n)
}

/// Makes a state for each rendition, none of which has begun.
fn make_renditions(
    alloc: Global,
    renditions: &[Rendition],
) -> Result<Vec<Arc<RenditionState>>, AllocError>
    ensures { IfOk result (λ v. map (λ a. a.value) v.items ≡ map fresh_rendition_state renditions.now) }
{
    let mut rendition_states = Vec::with_capacity(alloc, renditions.len())?;
    for _rendition in renditions {
        let rendition_state = RenditionState {
            recording: None,
            finished: false,
        };
        rendition_states.push(Arc::new(alloc, rendition_state)?)?;
    }
    Ok(rendition_states)
}

/// Returns the same rendition states over the same memory.
fn share_renditions(
    alloc: Global,
    rendition_states: &[Arc<RenditionState>],
) -> Result<Vec<Arc<RenditionState>>, AllocError>
    ensures { IfOk result (λ v. map (λ a. a.value) v.items ≡ map (λ a. a.value) rendition_states.now) }
{
    rendition_states.to_vec(alloc)
}

/// Replaces the rendition state at number r.
fn replace_rendition(
    alloc: Global,
    rendition_states: &[Arc<RenditionState>],
    r: usize,
    rendition_state: Arc<RenditionState>,
) -> Result<Vec<Arc<RenditionState>>, AllocError>
    requires { r < length rendition_states.now }
    ensures { IfOk result (λ v. map (λ a. a.value) v.items ≡ slice_set (map (λ a. a.value) rendition_states.now) r rendition_state.value) }
{
    let mut copies = share_renditions(alloc, rendition_states)?;
    copies[r] = rendition_state;
    Ok(copies)
}
