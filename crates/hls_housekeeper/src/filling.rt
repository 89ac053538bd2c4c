//! Fills the renditions that are away.

ghost use Rattle.std.specs.Prelude.{◌≡◌, ℕ, ◌<◌, ◌≤◌, Some, None, option_map, IfOk, IfSome};
ghost use Rattle.hls_core_laws.specs.Moves.{IsFittingAsSeen};
ghost use Rattle.hls_core_laws.specs.PassView.{MaySeeLater};
ghost use Rattle.hls_housekeeper.specs.Away.{accept_of, filler_of};
ghost use Rattle.hls_housekeeper.specs.Housekeeping.{RunsUpkeep, SubmitsFiller};

use crate::fill::find_filler;
use hls_core_laws::event::Event;
use hls_core_laws::refusal::Refusal;
use hls_mend_laws::settings::MendSettings;
use hls_turn::{Pass, Turn};
use std::alloc::Global;
use std::sync::Wait;

/// How many fillers of a rendition are submitted in a round. Each of them notifies the housekeeper, so the others follow in the next one.
const MOST_FILLERS: u64 = 64;

/// A rendition that may have to be filled.
#[derive(Clone, Copy)]
pub struct FillTarget<'a> {
    pub settings: MendSettings,
    /// For each rendition, whether nothing was heard of its encoder for too long.
    pub silent: &'a [bool],
    pub rendition: usize,
}

/// Returns the filler that the rendition needs next, if any.
fn next_filler<R: Wait>(
    rt: &R,
    alloc: Global,
    turn: &Turn,
    target: FillTarget<'_>,
    pass: &mut Pass,
) -> Result<Option<Event>, Refusal>
    requires { pass.old.turn ≡ turn.now }
    ensures ours { pass.new.turn ≡ turn.now }
    ensures looked { MaySeeLater pass.old.known pass.new.known }
    ensures due { IfOk result (λ o. o ≡ option_map (accept_of target.entry.rendition) (filler_of target.entry.settings.fill_us pass.new.known.seen target.entry.silent.now target.entry.rendition)) }
    ensures fits { IfOk result (λ o. IfSome o (λ event. IsFittingAsSeen pass.new.known.seen event)) }
{
    let Ok(snapshot) = turn.look(rt, alloc, pass) else {
        return Err(Refusal::Memory);
    };
    let fill_us = target.settings.fill_us;
    match find_filler(alloc, fill_us, &snapshot, target.silent, target.rendition) {
        Ok(found) => Ok(found),
        Err(_) => Err(Refusal::Memory),
    }
}

/// Submits a filler. It overlaps if the encoder has come back meanwhile.
fn submit_filler<R: Wait>(
    rt: &R,
    alloc: Global,
    turn: &Turn,
    target: FillTarget<'_>,
    pass: &mut Pass,
    event: Event,
) -> Result<(), Refusal>
    requires ours { pass.old.turn ≡ turn.now }
    requires due { Some event ≡ option_map (accept_of target.rendition) (filler_of target.settings.fill_us pass.old.known.seen target.silent.now target.rendition) }
    requires fits { IsFittingAsSeen pass.old.known.seen event }
    ensures ours { pass.new.turn ≡ turn.now }
    ensures submits { SubmitsFiller (Some target.entry.settings) pass.old.known pass.new.known }
{
    match turn.submit(rt, alloc, pass, event) {
        Ok(_) | Err(Refusal::Overlap) => Ok(()),
        Err(refusal) => Err(refusal),
    }
}

/// Submits the fillers that a rendition needs, one after the other, and returns their number. If that is less than 64, it needs none now.
fn fill_rendition<R: Wait>(
    rt: &R,
    alloc: Global,
    turn: &Turn,
    target: FillTarget<'_>,
    pass: &mut Pass,
) -> Result<u64, Refusal>
    requires { pass.old.turn ≡ turn.now }
    ensures ours { pass.new.turn ≡ turn.now }
    ensures keeps { (window keep : ℕ) → RunsUpkeep (Some target.entry.settings) window keep pass.old.known pass.new.known }
    ensures filled { IfOk result (λ n. n < 64 → filler_of target.entry.settings.fill_us pass.new.known.seen target.entry.silent.now target.entry.rendition ≡ None) }
{
    for count in 0..MOST_FILLERS {
        let Some(event) = next_filler(rt, alloc, turn, target, pass)? else {
            return Ok(count);
        };
        submit_filler(rt, alloc, turn, target, pass, event)?;
    }
    Ok(MOST_FILLERS)
}

/// Fills the renditions that are away, as far as the others have come, and adds the numbers of fillers to `counts`. A rendition that can't
/// be filled doesn't keep the others from it: the first refusal is returned at the end.
pub fn fill_renditions<R: Wait>(
    rt: &R,
    alloc: Global,
    turn: &Turn,
    target: FillTarget<'_>,
    pass: &mut Pass,
    counts: &mut [u64],
) -> Result<(), Refusal>
    requires { pass.old.turn ≡ turn.now }
    ensures ours { pass.new.turn ≡ turn.now }
    ensures keeps { (window keep : ℕ) → RunsUpkeep (Some target.entry.settings) window keep pass.old.known pass.new.known }
{
    let mut filled = Ok(());
    for rendition in 0..target.silent.len() {
        let target = FillTarget {
            rendition,
            ..target
        };
        match fill_rendition(rt, alloc, turn, target, pass) {
            Ok(count) => add_count(counts, rendition, count),
            Err(refusal) => filled = first_refusal(filled, refusal),
        }
    }
    filled
}

/// Adds a number of fillers to that of a rendition.
fn add_count(counts: &mut [u64], rendition: usize, count: u64) {
    if let Some(sum) = counts.get_mut(rendition) {
        *sum = sum.saturating_add(count);
    }
}

/// The first of two refusals.
fn first_refusal(filled: Result<(), Refusal>, refusal: Refusal) -> Result<(), Refusal> {
    match filled {
        Ok(()) => Err(refusal),
        Err(first) => Err(first),
    }
}
