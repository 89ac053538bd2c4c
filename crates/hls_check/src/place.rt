//! A place line, read number by number to its end.
ghost use Rattle.std.specs.Prelude.{ℕ, List, MatchOption, IfOk};
ghost use Rattle.hls_check_tables.specs.declared.spot.Spot.{Spot};
ghost use Rattle.hls_check.specs.Stages.{IsRenditionCount};
ghost use Rattle.hls_check.specs.SpotTexts.{IsFirstSpot, IsNextSpot, HasPlace, HasNoPlace, SkipsPlace, SkipsNoPlace};

use hls_check_tables::{Spot, Spots};
use hls_text::{take_byte, take_number, take_space_and_number};
use std::alloc::{AllocError, Global};

// Reads the first spot of a place line. Also returns the text after its numbers.
#[inline(always)]
fn take_spot(text: &[u8]) -> Option<(Spot, &[u8])>
    ensures { MatchOption result ((s : Spot) (rest : List ℕ) → IsFirstSpot text.now s rest → ⊥) (λ f. IsFirstSpot text.now f.0 f.1.now) }
{
    let Some((fragment, after_fragment)) = take_number(text) else {
        return None;
    };
    let Some((prev_end, after_prev_end)) = take_space_and_number(after_fragment) else {
        return None;
    };
    let Some((start, after_start)) = take_space_and_number(after_prev_end) else {
        return None;
    };
    let Some((run_in, after_run_in)) = take_space_and_number(after_start) else {
        return None;
    };
    let Some((run_out, rest)) = take_space_and_number(after_run_in) else {
        return None;
    };
    let spot = Spot {
        fragment,
        prev_end,
        start,
        run_in,
        run_out,
    };
    Some((spot, rest))
}

// Reads a further spot of a place line. Also returns the text after its numbers.
#[inline(always)]
fn take_next_spot(text: &[u8]) -> Option<(Spot, &[u8])>
    ensures { MatchOption result ((s : Spot) (rest : List ℕ) → IsNextSpot text.now s rest → ⊥) (λ f. IsNextSpot text.now f.0 f.1.now) }
{
    let Some(numbers) = take_byte(text, b' ') else {
        return None;
    };
    match take_spot(numbers) {
        Some((spot, rest)) => Some((spot, rest)),
        None => None,
    }
}

/// Reads the place line at the start of a text, which has five numbers for each rendition. Also returns the text after the line's LF.
/// Returns None if the text doesn't begin with such a line.
pub fn take_place(
    alloc: Global,
    text: &[u8],
    renditions: usize,
) -> Result<Option<(Spots, &[u8])>, AllocError>
    requires { IsRenditionCount renditions }
    ensures { IfOk result (λ found. MatchOption found (HasNoPlace renditions text.entry.now) (λ f. HasPlace renditions text.entry.now f.0 f.1.now)) }
{
    let Some((first, after_first)) = take_spot(text) else {
        return Ok(None);
    };
    let mut spots = Vec::with_capacity(alloc, renditions)?;
    spots.push(first)?;
    let mut rest = after_first;
    for _r in 1..renditions {
        let Some((spot, after)) = take_next_spot(rest) else {
            return Ok(None);
        };
        spots.push(spot)?;
        rest = after;
    }
    match take_byte(rest, b'\n') {
        Some(after) => Ok(Some((Spots::new(alloc, spots)?, after))),
        None => Ok(None),
    }
}

/// Skips the place line at the start of a text, which has five numbers for each rendition. Returns the text after the line's LF, or None if
/// the text doesn't begin with such a line. Doesn't allocate.
pub fn skip_place(text: &[u8], renditions: usize) -> Option<&[u8]>
    requires { IsRenditionCount renditions }
    ensures { MatchOption result (SkipsNoPlace renditions text.now) (λ after. SkipsPlace renditions text.now after.now) }
{
    let Some((_first, after_first)) = take_spot(text) else {
        return None;
    };
    let mut rest = after_first;
    for _skipped in 1..renditions {
        let Some((_spot, after)) = take_next_spot(rest) else {
            return None;
        };
        rest = after;
    }
    take_byte(rest, b'\n')
}
