//! Parsers of one line of each kind.
ghost use Rattle.std.specs.Prelude.{◌≡◌, ◌≤◌, MatchOption, IfOk, IsTrue, ◌↔◌};
ghost use Rattle.hls_check_tables.specs.Tables.{place_limit};
ghost use Rattle.hls_check.specs.LineTexts.{HasNumber, HasNoNumber, HasNumbers, HasNoNumbers, AreBelow, HasPlan, HasPrice, HasClosed};
ghost use Rattle.hls_check.specs.Stages.{IsPlanLine, IsPriceLine, IsClosedLine};

use hls_text::{are_numbers_below, parse_numbers, take_number, take_prefix};
use std::alloc::{AllocError, Global};

/// Whether a line consists of exactly this word.
pub fn is_word(line: &[u8], word: &[u8]) -> bool
    ensures { IsTrue result ↔ (line.now ≡ word.now) }
{
    line == word
}

/// Parses a line of one word and one number. Returns None for any other line.
pub fn parse_number_line(line: &[u8], word: &[u8]) -> Option<u64>
    ensures { MatchOption result (HasNoNumber word.now line.now) (HasNumber word.now line.now) }
{
    let Some(digits) = take_prefix(line, word) else {
        return None;
    };
    let Some((number, rest)) = take_number(digits) else {
        return None;
    };
    if rest.is_empty() { Some(number) } else { None }
}

// Whether each of these place numbers is less than `count`. Returns the numbers if so.
fn check_places_below(
    alloc: Global,
    numbers: &[u64],
    count: usize,
) -> Result<Option<Vec<usize>>, AllocError>
    ensures { IfOk result (λ places. MatchOption places (AreBelow count numbers.now → ⊥) (λ v. AreBelow count numbers.now × (v.items ≡ numbers.now))) }
{
    let mut places = Vec::new(alloc);
    for number in numbers {
        if *number >= count as u64 {
            return Ok(None);
        }
        places.push(*number as usize)?;
    }
    Ok(Some(places))
}

/// Parses the plan line of a table of `count` places. Returns None for any other line.
pub fn parse_plan(
    alloc: Global,
    line: &[u8],
    count: usize,
) -> Result<Option<Vec<usize>>, AllocError>
    requires { count ≤ place_limit }
    ensures { IfOk result (λ plan. MatchOption plan (IsPlanLine count line.now → ⊥) (λ v. HasPlan count line.now v.items)) }
{
    let Some(rest) = take_prefix(line, b"plan ") else {
        return Ok(None);
    };
    let Some(numbers) = parse_numbers(alloc, rest)? else {
        return Ok(None);
    };
    let plan = check_places_below(alloc, &numbers, count)?;
    match plan {
        Some(plan) => Ok(Some(plan)),
        None => Ok(None),
    }
}

/// Whether a line is the plan line of a table of `count` places. Doesn't allocate.
pub fn is_plan_line(line: &[u8], count: usize) -> bool
    requires { count ≤ place_limit }
    ensures { IsTrue result ↔ IsPlanLine count line.now }
{
    match take_prefix(line, b"plan ") {
        Some(numbers) => are_numbers_below(numbers, count as u64),
        None => false,
    }
}

// Parses the two numbers of a line of one word and two numbers.
fn parse_two_numbers(line: &[u8], word: &[u8]) -> Option<(u64, u64)>
    ensures { MatchOption result (HasNoNumbers word.now line.now) (HasNumbers word.now line.now) }
{
    let Some(numbers) = take_prefix(line, word) else {
        return None;
    };
    let Some((first, space)) = take_number(numbers) else {
        return None;
    };
    let Some(rest) = take_prefix(space, b" ") else {
        return None;
    };
    match parse_number_line(rest, b"") {
        Some(second) => Some((first, second)),
        None => None,
    }
}

/// Parses a price line: its place is at least `low` and less than `count`. Returns None for any other line.
pub fn parse_price(line: &[u8], low: usize, count: usize) -> Option<(usize, u64)>
    requires { count ≤ place_limit }
    ensures { MatchOption result (IsPriceLine low count line.now → ⊥) (HasPrice low count line.now) }
{
    match parse_two_numbers(line, b"price ") {
        Some((place, price)) => {
            if place < low as u64 {
                return None;
            }
            if place >= count as u64 {
                return None;
            }
            Some((place as usize, price))
        }
        None => None,
    }
}

/// Parses a line of the closed set: its place is at least `low` and less than `count`. Returns None for any other line.
pub fn parse_closed(line: &[u8], low: usize, count: usize) -> Option<usize>
    requires { count ≤ place_limit }
    ensures { MatchOption result (IsClosedLine low count line.now → ⊥) (HasClosed low count line.now) }
{
    match parse_number_line(line, b"closed ") {
        Some(place) => {
            if place < low as u64 {
                return None;
            }
            if place >= count as u64 {
                return None;
            }
            Some(place as usize)
        }
        None => None,
    }
}
