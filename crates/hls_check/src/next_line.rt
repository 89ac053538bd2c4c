//! Readers of the next line of a text after `lines_read` lines. Each also returns the text after that line.
ghost use Rattle.std.specs.Prelude.{◌+◌, ◌^◌, ◌<◌, ◌≤◌, length, MatchResult, IfOk};
ghost use Rattle.hls_check_tables.specs.Tables.{place_limit};
ghost use Rattle.hls_check.specs.Stages.{IsWrongLineOrMemory, IsRenditionCount, IsPlaceLine, IsPlanLine};
ghost use Rattle.hls_check.specs.NextLines.{IsWrongNumber, IsNextNumber, IsNextPlace, IsNextPlan};

use crate::line::{parse_number_line, parse_plan};
use crate::place::take_place;
use crate::wrong_line::WrongLine;
use hls_check_tables::{CertFault, Spots};
use hls_text::take_line;
use std::alloc::Global;

/// Reads a line of this word and a number in the given range.
pub fn next_number<'a>(
    rest: &'a [u8],
    lines_read: usize,
    word: &[u8],
    low: u64,
    high: u64,
) -> Result<(u64, &'a [u8]), WrongLine>
    requires room { lines_read + length rest.now + 1 < 2 ^ 64 }
    requires range { high < 2 ^ 53 }
    ensures line { MatchResult result (λ f. IsNextNumber word.now low high rest.entry.now f.0 f.1.now) (IsWrongNumber word.now low high rest.entry.now lines_read) }
    ensures shorter { IfOk result (λ f. length f.1.now < length rest.entry.now) }
{
    let Some((line, after)) = take_line(rest) else {
        return Err(WrongLine {
            line: lines_read + 1,
        });
    };
    let Some(number) = parse_number_line(line, word) else {
        return Err(WrongLine {
            line: lines_read + 1,
        });
    };
    if number < low || number > high {
        return Err(WrongLine {
            line: lines_read + 1,
        });
    }
    Ok((number, after))
}

/// Reads a place line.
pub fn next_place(
    alloc: Global,
    rest: &[u8],
    lines_read: usize,
    renditions: usize,
) -> Result<(Spots, &[u8]), CertFault>
    requires room { lines_read + length rest.now + 1 < 2 ^ 64 }
    requires renditions { IsRenditionCount renditions }
    ensures line { MatchResult result (λ f. IsNextPlace renditions rest.entry.now f.0 f.1.now) (IsWrongLineOrMemory (IsPlaceLine renditions) rest.entry.now lines_read) }
    ensures shorter { IfOk result (λ f. length f.1.now < length rest.entry.now) }
{
    match take_place(alloc, rest, renditions)? {
        Some(found) => Ok(found),
        None => Err(CertFault::Form {
            line: lines_read + 1,
        }),
    }
}

/// Reads the plan line.
pub fn next_plan(
    alloc: Global,
    rest: &[u8],
    lines_read: usize,
    count: usize,
) -> Result<(Vec<usize>, &[u8]), CertFault>
    requires room { lines_read + length rest.now + 1 < 2 ^ 64 }
    requires count { count ≤ place_limit }
    ensures line { MatchResult result (λ f. IsNextPlan count rest.entry.now f.0.items f.1.now) (IsWrongLineOrMemory (IsPlanLine count) rest.entry.now lines_read) }
    ensures shorter { IfOk result (λ f. length f.1.now < length rest.entry.now) }
{
    let Some((line, after)) = take_line(rest) else {
        return Err(CertFault::Form {
            line: lines_read + 1,
        });
    };
    let Some(plan) = parse_plan(alloc, line, count)? else {
        return Err(CertFault::Form {
            line: lines_read + 1,
        });
    };
    Ok((plan, after))
}
