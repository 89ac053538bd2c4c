//! Finds the first wrong line of a text without allocating. The contract of each part is about the whole text; the part gets only the rest.
ghost use Rattle.std.specs.Prelude.{◌+◌, ◌^◌, ◌<◌, ◌≤◌, ℕ, List, length, MatchOption, MatchResult, IfOk};
ghost use Rattle.hls_check_tables.specs.Certificates.{CertificateData};
ghost use Rattle.hls_check_tables.specs.Tables.{place_limit};
ghost use Rattle.hls_check.specs.WrongLines.{IsFirstWrongLine, IsCertificateText};
ghost use Rattle.hls_check.specs.Stages.{IsReadUpTo, AtEnd, IsHead, SkipsPlaces, Scans, StopsScanning, WhenAtPlace, WhenAtClaim, WhenAtPlan, WhenAtPrice, WhenAtClosed};

use crate::certificate_head::{CertificateHead, read_head};
use crate::line::{is_plan_line, is_word, parse_closed, parse_number_line, parse_price};
use crate::place::skip_place;
use crate::wrong_line::WrongLine;
use hls_text::take_line;

// Scans the place lines and returns the text after them.
fn scan_places(head: CertificateHead, text: &[u8], first: usize) -> Result<&[u8], WrongLine>
    requires room { first + length text.now + 1 < 2 ^ 64 }
    requires head { IsHead head }
    ensures at { WhenAtPlace head text.now first (λ bytes. MatchResult result (λ r. SkipsPlaces head bytes r.now (first + head.count)) (StopsScanning bytes)) }
    ensures shorter { IfOk result (λ rest. head.count + length rest.now ≤ length text.now) }
{
    let mut rest = text;
    for p in 0..head.count {
        let Some(after) = skip_place(rest, head.renditions) else {
            return Err(WrongLine {
                line: first + p + 1,
            });
        };
        rest = after;
    }
    Ok(rest)
}

// Checks that no text follows the last line.
fn scan_end(rest: &[u8], lines_read: usize) -> Result<(), WrongLine>
    requires { lines_read + length rest.now < 2 ^ 64 }
    ensures { (bytes : List ℕ) (c : CertificateData) → IsReadUpTo (AtEnd c) bytes rest.now lines_read → Scans bytes result }
{
    if rest.is_empty() {
        Ok(())
    } else {
        Err(WrongLine {
            line: lines_read + 1,
        })
    }
}

// Scans what follows the plan line: the price lines, by increasing place, and the end line.
fn scan_prices(count: usize, text: &[u8], first: usize) -> Result<(), WrongLine>
    requires room { first + length text.now + 1 < 2 ^ 64 }
    requires count { count ≤ place_limit }
    ensures { WhenAtPrice count text.now first (λ bytes _. Scans bytes result) }
{
    let mut rest = text;
    let mut lines_read = first;
    let mut low = 0;
    loop {
        let Some((line, after)) = take_line(rest) else {
            return Err(WrongLine {
                line: lines_read + 1,
            });
        };
        if is_word(line, b"end") {
            return scan_end(after, lines_read + 1);
        }
        let Some((place, _price)) = parse_price(line, low, count) else {
            return Err(WrongLine {
                line: lines_read + 1,
            });
        };
        low = place + 1;
        rest = after;
        lines_read += 1;
    }
}

// Scans what follows the line `none`: the lines of the closed set, by increasing place, and the end line.
fn scan_closed(count: usize, text: &[u8], first: usize) -> Result<(), WrongLine>
    requires room { first + length text.now + 1 < 2 ^ 64 }
    requires count { count ≤ place_limit }
    ensures { WhenAtClosed count text.now first (λ bytes _. Scans bytes result) }
{
    let mut rest = text;
    let mut lines_read = first;
    let mut low = 0;
    loop {
        let Some((line, after)) = take_line(rest) else {
            return Err(WrongLine {
                line: lines_read + 1,
            });
        };
        if is_word(line, b"end") {
            return scan_end(after, lines_read + 1);
        }
        let Some(place) = parse_closed(line, low, count) else {
            return Err(WrongLine {
                line: lines_read + 1,
            });
        };
        low = place + 1;
        rest = after;
        lines_read += 1;
    }
}

// Scans the plan and prices of a cut, and checks that no text follows.
fn scan_cut(count: usize, text: &[u8], lines_read: usize) -> Result<(), WrongLine>
    requires room { lines_read + length text.now + 1 < 2 ^ 64 }
    requires count { count ≤ place_limit }
    ensures { WhenAtPlan count text.now lines_read (λ bytes. Scans bytes result) }
{
    let Some((line, after)) = take_line(text) else {
        return Err(WrongLine {
            line: lines_read + 1,
        });
    };
    if is_plan_line(line, count) {
        scan_prices(count, after, lines_read + 1)
    } else {
        Err(WrongLine {
            line: lines_read + 1,
        })
    }
}

// Scans the claim after a table of `count` places, and checks that no text follows.
fn scan_claim(count: usize, text: &[u8], lines_read: usize) -> Result<(), WrongLine>
    requires room { lines_read + length text.now + 1 < 2 ^ 64 }
    requires count { count ≤ place_limit }
    ensures { WhenAtClaim count text.now lines_read (λ bytes. Scans bytes result) }
{
    let Some((line, after)) = take_line(text) else {
        return Err(WrongLine {
            line: lines_read + 1,
        });
    };
    if is_word(line, b"none") {
        return scan_closed(count, after, lines_read + 1);
    }
    let Some(_cost) = parse_number_line(line, b"cut ") else {
        return Err(WrongLine {
            line: lines_read + 1,
        });
    };
    scan_cut(count, after, lines_read + 1)
}

// Checks that a text is a certificate's.
fn scan_certificate(bytes: &[u8]) -> Result<(), WrongLine>
    ensures { Scans bytes.now result }
{
    let (head, after_head, lines_read) = read_head(bytes)?;
    let rest = scan_places(head, after_head, lines_read)?;
    scan_claim(head.count, rest, lines_read + head.count)
}

/// Returns the number of the first line, from 1, that violates the format, or None if the text is a certificate's. A missing line counts as
/// that line; a last line without LF counts as a wrong line. Doesn't allocate.
pub fn first_wrong_line(bytes: &[u8]) -> Option<usize>
    ensures { MatchOption result (IsCertificateText bytes.now) (λ line. IsFirstWrongLine bytes.now line) }
{
    match scan_certificate(bytes) {
        Ok(()) => None,
        Err(wrong) => Some(wrong.line),
    }
}
