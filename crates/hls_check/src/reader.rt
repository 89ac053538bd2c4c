//! Reads a certificate's text line by line. The contract of each part is about the whole text; the part gets only the rest.
ghost use Rattle.std.specs.Prelude.{◌≡◌, ◌+◌, ◌^◌, ◌<◌, ◌≤◌, ℕ, List, [], length, MatchResult, IfOk, All};
ghost use Rattle.hls_check_tables.specs.Tables.{place_limit};
ghost use Rattle.hls_check_tables.specs.Certificates.{CertificateData, IsCertificate, IsPriceInRange};
ghost use Rattle.hls_check.specs.Text.{text};
ghost use Rattle.hls_check.specs.WrongLines.{IsReadResult, IsCertificateOrMemory};
ghost use Rattle.hls_check.specs.Stages.{Builds, StopsBuilding, IsReadUpTo, AtClaim, AtPlan, AtClosed, IsHead};
ghost use Rattle.hls_check.specs.Stages.{WhenAtPlace, WhenAtPrice, WhenAtClosed, HasPlaces};

use crate::certificate_head::{CertificateHead, read_head};
use crate::line::{is_word, parse_closed, parse_number_line, parse_price};
use crate::next_line::{next_place, next_plan};
use crate::wrong_lines::first_wrong_line;
use hls_check_tables::{CertFault, Certificate, CertificateTable, Claim, Spots};
use hls_text::take_line;
use std::alloc::Global;

fn read_places<'a>(
    alloc: Global,
    head: CertificateHead,
    text: &'a [u8],
    first: usize,
) -> Result<(Vec<Spots>, &'a [u8]), CertFault>
    requires room { first + length text.now + 1 < 2 ^ 64 }
    requires head { IsHead head }
    ensures at { WhenAtPlace head text.entry.now first (λ bytes. MatchResult result (λ f. HasPlaces head bytes first f.0.items f.1.now) (StopsBuilding bytes)) }
    ensures shorter { IfOk result (λ f. head.count + length f.1.now ≤ length text.entry.now) }
{
    let mut places = Vec::new(alloc);
    let mut rest = text;
    for p in 0..head.count {
        let (place, after) = next_place(alloc, rest, first + p, head.renditions)?;
        places.push(place)?;
        rest = after;
    }
    Ok((places, rest))
}

// Reads what follows the plan line: the price lines, by increasing place, and the end line.
fn read_prices<'a>(
    alloc: Global,
    count: usize,
    text: &'a [u8],
    first: usize,
) -> Result<(Vec<Option<u64>>, &'a [u8], usize), CertFault>
    requires room { first + length text.now + 1 < 2 ^ 64 }
    requires count { count ≤ place_limit }
    ensures at { WhenAtPrice count text.entry.now first (λ bytes Ends. MatchResult result (λ f. Ends f.0.items f.1.now f.2) (StopsBuilding bytes)) }
    ensures shorter { IfOk result (λ f. f.2 + length f.1.now ≤ first + length text.entry.now) }
    ensures form { IfOk result (λ f. (length f.0.items ≡ count) × All IsPriceInRange f.0.items) }
{
    let mut prices = Vec::new(alloc);
    let mut rest = text;
    let mut lines_read = first;
    loop {
        let Some((line, after)) = take_line(rest) else {
            return Err(CertFault::Form {
                line: lines_read + 1,
            });
        };
        if is_word(line, b"end") {
            prices.resize(count, None)?;
            return Ok((prices, after, lines_read + 1));
        }
        let Some((place, price)) = parse_price(line, prices.len(), count) else {
            return Err(CertFault::Form {
                line: lines_read + 1,
            });
        };
        prices.resize(place, None)?;
        prices.push(Some(price))?;
        rest = after;
        lines_read += 1;
    }
}

// Reads what follows the line `none`: the lines of the closed set, by increasing place, and the end line.
fn read_closed<'a>(
    alloc: Global,
    count: usize,
    text: &'a [u8],
    first: usize,
) -> Result<(Vec<bool>, &'a [u8], usize), CertFault>
    requires room { first + length text.now + 1 < 2 ^ 64 }
    requires count { count ≤ place_limit }
    ensures at { WhenAtClosed count text.entry.now first (λ bytes Ends. MatchResult result (λ f. Ends f.0.items f.1.now f.2) (StopsBuilding bytes)) }
    ensures shorter { IfOk result (λ f. f.2 + length f.1.now ≤ first + length text.entry.now) }
    ensures form { IfOk result (λ f. length f.0.items ≡ count) }
{
    let mut closed = Vec::new(alloc);
    let mut rest = text;
    let mut lines_read = first;
    loop {
        let Some((line, after)) = take_line(rest) else {
            return Err(CertFault::Form {
                line: lines_read + 1,
            });
        };
        if is_word(line, b"end") {
            closed.resize(count, false)?;
            return Ok((closed, after, lines_read + 1));
        }
        let Some(place) = parse_closed(line, closed.len(), count) else {
            return Err(CertFault::Form {
                line: lines_read + 1,
            });
        };
        closed.resize(place, false)?;
        closed.push(true)?;
        rest = after;
        lines_read += 1;
    }
}

// Reads the plan and prices of a cut, and checks that no text follows.
fn read_cut(
    alloc: Global,
    table: CertificateTable,
    cost: u64,
    text: &[u8],
    lines_read: usize,
) -> Result<Certificate, CertFault>
    requires cost { cost < 2 ^ 53 }
    requires room { lines_read + length text.now + 1 < 2 ^ 64 }
    ensures { (bytes : List ℕ) → IsReadUpTo (AtPlan table cost) bytes text.now lines_read → Builds bytes result }
{
    let (plan, after_plan) = next_plan(alloc, text, lines_read, table.len())?;
    let (prices, rest, read) = read_prices(alloc, table.len(), after_plan, lines_read + 1)?;
    if !rest.is_empty() {
        return Err(CertFault::Form { line: read + 1 });
    }
    Ok(Certificate::new(table, Claim::Cut { cost, plan, prices }))
}

// Reads a closed set, and checks that no text follows.
fn read_none(
    alloc: Global,
    table: CertificateTable,
    text: &[u8],
    lines_read: usize,
) -> Result<Certificate, CertFault>
    requires { lines_read + length text.now + 1 < 2 ^ 64 }
    ensures { (bytes : List ℕ) → IsReadUpTo (AtClosed table []) bytes text.now lines_read → Builds bytes result }
{
    let (closed, rest, read) = read_closed(alloc, table.len(), text, lines_read)?;
    if !rest.is_empty() {
        return Err(CertFault::Form { line: read + 1 });
    }
    Ok(Certificate::new(table, Claim::NoCut { closed }))
}

// Reads the claim after a table, and checks that no text follows.
fn read_claim(
    alloc: Global,
    table: CertificateTable,
    text: &[u8],
    lines_read: usize,
) -> Result<Certificate, CertFault>
    requires { lines_read + length text.now + 1 < 2 ^ 64 }
    ensures { (bytes : List ℕ) → IsReadUpTo (AtClaim table) bytes text.now lines_read → Builds bytes result }
{
    let Some((line, after)) = take_line(text) else {
        return Err(CertFault::Form {
            line: lines_read + 1,
        });
    };
    if is_word(line, b"none") {
        return read_none(alloc, table, after, lines_read + 1);
    }
    let Some(cost) = parse_number_line(line, b"cut ") else {
        return Err(CertFault::Form {
            line: lines_read + 1,
        });
    };
    read_cut(alloc, table, cost, after, lines_read + 1)
}

fn read_certificate(alloc: Global, bytes: &[u8]) -> Result<Certificate, CertFault>
    ensures { Builds bytes.now result }
{
    let (head, after_head, lines_read) = read_head(bytes)?;
    let (places, rest) = read_places(alloc, head, after_head, lines_read)?;
    let table = CertificateTable::new(head.goal, head.renditions, places);
    read_claim(alloc, table, rest, lines_read + head.count)
}

/// Parses the text of a certificate.
///
/// # Errors
/// `Form` with the number of the first line, from 1, that violates the format. A missing line counts as that line; a last line without LF
/// counts as a wrong line. `Memory` if an allocation failed. That error occurs only for the text of a certificate, since nothing is
/// allocated before the whole text was scanned.
pub fn read(alloc: Global, bytes: &[u8]) -> Result<Certificate, CertFault>
    ensures answer { IsReadResult bytes.now result }
    ensures only { (c : CertificateData) → IsCertificate c → bytes.now ≡ text c → IsCertificateOrMemory c result }
{
    if let Some(line) = first_wrong_line(bytes) {
        return Err(CertFault::Form { line });
    }
    read_certificate(alloc, bytes)
}
