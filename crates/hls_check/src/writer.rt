//! Writes a certificate's text line by line.

ghost use Rattle.std.specs.Prelude.{◌≡◌, ◌++◌, ◌<◌, [], ◌∷◌, length, map, IfOk};
ghost use Rattle.std.specs.Fmt.{decimal};
ghost use Rattle.hls_text.specs.Lines.{text_of_lines};
ghost use Rattle.hls_text.specs.Numbers.{numbers_text, spaced_numbers, number_line};
ghost use Rattle.hls_check_tables.specs.Certificates.{CutClaim, NoneClaim, claim_data};
ghost use Rattle.hls_check.specs.Text.{fields_after_fragment, head_lines, place_numbers, place_line, plan_line, price_line, closed_line, priced_place, priced_places_from, closed_places_from, rule_lines, table_lines, claim_lines, text, IsShowable};

use hls_check_tables::{Certificate, CertificateTable, Claim, CostRule, Spot, Spots};
use hls_text::push_number;
use std::alloc::{AllocError, Global};

fn push_space_and_number(out: &mut Vec<u8>, number: u64) -> Result<(), AllocError>
    ensures { IfOk result (λ _. out.new.items ≡ out.old.items ++ (32 ∷ decimal number)) }
{
    out.push(b' ')?;
    push_number(out, number)?;
    Ok(())
}

// Writes a line of one word and one number.
fn push_number_line(out: &mut Vec<u8>, word: &[u8], number: u64) -> Result<(), AllocError>
    ensures { IfOk result (λ _. out.new.items ≡ out.old.items ++ text_of_lines (number_line word.now number ∷ [])) }
{
    out.extend_from_slice(word)?;
    push_number(out, number)?;
    out.push(b'\n')?;
    Ok(())
}

// Writes a line that consists of one word.
fn push_word_line(out: &mut Vec<u8>, word: &[u8]) -> Result<(), AllocError>
    ensures { IfOk result (λ _. out.new.items ≡ out.old.items ++ text_of_lines (word.now ∷ [])) }
{
    out.extend_from_slice(word)?;
    out.push(b'\n')?;
    Ok(())
}

// Writes the numbers of a spot after its fragment number, each preceded by a space.
fn push_fields_after_fragment(out: &mut Vec<u8>, spot: Spot) -> Result<(), AllocError>
    ensures { IfOk result (λ _. out.new.items ≡ out.old.items ++ spaced_numbers (fields_after_fragment spot)) }
{
    push_space_and_number(out, spot.prev_end)?;
    push_space_and_number(out, spot.start)?;
    push_space_and_number(out, spot.run_in)?;
    push_space_and_number(out, spot.run_out)?;
    Ok(())
}

// Writes the numbers of a spot, each preceded by a space.
fn push_spot(out: &mut Vec<u8>, spot: Spot) -> Result<(), AllocError>
    ensures { IfOk result (λ _. out.new.items ≡ out.old.items ++ spaced_numbers (place_numbers (spot ∷ []))) }
{
    push_space_and_number(out, spot.fragment)?;
    push_fields_after_fragment(out, spot)?;
    Ok(())
}

// Writes the numbers of a place's first spot, separated by spaces.
fn push_first_spot(out: &mut Vec<u8>, spot: Spot) -> Result<(), AllocError>
    ensures { IfOk result (λ _. out.new.items ≡ out.old.items ++ numbers_text (place_numbers (spot ∷ []))) }
{
    push_number(out, spot.fragment)?;
    push_fields_after_fragment(out, spot)?;
    Ok(())
}

// Writes the numbers of spots, each preceded by a space.
fn push_more_spots(out: &mut Vec<u8>, spots: &[Spot]) -> Result<(), AllocError>
    ensures { IfOk result (λ _. out.new.items ≡ out.old.items ++ spaced_numbers (place_numbers spots.now)) }
{
    for spot in spots {
        push_spot(out, *spot)?;
    }
    Ok(())
}

// Writes the numbers of spots, separated by spaces.
fn push_spots(out: &mut Vec<u8>, spots: &[Spot]) -> Result<(), AllocError>
    ensures { IfOk result (λ _. out.new.items ≡ out.old.items ++ numbers_text (place_numbers spots.now)) }
{
    if spots.is_empty() {
        return Ok(());
    }
    push_first_spot(out, spots[0])?;
    push_more_spots(out, &spots[1..])?;
    Ok(())
}

fn push_place(out: &mut Vec<u8>, place: &Spots) -> Result<(), AllocError>
    ensures { IfOk result (λ _. out.new.items ≡ out.old.items ++ text_of_lines (place_line place.now ∷ [])) }
{
    push_spots(out, place.as_slice())?;
    out.push(b'\n')?;
    Ok(())
}

/// Writes the place lines.
pub fn push_places(out: &mut Vec<u8>, places: &[Spots]) -> Result<(), AllocError>
    ensures { IfOk result (λ _. out.new.items ≡ out.old.items ++ text_of_lines (map place_line places.now)) }
{
    for place in places {
        push_place(out, place)?;
    }
    Ok(())
}

// Writes place numbers, each preceded by a space.
fn push_more_places(out: &mut Vec<u8>, places: &[usize]) -> Result<(), AllocError>
    ensures { IfOk result (λ _. out.new.items ≡ out.old.items ++ spaced_numbers places.now) }
{
    for place in places {
        push_space_and_number(out, *place as u64)?;
    }
    Ok(())
}

fn push_plan(out: &mut Vec<u8>, plan: &[usize]) -> Result<(), AllocError>
    requires { 0 < length plan.now }
    ensures { IfOk result (λ _. out.new.items ≡ out.old.items ++ text_of_lines (plan_line plan.now ∷ [])) }
{
    out.extend_from_slice(b"plan ")?;
    push_number(out, plan[0] as u64)?;
    push_more_places(out, &plan[1..])?;
    out.push(b'\n')?;
    Ok(())
}

fn push_price(out: &mut Vec<u8>, place: usize, price: u64) -> Result<(), AllocError>
    ensures { IfOk result (λ _. out.new.items ≡ out.old.items ++ text_of_lines (price_line (priced_place place price) ∷ [])) }
{
    out.extend_from_slice(b"price ")?;
    push_number(out, place as u64)?;
    push_space_and_number(out, price)?;
    out.push(b'\n')?;
    Ok(())
}

// Writes the price line of a place that has a price.
fn push_optional_price(
    out: &mut Vec<u8>,
    place: usize,
    price: Option<u64>,
) -> Result<(), AllocError>
    ensures { IfOk result (λ _. out.new.items ≡ out.old.items ++ text_of_lines (map price_line (priced_places_from place (price ∷ [])))) }
{
    let Some(price) = price else {
        return Ok(());
    };
    push_price(out, place, price)?;
    Ok(())
}

// Writes a price line for each place that has a price.
fn push_prices(out: &mut Vec<u8>, prices: &[Option<u64>]) -> Result<(), AllocError>
    ensures { IfOk result (λ _. out.new.items ≡ out.old.items ++ text_of_lines (map price_line (priced_places_from 0 prices.now))) }
{
    for (place, price) in prices.iter().enumerate() {
        push_optional_price(out, place, *price)?;
    }
    Ok(())
}

// Writes the line of a place that is in the closed set.
fn push_closed_place(out: &mut Vec<u8>, place: usize, is_in: bool) -> Result<(), AllocError>
    ensures { IfOk result (λ _. out.new.items ≡ out.old.items ++ text_of_lines (map closed_line (closed_places_from place (is_in ∷ [])))) }
{
    if !is_in {
        return Ok(());
    }
    push_number_line(out, b"closed ", place as u64)?;
    Ok(())
}

// Writes the lines of the closed set.
fn push_closed(out: &mut Vec<u8>, closed: &[bool]) -> Result<(), AllocError>
    ensures { IfOk result (λ _. out.new.items ≡ out.old.items ++ text_of_lines (map closed_line (closed_places_from 0 closed.now))) }
{
    for (place, is_in) in closed.iter().enumerate() {
        push_closed_place(out, place, *is_in)?;
    }
    Ok(())
}

// Writes the version lines, which include the rule.
fn push_rule(out: &mut Vec<u8>, rule: CostRule) -> Result<(), AllocError>
    ensures { IfOk result (λ _. out.new.items ≡ out.old.items ++ text_of_lines (rule_lines rule)) }
{
    match rule {
        CostRule::Deviation => push_word_line(out, b"HLS-CUT-CERTIFICATE 1"),
        CostRule::Charged(charge) => {
            push_word_line(out, b"HLS-CUT-CERTIFICATE 2")?;
            push_number_line(out, b"rule 2 ", charge)?;
            Ok(())
        }
    }
}

/// Writes the header lines, which precede the first place line. A certificate can be written in parts by `push_head`, `push_places` and
/// `push_claim`.
pub fn push_head(out: &mut Vec<u8>, table: &CertificateTable) -> Result<(), AllocError>
    ensures { IfOk result (λ _. out.new.items ≡ out.old.items ++ text_of_lines (head_lines table.now.goal table.now.renditions (length table.now.places))) }
{
    let goal = table.goal();
    push_rule(out, goal.rule)?;
    push_number_line(out, b"target ", goal.target)?;
    push_number_line(out, b"preferred ", goal.preferred)?;
    push_number_line(out, b"renditions ", table.rendition_count() as u64)?;
    push_number_line(out, b"places ", table.len() as u64)?;
    Ok(())
}

fn push_table(out: &mut Vec<u8>, table: &CertificateTable) -> Result<(), AllocError>
    ensures { IfOk result (λ _. out.new.items ≡ out.old.items ++ text_of_lines (table_lines table.now)) }
{
    push_head(out, table)?;
    push_places(out, table.places())?;
    Ok(())
}

fn push_cut(
    out: &mut Vec<u8>,
    cost: u64,
    plan: &[usize],
    prices: &[Option<u64>],
) -> Result<(), AllocError>
    requires { 0 < length plan.now }
    ensures { IfOk result (λ _. out.new.items ≡ out.old.items ++ text_of_lines (claim_lines (CutClaim cost plan.now prices.now))) }
{
    push_number_line(out, b"cut ", cost)?;
    push_plan(out, plan)?;
    push_prices(out, prices)?;
    push_word_line(out, b"end")?;
    Ok(())
}

// Writes the lines of a claim that no cut exists.
fn push_none(out: &mut Vec<u8>, closed: &[bool]) -> Result<(), AllocError>
    ensures { IfOk result (λ _. out.new.items ≡ out.old.items ++ text_of_lines (claim_lines (NoneClaim closed.now))) }
{
    push_word_line(out, b"none")?;
    push_closed(out, closed)?;
    push_word_line(out, b"end")?;
    Ok(())
}

/// Writes the lines of a certificate's claim.
pub fn push_claim(out: &mut Vec<u8>, certificate: &Certificate) -> Result<(), AllocError>
    ensures { IfOk result (λ _. out.new.items ≡ out.old.items ++ text_of_lines (claim_lines certificate.now.shown)) }
{
    let _ = certificate.table(); // the proof needs that the certificate is well formed
    push_claim_lines(out, certificate.claim())
}

fn push_claim_lines(out: &mut Vec<u8>, claim: &Claim) -> Result<(), AllocError>
    requires { IsShowable claim.now }
    ensures { IfOk result (λ _. out.new.items ≡ out.old.items ++ text_of_lines (claim_lines (claim_data claim.now))) }
{
    match claim {
        Claim::Cut { cost, plan, prices } => push_cut(out, *cost, plan, prices),
        Claim::NoCut { closed } => push_none(out, closed),
    }
}

/// Writes the canonical text of a certificate: ASCII, each line ended by LF, words separated by one space.
pub fn write(alloc: Global, certificate: &Certificate) -> Result<Vec<u8>, AllocError>
    ensures { IfOk result (λ out. out.items ≡ text certificate.now) }
{
    let mut out = Vec::new(alloc);
    push_table(&mut out, certificate.table())?;
    push_claim(&mut out, certificate)?;
    Ok(out)
}
