//! The header lines of a certificate: everything before the first place line.
ghost use Rattle.std.specs.Prelude.{◌+◌, ◌^◌, ◌<◌, ◌≤◌, length, MatchResult, IfOk};
ghost use Rattle.hls_check.specs.WrongLines.{IsFirstWrongLine};
ghost use Rattle.hls_check.specs.Stages.{IsReadUpTo, AtTarget, HasGoal, HasHead, WhenAtRenditions, WhenAtTarget, StopsScanning};

use crate::line::is_word;
use crate::next_line::next_number;
use crate::wrong_line::WrongLine;
use hls_check_tables::{
    CHARGE_LIMIT, CostRule, Goal, PLACE_LIMIT, PREFERRED_LIMIT, RENDITION_LIMIT, TARGET_LIMIT,
};
use hls_text::take_line;

/// What the header lines say: the goal, and the numbers of renditions and places of the table.
#[derive(Clone, Copy)]
pub struct CertificateHead {
    pub goal: Goal,
    pub renditions: usize,
    pub count: usize,
}

// Reads the rule from the version lines. Also returns how many lines those are: one in version 1, two in version 2.
fn read_rule(bytes: &[u8]) -> Result<(CostRule, &[u8], usize), WrongLine>
    ensures rule { MatchResult result (λ f. IsReadUpTo (AtTarget f.0) bytes.entry.now f.1.now f.2) (λ wrong. IsFirstWrongLine bytes.entry.now wrong.line) }
    ensures shorter { IfOk result (λ f. f.2 + length f.1.now ≤ length bytes.entry.now) }
{
    let Some((line, after)) = take_line(bytes) else {
        return Err(WrongLine { line: 1 });
    };
    if is_word(line, b"HLS-CUT-CERTIFICATE 1") {
        return Ok((CostRule::Deviation, after, 1));
    }
    if !is_word(line, b"HLS-CUT-CERTIFICATE 2") {
        return Err(WrongLine { line: 1 });
    }
    let (charge, rest) = next_number(after, 1, b"rule 2 ", 0, CHARGE_LIMIT)?;
    Ok((CostRule::Charged(charge), rest, 2))
}

// Reads the target and the preferred length, which follow the rule.
fn read_goal(rule: CostRule, text: &[u8], lines_read: usize) -> Result<(Goal, &[u8]), WrongLine>
    requires { lines_read + length text.now + 1 < 2 ^ 64 }
    ensures goal { WhenAtTarget rule text.entry.now lines_read (λ bytes. MatchResult result (λ f. HasGoal bytes f.0 f.1.now (lines_read + 2)) (StopsScanning bytes)) }
    ensures shorter { IfOk result (λ f. 2 + length f.1.now ≤ length text.entry.now) }
{
    let (target, after_target) = next_number(text, lines_read, b"target ", 1, TARGET_LIMIT)?;
    let (preferred, rest) = next_number(
        after_target,
        lines_read + 1,
        b"preferred ",
        1,
        PREFERRED_LIMIT,
    )?;
    let goal = Goal {
        target,
        preferred,
        rule,
    };
    Ok((goal, rest))
}

// Reads the numbers of renditions and places, which follow the goal.
fn read_counts(
    goal: Goal,
    text: &[u8],
    lines_read: usize,
) -> Result<(CertificateHead, &[u8]), WrongLine>
    requires { lines_read + length text.now + 1 < 2 ^ 64 }
    ensures head { WhenAtRenditions goal text.entry.now lines_read (λ bytes. MatchResult result (λ f. HasHead bytes f.0 f.1.now (lines_read + 2)) (StopsScanning bytes)) }
    ensures shorter { IfOk result (λ f. 2 + length f.1.now ≤ length text.entry.now) }
{
    let (renditions, after_renditions) = next_number(
        text,
        lines_read,
        b"renditions ",
        1,
        RENDITION_LIMIT as u64,
    )?;
    let (count, rest) = next_number(
        after_renditions,
        lines_read + 1,
        b"places ",
        2,
        PLACE_LIMIT as u64,
    )?;
    let head = CertificateHead {
        goal,
        renditions: renditions as usize,
        count: count as usize,
    };
    Ok((head, rest))
}

/// Reads the header lines. Also returns the rest of the text and the number of lines read.
pub fn read_head(bytes: &[u8]) -> Result<(CertificateHead, &[u8], usize), WrongLine>
    ensures head { MatchResult result (λ f. HasHead bytes.entry.now f.0 f.1.now f.2) (λ wrong. IsFirstWrongLine bytes.entry.now wrong.line) }
    ensures shorter { IfOk result (λ f. f.2 + length f.1.now ≤ length bytes.entry.now) }
{
    let (rule, after_rule, lines_read) = read_rule(bytes)?;
    let (goal, after_goal) = read_goal(rule, after_rule, lines_read)?;
    let (head, rest) = read_counts(goal, after_goal, lines_read + 2)?;
    Ok((head, rest, lines_read + 4))
}
