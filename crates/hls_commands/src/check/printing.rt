//! The line of an answer. Nothing here allocates.
ghost use Rattle.std.specs.Prelude.{◌≡◌, ◌+◌, ◌≤◌, ◌++◌, [], ◌∷◌};
ghost use Rattle.arrayvec.specs.ArrayString.{array_string_len};
ghost use Rattle.hls_text.specs.Numbers.{spaced_numbers};
ghost use Rattle.hls_commands.specs.CheckAnswer.{answer_words, fault_numbers, check_line};

use arrayvec::ArrayString;
use hls_check_tables::{CertFault, Verdict};

/// Room for any line: two words of at most 22 bytes together, two numbers of at most 20 digits, each
/// with a space before it, and the line feed.
pub const LINE_LEN: usize = 65;

/// Appends a space and a number.
pub fn push_number(line: &mut ArrayString<LINE_LEN>, number: u64)
    requires { array_string_len line.old + 21 ≤ LINE_LEN }
    ensures bytes { line.new.bytes ≡ line.old.bytes ++ spaced_numbers (number ∷ []) }
    ensures len { array_string_len line.new ≤ array_string_len line.old + 21 }
{
    line.push_str(" ");
    line.push_str(itoa::Buffer::new().format(number));
}

/// Appends two numbers, each with a space before it.
fn push_pair(line: &mut ArrayString<LINE_LEN>, first: usize, second: usize)
    requires { array_string_len line.old + 42 ≤ LINE_LEN }
    ensures bytes { line.new.bytes ≡ line.old.bytes ++ spaced_numbers (first ∷ second ∷ []) }
    ensures len { array_string_len line.new ≤ array_string_len line.old + 42 }
{
    push_number(line, first as u64);
    push_number(line, second as u64);
}

/// Appends a fault's numbers, each with a space before it.
fn push_numbers(line: &mut ArrayString<LINE_LEN>, fault: CertFault)
    requires { array_string_len line.old + 42 ≤ LINE_LEN }
    ensures bytes { line.new.bytes ≡ line.old.bytes ++ spaced_numbers (fault_numbers fault) }
    ensures len { array_string_len line.new ≤ array_string_len line.old + 42 }
{
    match fault {
        CertFault::Form { line: number } => push_number(line, number as u64),
        CertFault::TableNotSorted { place } => push_number(line, place as u64),
        CertFault::PlanStep { p, q } => push_pair(line, p, q),
        CertFault::PriceStep { p, q } => push_pair(line, p, q),
        CertFault::PlanEnds
        | CertFault::PlanCost
        | CertFault::PriceStart
        | CertFault::EndReached
        | CertFault::Memory => {}
    }
}

/// Writes a fault, without a line feed.
fn write_fault(fault: CertFault) -> ArrayString<LINE_LEN>
    ensures bytes { result.bytes ≡ answer_words (Err fault) }
    ensures len { array_string_len result + 1 ≤ LINE_LEN }
{
    let mut line = ArrayString::new();
    line.push_str("refused ");
    line.push_str(fault.name());
    push_numbers(&mut line, fault);
    line
}

/// Writes a verdict, without a line feed.
fn write_verdict(verdict: Verdict) -> ArrayString<LINE_LEN>
    ensures bytes { result.bytes ≡ answer_words (Ok verdict) }
    ensures len { array_string_len result + 1 ≤ LINE_LEN }
{
    let mut line = ArrayString::new();
    match verdict {
        Verdict::Cut { cost } => {
            line.push_str("cut");
            push_number(&mut line, cost);
        }
        Verdict::NoCut => line.push_str("none"),
    }
    line
}

/// Writes the line of an answer: `cut` and the cost in microseconds, `none`, or `refused`, the fault's name and its numbers.
pub fn write_check_line(answer: Result<Verdict, CertFault>) -> ArrayString<LINE_LEN>
    ensures { result.bytes ≡ check_line answer }
{
    let mut line = match answer {
        Ok(verdict) => write_verdict(verdict),
        Err(fault) => write_fault(fault),
    };
    line.push_str("\n");
    line
}
