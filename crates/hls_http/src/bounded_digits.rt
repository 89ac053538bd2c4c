//! Bytes and decimal numbers of fields and queries.

ghost use Rattle.std.specs.{Prelude.{◌≡◌, ◌<◌, ◌^◌, ◌==◌, ◌+◌, length, position, true, IfSome}, Str.all_ascii_digits};
ghost use Rattle.hls_http.specs.Range.{capped_number};

use crate::limits::MOST_RANGE;

/// Returns the index of the first occurrence of a byte.
pub fn find_byte(text: &[u8], byte: u8) -> Option<usize>
    ensures value { result ≡ position (λ b. b == byte) text.now }
    ensures within { IfSome result (λ at. at < length text.now) }
    ensures small { IfSome result (λ at. at + 1 < 2 ^ 64) }
{
    text.iter().position(|b| *b == byte)
}

/// Parses a decimal number, capped at 2^53.
#[tactic(auto, using(crate::proofs::Digits::capped_more, crate::proofs::Digits::digit_here))]
pub fn parse_capped(digits: &[u8]) -> u64
    requires { all_ascii_digits digits.now ≡ true }
    ensures { result ≡ capped_number digits.now }
{
    let mut number = 0u64;
    for digit in digits {
        number = (number * 10 + u64::from(*digit - b'0')).min(MOST_RANGE);
    }
    number
}
