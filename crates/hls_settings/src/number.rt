//! Numbers on the command line, and arguments split at a delimiter.
ghost use Rattle.std.specs.Prelude.{◌≡◌, ◌<◌, ◌≤◌, IfSome, option_map};
ghost use Rattle.hls_settings.specs.Numbers.{cut_at, optional_number, number_or_default, in_range};

use hls_text::{MAX_DIGITS, parse_digits};

fn check_range(least: u64, most: u64, number: u64) -> Option<u64>
    ensures value { result ≡ in_range least most number }
    ensures bounds { IfSome result (λ n. (least ≤ n) × (n ≤ most)) }
{
    if least <= number && number <= most {
        Some(number)
    } else {
        None
    }
}

/// Returns an option's number, or the default; `None` if it isn't within its bounds.
pub fn number_or_default(least: u64, most: u64, default: u64, text: Option<&str>) -> Option<u64>
    ensures value { result ≡ number_or_default least most default (option_map (λ t. t.now) text.entry) }
    ensures bounds { IfSome result (λ n. (least ≤ n) × (n ≤ most)) }
{
    match text {
        None => check_range(least, most, default),
        Some(text) => check_range(least, most, parse_digits(text.as_bytes(), MAX_DIGITS)?),
    }
}

/// Returns an option's number, if it is given; `None` if it isn't within its bounds.
pub fn optional_number(least: u64, most: u64, text: Option<&str>) -> Option<Option<u64>>
    ensures { result ≡ optional_number least most (option_map (λ t. t.now) text.entry) }
{
    match text {
        None => Some(None),
        Some(text) => {
            let number = parse_digits(text.as_bytes(), MAX_DIGITS)?;
            Some(Some(check_range(least, most, number)?))
        }
    }
}

/// Splits a text at the first such delimiter, which is one ASCII character.
pub fn split_at_char(text: &str, mark: char) -> Option<(&str, &str)>
    requires { mark < 128 }
    ensures { option_map (λ parts. (parts.0.now, parts.1.now)) result ≡ cut_at mark text.now }
{
    text.split_once(mark)
}
