//! The address on which the server listens.
ghost use Rattle.std.specs.Prelude.{◌≡◌, ◌<◌, option_map};
ghost use Rattle.hls_settings.specs.Addresses.{address_of, numbered, small_of};
ghost use Rattle.hls_settings.specs.Numbers.{cut_at};

use crate::number::split_at_char;
use hls_text::{MAX_DIGITS, has_no_leading_zero, parse_digits};

/// An IPv4 address and a port.
#[derive(Clone, Copy, Drop)]
pub struct ListenAddress {
    pub a: u8,
    pub b: u8,
    pub c: u8,
    pub d: u8,
    pub port: u16,
}

fn read_octet(octet: &str) -> Option<u8>
    ensures { result ≡ small_of 255 octet.now }
{
    if !has_no_leading_zero(octet.as_bytes()) {
        return None;
    }
    u8::try_from(parse_digits(octet.as_bytes(), MAX_DIGITS)?).ok()
}

fn read_port(port: &str) -> Option<u16>
    ensures { result ≡ small_of 65535 port.now }
{
    if !has_no_leading_zero(port.as_bytes()) {
        return None;
    }
    u16::try_from(parse_digits(port.as_bytes(), MAX_DIGITS)?).ok()
}

/// Parses a number before the next such delimiter, and returns the text after it, too.
fn take_octet(text: &str, mark: char) -> Option<(u8, &str)>
    requires { mark < 128 }
    ensures { option_map (λ found. (found.0, found.1.now)) result ≡ numbered 255 (cut_at mark text.now) }
{
    let (number, rest) = split_at_char(text, mark)?;
    Some((read_octet(number)?, rest))
}

/// Parses an address `a.b.c.d:port`: four numbers of 0 to 255 and a port of 0 to 65535, in decimal and without leading zeros.
pub fn read_address(text: &str) -> Option<ListenAddress>
    ensures { result ≡ address_of text.now }
{
    let (a, rest) = take_octet(text, '.')?;
    let (b, rest) = take_octet(rest, '.')?;
    let (c, rest) = take_octet(rest, '.')?;
    let (d, rest) = take_octet(rest, ':')?;
    Some(ListenAddress {
        a,
        b,
        c,
        d,
        port: read_port(rest)?,
    })
}
