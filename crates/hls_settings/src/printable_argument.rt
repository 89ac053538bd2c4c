//! Arguments in a printable form.

use std::fmt::{self, Display, Formatter, Write};

/// How many bytes of an argument are printed.
const MOST_SHOWN: usize = 64;

/// An argument in a printable form: its first 64 bytes, with everything but printable ASCII escaped, and two dots if it is longer.
#[derive(Clone, Copy, Drop)]
pub struct PrintableArgument<'a>(pub &'a str);

impl<'a> Display for PrintableArgument<'a> {
    fn fmt<W: Write>(&self, f: &mut Formatter<W>) -> fmt::Result {
        let bytes = self.0.as_bytes();
        match bytes.split_at_checked(MOST_SHOWN) {
            Some((front, rest)) if !rest.is_empty() => write!(f, "{}..", front.escape_ascii()),
            _ => write!(f, "{}", bytes.escape_ascii()),
        }
    }
}
