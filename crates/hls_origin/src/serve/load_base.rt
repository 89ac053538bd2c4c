//! Loads the base of a channel from its file.

ghost use Rattle.std.specs.Prelude.{◌≤◌, length};
ghost use Rattle.hls_check_tables.specs.Tables.{rendition_limit};

use hls_base_text::{BaseFault, BaseLine, read_base};
use hls_core::base::Base;
use hls_core_laws::rendition::Rendition;
use std::fmt::{self, Display, Formatter, Write};
use std::fs;
use std::io::Read;
use std::rt::Files;

/// The longest text of a base, in bytes.
const TEXT_LIMIT: usize = 4096;

/// Why the base of a file can't be taken.
#[derive(Clone, Copy, Debug, PartialEq, Eq, Drop)]
pub enum BaseFileFault {
    /// The file can't be read.
    Unreadable,
    /// It has more than 4096 bytes.
    TooLong,
    /// It isn't the base of a channel with these renditions.
    Text(BaseFault),
    /// `--run` names another run.
    OtherRun,
}

/// Returns how a line of a base begins.
fn line_name(line: BaseLine) -> &'static str {
    match line {
        BaseLine::Run => "run",
        BaseLine::Segments => "segments",
        BaseLine::Marks => "marks",
        BaseLine::Marked => "marked",
        BaseLine::Version => "version",
        BaseLine::Bytes(_) => "bytes",
    }
}

/// Writes what is wrong with a line. The lines of renditions are distinguished by their numbers, from 0.
fn write_line_fault<W: Write>(f: &mut Formatter<W>, line: BaseLine, what: &str) -> fmt::Result {
    let name = line_name(line);
    match line {
        BaseLine::Bytes(rendition) => {
            write!(f, "the line {name} of rendition {rendition} {what}")
        }
        _ => write!(f, "the line {name} {what}"),
    }
}

fn write_text_fault<W: Write>(f: &mut Formatter<W>, fault: BaseFault) -> fmt::Result {
    match fault {
        BaseFault::Unknown(number) => write!(
            f,
            "line {} isn't one of a base of this channel: it has an unknown word or rendition",
            number.saturating_add(1)
        ),
        BaseFault::Unfinished => f.write_str("the last line has no line feed"),
        BaseFault::Missing(line) => write_line_fault(f, line, "is missing"),
        BaseFault::Repeated(line) => write_line_fault(f, line, "is repeated"),
        BaseFault::Invalid(line) => write_line_fault(
            f,
            line,
            "has no valid value: a run of 1 to 16 letters and digits, yes or no, or a number up to 900000000000000",
        ),
        BaseFault::Inconsistent => f.write_str(
            "there are more marks than segments, or the first segment of a channel has a mark",
        ),
    }
}

impl Display for BaseFileFault {
    fn fmt<W: Write>(&self, f: &mut Formatter<W>) -> fmt::Result {
        match *self {
            BaseFileFault::Unreadable => f.write_str("the file of --base can't be read"),
            BaseFileFault::TooLong => f.write_str("the file of --base has more than 4096 bytes"),
            BaseFileFault::Text(fault) => {
                f.write_str("--base: ")?;
                write_text_fault(f, fault)
            }
            BaseFileFault::OtherRun => f.write_str(
                "--run names another run than the file of --base",
            ),
        }
    }
}

/// Reads a file into the buffer. Returns how many bytes it has, at most the buffer's length.
fn read_file<R: Files>(rt: &R, path: &str, buffer: &mut [u8]) -> Option<usize> {
    let Ok(mut file) = fs::open(rt, path) else {
        return None;
    };
    let mut len = 0;
    while len < buffer.len() {
        match file.read(&mut buffer[len..]) {
            Ok(0) => return Some(len),
            Ok(n) => len += n,
            Err(_) => return None,
        }
    }
    Some(len)
}

/// Loads the base of a channel with these renditions.
pub fn load_base<R: Files>(
    rt: &R,
    path: &str,
    renditions: &[Rendition],
) -> Result<Base, BaseFileFault>
    requires { length renditions.now ≤ rendition_limit }
{
    let mut buffer = [0; TEXT_LIMIT + 1];
    let Some(len) = read_file(rt, path, &mut buffer) else {
        return Err(BaseFileFault::Unreadable);
    };
    if len > TEXT_LIMIT {
        return Err(BaseFileFault::TooLong);
    }
    match read_base(&buffer[..len], renditions) {
        Ok(base) => Ok(base),
        Err(fault) => Err(BaseFileFault::Text(fault)),
    }
}
