//! The line that names the invalid argument and its valid range.

use crate::cut_options_fault::CutOptionsFault;
use crate::fault::SettingsFault;
use crate::printable_argument::PrintableArgument;
use crate::wrong_argument::{ArgumentFault, WrongArgument, option_name};
use std::convert::AsStr;
use std::fmt::{self, Display, Formatter, Write};

/// The valid range of an epoch.
const EPOCH: &str =
    "--epoch takes an instant from 1970 to 9000-01-01T00:00:00Z, as in 2024-01-01T00:00:00Z or 2024-01-01T01:00:00.5+01:00";

/// The valid range of a target duration.
const TARGET: &str = "--target takes 1 to 3600 whole seconds";

/// Writes which rendition's argument is invalid.
fn write_wrong_rendition<W: Write>(f: &mut Formatter<W>, n: usize) -> fmt::Result {
    if n >= 16 {
        return f.write_str("a channel has at most 16 renditions");
    }
    write!(
        f,
        "rendition {n}: give name:kind:bandwidth:tolerance as in v720:video:3000000:0; "
    )?;
    f.write_str(
        "names are 1 to 32 letters, digits, - and _, all different; kind is video or audio; ",
    )?;
    f.write_str(
        "bandwidth is 1 to 10^12 bits a second; tolerance is 0 to 500000 microseconds, and 0 for the first",
    )
}

/// Writes an invalid argument: an option by its name alone, without its value.
fn write_wrong_argument<W: Write>(
    f: &mut Formatter<W>,
    argument: &str,
    fault: ArgumentFault,
) -> fmt::Result {
    let option = PrintableArgument(option_name(argument).0);
    match fault {
        ArgumentFault::Unknown => write!(f, "unrecognized option {option}"),
        ArgumentFault::Repeated => write!(f, "{option} is given twice"),
        ArgumentFault::NoValue => write!(f, "{option} has no value"),
        ArgumentFault::Unneeded => write!(f, "{option} takes no value"),
        ArgumentFault::Stray => write!(
            f,
            "unexpected argument \"{}\"",
            PrintableArgument(argument)
        ),
    }
}

/// Writes the first invalid argument.
fn write_wrong_arguments<W: Write, S: AsStr>(
    f: &mut Formatter<W>,
    arguments: &[S],
    wrong: Option<WrongArgument>,
) -> fmt::Result {
    let Some(wrong) = wrong else {
        return f.write_str("unrecognized arguments");
    };
    match arguments.get(wrong.index) {
        Some(argument) => write_wrong_argument(f, argument.as_str(), wrong.fault),
        None => f.write_str("unrecognized arguments"),
    }
}

/// A fault, and the arguments that have it. It prints as one line, which names the invalid argument.
#[derive(Clone, Copy, Drop)]
pub struct SettingsMessage<'a, F, S> {
    pub fault: F,
    pub arguments: &'a [S],
}

impl<'a, S: AsStr> Display for SettingsMessage<'a, SettingsFault, S> {
    fn fmt<W: Write>(&self, f: &mut Formatter<W>) -> fmt::Result {
        let text = match self.fault {
            SettingsFault::Arguments(wrong) => return write_wrong_arguments(
                f,
                self.arguments,
                wrong,
            ),
            SettingsFault::Target => TARGET,
            SettingsFault::Preferred => {
                "--preferred takes 1 to the target, in microseconds (4000000 if not given): with a target below 4, give it"
            }
            SettingsFault::Window => {
                "--window takes three targets or more, in microseconds (30000000 if neither it nor --live is given): with a target above 10, give it"
            }
            SettingsFault::Keep => {
                "--keep takes the window, or three targets, or more, in microseconds (3600000000 if not given)"
            }
            SettingsFault::Live => {
                "--live takes three targets to the window, in microseconds (the window if not given)"
            }
            SettingsFault::Epoch => EPOCH,
            SettingsFault::Workers => "--workers takes 1 to 63",
            SettingsFault::Connections => "--connections takes 16 to 1000000",
            SettingsFault::Planners => "--planners takes 1 to 16",
            SettingsFault::Patience => "--patience takes 1 to 3600 whole seconds",
            SettingsFault::Log => "--log takes the word requests",
            SettingsFault::Run => "--run takes 1 to 16 letters and digits",
            SettingsFault::Snap => "--snap takes 0 to 250000 microseconds (5000 if not given)",
            SettingsFault::Fill => {
                "--fill takes 0 to 3600000000 microseconds (10000000 if not given)"
            }
            SettingsFault::Unmended => "--snap, --fill and --wait need --mend",
            SettingsFault::Wait => "--wait takes 1 to 3600 whole seconds (5 if not given)",
            SettingsFault::JobLife => "--job-life takes 1 to 86400 whole seconds",
            SettingsFault::UnitRate =>
                "--unit-rate takes 0 to 1000000 units a second (500 if not given)",
            SettingsFault::Address => {
                "give an address a.b.c.d:port before the renditions, as in 127.0.0.1:8080, without leading zeros"
            }
            SettingsFault::Rendition(n) => return write_wrong_rendition(f, n),
            SettingsFault::Memory => "out of memory",
        };
        f.write_str(text)
    }
}

impl<'a, S: AsStr> Display for SettingsMessage<'a, CutOptionsFault, S> {
    fn fmt<W: Write>(&self, f: &mut Formatter<W>) -> fmt::Result {
        let text = match self.fault {
            CutOptionsFault::Arguments(wrong) => return write_wrong_arguments(
                f,
                self.arguments,
                wrong,
            ),
            CutOptionsFault::Target => TARGET,
            CutOptionsFault::Uri => {
                "--uri takes a text that isn't empty, doesn't begin with # and has no line ends or quotation marks"
            }
            CutOptionsFault::Preferred => {
                "--preferred takes 1 to the target, in microseconds (the target is 6 seconds if not given)"
            }
            CutOptionsFault::Charge => "--charge takes 0 to 3600000000 microseconds",
            CutOptionsFault::Epoch => EPOCH,
            CutOptionsFault::Each => "--each excludes --preferred and --certificate",
            CutOptionsFault::Unplanned => "--certificate and --charge need --preferred",
            CutOptionsFault::Memory => "out of memory",
        };
        f.write_str(text)
    }
}
