//! Which argument of `serve` is invalid.

use crate::wrong_argument::WrongArgument;

/// The first fault of the arguments of `serve`, in the order of the variants.
#[derive(Clone, Copy, Debug, PartialEq, Eq, Drop)]
pub enum SettingsFault {
    /// An option that doesn't exist, is given twice or has no value: the first such argument, or `None` if `clap` refuses the arguments
    /// although there is no such one.
    Arguments(Option<WrongArgument>),
    /// `--target` isn't 1 to 3600 seconds.
    Target,
    /// `--preferred` isn't 1 microsecond to the target duration.
    Preferred,
    /// `--window` is shorter than three target durations.
    Window,
    /// `--keep` is shorter than the window, or than three target durations.
    Keep,
    /// `--live` is shorter than three target durations, or longer than the window.
    Live,
    /// `--epoch` isn't an instant from 1970 to 9000-01-01T00:00:00Z.
    Epoch,
    /// `--workers` isn't 1 to 63.
    Workers,
    /// `--connections` isn't 16 to 1000000.
    Connections,
    /// `--planners` isn't 1 to 16.
    Planners,
    /// `--patience` isn't 1 to 3600 seconds.
    Patience,
    /// `--log` isn't `requests`.
    Log,
    /// `--run` isn't 1 to 16 letters and digits.
    Run,
    /// `--snap` isn't 0 to 250000 microseconds.
    Snap,
    /// `--fill` isn't 0 to 3600000000 microseconds.
    Fill,
    /// `--snap`, `--fill` or `--wait` is given without `--mend`.
    Unmended,
    /// `--wait` isn't 1 to 3600 seconds.
    Wait,
    /// `--job-life` isn't 1 to 86400 seconds.
    JobLife,
    /// `--unit-rate` isn't 0 to 1000000 units a second.
    UnitRate,
    /// The address isn't `a.b.c.d:port` in decimal.
    Address,
    /// The index of the first rendition that isn't `name:kind:bandwidth:tolerance`, is outside its limits, or has the name of an
    /// earlier one; 0 if there is none, and 16 if the only fault is a seventeenth.
    Rendition(usize),
    /// Out of memory.
    Memory,
}
