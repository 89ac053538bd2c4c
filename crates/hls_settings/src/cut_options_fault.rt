//! Which argument of `cut` is invalid.

use crate::wrong_argument::WrongArgument;

/// The first fault of the arguments of `cut`, in the order of the variants.
#[derive(Clone, Copy, PartialEq, Eq, Drop)]
pub enum CutOptionsFault {
    /// An option that doesn't exist, is given twice, lacks its value or has one that it doesn't take, or an argument that is no
    /// option: the first such argument, or `None` if `clap` refuses the arguments although there is no such one.
    Arguments(Option<WrongArgument>),
    /// `--target` isn't 1 to 3600 seconds.
    Target,
    /// A playlist can't contain `--uri`.
    Uri,
    /// `--preferred` isn't 1 microsecond to the target duration.
    Preferred,
    /// `--charge` is above 3600000000 microseconds, or isn't a number.
    Charge,
    /// `--epoch` isn't an instant from 1970 to 9000-01-01T00:00:00Z.
    Epoch,
    /// `--each` is combined with `--preferred` or `--certificate`.
    Each,
    /// `--certificate` or `--charge` is used without `--preferred`.
    Unplanned,
    /// Out of memory.
    Memory,
}
