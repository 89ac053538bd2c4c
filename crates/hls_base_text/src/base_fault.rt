//! Why a text isn't the base of a channel.

use crate::base_line::BaseLine;

/// The first fault of a text: in its lines from the first to the last, and then by what a base consists of.
#[derive(Clone, Copy, Debug, PartialEq, Eq, Drop)]
pub enum BaseFault {
    /// The line with this number, from 0, isn't one of a base of this channel: no such word, or no such rendition.
    Unknown(usize),
    /// The last line doesn't end in a line feed.
    Unfinished,
    /// There is no such line.
    Missing(BaseLine),
    /// There are several such lines.
    Repeated(BaseLine),
    /// The line's value isn't a run, `yes` or `no`, or a number of at most 9 * 10^14.
    Invalid(BaseLine),
    /// There are more marks than segments, or the first segment of a channel has a mark.
    Inconsistent,
}
