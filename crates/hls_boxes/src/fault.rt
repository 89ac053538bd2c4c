//! Why a stream isn't a sequence of parts.

ghost use Rattle.std.specs.Prelude.{◌≡◌};
ghost use Rattle.hls_boxes.specs.FaultName.{box_fault_name};

use std::fmt::{self, Display, Formatter, Write};
use thiserror::Error;

/// The name of a variant of an enum. A copy of the macro in `hls_text`: a dependency on that crate would make the longest chain of crates
/// longer.
macro_rules! variant_name {
    ($fault:expr; $type:ident: $($variant:ident),*) => {
        match $fault {
            $($type::$variant { .. } => stringify!($variant)),*
        }
    };
}

/// Why a stream can't be cut further. All faults except `Truncated` and `Memory` are faults of the first faulty box header, and are
/// permanent. The tests are made in the order `OpenEnded`, `BadSize`, `MdatAlone`, `MoofWithoutMdat`, `TooLarge`.
#[derive(Clone, Copy, Debug, PartialEq, Eq, Error)]
pub enum BoxFault {
    /// The size is less than that of the box's own header.
    BadSize,
    /// The part would exceed its limit.
    TooLarge,
    /// A 32-bit size of 0: the box extends to the end of the file.
    OpenEnded,
    /// An `mdat` without a `moof` before it in its part.
    MdatAlone,
    /// A `moof` or `moov` after a `moof` whose `mdat` is still missing.
    MoofWithoutMdat,
    /// The stream ends inside a box, or between a `moof` and its `mdat`.
    Truncated,
    /// An allocation failed.
    Memory,
}

impl BoxFault {
    /// The variant's name, which programs and responses print.
    pub fn name(&self) -> &'static str
        ensures { result.now ≡ box_fault_name self.now }
    {
        variant_name!(self; BoxFault: BadSize, TooLarge, OpenEnded, MdatAlone, MoofWithoutMdat, Truncated, Memory)
    }
}

impl Display for BoxFault {
    fn fmt<W: Write>(&self, f: &mut Formatter<W>) -> fmt::Result {
        f.write_str(self.name())
    }
}
