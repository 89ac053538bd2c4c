//! Why a request is refused, and why a call on the job table is refused.

ghost use Rattle.std.specs.Prelude.{◌≡◌};
ghost use Rattle.hls_catchup.specs.FaultName.{catch_fault_name};
ghost use Rattle.hls_catchup.specs.Jobs.FaultName.{job_fault_name};
ghost use Rattle.hls_catchup.specs.declared.fault.CatchFault.TheVariants as catch_fault;
ghost use Rattle.hls_catchup.specs.declared.fault.JobFault.TheVariants as job_fault;

use hls_text::{AllocFailure, variant_name};
use std::alloc::AllocError;
use std::fmt::{self, Display, Formatter, Write};
use thiserror::Error;

/// Why a request is refused, in the order in which the causes are tested.
#[derive(Clone, Copy, Debug, PartialEq, Eq, Error)]
pub enum CatchFault {
    /// The stop isn't after the start.
    BadRange,
    /// The preferred length isn't 1 microsecond to the channel's target duration.
    BadPreferred,
    /// The charge for a segment is above 3600000000 microseconds.
    BadCharge,
    /// No kept place is at or before the start.
    BeforeRecording,
    /// The stop is after the last place, and more may come.
    NotYet,
    /// The stop is after the last place of a channel that is finished.
    AfterRecording,
    /// The programme has more than 16384 places.
    ProgrammeTooLong,
    /// Out of memory.
    Memory,
}

impl CatchFault {
    /// Returns the variant's name, as replies print it.
    pub fn name(&self) -> &'static str
        ensures { result.now ≡ catch_fault_name self.now }
    {
        variant_name!(self; CatchFault: BadRange, BadPreferred, BadCharge, BeforeRecording, NotYet, AfterRecording, ProgrammeTooLong, Memory)
    }
}

impl Display for CatchFault {
    fn fmt<W: Write>(&self, f: &mut Formatter<W>) -> fmt::Result {
        f.write_str(self.name())
    }
}

impl<E: AllocFailure> From<E> for CatchFault {
    ghost from_gives = { λ _ e. e ≡ catch_fault.Memory };

    fn from(_failure: E) -> CatchFault {
        CatchFault::Memory
    }
}

/// Why a call on the job table is refused.
#[derive(Clone, Copy, Debug, PartialEq, Eq, Error)]
pub enum JobFault {
    /// All 64 places are taken, or the last id is used.
    TableFull,
    /// The table has no job of this id.
    UnknownJob,
    /// The job isn't running, or runs for another version or request.
    Stray,
    /// Out of memory.
    Memory,
}

impl JobFault {
    /// Returns the variant's name, as replies print it.
    pub fn name(&self) -> &'static str
        ensures { result.now ≡ job_fault_name self.now }
    {
        variant_name!(self; JobFault: TableFull, UnknownJob, Stray, Memory)
    }
}

impl Display for JobFault {
    fn fmt<W: Write>(&self, f: &mut Formatter<W>) -> fmt::Result {
        f.write_str(self.name())
    }
}

impl From<AllocError> for JobFault {
    ghost from_gives = { λ _ e. e ≡ job_fault.Memory };

    fn from(_error: AllocError) -> JobFault {
        JobFault::Memory
    }
}
