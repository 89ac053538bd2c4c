//! The laws of what is recorded of a unit. Each function has no body: its contract is the law.

ghost use Rattle.hls_mend.specs.Channels.{SubmittedContinues};
ghost use Rattle.hls_mend.specs.Contiguous.{ContiguousIsKept, FillersAreJoined};

/// A unit that starts at the end of its rendition is recorded as it was sent, and nothing else.
pub fn contiguous_is_kept()
    ensures { ContiguousIsKept }
{}

/// Fillers continue their rendition from its end, each starts where the one before it ends, and there are at most 64. They end with the
/// gap, or at a tick from which the next one can't be made.
pub fn fillers_are_joined()
    ensures { FillersAreJoined }
{}

/// A unit that starts where its rendition ended when the channel was looked at is taken later only if nothing was recorded in between. So
/// what several connections and the housekeeper submit at the end that each has seen is contiguous, without a lock.
pub fn submitted_continues()
    ensures { SubmittedContinues }
{}
