//! The laws of mending. Each function has no body: its contract is the law.

ghost use Rattle.hls_mend_laws.specs.Fillers.{HeldUnitsFill, SilentUnitsFill};
ghost use Rattle.hls_mend_laws.specs.Fragments.{FragmentsAreUnits};
ghost use Rattle.hls_mend_laws.specs.Jumps.{AllJumpIsAccepted, OneClockIsRefused, RefusalIsJump};
ghost use Rattle.hls_mend_laws.specs.ReadBack.{FragmentsAreReadBack};
ghost use Rattle.hls_mend_laws.specs.Retimed.{RetimedKeepFacts, RetimedKeepSamples};
ghost use Rattle.hls_mend_laws.specs.Sources.{CutKeepsRest, HeldRepeatSample, SilenceRepeatsFrame};
ghost use Rattle.hls_mend_laws.specs.Treatments.{FaultlessIsKept, RecordedIsContiguous, RetimedDurationsFit, RetimedWithinSnap};

/// A fragment that is written is a unit with the facts that it was written for.
pub fn fragments_are_units()
    ensures { FragmentsAreUnits }
{}

/// A fragment that is written is read again as it was.
pub fn fragments_are_read_back()
    ensures { FragmentsAreReadBack }
{}

/// A unit that is written again keeps its facts, but for its start, its duration and its length.
pub fn retimed_keep_facts()
    ensures { RetimedKeepFacts }
{}

/// A unit that is written again keeps its samples and their bytes, but for the duration of the first.
pub fn retimed_keep_samples()
    ensures { RetimedKeepSamples }
{}

/// A unit that is cut keeps its last samples and their bytes.
pub fn cut_keeps_rest()
    ensures { CutKeepsRest }
{}

/// The sample of a filler is a recorded one, with its own bytes, and isn't larger than it may be.
pub fn held_repeat_sample()
    ensures { HeldRepeatSample }
{}

/// Each sample of a filler of repeated frames is the same frame, and together they aren't larger than they may be.
pub fn silence_repeats_frame()
    ensures { SilenceRepeatsFrame }
{}

/// A filler that holds a recorded sample covers exactly the ticks that it was made for.
pub fn held_units_fill()
    ensures { HeldUnitsFill }
{}

/// A filler of repeated frames covers exactly the ticks that it was made for.
pub fn silent_units_fill()
    ensures { SilentUnitsFill }
{}

/// Every unit of a stream without faults is recorded as it was sent.
pub fn faultless_is_kept()
    ensures { FaultlessIsKept }
{}

/// What is recorded is contiguous, except across gaps longer than the limit.
pub fn recorded_is_contiguous()
    ensures { RecordedIsContiguous }
{}

/// The first sample of a unit that is retimed lasts for some time, and its duration fits 32 bits.
pub fn retimed_durations_fit()
    ensures { RetimedDurationsFit }
{}

/// A unit that is retimed moves by at most the limit.
pub fn retimed_within_snap()
    ensures { RetimedWithinSnap }
{}

/// While another rendition continues, a unit that is ahead of the channel is refused.
pub fn one_clock_is_refused()
    ensures { OneClockIsRefused }
{}

/// Once all other renditions have jumped or are away, a unit that is ahead of the channel is accepted.
pub fn all_jump_is_accepted()
    ensures { AllJumpIsAccepted }
{}

/// A rendition whose unit was refused as ahead allows the others to jump.
pub fn refusal_is_jump()
    ensures { RefusalIsJump }
{}
