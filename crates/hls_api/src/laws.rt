//! Theorems about the definitions. Each function has no body: its contract is the law.

ghost use Rattle.hls_api.specs.Laws.{AllowNamesMethods, JobFilesAreRight, JobLinesAreRight, RequestsAreRead};
ghost use Rattle.hls_api.specs.PathAnswers.{ListedInitsAreAnswered, ListedPathsAreAnswered};
ghost use Rattle.hls_api.specs.Jumps.{AheadIsRead, AllJumpIsAccepted, LongUnitsAreAhead, OneClockIsRefused, ShortUnitsCountFromStart};
ghost use Rattle.hls_api.specs.ActLinks.{ActsAreLater, ActsExtendLinks, LinkedStatesFollow, LinksStay};

/// Every reply of a session to a request for a job's file has a file of the right reply of some state to some request, or says that
/// there is none.
pub fn job_files_are_right()
    ensures { JobFilesAreRight }
{}

/// Every reply of a session about a job has the result of the right answer of some state to some request, with that state's version,
/// or says that there is no answer yet, or no such job.
pub fn job_lines_are_right()
    ensures { JobLinesAreRight }
{}

/// The field Allow names exactly the methods that a route allows (RFC 9110 10.2.1).
pub fn allow_names_methods()
    ensures { AllowNamesMethods }
{}

/// The requests after whose replies a connection stays open are the first ones of its stream by the standard's grammar (RFC 9112),
/// each a head and its whole body, and the bytes to come follow directly.
#[tactic(auto, using(crate::proofs::Requests::requests_are_read))]
pub fn requests_are_read()
    ensures { RequestsAreRead }
{}

/// Acts that continue from earlier acts of the same connection are linked to them, whatever others did between.
#[tactic(auto, using(crate::proofs::Linking::linked_later))]
pub fn acts_extend_links()
    ensures link { ActsExtendLinks }
    ensures stay { LinksStay }
{}

/// Linked acts lead from a state to one that follows it; so does each act of another connection.
#[tactic(auto, using(crate::proofs::Linking::linked_follows, crate::proofs::Linking::act_later))]
pub fn linked_states_follow()
    ensures follow { LinkedStatesFollow }
    ensures acts { ActsAreLater }
{}

/// Each path that a state lists is answered with 200 and all of its bytes in that state, and so is its init section.
#[tactic(auto, using(crate::proofs::PathAnswers::listed_paths_are_answered, crate::proofs::PathAnswers::listed_inits_are_answered))]
pub fn listed_paths_are_answered()
    ensures segments { ListedPathsAreAnswered }
    ensures inits { ListedInitsAreAnswered }
{}

/// A unit that is ahead of the channel is refused exactly while another rendition continues.
#[tactic(auto, using(crate::proofs::JumpSteps::one_clock_is_refused, crate::proofs::JumpSteps::all_jump_is_accepted))]
pub fn one_clock_is_refused()
    ensures refused { OneClockIsRefused }
    ensures accepted { AllJumpIsAccepted }
{}

/// A unit that lasts for longer than the target, and than an encoder may be silent for, is also ahead by its end; any other by its start
/// alone. The encoders are read for each that is ahead.
#[tactic(auto, using(crate::proofs::JumpSteps::short_units_count_from_start, crate::proofs::JumpSteps::long_units_are_ahead, crate::proofs::JumpSteps::ahead_is_read))]
pub fn long_units_are_ahead()
    ensures short { ShortUnitsCountFromStart }
    ensures long { LongUnitsAreAhead }
    ensures read { AheadIsRead }
{}
