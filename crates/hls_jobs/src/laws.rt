//! Laws of programmes and their plans: each function's contract is the law.

ghost use Rattle.hls_jobs.specs.PlanTurns.{FirstTurnsAreFair};
ghost use Rattle.hls_jobs.specs.ProgrammeLaws.{ProgrammeAnswersStay, ProgrammesStay};

use hls_catchup::answers_stay;

/// A programme that a channel has stays the same as long as its beginning is kept.
pub fn programmes_stay()
    ensures { ProgrammesStay }
{}

/// A right answer to a request for a programme stays right, with the same playlists and certificate, as long as the programme's
/// beginning is kept.
pub fn programme_answers_stay()
    ensures { ProgrammeAnswersStay }
{
    answers_stay();
}

/// A client's first plan comes after at most one plan of each other client. A client that has a plan still has one after another client's plan
/// has evicted one.
pub fn first_turns_are_fair()
    ensures { FirstTurnsAreFair }
{}
