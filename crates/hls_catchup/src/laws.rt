//! Theorems about the definitions: each function's contract is the law.

ghost use Rattle.hls_catchup.specs.AcceptedLaw.{GoodCertificatesAreAccepted};
ghost use Rattle.hls_catchup.specs.AnswerLaws.{AnswersStay};
ghost use Rattle.hls_catchup.specs.Canonical.{CanonicalProgrammesAreSame};

use hls_check::check_result_is_unique;
use hls_check::text_laws::{text_has_no_wrong_line, text_is_unique};

/// A valid certificate that is printed is read back as itself, and the checker accepts it.
pub fn good_certificates_are_accepted()
    ensures { GoodCertificatesAreAccepted }
{
    text_is_unique();
    text_has_no_wrong_line();
    check_result_is_unique();
}

/// A right answer of a state is one of each state that follows, if the programme is the same there.
pub fn answers_stay()
    ensures { AnswersStay }
{}

/// A request and its canonical one have the same table or fault, and the same right answers.
pub fn canonical_programmes_are_same()
    ensures { CanonicalProgrammesAreSame }
{}
