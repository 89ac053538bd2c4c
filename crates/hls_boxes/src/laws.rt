//! Laws of the stream cut. Each function has no body: its contract holds of every text, and of every text that begins with it.

ghost use Rattle.std.specs.Prelude.{◌≡◌, codes};
ghost use Rattle.std.specs.Int.{w32};
ghost use Rattle.hls_boxes.specs.Boxes.{number_at};
ghost use Rattle.hls_boxes.specs.Kinds.{moov_type, moof_type, mdat_type, init_limit, unit_limit};
ghost use Rattle.hls_boxes.specs.Laws.{PartsAreFirstThenRest, FaultsAreStable, PartsAndRestAreInput, PartAloneIsOnePart, OnePartIsItsBytes, EmptyInputLeavesNothing, InitsMatchGrammar, UnitsMatchGrammar, FirstPartMatchesGrammar, RestMatchesGrammar};

use crate::kinds::{INIT_LIMIT, MDAT, MOOF, MOOV, UNIT_LIMIT};

/// The types of the definitions are their four letters, and the constants of the code equal them.
#[tactic(auto, unfolding(crate::specs::Boxes::number_at))]
pub fn constants_are_defined()
    ensures moov { (moov_type ≡ number_at w32 0 (codes "moov")) × (MOOV ≡ moov_type) }
    ensures moof { (moof_type ≡ number_at w32 0 (codes "moof")) × (MOOF ≡ moof_type) }
    ensures mdat { (mdat_type ≡ number_at w32 0 (codes "mdat")) × (MDAT ≡ mdat_type) }
    ensures limits { (INIT_LIMIT ≡ init_limit) × (UNIT_LIMIT ≡ unit_limit) }
{}

/// The parts of a text are its first part, followed by the parts of the rest.
pub fn parts_are_first_then_rest()
    ensures { PartsAreFirstThenRest }
{}

/// A fault of a text is permanent, whatever follows, and no part is found after it.
pub fn faults_are_stable()
    ensures { FaultsAreStable }
{}

/// A text is the concatenation of its parts and a rest; cutting that rest leaves the same as cutting the text.
pub fn parts_and_rest_are_input()
    ensures { PartsAndRestAreInput }
{}

/// The bytes of a part, on their own, are one part.
pub fn part_alone_is_one_part()
    ensures { PartAloneIsOnePart }
{}

/// If a text is one part, the part's bytes are the text, whatever follows it.
pub fn one_part_is_its_bytes()
    ensures { OnePartIsItsBytes }
{}

/// The empty text leaves nothing.
pub fn empty_input_leaves_nothing()
    ensures { EmptyInputLeavesNothing }
{}

/// A text is exactly one init section if and only if it consists of loose boxes and then a `moov`, within the limit.
pub fn inits_match_grammar()
    ensures { InitsMatchGrammar }
{}

/// A text is exactly one unit if and only if it consists of loose boxes, a `moof`, loose boxes and an `mdat`, in this order and within the
/// limit.
pub fn units_match_grammar()
    ensures { UnitsMatchGrammar }
{}

/// The first part of a text is the prefix that the grammar accepts.
pub fn first_part_matches_grammar()
    ensures { FirstPartMatchesGrammar }
{}

/// A text has no part and leaves this remainder if and only if it consists of boxes that end no part, followed by nothing, a truncated box,
/// or the first faulty header.
pub fn rest_matches_grammar()
    ensures { RestMatchesGrammar }
{}
