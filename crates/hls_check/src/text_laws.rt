//! Laws of a certificate's text and of its first wrong line.

ghost use Rattle.hls_check.specs.TextLaws.{WrongLineIsUnique, TextHasNoWrongLine, TextIsUnique};

/// A text has at most one first wrong line.
pub fn wrong_line_is_unique()
    ensures { WrongLineIsUnique }
{}

/// The text of a certificate has no wrong line.
pub fn text_has_no_wrong_line()
    ensures { TextHasNoWrongLine }
{}

/// A text is the text of at most one certificate.
#[tactic(auto, using(crate::proofs::Wrongs::text_is_told))]
pub fn text_is_unique()
    ensures { TextIsUnique }
{}
