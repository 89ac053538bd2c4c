//! Laws of the checker's results.

ghost use Rattle.hls_check.specs.Laws.{CheckResultIsUnique};

/// A certificate has at most one result: its verdict, or its first fault with that fault's numbers.
pub fn check_result_is_unique()
    ensures { CheckResultIsUnique }
{}
