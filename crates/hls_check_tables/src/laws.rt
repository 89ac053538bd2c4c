//! Laws of the definitions. Each function has no body: its contract is the theorem.

ghost use Rattle.hls_check_tables.specs.Laws.{GoodCutIsLeast, GoodNoneHasNoPlan};

/// If a certificate of a cut is good, its plan is optimal: no plan of its table costs less.
pub fn good_cut_is_least()
    ensures { GoodCutIsLeast }
{}

/// If a certificate of no cut is good, its table has no plan.
pub fn good_none_has_no_plan()
    ensures { GoodNoneHasNoPlan }
{}
