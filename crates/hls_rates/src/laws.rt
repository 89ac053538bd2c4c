//! Laws of meters: functions without a body, whose contracts are the theorems.

ghost use Rattle.std.specs.Prelude.{ℕ, ◌+◌, ◌*◌, ◌≤◌, List};
ghost use Rattle.hls_rates.specs.Rates.{amount_of, owed_over, time_of};

/// Whatever is taken and when, the amount is at most what is owed at the end and what the time in between has paid. So while a meter never
/// owes more than a burst, at most the burst and the rate for the time are taken.
pub fn rate_bounds_what_is_taken()
    ensures { (per_second owed : ℕ) (takes : List (ℕ × ℕ)) → owed + 1000 * amount_of takes ≤ owed_over per_second takes owed + per_second * time_of takes }
{}
