//! What was taken and isn't paid yet.

ghost use Rattle.std.specs.Prelude.{◌≡◌, ◌≤◌, ◌↔◌, ℕ};
ghost use Rattle.hls_rates.specs.Rates.{IsPause, meter_at, meter_with, meter_within, pause_of};

use crate::rate::Rate;

/// Amounts are counted in thousandths, since a rate a second pays as many a millisecond.
const THOUSANDTHS: u64 = 1000;

/// What was taken and isn't paid by time yet.
#[derive(Clone, Copy, Debug, PartialEq, Eq, Drop)]
pub struct Meter {
    /// What is owed, in thousandths of what is counted.
    pub owed: u64,
    /// The moment up to which time has paid, in milliseconds.
    pub paid_ms: u64,
}

impl Meter {
    /// A meter before anything is taken.
    pub fn new(now: u64) -> Meter
        ensures { result ≡ record { owed = 0; paid_ms = now } }
    {
        Meter {
            owed: 0,
            paid_ms: now,
        }
    }

    /// The meter at a later moment: time has paid. An earlier moment changes nothing.
    pub fn at(self, rate: Rate, now: u64) -> Meter
        ensures { result ≡ meter_at rate now self }
    {
        let passed = u128::from(now.saturating_sub(self.paid_ms));
        let paid = passed * u128::from(rate.per_second);
        Meter {
            owed: u64::try_from(u128::from(self.owed).saturating_sub(paid)).unwrap_or(0),
            paid_ms: now.max(self.paid_ms),
        }
    }

    /// The meter after an amount is taken, however much is owed then.
    pub fn take(self, amount: u64) -> Meter
        ensures { result ≡ meter_with amount self }
    {
        Meter {
            owed: self.owed.saturating_add(amount.saturating_mul(THOUSANDTHS)),
            ..self
        }
    }

    /// The meter, if it owes no more than twice the burst; else one that owes so much. What is above is forgotten, so that nothing may be
    /// taken for at most as long as the burst takes to be paid.
    pub fn within(self, rate: Rate) -> Meter
        ensures { result ≡ meter_within rate self }
    {
        let most = rate.at_once.saturating_mul(THOUSANDTHS).saturating_mul(2);
        Meter {
            owed: self.owed.min(most),
            ..self
        }
    }

    /// For how many milliseconds nothing more may be taken: the least time after which no more than the burst is owed.
    pub fn pause_ms(self, rate: Rate) -> u64
        requires { 1 ≤ rate.per_second }
        ensures value { result ≡ pause_of rate self }
        ensures time { (time : ℕ) → IsPause rate self result time }
    {
        let burst = rate.at_once.saturating_mul(THOUSANDTHS);
        self.owed.saturating_sub(burst).div_ceil(rate.per_second)
    }
}
