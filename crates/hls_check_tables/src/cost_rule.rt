//! The rules for the cost of a segment.

ghost use Rattle.std.specs.Prelude.{◌≡◌};
ghost use Rattle.hls_check_tables.specs.Tables.{charge_of, rule_of};

/// The rule for the cost of a segment, in microseconds.
#[derive(Clone, Copy, Debug, PartialEq, Eq)]
pub enum CostRule {
    /// Rule 1: the deviation of the segment's length in rendition 0 from the preferred one.
    Deviation,

    /// Rule 2: the cost of rule 1, plus this charge, 0 to 3600000000, for each segment. A charge of 0 is rule 2 as well.
    Charged(u64),
}

impl CostRule {
    /// The rule with this charge for each segment. Without a charge, rule 1.
    pub fn from_charge(charge: Option<u64>) -> CostRule
        ensures { result ≡ rule_of charge }
    {
        match charge {
            None => CostRule::Deviation,
            Some(charge) => CostRule::Charged(charge),
        }
    }

    /// The charge for each segment.
    #[inline(always)]
    pub fn charge(self) -> u64
        ensures { result ≡ charge_of self }
    {
        match self {
            CostRule::Deviation => 0,
            CostRule::Charged(charge) => charge,
        }
    }
}
