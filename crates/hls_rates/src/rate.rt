//! How much may be taken in a second, and at once.

ghost use Rattle.std.specs.Prelude.{◌≡◌, ◌≤◌};
ghost use Rattle.hls_rates.specs.Rates.{bytes_rate, units_rate};

/// Over this many seconds units are averaged.
const UNIT_SECONDS: u64 = 10;

/// Over this many seconds bytes are averaged.
const BYTE_SECONDS: u64 = 60;

/// At least this many bytes may be taken at once: the longest unit.
const LEAST_BYTES_AT_ONCE: u64 = 67_108_864;

/// How much may be taken in a second, at least 1, and at once.
#[derive(Clone, Copy, Debug, PartialEq, Eq, Drop)]
pub struct Rate {
    pub per_second: u64,
    pub at_once: u64,
}

impl Rate {
    /// The rate of a number of units a second, averaged over ten seconds. 0 counts as 1.
    pub fn of_units(per_second: u64) -> Rate
        ensures value { result ≡ units_rate per_second }
        ensures positive { 1 ≤ result.per_second }
    {
        let per_second = per_second.max(1);
        Rate {
            per_second,
            at_once: per_second.saturating_mul(UNIT_SECONDS),
        }
    }

    /// The rate of bytes for a declared bit rate: four times that, averaged over a minute. One unit of any length may be taken at once.
    pub fn of_bytes(bits_per_second: u64) -> Rate
        ensures value { result ≡ bytes_rate bits_per_second }
        ensures positive { 1 ≤ result.per_second }
    {
        let per_second = (bits_per_second / 2).max(1);
        Rate {
            per_second,
            at_once: per_second
                .saturating_mul(BYTE_SECONDS)
                .max(LEAST_BYTES_AT_ONCE),
        }
    }
}
