//! How near a resource is to its limit, and when it will reach it.

ghost use Rattle.std.specs.Prelude.{◌≡◌, ◌≤◌, ◌^◌};
ghost use Rattle.hls_housekeeper.specs.Gauges.{time_left_ms, usage_level, gauge_with_usage, gauge_with_level, limit_warning};

/// The least age of a usage point before the next replaces it, in milliseconds: the rate covers the last half hour to an hour.
const HALF_HOUR_MS: u64 = 1_800_000;

/// How much was used at a moment, in milliseconds of the clock.
#[derive(Clone, Copy)]
pub struct UsagePoint {
    pub at: u64,
    pub used: u64,
}

/// The usage of a resource over time, as sampled.
#[derive(Clone, Copy)]
pub struct Gauge {
    /// The highest level reported so far, in percent; 0 before the first report.
    pub reported_level: u64,
    /// The rate is measured from this point.
    pub since: UsagePoint,
    /// The rate will be measured from this point once it is half an hour old.
    pub next: UsagePoint,
}

/// A warning that a resource nears its limit.
#[derive(Clone, Copy)]
pub struct LimitWarning {
    /// The level reached, in percent of the limit.
    pub level: u64,
    /// The time until the limit is reached at the current rate, in milliseconds; `None` where nothing was added since `since`.
    pub left: Option<u64>,
}

/// Returns the greatest of 80, 90, 95 and 99 percent of the limit that is used; 0 below the first.
fn usage_level(used: u64, limit: u64) -> u64
    requires used { used ≤ 2 ^ 56 }
    requires limit { limit ≤ 2 ^ 56 }
    ensures { result ≡ usage_level used limit }
{
    if used * 100 >= limit * 99 {
        return 99;
    }
    if used * 100 >= limit * 95 {
        return 95;
    }
    if used * 100 >= limit * 90 {
        return 90;
    }
    if used * 100 >= limit * 80 {
        return 80;
    }
    0
}

/// Returns how long the remaining amount lasts at the rate of `gained` in `passed` milliseconds.
fn time_left_ms(remaining: u64, gained: u64, passed: u64) -> Option<u64>
    ensures { result ≡ time_left_ms remaining gained passed }
{
    if gained == 0 {
        return None;
    }
    let time = u128::from(remaining) * u128::from(passed) / u128::from(gained);
    Some(u64::try_from(time).unwrap_or(u64::MAX))
}

impl Gauge {
    /// Returns a gauge that starts at `now` and has reported nothing.
    pub fn new(now: u64, used: u64) -> Gauge
        ensures { result ≡ record { reported_level = 0; since = record { at = now; used = used }; next = record { at = now; used = used } } }
    {
        let mark = UsagePoint { at: now, used };
        Gauge {
            reported_level: 0,
            since: mark,
            next: mark,
        }
    }

    /// Records the usage as a new point, if the later point is half an hour old.
    fn record_usage(&mut self, now: u64, used: u64)
        ensures { self.new ≡ gauge_with_usage now used self.old }
    {
        if now.saturating_sub(self.next.at) >= HALF_HOUR_MS {
            self.since = self.next;
            self.next = UsagePoint { at: now, used };
        }
    }

    /// Samples the usage at `now` and returns the warning to log; each level is reported once.
    pub fn update(&mut self, used: u64, limit: u64, now: u64) -> Option<LimitWarning>
        requires used { used ≤ 2 ^ 56 }
        requires limit { limit ≤ 2 ^ 56 }
        ensures gauge { self.new ≡ gauge_with_level (usage_level used limit) (gauge_with_usage now used self.old) }
        ensures reported_level { result ≡ limit_warning used limit now self.old }
    {
        let level = usage_level(used, limit);
        let since = self.since;
        self.record_usage(now, used);
        if level <= self.reported_level {
            return None;
        }
        self.reported_level = level;
        let gained = used.saturating_sub(since.used);
        let passed = now.saturating_sub(since.at);
        Some(LimitWarning {
            level,
            left: time_left_ms(limit.saturating_sub(used), gained, passed),
        })
    }
}
