//! Alerts that repeat at most once a minute.

ghost use Rattle.std.specs.Prelude.{◌≡◌, ◌-◌, ◌||◌, false, nat_eq, nat_le};
ghost use Rattle.hls_housekeeper.specs.Alerts.{alert_after, alert_change};

/// How long a lasting failure isn't logged again, in milliseconds.
const QUIET_MS: u64 = 60000;

/// Whether an alert that was last logged at `raised_at_ms` (0: never) is due again.
pub fn is_alert_due(raised_at_ms: u64, now: u64) -> bool
    ensures { result ≡ (nat_eq raised_at_ms 0 || nat_le 60000 (now - raised_at_ms)) }
{
    raised_at_ms == 0 || now.saturating_sub(raised_at_ms) >= QUIET_MS
}

/// What to log about a condition that may last.
#[derive(Clone, Copy)]
pub enum AlertChange {
    Unchanged,
    /// The condition holds.
    Raised,
    /// The condition has ended.
    Cleared,
}

/// A condition that may last, as it was last logged.
#[derive(Clone, Copy)]
pub struct Alert {
    /// Whether the condition was logged as holding, and not yet as ended.
    pub raised: bool,
    /// When it was last logged, in milliseconds of the clock; 0 if never.
    pub raised_at_ms: u64,
}

impl Alert {
    /// Returns an alert that was never logged.
    pub fn new() -> Alert
        ensures { result ≡ record { raised = false; raised_at_ms = 0 } }
    {
        Alert {
            raised: false,
            raised_at_ms: 0,
        }
    }

    /// Returns what to log, given whether the condition holds at `now`: that it holds, at most once a minute, and if `again` is false
    /// only once while it lasts; that it has ended, once, if it was logged as holding.
    pub fn update(&mut self, holds: bool, again: bool, now: u64) -> AlertChange
        ensures alert { self.new ≡ alert_after holds again now self.old }
        ensures change_is { result ≡ alert_change holds again now self.old }
    {
        let was_raised = self.raised;
        if !holds {
            self.raised = false;
            return if was_raised {
                AlertChange::Cleared
            } else {
                AlertChange::Unchanged
            };
        }
        if (was_raised && !again) || !is_alert_due(self.raised_at_ms, now) {
            return AlertChange::Unchanged;
        }
        self.raised = true;
        self.raised_at_ms = now;
        AlertChange::Raised
    }
}
