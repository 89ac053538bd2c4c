//! A connection's recent activity, and whether it is too slow.

ghost use Rattle.std.specs.Prelude.{◌≡◌, ◌≢◌, ◌≤◌};
ghost use Rattle.hls_event_loop.specs.Activity.{activity_with_bytes, activity_from, is_timed_out, is_silent, is_slow, with_restarted_count};

/// The longest time for a request head, in milliseconds.
const LONGEST_HEAD_MS: u64 = 10_000;

/// The longest time for which input after the last response is discarded, in milliseconds.
const LONGEST_LINGER_MS: u64 = 2000;

/// The longest silence after the last response, in milliseconds.
const QUIET_LINGER_MS: u64 = 250;

/// What a connection is doing.
#[derive(Clone, Copy, Debug, PartialEq, Eq, Drop)]
pub enum ConnectionStage {
    /// Nothing: no byte of the next request has arrived.
    Idle,
    /// Its request head is incomplete.
    Head,
    /// It receives an encoder's body.
    Ingesting,
    /// Its encoder's body isn't read for a while. The peer isn't waited for.
    Held,
    /// It receives a body that is discarded.
    Discarding,
    /// Its response waits for a change of the channel. The peer isn't waited for.
    Waiting,
    /// Its response is being made. The peer isn't waited for.
    Writing,
    /// It sends a response, or 100 Continue (RFC 9110 15.2.1).
    Responding,
    /// Its last response was sent, and further input is discarded (RFC 9112 9.6).
    Lingering,
}

/// A connection's stage, and the bytes that moved in it. Times are milliseconds of one clock.
#[derive(Clone, Copy, PartialEq, Eq, Drop)]
pub struct Activity {
    pub stage: ConnectionStage,
    /// When the stage began, or its byte count was last reset.
    pub since_ms: u64,
    /// When the stage began, or a byte last moved.
    pub moved_ms: u64,
    /// The bytes moved since `since_ms`.
    pub bytes: u64,
}

impl Activity {
    /// The activity of a stage that begins now.
    pub fn start(stage: ConnectionStage, now: u64) -> Activity
        ensures { result ≡ activity_from stage now }
    {
        Activity {
            stage,
            since_ms: now,
            moved_ms: now,
            bytes: 0,
        }
    }

    /// The activity in this stage: unchanged if it is the current one, else of a stage that begins now.
    pub fn enter(self, stage: ConnectionStage, now: u64) -> Activity
        ensures same { stage ≡ self.stage → result ≡ self }
        ensures other { stage ≢ self.stage → result ≡ activity_from stage now }
    {
        if stage == self.stage {
            self
        } else {
            Activity::start(stage, now)
        }
    }

    /// The activity after bytes were received or sent.
    pub fn with_bytes(self, bytes: u64, now: u64) -> Activity
        ensures { result ≡ activity_with_bytes bytes now self }
    {
        Activity {
            moved_ms: now,
            bytes: self.bytes.saturating_add(bytes),
            ..self
        }
    }

    /// Whether no byte has moved for the idle timeout.
    fn is_silent(self, idle_timeout_s: u64, now: u64) -> bool
        requires { idle_timeout_s ≤ 3600 }
        ensures { result ≡ is_silent idle_timeout_s self now }
    {
        now.saturating_sub(self.moved_ms) >= idle_timeout_s * 1000
    }

    /// Whether fewer than 1000 bytes per second have moved for the idle timeout.
    fn is_slow(self, idle_timeout_s: u64, now: u64) -> bool
        requires { idle_timeout_s ≤ 3600 }
        ensures { result ≡ is_slow idle_timeout_s self now }
    {
        let passed = now.saturating_sub(self.since_ms);
        passed >= idle_timeout_s * 1000 && self.bytes < passed
    }

    /// Whether the connection is too slow. A request head has ten seconds, or the idle timeout if that is less. In the other
    /// stages, silence for the idle timeout is too long; so are fewer than 1000 bytes per second over that time for a response or
    /// a discarded body. An encoder's body may be as slow as its encoder. While a body is held, and while a response waits or is made,
    /// the connection is never too slow.
    pub fn is_timed_out(self, idle_timeout_s: u64, now: u64) -> bool
        requires { idle_timeout_s ≤ 3600 }
        ensures { result ≡ is_timed_out idle_timeout_s self now }
    {
        match self.stage {
            ConnectionStage::Idle => self.is_silent(idle_timeout_s, now),
            ConnectionStage::Head => now.saturating_sub(self.since_ms)
                >= (idle_timeout_s * 1000).min(LONGEST_HEAD_MS),
            ConnectionStage::Ingesting => self.is_silent(idle_timeout_s, now),
            ConnectionStage::Discarding => self.is_silent(idle_timeout_s, now)
                || self.is_slow(idle_timeout_s, now),
            ConnectionStage::Held | ConnectionStage::Waiting | ConnectionStage::Writing => false,
            ConnectionStage::Responding => self.is_silent(idle_timeout_s, now)
                || self.is_slow(idle_timeout_s, now),
            ConnectionStage::Lingering => {
                now.saturating_sub(self.since_ms) >= LONGEST_LINGER_MS
                    || now.saturating_sub(self.moved_ms) >= QUIET_LINGER_MS
            }
        }
    }

    /// Resets the byte count once it covers the idle timeout, so that fast bytes don't make up for later slow ones.
    pub fn restart_count(self, idle_timeout_s: u64, now: u64) -> Activity
        requires { idle_timeout_s ≤ 3600 }
        ensures { result ≡ with_restarted_count idle_timeout_s now self }
    {
        let counts = matches!(
            self.stage,
            ConnectionStage::Discarding | ConnectionStage::Responding
        );
        if counts && now.saturating_sub(self.since_ms) >= idle_timeout_s * 1000 {
            return Activity {
                since_ms: now,
                bytes: 0,
                ..self
            };
        }
        self
    }
}
