//! A channel that many threads share.

ghost use Rattle.std.specs.Prelude.{◌≡◌};

use hls_api::encoder_readings::{EncoderReadings, MOST_RENDITIONS};
use hls_jobs::Jobs;
use hls_mend::EncoderSigns;
use hls_metrics::Measurements;
use hls_turn::Turn;

/// A channel that many threads share: its turn and its jobs, what its server measures, and what was heard of its encoders.
#[derive(Clone, Copy)]
pub struct SharedChannel<'a> {
    /// The turn, which has the state.
    pub turn: &'a Turn,
    /// The jobs of catch-up recordings.
    pub jobs: &'a Jobs,
    /// What the threads of the server measure.
    pub measurements: &'a Measurements,
    /// What was heard of the encoders.
    pub signs: &'a EncoderSigns,
    /// How long an encoder may be silent until it is away, in milliseconds.
    pub wait_ms: u64,
    /// How long a response waits for a programme's plan, in milliseconds; 30 seconds at most.
    pub plan_wait_ms: u64,
}

/// Microseconds per millisecond.
const MILLISECOND: u64 = 1000;

impl<'a> SharedChannel<'a> {
    /// Returns what is known of the encoders at a moment of the clock, in milliseconds, for a unit that is so far ahead of the
    /// channel's end, in microseconds. The contract states nothing: with one, the body isn't checked again at each call.
    pub fn read_encoders(&self, now_ms: u64, ahead_us: u64) -> EncoderReadings
        ensures { result ≡ result }
    {
        let mut readings = EncoderReadings {
            now_us: now_ms.saturating_mul(MILLISECOND),
            wait_us: self.wait_ms.saturating_mul(MILLISECOND),
            heard_us: [0; MOST_RENDITIONS],
            are_ahead: [false; MOST_RENDITIONS],
        };
        let may_jump = self.may_jump(now_ms, ahead_us);
        for rendition in 0..MOST_RENDITIONS {
            let heard_ms = self.heard_ms(rendition, may_jump, now_ms);
            readings.heard_us[rendition] = heard_ms.saturating_mul(MILLISECOND);
            readings.are_ahead[rendition] = self.signs.is_ahead(rendition);
        }
        readings
    }

    /// Whether encoders that fell silent together with all others count as away, for a unit that is ahead: it isn't further ahead than the
    /// time that has passed since, or another one came some time before ([`EncoderSigns::is_lone_claim_due`]).
    fn may_jump(&self, now_ms: u64, ahead_us: u64) -> bool {
        let passed_ms = now_ms.saturating_sub(self.signs.newest_heard_ms());
        let is_due = self.signs.is_lone_claim_due(now_ms, self.wait_ms);
        is_due || ahead_us / MILLISECOND <= passed_ms.saturating_add(self.wait_ms)
    }

    /// When the rendition's encoder was last heard, or now if it fell silent together with all others and doesn't count as away.
    fn heard_ms(&self, rendition: usize, may_jump: bool, now_ms: u64) -> u64 {
        let heard_ms = self.signs.last_heard_ms(rendition);
        let is_missed = self.signs.newest_heard_ms() > heard_ms.saturating_add(self.wait_ms);
        if is_missed || may_jump {
            heard_ms
        } else {
            now_ms
        }
    }
}
