//! Tells one wrong clock from all renditions jumping.

ghost use Rattle.std.specs.Prelude.{◌≡◌};
ghost use Rattle.hls_mend_laws.specs.Jumps.{is_ahead_of, allows_jump as permits_jump, is_accepted_jump as may_jump};

use hls_mend_laws::presence::Presence;

/// Whether a unit that starts at `start_us` is ahead of the channel: more than `fill_us` after its end.
pub fn is_ahead_of_channel(fill_us: u64, newest_end_us: u64, start_us: u64) -> bool
    ensures { result ≡ is_ahead_of fill_us newest_end_us start_us }
{
    start_us > newest_end_us && start_us - newest_end_us > fill_us
}

/// Whether a rendition allows the others to jump: it isn't open, it is ahead itself, or its encoder is away.
fn allows_jump(wait_us: u64, now_us: u64, presence: Presence) -> bool
    ensures { result ≡ permits_jump wait_us now_us presence }
{
    !presence.is_open
        || presence.is_ahead
        || now_us > presence.heard_us && now_us - presence.heard_us > wait_us
}

/// Whether a unit that is ahead of the channel is accepted, given the other renditions: all of them have jumped or are away.
#[tactic(auto, unfolding(hls_mend_laws::specs::Jumps::is_accepted_jump))]
pub fn is_accepted_jump(wait_us: u64, now_us: u64, others: &[Presence]) -> bool
    ensures { result ≡ may_jump wait_us now_us others.now }
{
    others
        .iter()
        .all(|presence| allows_jump(wait_us, now_us, *presence))
}
