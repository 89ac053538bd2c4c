//! Durations: of segments, of the live window, and of what is kept.
ghost use Rattle.std.specs.Prelude.{◌≡◌, ◌≤◌, IfOk};
ghost use Rattle.hls_core_laws.specs.Config.{IsTarget, IsPreferred};
ghost use Rattle.hls_settings.specs.Settings.{text_of, timing_of, window_in};

use crate::fault::SettingsFault;
use crate::number::{number_or_default, optional_number};

/// The greatest number of 16 digits.
const MOST_NUMBER: u64 = 9_999_999_999_999_999;

/// The durations of segments, of the live window and of the recording.
#[derive(Clone, Copy, Drop)]
pub struct WindowSettings {
    /// The target duration in seconds, 1 to 3600 (RFC 8216 section 4.3.3.1).
    pub target: u64,
    /// The preferred length of a segment in microseconds, 1 to the target duration.
    pub preferred: u64,
    /// The least duration of the live playlists, in microseconds: at least three target durations. All that is kept, if only what they
    /// show is given.
    pub window: u64,
    /// The duration that is kept for catch-up, in microseconds: at least the window.
    pub keep: u64,
    /// How much the live playlists by paths show, in microseconds, at least three target durations and at most the window; `None` if
    /// they show all that the live line keeps.
    pub shown_us: Option<u64>,
}

/// Reads the length of the window; `Some(None)` if it has none of its own, since `--live` alone says what live playlists show. It then is
/// all that is kept, so that players which began at an earlier place can stay there.
fn read_window(target: u64, window: Option<&str>, live: Option<&str>) -> Option<Option<u64>>
    requires { target ≤ 3600 }
    ensures { result ≡ window_in target (text_of window.entry) (text_of live.entry) }
{
    if window.is_none() && live.is_some() {
        return Some(None);
    }
    Some(Some(number_or_default(target * 3_000_000, MOST_NUMBER, 30_000_000, window)?))
}

/// Reads the given durations, with their defaults.
pub fn read_window_settings(
    target: Option<&str>,
    preferred: Option<&str>,
    window: Option<&str>,
    keep: Option<&str>,
    live: Option<&str>,
) -> Result<WindowSettings, SettingsFault>
    ensures valid { IfOk result (λ t. IsTarget t.target × IsPreferred t.target t.preferred) }
    ensures value { result ≡ timing_of (text_of target.entry) (text_of preferred.entry) (text_of window.entry) (text_of keep.entry) (text_of live.entry) }
{
    let Some(target) = number_or_default(1, 3600, 6, target) else {
        return Err(SettingsFault::Target);
    };
    let Some(preferred) = number_or_default(1, target * 1_000_000, 4_000_000, preferred) else {
        return Err(SettingsFault::Preferred);
    };
    let Some(window) = read_window(target, window, live) else {
        return Err(SettingsFault::Window);
    };
    let least = window.unwrap_or(target * 3_000_000);
    let Some(keep) = number_or_default(least, MOST_NUMBER, 3_600_000_000, keep) else {
        return Err(SettingsFault::Keep);
    };
    let window = window.unwrap_or(keep);
    let Some(shown_us) = optional_number(target * 3_000_000, window, live) else {
        return Err(SettingsFault::Live);
    };
    Ok(WindowSettings {
        target,
        preferred,
        window,
        keep,
        shown_us,
    })
}
