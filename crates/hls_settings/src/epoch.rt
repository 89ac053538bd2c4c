//! The epoch: the instant of time 0.
ghost use Rattle.std.specs.Prelude.{◌≡◌, IfSome};
ghost use Rattle.hls_core_laws.specs.Config.{IsEpoch};
ghost use Rattle.hls_settings.specs.Settings.{epoch_in, epoch_within, text_of};

use hls_core::config::LAST_EPOCH;
use hls_instants::parse_instant;

fn check_epoch(us: i64) -> Option<Option<i64>>
    ensures value { result ≡ epoch_within us }
    ensures bounds { IfSome result IsEpoch }
{
    if 0 <= us && us <= LAST_EPOCH {
        Some(Some(us))
    } else {
        None
    }
}

/// Reads the instant of time 0 from `--epoch`, in microseconds since 1970-01-01T00:00:00Z; `Some(None)` without the option, `None` if
/// its text is no instant, or one before 1970 or after 9000-01-01T00:00:00Z.
pub fn read_epoch(text: Option<&str>) -> Option<Option<i64>>
    ensures value { result ≡ epoch_in (text_of text.entry) }
    ensures bounds { IfSome result IsEpoch }
{
    match text {
        None => Some(None),
        Some(text) => check_epoch(parse_instant(text.as_bytes())?),
    }
}
