//! Bodies that are discarded.

ghost use Rattle.std.specs.Prelude.{◌≡◌};
ghost use Rattle.hls_http.specs.Actions.{announced_len};

use crate::framing::BodyFraming;

/// Returns how many bytes of a body are known to be still to come.
pub fn announced_len(body: BodyFraming) -> u64
    ensures { result ≡ announced_len body }
{
    match body {
        BodyFraming::Length(left) | BodyFraming::Data(left) => left,
        _ => 0,
    }
}
