//! Calls that no program makes: `parse_instant` and `format_instant` with an allocator that they don't need.

ghost use Rattle.std.specs.Prelude.{ℤ, ◌≡◌, ◌≤ℤ◌, ⊤, Ok, IfOk, MatchOption};
ghost use Rattle.hls_instants.specs.Instants.{IsInstant, first_us, last_us, IsInstantText, IsWrittenInstant};
ghost use Rattle.hls_instants.specs.Instants as instants;

use crate::read::parse_instant;
use crate::write::format_instant;
use std::alloc::{AllocError, Global};

/// Reads an instant, as `parse_instant` does. Doesn't allocate, so there is no error.
pub fn read_instant(_alloc: Global, text: &[u8]) -> Result<Option<i64>, AllocError>
    ensures is { result ≡ Ok (instants.instant_of text.now) }
    ensures value { IfOk result (λ instant. MatchOption instant
        ((us : ℤ) → IsInstant text.now us → ⊥)
        (λ us. IsInstant text.now us)) }
    ensures bounds { IfOk result (λ instant. MatchOption instant ⊤ (λ us. (first_us ≤ℤ us) × (us ≤ℤ last_us))) }
{
    Ok(parse_instant(text))
}

/// Writes the text of an instant, as `format_instant` returns it. Returns its length, which is always 24. Doesn't allocate, so there is no
/// error.
pub fn write_instant(_alloc: Global, us: i64, out: &mut [u8; 24]) -> Result<usize, AllocError>
    requires { IsWrittenInstant us }
    ensures len { result ≡ Ok 24 }
    ensures is { out.new ≡ instants.instant_text us }
    ensures text { IsInstantText us out.new }
{
    *out = format_instant(us);
    Ok(24)
}
