//! Zeros, copied in blocks: `Vec::resize` writes them one by one.

ghost use Rattle.std.specs.Prelude.{◌≡◌, ◌++◌, replicate, OnOk};

use std::alloc::AllocError;

/// What is copied.
static ZEROS: [u8; 4096] = [0; 4096];

/// Appends this number of zeros.
pub fn push_zeros(out: &mut Vec<u8>, count: usize) -> Result<(), AllocError>
    ensures { OnOk result (out.new.items ≡ out.old.items ++ replicate count 0) }
{
    out.reserve(count)?;
    let mut left = count;
    while left > 0 {
        let more = left.min(ZEROS.len());
        out.extend_from_slice(&ZEROS[..more])?;
        left -= more;
    }
    Ok(())
}
