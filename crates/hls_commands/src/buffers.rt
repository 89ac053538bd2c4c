//! The buffer for reading a stream in pieces.
ghost use Rattle.std.specs.Prelude.{◌≡◌, ◌<◌, IfOk, vec_len};

use std::alloc::{AllocError, Global};

/// The size of a read, in bytes.
const PIECE_LEN: usize = 65536;

/// Allocates room for one piece.
pub fn new_buffer(alloc: Global) -> Result<Vec<u8>, AllocError>
    ensures { IfOk result (λ piece. 0 < vec_len piece) }
{
    vec![in alloc; 0; PIECE_LEN]
}
