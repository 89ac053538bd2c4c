//! Allocation failures as a cause.

use std::alloc::{AllocError, AllocFailed};

/// An allocation failure, with or without the value that there was no room for. A fault type with a variant for it converts from both by
/// one `From`.
pub trait AllocFailure: Drop {}

impl AllocFailure for AllocError {}

impl<T: Drop> AllocFailure for AllocFailed<T> {}
