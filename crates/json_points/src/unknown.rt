//! What is not read here.

use std::alloc::{AllocError, AllocFailed};

/// The text is not one that is known here, or an allocation failed: `otlp_read` reads it.
#[derive(Clone, Copy, Debug)]
pub struct Unknown;

impl From<AllocError> for Unknown {
    fn from(_e: AllocError) -> Unknown {
        Unknown
    }
}

impl<T: Drop> From<AllocFailed<T>> for Unknown {
    fn from(_e: AllocFailed<T>) -> Unknown {
        Unknown
    }
}
