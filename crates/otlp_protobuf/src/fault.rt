//! The errors of reading a request.

use crate::malformed::Malformed;

/// Why a body can't be read.
#[derive(Clone, Copy, Debug, PartialEq, Eq)]
pub enum ReadFault {
    /// The bytes are no request. `Malformed` is the first fault.
    Malformed(Malformed),
    /// An allocation failed.
    NoMemory,
}
