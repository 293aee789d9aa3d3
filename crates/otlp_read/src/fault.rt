//! The errors of reading a request.

ghost use Rattle.std.specs.Prelude.{◌≡◌};
ghost use Rattle.otlp_read.specs.declared.fault.ReadFault.TheVariants.{NoMemory};

use crate::place::Place;
use std::alloc::{AllocError, AllocFailed};

/// Why a body can't be read.
#[derive(Clone, Copy, Debug, PartialEq, Eq)]
pub enum ReadFault {
    /// `serde_json` reads no value: the bytes are no UTF-8, no JSON, or nested more than 127 deep.
    NotJson,
    /// A container has the wrong type. `Place` names the first one.
    WrongShape(Place),
    /// An allocation failed.
    NoMemory,
}

impl From<AllocError> for ReadFault {
    ghost from_gives = { λ _ e. e ≡ NoMemory };

    fn from(_e: AllocError) -> ReadFault {
        ReadFault::NoMemory
    }
}

impl<T: Drop> From<AllocFailed<T>> for ReadFault {
    ghost from_gives = { λ _ e. e ≡ NoMemory };

    fn from(_e: AllocFailed<T>) -> ReadFault {
        ReadFault::NoMemory
    }
}
