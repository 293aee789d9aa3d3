//! Why a script was not run to its end.

use thiserror::Error;

/// Why a script was not run to its end.
#[derive(Clone, Copy, Debug, Drop, PartialEq, Eq, Error)]
pub enum PlayFault {
    /// A call of the reader failed.
    #[error("cannot read")]
    CannotRead,
    /// The input has more than `MAX_INPUT` bytes.
    #[error("input too long")]
    TooLong,
    /// A call of the writer failed.
    #[error("cannot write")]
    CannotWrite,
    /// An allocation failed that no reply could report.
    #[error("no memory")]
    NoMemory,
}
