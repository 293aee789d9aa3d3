//! Why the gateway ended without its report.
ghost use Rattle.std.specs.Prelude.{◌≡◌};
ghost use Rattle.gateway_serve.specs.declared.fault.GatewayFault.TheVariants.{NoMemory};

use std::alloc::AllocError;
use thiserror::Error;

/// A fault that ends the gateway.
#[derive(Clone, Copy, Debug, Drop, PartialEq, Eq, Error)]
pub enum GatewayFault {
    /// The address can't be listened on.
    #[error("cannot listen")]
    CannotListen,
    /// A connection could not be accepted.
    #[error("cannot accept")]
    CannotAccept,
    /// A worker's thread could not be started.
    #[error("cannot start a thread")]
    CannotStart,
    /// A growth was refused where no answer could tell it.
    #[error("no memory")]
    NoMemory,
    /// What the workers were told is not what the book holds, or the round could not be closed.
    #[error("audit failed")]
    AuditFailed,
    /// The report was not written whole.
    #[error("cannot write")]
    CannotWrite,
}

impl From<AllocError> for GatewayFault {
    ghost from_gives = { λ error fault. fault ≡ NoMemory };

    fn from(_error: AllocError) -> GatewayFault {
        GatewayFault::NoMemory
    }
}
