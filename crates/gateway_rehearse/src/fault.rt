//! Why a rehearsal ended without a report.
use std::fmt::Display;
use thiserror::Error;

/// A fault that ends a rehearsal. `F` is the fault of what serves.
#[derive(Debug, Drop, Error)]
#[error_bound(F: Display)]
pub enum RehearsalFault<F> {
    /// No listener on an address of this machine.
    #[error("cannot listen")]
    CannotListen,
    /// A thread could not be started.
    #[error("cannot start a thread")]
    CannotStart,
    /// An allocation failed.
    #[error("no memory")]
    NoMemory,
    /// What serves has ended with a fault of its own.
    #[error("{0}")]
    Serving(F),
}
