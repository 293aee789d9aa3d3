//! What a socket is told: how long its calls may wait, and that nothing more is written to it.
ghost use Rattle.std.specs.Prelude.{Bool, OnOk, is_ok};
ghost use Rattle.std.specs.declared.time.Duration.{Duration};

use std::io;
use std::net::{Shutdown, TcpStream};
use std::time::Duration;

/// What can be told how long a call waits for the other side; one that would wait longer fails.
pub trait Timeouts {
    /// It was told how long its reads may wait.
    ghost sets_read_timeout: { Self → Duration → Type 0 };

    /// It was told how long its writes may wait.
    ghost sets_write_timeout: { Self → Duration → Type 0 };

    /// Bounds the wait of each later read.
    fn set_read_timeout(&self, wait: Duration) -> io::Result<()>
        ensures { OnOk result (sets_read_timeout self.now wait) };

    /// Bounds the wait of each later write.
    fn set_write_timeout(&self, wait: Duration) -> io::Result<()>
        ensures { OnOk result (sets_write_timeout self.now wait) };
}

impl Timeouts for &TcpStream {
    /// What a socket does with it no contract says.
    ghost sets_read_timeout = { λ stream wait. Unit {0} };

    ghost sets_write_timeout = { λ stream wait. Unit {0} };

    fn set_read_timeout(&self, wait: Duration) -> io::Result<()> {
        (**self).set_read_timeout(Some(wait))
    }

    fn set_write_timeout(&self, wait: Duration) -> io::Result<()> {
        (**self).set_write_timeout(Some(wait))
    }
}

/// What can be told that nothing more is written to it.
pub trait ShutdownWrite {
    /// It was told so, and that was done or failed.
    ghost shuts_write: { Self → Bool → Type 0 };

    /// Tells the other side that all was written.
    fn shutdown_write(&self) -> io::Result<()>
        ensures { shuts_write self.now (is_ok result) };
}

impl ShutdownWrite for &TcpStream {
    /// What a socket does no contract says.
    ghost shuts_write = { λ stream done. Unit {0} };

    fn shutdown_write(&self) -> io::Result<()> {
        self.shutdown(Shutdown::Write)
    }
}
