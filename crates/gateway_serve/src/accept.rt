//! Where a round's connections come in: what accepts one, and the system's listener.
ghost use Rattle.std.specs.Prelude.{◌≡◌, IfErr, IfSome};
ghost use Rattle.gateway_serve.specs.declared.fault.GatewayFault.TheVariants.{CannotAccept};

use crate::acceptor::Permit;
use crate::fault::GatewayFault;
use std::net::{Shutdown, TcpListener, TcpStream};
use std::os::fd::OwnedFd;

/// What accepts connections. Several threads may accept at once.
pub trait Accept: Drop {
    /// A connection that was accepted.
    type Connection: Drop;

    /// The connection came in here.
    ghost accepts: { Self → Self.Connection → Type 0 };

    /// Accepts one connection, for which there is a permit. None where it can't be accepted.
    fn accept(&self, permit: Permit) -> Option<Self::Connection>
        ensures { IfSome result (accepts self.now) };

    /// Ends the wait of each call that waits for a connection: it can't be accepted.
    fn shut(&self);
}

/// A round's own descriptor of the listener. What is shut is the listener's socket, by one more: a
/// `TcpListener` has no call for it.
#[derive(Drop)]
pub struct Listener {
    listener: TcpListener,
    socket: TcpStream,
}

impl Listener {
    /// `CannotAccept` where there are no descriptors.
    pub fn new(listener: &TcpListener) -> Result<Self, GatewayFault>
        ensures { IfErr result (λ fault. fault ≡ CannotAccept) }
    {
        let (Ok(listener), Ok(socket)) = (listener.try_clone(), listener.try_clone()) else {
            return Err(GatewayFault::CannotAccept);
        };
        let socket = TcpStream::from(OwnedFd::from(socket));
        Ok(Listener { listener, socket })
    }
}

impl Accept for Listener {
    type Connection = TcpStream;

    /// What comes in at a system's listener no contract says.
    ghost accepts = { λ listener connection. Unit {0} };

    fn accept(&self, _permit: Permit) -> Option<TcpStream> {
        let (stream, _) = self.listener.accept().ok()?;
        Some(stream)
    }

    fn shut(&self) {
        let _ = self.socket.shutdown(Shutdown::Read);
    }
}
