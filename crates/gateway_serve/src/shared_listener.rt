//! A round's listener, as its receivers share it.
ghost use Rattle.std.specs.Prelude.{◌≡◌, IfErr, IfOk, IfSome, IsSome};
ghost use Rattle.std.specs.Sync.Mutex.{mutex_guard_value};

use crate::accept::Accept;
use crate::acceptor::{Accepted, Acceptor, Permit, RoundCount, accept_one};
use crate::client_connection::ClientConnection;
use crate::fault::GatewayFault;
use gate_workers::Connections;
use shared_book::round::Round;
use std::net::TcpStream;
use std::sync::{Mutex, MutexGuard, Wait};
use std::time::Clock;

/// A round's listener, and its acceptor under a lock.
#[derive(Drop)]
pub struct SharedListener<A: Accept, L: Round> {
    listener: A,
    acceptor: Mutex<Acceptor<L>>,
}

impl<A: Accept, L: Round> SharedListener<A, L> {
    /// None of the round's workers has started, and none of its connections was accepted.
    pub fn new(listener: A, workers: u64, connections: u64) -> Self
        requires { L.parts ≡ workers }
        ensures { result.listener ≡ listener }
    {
        SharedListener {
            listener,
            acceptor: Mutex::new(Acceptor::new(workers, connections)),
        }
    }

    /// While this is held nothing more is permitted.
    pub fn hold<R: Wait>(&self, rt: &R) -> MutexGuard<'_, Acceptor<L>> {
        self.acceptor.lock(rt)
    }

    /// Accepts a connection, without the lock. Where it can't be accepted, the acceptor: locked,
    /// and closed, so that it permits none any more.
    fn accept<R: Wait>(
        &self,
        rt: &R,
        permit: Permit,
    ) -> Result<(A::Connection, Accepted), MutexGuard<'_, Acceptor<L>>>
        ensures accepted { IfOk result (λ r. A.accepts self.now.listener r.0) }
        ensures closed { IfErr result (λ acceptor. IsSome (mutex_guard_value acceptor).fault) }
    {
        if let Some(accepted) = accept_one(&self.listener, permit) {
            return Ok(accepted);
        }
        let mut acceptor = self.acceptor.lock(rt);
        acceptor.close(GatewayFault::CannotAccept);
        Err(acceptor)
    }

    /// Has the latest one noted, and accepts the next connection, without the lock. None once all
    /// were permitted, or after a fault. None also where it can't be accepted, which is a fault:
    /// then it ends the wait of the others.
    pub fn next<R: Wait>(
        &self,
        rt: &R,
        latest: Option<Accepted>,
    ) -> Option<(A::Connection, Accepted)>
        ensures { IfSome result (λ r. A.accepts self.now.listener r.0) }
    {
        let mut acceptor = self.acceptor.lock(rt);
        if let Some(accepted) = latest {
            acceptor.note(accepted);
        }
        let permit = acceptor.permit()?;
        drop(acceptor);
        match self.accept(rt, permit) {
            Ok(next) => Some(next),
            Err(acceptor) => {
                drop(acceptor);
                self.listener.shut();
                None
            }
        }
    }

    /// What the round gives, by its acceptor.
    pub fn end<T: Drop>(
        self,
        connections: u64,
        outcome: Result<T, GatewayFault>,
    ) -> Result<(T, RoundCount), GatewayFault>
        ensures { IfOk result (λ r. r.1.accepted ≡ connections) }
    {
        self.acceptor.into_inner().end(connections, outcome)
    }
}

/// The connections that a receiver accepts, and the clock that bounds them. The latest one is noted
/// with the next call: so a call takes the lock once.
#[derive(Drop)]
pub struct Incoming<'a, A: Accept, L: Round, C> {
    shared: &'a SharedListener<A, L>,
    clock: &'a C,
    latest: Option<Accepted>,
}

impl<'a, A: Accept<Connection = TcpStream>, L: Round, C: Clock> Incoming<'a, A, L, C> {
    pub fn new(shared: &'a SharedListener<A, L>, clock: &'a C) -> Self {
        Incoming {
            shared,
            clock,
            latest: None,
        }
    }
}

impl<'a, A: Accept<Connection = TcpStream>, L: Round, C: Clock> Connections
    for Incoming<'a, A, L, C> {
    type Connection = ClientConnection<'a, C>;

    /// A connection that it gives is one that the listener accepted.
    ghost gives = { λ before connection after.
        IfSome connection (λ c. A.accepts before.shared.now.listener c.stream) };

    fn next<R: Wait>(&mut self, rt: &R) -> Option<ClientConnection<'a, C>> {
        let (stream, accepted) = self.shared.next(rt, self.latest.take())?;
        self.latest = Some(accepted);
        Some(ClientConnection::new(self.clock, stream))
    }
}
