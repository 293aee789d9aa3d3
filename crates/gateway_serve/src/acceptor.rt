//! How many connections of a round may still be accepted, and how many were.
ghost use Rattle.std.specs.Prelude.{◌≡◌, ◌==◌, ◌+◌, ◌-◌, ◌^◌, min, Some, None, IfSome, IfNone};
ghost use Rattle.std.specs.Prelude.{IfOk, unwrap_or};
ghost use Rattle.gateway_serve.specs.inner.Accepted.{IsEnded, or_fault, round_fault, without_count};

use crate::accept::Accept;
use crate::fault::GatewayFault;
use shared_book::round::Round;
use std::marker::PhantomData;
use std::thread::{JoinHandle, Threads};

/// The right to accept one connection.
#[derive(Drop)]
pub struct Permit {
    of: PhantomData<()>,
}

/// A connection was accepted. There is one of these for each that was.
#[derive(Drop)]
pub struct Accepted {
    of: PhantomData<()>,
}

/// A worker of the round, in a thread that has started.
#[derive(Drop)]
pub struct Running<T> {
    worker: JoinHandle<T>,
}

impl<T> Running<T> {
    /// Waits until it ends, and gives what it returns.
    pub fn join<R: Threads>(self, rt: &R) -> T {
        let Running { worker } = self;
        worker.join(rt)
    }
}

/// Accepts one connection of the round, or none where it can't be accepted.
pub fn accept_one<A: Accept>(listener: &A, permit: Permit) -> Option<(A::Connection, Accepted)>
    ensures { IfSome result (λ r. A.accepts listener.now r.0) }
{
    let connection = listener.accept(permit)?;
    Some((connection, Accepted { of: PhantomData }))
}

/// How many connections a round has accepted. An acceptor alone makes one.
#[derive(Drop)]
pub struct RoundCount {
    accepted: u64,
}

/// Counts the connections of a round: once all its workers have started it permits so many to be
/// accepted, each once, and counts those that were. After a fault it permits none, and the first
/// fault counts. The receivers share it under a lock, and accept outside.
#[derive(Drop)]
pub struct Acceptor<L: Round> {
    awaited: u64,
    left: u64,
    accepted: u64,
    fault: Option<GatewayFault>,
    of: PhantomData<L>,
}

impl<L: Round> Acceptor<L> {
    /// None of the round's workers has started: one for each seat of its book. None of its
    /// connections was accepted.
    pub fn new(workers: u64, connections: u64) -> Self
        requires { L.parts ≡ workers }
        ensures awaited { result.awaited ≡ workers }
        ensures left { result.left ≡ connections }
        ensures accepted { result.accepted ≡ 0 }
        ensures fault { result.fault ≡ None }
    {
        Acceptor {
            awaited: workers,
            left: connections,
            accepted: 0,
            fault: None,
            of: PhantomData,
        }
    }

    /// Notes a worker that has started, by its thread's handle.
    pub fn start<T>(&mut self, worker: JoinHandle<T>) -> Running<T>
        ensures awaited { self.new.awaited ≡ self.old.awaited - 1 }
        ensures left { self.new.left ≡ self.old.left }
        ensures accepted { self.new.accepted ≡ self.old.accepted }
        ensures fault { self.new.fault ≡ self.old.fault }
    {
        if self.awaited > 0 {
            self.awaited -= 1;
        }
        Running { worker }
    }

    /// Permits one more to be accepted. None before all workers have started, once all were
    /// permitted, or after a fault.
    pub fn permit(&mut self) -> Option<Permit>
        ensures started { IfSome result (λ permit. self.old.awaited ≡ 0) }
        ensures left { IfSome result (λ permit. self.old.left ≡ self.new.left + 1) }
        ensures open { IfSome result (λ permit. self.old.fault ≡ None) }
        ensures ended { IfNone result (IsEnded self.old.awaited self.old.left self.old.fault
            × (self.new.left ≡ self.old.left)) }
        ensures fault { self.new.fault ≡ self.old.fault }
        ensures accepted { self.new.accepted ≡ self.old.accepted }
        ensures awaited { self.new.awaited ≡ self.old.awaited }
    {
        if self.awaited > 0 || self.left == 0 || self.fault.is_some() {
            return None;
        }
        self.left -= 1;
        Some(Permit { of: PhantomData })
    }

    /// Notes one that was accepted.
    pub fn note(&mut self, _accepted: Accepted)
        ensures accepted { self.new.accepted ≡ min (self.old.accepted + 1) (2 ^ 64 - 1) }
        ensures left { self.new.left ≡ self.old.left }
        ensures fault { self.new.fault ≡ self.old.fault }
        ensures awaited { self.new.awaited ≡ self.old.awaited }
    {
        self.accepted = self.accepted.saturating_add(1);
    }

    /// Permits no more.
    pub fn close(&mut self, fault: GatewayFault)
        ensures { self.new.fault ≡ Some (unwrap_or self.old.fault fault) }
    {
        if self.fault.is_none() {
            self.fault = Some(fault);
        }
    }

    /// What a round of so many connections gives: the first fault, if there is one, and
    /// `CannotAccept` where not so many were accepted; else the workers' outcome, and how many
    /// were.
    pub fn end<T: Drop>(
        &self,
        connections: u64,
        outcome: Result<T, GatewayFault>,
    ) -> Result<(T, RoundCount), GatewayFault>
        ensures fault { without_count result ≡ or_fault
            (round_fault (self.now.accepted == connections) self.now.fault) outcome }
        ensures accepted { IfOk result (λ r. r.1.accepted ≡ connections) }
    {
        match self.fault {
            Some(fault) => Err(fault),
            None if self.accepted != connections => Err(GatewayFault::CannotAccept),
            None => {
                let accepted = self.accepted;
                Ok((outcome?, RoundCount { accepted }))
            }
        }
    }
}
