//! One round, served by workers in threads.
ghost use Rattle.std.specs.Prelude.{◌≡◌, ◌+◌, [], IfOk};
ghost use Rattle.gateway_serve.specs.inner.Rounds.{IsOver};

use crate::accept::Listener;
use crate::acceptor::RoundCount;
use crate::fault::GatewayFault;
use crate::workers::serve_beside;
use delta_book::book::Book;
use gateway_options::ServeOptions;
use shared_book::audit::Audit;
use shared_book::round::Round;
use shared_book::shared::SharedBook;
use std::alloc::Global;
use std::marker::Brand;
use std::net::{Net, TcpListener, TcpStream};
use std::sync::Wait;
use std::sync::ledger::Blank;
use std::thread::Threads;
use std::time::Clock;

/// One round over a ledger: the book is shared, so many connections are accepted and served, and
/// the receipts of the workers are compared with the book.
fn round_over<
    L: Round + Send + Sync,
    R: Net<Listener = TcpListener, Stream = TcpStream> + Threads + Wait + Clock + Sync,
>(
    rt: &R,
    alloc: Global,
    blank: Blank,
    book: Book,
    listener: Listener,
    options: &ServeOptions<'_>,
    connections: u64,
) -> Result<(Book, Audit, RoundCount), GatewayFault>
    requires ledger { (blank.name ≡ L.name) × (blank.parts ≡ L.parts) }
    requires parts { blank.parts ≡ options.now.receivers + options.now.flushers }
    requires empty { book.entries ≡ [] }
    requires opening { book.opening ≡ L.opening }
    ensures over { IfOk result (λ r. IsOver book r.0 r.1) }
    ensures accepted { IfOk result (λ r. r.2.accepted ≡ connections) }
{
    let seats = options.receivers + options.flushers;
    let Ok((shared, seats)) = SharedBook::<L>::new(alloc, book, blank, seats) else {
        return Err(GatewayFault::NoMemory);
    };
    let (seats, count) = serve_beside(rt, alloc, &shared, seats, listener, options, connections)?;
    match shared.finish(seats) {
        Ok((book, audit)) => Ok((book, audit, count)),
        Err(_) => Err(GatewayFault::AuditFailed),
    }
}

/// One round over a ledger of its own.
pub fn one_round<
    R: Net<Listener = TcpListener, Stream = TcpStream> + Threads + Wait + Clock + Sync,
>(
    rt: &R,
    alloc: Global,
    listener: &TcpListener,
    options: &ServeOptions<'_>,
    book: Book,
    connections: u64,
) -> Result<(Book, Audit, RoundCount), GatewayFault>
    requires empty { book.entries ≡ [] }
    ensures over { IfOk result (λ r. IsOver book r.0 r.1) }
    ensures accepted { IfOk result (λ r. r.2.accepted ≡ connections) }
{
    let parts = u64::from(options.receivers) + u64::from(options.flushers);
    let blank = Blank::new(parts);
    let listener = Listener::new(listener)?;
    round_over::<Brand, R>(rt, alloc, blank, book, listener, options, connections)
}
