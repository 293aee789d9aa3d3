//! Connections are served by workers over one store, and the report is told at the end.
ghost use Rattle.std.specs.Prelude.{◌≡◌, IfOk, List, [], ◌∷◌};
ghost use Rattle.gateway_serve.specs.Ended.{IsEnding, ending_text};
ghost use Rattle.gateway_serve.specs.Rounds.{ServedRound};
ghost use Rattle.gateway_serve.specs.inner.Rounds.{AreServed, CanServe, IsOver};

use crate::acceptor::RoundCount;
use crate::fault::GatewayFault;
use crate::one_round::one_round;
use crate::rounds::serve_rounds;
use crate::sums::{Sums, put_last_line};
use delta_book::book::Book;
use gateway_options::ServeOptions;
use out_texts::report_text;
use shared_book::audit::Audit;
use std::alloc::{AllocError, Global};
use std::net::{Net, TcpListener, TcpStream};
use std::sync::Wait;
use std::thread::Threads;
use std::time::Clock;

/// The report of a book, and the line of the sums.
fn ending_of(alloc: Global, book: &Book, sums: Sums) -> Result<Vec<u8>, AllocError>
    ensures { IfOk result (λ text. text.items ≡ ending_text book.now sums) }
{
    let rows = book.totals()?;
    let mut text = report_text(alloc, rows.as_slice())?;
    put_last_line(&mut text, sums)?;
    Ok(text)
}

/// Has all connections served in rounds, and gives what is to be printed: the report of the last
/// round, and the sums of all audits.
fn tell_rounds<F: FnMut(Book, u64) -> Result<(Book, Audit, RoundCount), GatewayFault>>(
    serve_round: &mut F,
    alloc: Global,
    options: &ServeOptions<'_>,
) -> Result<Vec<u8>, GatewayFault>
    requires { CanServe F.pre F.step }
    ensures { IfOk result (λ text. (latest : ServedRound) × (earlier : List ServedRound)
        × AreServed F.step serve_round.old (latest ∷ earlier) serve_round.new
        × IsEnding options.now.connections options.now.round latest earlier text.items) }
{
    let (book, sums) = serve_rounds(serve_round, alloc, options)?;
    Ok(ending_of(alloc, &book, sums)?)
}

/// Serves so many connections of a listener by its workers, each flush on a connection of its own
/// to the back end, and gives what is to be printed: the report of the last round, and the sums of
/// all audits.
///
/// `CannotAccept` where a connection is refused, `CannotStart` where there is no thread for a
/// worker, `AuditFailed` where what the workers were told is not what the book holds, and
/// `NoMemory` where a growth was refused outside a request. Then nothing is given; what was served
/// before that stands with its senders. If it returns Ok, each round has accepted as many
/// connections as it was given.
pub fn serve_bound<
    R: Net<Listener = TcpListener, Stream = TcpStream> + Threads + Wait + Clock + Sync,
>(
    rt: &R,
    alloc: Global,
    listener: &TcpListener,
    options: &ServeOptions<'_>,
) -> Result<Vec<u8>, GatewayFault>
    ensures { IfOk result (λ text. (latest : ServedRound) × (earlier : List ServedRound)
        × IsEnding options.now.connections options.now.round latest earlier text.items) }
{
    let mut serve_round = |book: Book, connections: u64,| -> Result<
        (Book, Audit, RoundCount),
        GatewayFault,
    >
        requires { book.entries ≡ [] }
        ensures over { IfOk result (λ r. IsOver book r.0 r.1) }
        ensures accepted { IfOk result (λ r. r.2.accepted ≡ connections) }
    { one_round(rt, alloc, listener, options, book, connections) };
    tell_rounds(&mut serve_round, alloc, options)
}

/// Listens, and serves as `serve_bound`. `CannotListen` where the address is refused.
pub fn serve_all<
    R: Net<Listener = TcpListener, Stream = TcpStream> + Threads + Wait + Clock + Sync,
>(rt: &R, alloc: Global, options: &ServeOptions<'_>) -> Result<Vec<u8>, GatewayFault>
    ensures { IfOk result (λ text. (latest : ServedRound) × (earlier : List ServedRound)
        × IsEnding options.now.connections options.now.round latest earlier text.items) }
{
    let Ok(listener) = TcpListener::bind(rt, options.listen) else {
        return Err(GatewayFault::CannotListen);
    };
    serve_bound(rt, alloc, &listener, options)
}
