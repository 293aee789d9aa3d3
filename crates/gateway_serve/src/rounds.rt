//! Rounds: the book is shared anew after so many connections.
ghost use Rattle.std.specs.Prelude.{◌≡◌, IfErr, IfOk, OnOk, List, ◌∷◌, min, unwrap_or};
ghost use Rattle.delta_book.specs.Journal.{history};
ghost use Rattle.delta_book.specs.Rounds.{closed, round_refusal};
ghost use Rattle.gateway_serve.specs.Rounds.{IsRun, ServedRound};
ghost use Rattle.gateway_serve.specs.inner.Rounds.{AreServed, CanServe, IsLastRound, close_fault};

use crate::acceptor::RoundCount;
use crate::fault::GatewayFault;
use crate::sums::Sums;
use delta_book::book::Book;
use delta_book::faults::RoundFault;
use gateway_options::ServeOptions;
use shared_book::audit::Audit;
use std::alloc::Global;

/// Closes the round of a book, and opens the next one.
fn close(book: &mut Book) -> Result<(), GatewayFault>
    ensures closed { OnOk result (book.new ≡ closed book.old) }
    ensures fault { IfErr result (λ fault. fault ≡ close_fault
        (unwrap_or (round_refusal (history book.old)) RoundFault.NoMemory)) }
{
    match book.close_round() {
        Ok(_) => Ok(()),
        Err(RoundFault::NoMemory) => Err(GatewayFault::NoMemory),
        Err(_) => Err(GatewayFault::AuditFailed),
    }
}

/// How many of the connections that are left the next round is given.
fn next_count(left: u64, round: u64) -> u64
    ensures { result ≡ min left round }
{
    if left < round { left } else { round }
}

/// Has all connections served over a new book, and gives it with the sums of the audits: a round is
/// closed after so many connections, unless none is left. So the number of the last round is how
/// many rounds these connections fill.
pub fn serve_rounds<F: FnMut(Book, u64) -> Result<(Book, Audit, RoundCount), GatewayFault>>(
    serve_round: &mut F,
    alloc: Global,
    options: &ServeOptions<'_>,
) -> Result<(Book, Sums), GatewayFault>
    requires { CanServe F.pre F.step }
    ensures run { IfOk result (λ r. (latest : ServedRound) × (earlier : List ServedRound)
        × AreServed F.step serve_round.old (latest ∷ earlier) serve_round.new
        × IsRun options.now.connections options.now.round options.now.connections latest earlier r.0
        r.1) }
    ensures last { IfOk result (λ r. IsLastRound options.now.connections options.now.round
        r.0.opening.round) }
{
    let Ok(new) = Book::new(alloc) else {
        return Err(GatewayFault::NoMemory);
    };
    let first = next_count(options.connections, options.round);
    let (mut book, audit, _) = serve_round(new, first)?;
    let mut sums = Sums::of(audit);
    let mut left = options.connections - first;
    while left > 0 {
        close(&mut book)?;
        let count = next_count(left, options.round);
        let (next, audit, _) = serve_round(book, count)?;
        book = next;
        sums = sums.and(audit);
        left -= count;
    }
    Ok((book, sums))
}
