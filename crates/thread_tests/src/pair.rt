//! A book that two seats share: its start, batches from both seats, and its end.
ghost use Rattle.std.specs.Prelude.{◌≡◌};
ghost use Rattle.metric_events.specs.Opening.{first_opening};

use crate::bodies::{admit, four_bodies};
use delta_book::book::Book;
use metric_events::batch::Batch;
use shared_book::audit::Audit;
use shared_book::round::Round;
use shared_book::seat::Seat;
use shared_book::shared::SharedBook;
use std::alloc::Global;
use std::process::Abort;
use std::sync::Wait;
use std::sync::ledger::Blank;
use std::test::Fail;
use std::thread::{Threads, join};

/// A new book with two seats.
pub fn two_seats<L: Round>(
    alloc: Global,
    blank: Blank,
) -> Result<(SharedBook<L>, Seat<L>, Seat<L>), Fail>
    requires name { blank.name ≡ L.name }
    requires ledger { blank.parts ≡ L.parts }
    requires parts { blank.parts ≡ 2 }
    requires opening { L.opening ≡ first_opening }
{
    let book = Book::new(alloc)?;
    let (shared, mut seats) = SharedBook::<L>::new(alloc, book, blank, 2)
        .ok()
        .ok_or("no seats")?;
    let second = seats.pop().ok_or("no seat")?;
    let first = seats.pop().ok_or("no seat")?;
    Ok((shared, first, second))
}

/// Ends the round with these seats: the book and its audit.
pub fn finish<L: Round>(shared: SharedBook<L>, seats: Vec<Seat<L>>) -> Result<(Book, Audit), Fail> {
    match shared.finish(seats) {
        Ok(ended) => Ok(ended),
        Err(_) => Err(Fail::from("the audit failed")),
    }
}

/// Ends the round with both seats: the book and its audit.
pub fn finish_both<L: Round>(
    alloc: Global,
    shared: SharedBook<L>,
    seats: (Seat<L>, Seat<L>),
) -> Result<(Book, Audit), Fail> {
    let mut list = Vec::new(alloc);
    list.push(seats.0)?;
    list.push(seats.1)?;
    finish(shared, list)
}

fn bring<L: Round, R: Wait + Abort>(
    rt: &R,
    shared: &SharedBook<L>,
    seat: &mut Seat<L>,
    body: Batch,
) {
    if let Err(fault) = admit(rt, shared, seat, body) {
        assert_eq!(rt; Some(fault), None);
    }
}

/// Admits all batches from a seat, and returns the seat.
fn bring_all<L: Round, R: Wait + Abort>(
    rt: &R,
    shared: &SharedBook<L>,
    seat: Seat<L>,
    bodies: Vec<Batch>,
) -> Seat<L> {
    let mut seat = seat;
    for body in bodies {
        bring(rt, shared, &mut seat, body);
    }
    seat
}

/// Admits four batches from each seat, each in its own thread, and returns the seats.
pub fn bring_from_both<L: Round + Send + Sync, R: Threads + Wait + Abort + Sync>(
    rt: &R,
    alloc: Global,
    shared: &SharedBook<L>,
    seats: (Seat<L>, Seat<L>),
) -> Result<(Seat<L>, Seat<L>), Fail> {
    let (zero, one) = seats;
    let of_a = four_bodies(alloc, "a")?;
    let of_b = four_bodies(alloc, "b")?;
    Ok(join(
        rt,
        || bring_all(rt, shared, zero, of_a),
        || bring_all(rt, shared, one, of_b),
    ))
}
