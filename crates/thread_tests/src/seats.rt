//! Two seats in two threads.
ghost use Rattle.std.specs.Prelude.{◌≡◌};
ghost use Rattle.metric_events.specs.Opening.{first_opening};

use crate::pair::{bring_from_both, finish_both, two_seats};
use delta_book::book::Book;
use ensure::ensure_eq;
use shared_book::audit::{Audit, AuditFault};
use shared_book::receipt::EventKind;
use shared_book::round::Round;
use shared_book::seat::Seat;
use shared_book::shared::SharedBook;
use std::alloc::Global;
use std::marker::Brand;
use std::process::Abort;
use std::sync::Wait;
use std::sync::ledger::{Blank, Ledger};
use std::test::Fail;
use std::thread::Threads;

/// The seat has receipts of admissions alone, each with its batch.
fn expect_admissions<L: Ledger>(rt: &impl Abort, seat: &Seat<L>) {
    for receipt in seat.receipts() {
        assert!(rt; receipt.kind == EventKind::Admit);
        assert!(rt; receipt.body.is_some());
    }
}

/// The round can't be ended without one of the seats; with both it is.
fn ends_with_both<L: Round>(
    rt: &impl Abort,
    alloc: Global,
    shared: SharedBook<L>,
    zero: Seat<L>,
    one: Seat<L>,
) -> Result<(Book, Audit), Fail> {
    let mut seats = Vec::new(alloc);
    seats.push(one)?;
    let (fault, shared, mut seats) = shared.finish(seats).err().ok_or("ended without a seat")?;
    ensure_eq!((fault, seats.len()), (AuditFault::SeatOut, 1));
    let one = seats.pop().ok_or("no seat")?;
    finish_both(alloc, shared, (one, zero))
}

fn four_admissions<L: Round + Send + Sync, R: Threads + Wait + Abort + Sync>(
    rt: &R,
    alloc: Global,
    blank: Blank,
) -> Result<(), Fail>
    requires name { blank.name ≡ L.name }
    requires ledger { blank.parts ≡ L.parts }
    requires parts { blank.parts ≡ 2 }
    requires opening { L.opening ≡ first_opening }
{
    let (shared, zero, one) = two_seats::<L>(alloc, blank)?;
    let (zero, one) = bring_from_both(rt, alloc, &shared, (zero, one))?;
    expect_admissions(rt, &zero);
    expect_admissions(rt, &one);
    let (book, audit) = ends_with_both(rt, alloc, shared, zero, one)?;
    let wanted = Audit {
        events: 8,
        admitted: 8,
        acknowledged: 0,
    };
    ensure_eq!((audit, book.journal().len()), (wanted, 8));
    Ok(())
}

#[test]
fn two_seats_of_four_admissions(rt: HostRuntime) -> Result<(), Fail> {
    four_admissions::<Brand, _>(&rt, rt.alloc(), Blank::new(2))
}
