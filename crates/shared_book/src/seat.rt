ghost use Rattle.std.specs.Prelude.{◌≡◌, ◌↔◌, ◌+◌, ◌<◌, ◌≤◌, [], IsTrue, length, IfOk};
ghost use Rattle.metric_events.specs.Legal.{IsLegal};
ghost use Rattle.delta_book.specs.Journal.{history, IsNumbered};
ghost use Rattle.shared_book.specs.Audits.{is_seated, AllSeated};
ghost use Rattle.shared_book.specs.Receipts.{fresh_seats, seat_view, with_receipt};

use crate::receipt::{EventKind, Receipt};
use delta_book::book::Book;
use metric_events::batch::Batch;
use metric_events::limits::MAX_ENTRIES;
use std::alloc::{AllocError, Global};
use std::marker::Model;
use std::sync::ledger::{self, Ledger, Share};

/// The most seats of a shared book.
pub const MAX_SEATS: u16 = 16;

/// The seat of one thread at a shared book: its number, its share of the ledger of events, and the
/// receipts of all calls that were accepted from it in the round, in order. Contracts see the
/// number and the receipts. There are never more receipts than entries of the book.
#[derive(Drop)]
pub struct Seat<L: Ledger> {
    number: u16,
    share: Share<L>,
    receipts: Vec<Receipt>,
}

impl<L: Ledger> Model for Seat<L> {
    ghost use Rattle.std.specs.Prelude.{vec_len, vec_capacity};
    ghost use Rattle.shared_book.specs.Receipts.{SeatView, seat_view};
    ghost use Rattle.shared_book.specs.inner.Moments.{IsSeat};

    ghost Value = { SeatView };

    ghost view = { λ s. seat_view s.number s.receipts.items };

    ghost invariant = { λ s. IsSeat L.parts s.number s.share.parts s.share.amount
        (vec_len s.receipts) (vec_capacity s.receipts) };
}

impl<L: Ledger> Seat<L> {
    /// A seat without receipts, with room for all receipts of a round.
    pub(crate) fn new(alloc: Global, number: u16, share: Share<L>) -> Result<Seat<L>, AllocError>
        requires number { number < L.parts }
        requires few { L.parts ≤ MAX_SEATS }
        requires parts { share.parts ≡ 1 }
        requires amount { share.amount ≡ 0 }
        ensures { IfOk result (λ seat. seat ≡ seat_view number []) }
    {
        let receipts = Vec::with_capacity(alloc, MAX_ENTRIES)?;
        Ok(Seat {
            number,
            share,
            receipts,
        })
    }

    /// The number of the seat, from 0. Its entries in the journal have this number.
    pub fn number(&self) -> u16
        ensures value { result ≡ self.now.number }
        ensures below { result < L.parts }
        ensures few { result < MAX_SEATS }
    {
        self.number
    }

    /// The receipts of the round, in order. Takes no memory.
    pub fn receipts(&self) -> &[Receipt]
        ensures { result.now ≡ self.now.receipts }
    {
        self.receipts.as_slice()
    }

    /// Compares the seat's share with the ledger's total: there are no more receipts than events.
    pub(crate) fn audit(&mut self, events: &mut ledger::Book<L>)
        ensures seat { self.new ≡ self.old }
        ensures total { events.new.total ≡ events.old.total }
        ensures bound { length self.old.receipts ≤ events.old.total }
    {
        events.audit(&mut self.share);
    }

    /// Stores the receipt of the book's last entry, with the number or batch of its call, and
    /// counts the entry in the ledger.
    pub(crate) fn note(
        &mut self,
        book: &Book,
        events: &mut ledger::Book<L>,
        kind: EventKind,
        number: u64,
        body: Option<Batch>,
    )
        requires last { length book.now.entries ≡ events.old.total + 1 }
        requires long { length self.old.receipts ≤ events.old.total }
        ensures receipt { self.new ≡ with_receipt self.old
            (record { index = events.old.total; kind = kind; number = number; body = body }) }
        ensures total { events.new.total ≡ events.old.total + 1 }
        ensures legal { IsLegal (history book.now) }
        ensures numbered { IsNumbered (history book.now) }
    {
        let index = book.journal().len() as u64 - 1;
        let Seat {
            number: _,
            share,
            receipts,
        } = self;
        events.add(share, 1);
        receipts.push_reserved(Receipt {
            index,
            kind,
            number,
            body,
        });
    }

    /// The seat's share of the ledger, and how many receipts it has.
    pub(crate) fn into_share(self) -> (Share<L>, usize)
        ensures parts { result.0.parts ≡ 1 }
        ensures amount { result.0.amount ≡ length self.receipts }
        ensures count { result.1 ≡ length self.receipts }
    {
        let Seat {
            number: _,
            share,
            receipts,
        } = self;
        let count = receipts.len();
        (share, count)
    }
}

/// One seat for each part of the ledger.
pub(crate) fn make_seats<L: Ledger>(
    alloc: Global,
    whole: Share<L>,
    seats: u16,
) -> Result<Vec<Seat<L>>, AllocError>
    requires parts { whole.parts ≡ L.parts }
    requires amount { whole.amount ≡ 0 }
    requires seats { L.parts ≡ seats }
    requires few { seats ≤ MAX_SEATS }
    ensures { IfOk result (λ v. v.items ≡ fresh_seats seats) }
{
    let mut whole = whole;
    let mut list = Vec::new(alloc);
    for number in 0..seats {
        let share = whole.split_off(1, 0);
        list.push(Seat::new(alloc, number, share)?)?;
    }
    Ok(list)
}

/// Whether one of the seats has this number.
fn has_seat<L: Ledger>(seats: &[Seat<L>], number: u16) -> bool
    ensures { result ≡ is_seated number seats.now }
{
    for seat in seats {
        if seat.number() == number {
            return true;
        }
    }
    false
}

/// Whether each number below `count` is that of one of the seats.
pub(crate) fn all_seated<L: Ledger>(seats: &[Seat<L>], count: u16) -> bool
    ensures { IsTrue result ↔ AllSeated count seats.now }
{
    for number in 0..count {
        if !has_seat(seats, number) {
            return false;
        }
    }
    true
}
