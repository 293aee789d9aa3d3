//! The value under the lock: the book and the ledger's count of its entries.
ghost use Rattle.std.specs.Prelude.{◌≡◌, ◌<◌, ◌≤◌, length, option_map};
ghost use Rattle.std.specs.Result.{result_ok};
ghost use Rattle.delta_book.specs.Calls as call;
ghost use Rattle.shared_book.specs.Moments.{IsMoment, IsCallAt};

use crate::receipt::EventKind;
use crate::round::Round;
use crate::seat::Seat;
use delta_book::book::Book;
use delta_book::faults::{
    AdmitFault, NotLive, NotOpen, NotQuarantined, QuarantineFault, TakeFault, UndoFault,
};
use delta_book::flush::Flush;
use delta_book::totals::SeriesTotals;
use metric_events::batch::Batch;
use metric_events::limits::MAX_TAKEN;
use metric_events::sender_name::SenderName;
use std::alloc::AllocError;
use std::marker::Model;
use std::sync::ledger;

/// The book, and the ledger's count of its entries. Contracts see the book's journal. Whenever the
/// lock is free, the journal has the opening of the round, each entry names a seat of this book,
/// and the ledger's total is the number of entries. The journal's history is legal, as that of
/// every book is.
#[derive(Drop)]
pub struct Locked<L: Round> {
    pub(crate) book: Book,
    pub(crate) events: ledger::Book<L>,
}

impl<L: Round> Model for Locked<L> {
    ghost use Rattle.delta_book.specs.Journal.{Journal};
    ghost use Rattle.shared_book.specs.inner.Moments.{IsLocked};

    ghost Value = { Journal };

    ghost view = { λ k. k.book };

    ghost invariant = { λ k. IsLocked L.parts L.opening k.book k.events.total };
}

impl<L: Round> Locked<L> {
    /// The seat's number. The ledger compares its total with the seat's share, so the journal is no
    /// shorter than the seat's receipts.
    fn seat_number(&mut self, seat: &mut Seat<L>) -> u16
        ensures number { result ≡ seat.old.number }
        ensures below { result < L.parts }
        ensures kept { self.new ≡ self.old }
        ensures seat { seat.new ≡ seat.old }
        ensures moment { IsMoment L.parts L.opening seat.old self.old }
    {
        let Locked { book, events } = self;
        seat.audit(events);
        // From this call it is known that the history is legal.
        let _entries = book.journal();
        seat.number()
    }

    /// As `Book::admit`, from the seat, which stores a receipt with the copy.
    pub fn admit(
        &mut self,
        seat: &mut Seat<L>,
        body: Batch,
        copy: Batch,
    ) -> Result<u64, (AdmitFault, Batch)>
        requires some { 0 < length body.points }
        requires copy { copy ≡ body }
        ensures { IsCallAt L.parts L.opening self.old self.new seat.old seat.new
            (call.admit body result) }
    {
        let number = self.seat_number(seat);
        let Locked { book, events } = self;
        let batch = book.admit(number, body)?;
        seat.note(book, events, EventKind::Admit, batch, Some(copy));
        Ok(batch)
    }

    /// As `Book::undo`, from the seat, which stores a receipt.
    pub fn undo(&mut self, seat: &mut Seat<L>, batch: u64) -> Result<(), UndoFault>
        ensures { IsCallAt L.parts L.opening self.old self.new seat.old seat.new
            (call.undo batch result) }
    {
        let number = self.seat_number(seat);
        let Locked { book, events } = self;
        book.undo(number, batch)?;
        seat.note(book, events, EventKind::Undo, batch, None);
        Ok(())
    }

    /// As `Book::confirm`, from the seat, which stores a receipt.
    pub fn confirm(&mut self, seat: &mut Seat<L>, batch: u64) -> Result<(), NotOpen>
        ensures { IsCallAt L.parts L.opening self.old self.new seat.old seat.new
            (call.confirm batch result) }
    {
        let number = self.seat_number(seat);
        let Locked { book, events } = self;
        book.confirm(number, batch)?;
        seat.note(book, events, EventKind::Confirm, batch, None);
        Ok(())
    }

    /// As `Book::take`, from the seat, which stores a receipt if a flush was taken.
    pub fn take(&mut self, seat: &mut Seat<L>, max: usize) -> Result<Option<Flush>, TakeFault>
        requires low { 1 ≤ max }
        requires high { max ≤ MAX_TAKEN }
        ensures { IsCallAt L.parts L.opening self.old self.new seat.old seat.new
            (call.take max result) }
    {
        let number = self.seat_number(seat);
        let Locked { book, events } = self;
        let Some(flush) = book.take(number, max)? else {
            return Ok(None);
        };
        seat.note(book, events, EventKind::Take, flush.number, None);
        Ok(Some(flush))
    }

    /// As `Book::settle`, from the seat, which stores a receipt.
    pub fn settle(&mut self, seat: &mut Seat<L>, flush: u64) -> Result<(), NotLive>
        ensures { IsCallAt L.parts L.opening self.old self.new seat.old seat.new
            (call.settle flush result) }
    {
        let number = self.seat_number(seat);
        let Locked { book, events } = self;
        book.settle(number, flush)?;
        seat.note(book, events, EventKind::Settle, flush, None);
        Ok(())
    }

    /// As `Book::drop_flush`, from the seat, which stores a receipt.
    pub fn drop_flush(&mut self, seat: &mut Seat<L>, flush: u64) -> Result<(), NotLive>
        ensures { IsCallAt L.parts L.opening self.old self.new seat.old seat.new
            (call.drop_flush flush result) }
    {
        let number = self.seat_number(seat);
        let Locked { book, events } = self;
        book.drop_flush(number, flush)?;
        seat.note(book, events, EventKind::Drop, flush, None);
        Ok(())
    }

    /// As `Book::give_back`, from the seat, which stores a receipt.
    pub fn give_back(&mut self, seat: &mut Seat<L>, flush: u64) -> Result<(), NotLive>
        ensures { IsCallAt L.parts L.opening self.old self.new seat.old seat.new
            (call.give_back flush result) }
    {
        let number = self.seat_number(seat);
        let Locked { book, events } = self;
        book.give_back(number, flush)?;
        seat.note(book, events, EventKind::GiveBack, flush, None);
        Ok(())
    }

    /// As `Book::quarantine`, from the seat, which stores a receipt.
    pub fn quarantine(
        &mut self,
        seat: &mut Seat<L>,
        sender: SenderName,
    ) -> Result<(), QuarantineFault>
        ensures { IsCallAt L.parts L.opening self.old self.new seat.old seat.new
            (call.quarantine sender result) }
    {
        let number = self.seat_number(seat);
        let Locked { book, events } = self;
        book.quarantine(number, sender)?;
        seat.note(book, events, EventKind::Quarantine, 0, None);
        Ok(())
    }

    /// As `Book::lift`, from the seat, which stores a receipt.
    pub fn lift(&mut self, seat: &mut Seat<L>, sender: &SenderName) -> Result<(), NotQuarantined>
        ensures { IsCallAt L.parts L.opening self.old self.new seat.old seat.new
            (call.lift sender.now result) }
    {
        let number = self.seat_number(seat);
        let Locked { book, events } = self;
        book.lift(number, sender)?;
        seat.note(book, events, EventKind::Lift, 0, None);
        Ok(())
    }

    /// As `Book::totals`. The seat does not change.
    pub fn totals(&mut self, seat: &mut Seat<L>) -> Result<Vec<SeriesTotals>, AllocError>
        ensures { IsCallAt L.parts L.opening self.old self.new seat.old seat.new
            (call.totals (option_map (λ v. v.items) (result_ok result))) }
    {
        // From this call it is known that the journal is one of this round.
        self.seat_number(seat);
        self.book.totals()
    }
}
