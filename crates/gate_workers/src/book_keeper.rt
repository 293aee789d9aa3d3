//! A keeper with a book of its own.
ghost use Rattle.std.specs.Prelude.{◌≤◌, ◌≡◌};
ghost use Rattle.metric_events.specs.declared.limits.TheConstants.{MAX_TAKEN};
ghost use Rattle.gate_workers.specs.BookCalls.{BookGives, KeeperGives, IsMade};
ghost use Rattle.gate_workers.specs.Paced.{IsTurnPaced};

use crate::flush::{Turn, Uplink, flush_turn};
use crate::order::OrderFault;
use crate::store::{Keeper, Store};
use crate::worker::{NoPace, Pace};
use delta_book::book::Book;
use delta_book::faults::{
    AdmitFault, NotLive, NotOpen, NotQuarantined, QuarantineFault, TakeFault, UndoFault,
};
use delta_book::flush::Flush;
use delta_book::totals::SeriesTotals;
use metric_events::batch::Batch;
use metric_events::limits::MAX_TAKEN;
use metric_events::sender_name::SenderName;
use std::alloc::{AllocError, Global};

/// A book, and the seat of its entries.
#[derive(Drop)]
pub struct SeatedBook {
    pub book: Book,
    pub seat: u16,
}

/// A keeper with a book and an uplink of its own. It waits for no other thread.
#[derive(Drop)]
pub struct BookKeeper<U> {
    seated: SeatedBook,
    uplink: U,
    max: usize,
    alloc: Global,
    ghost few: { (1 ≤ max) × (max ≤ MAX_TAKEN) },
}

impl Store for SeatedBook {
    ghost gives = { λ k c w. (w.seat ≡ k.seat) × BookGives k.seat k.book c w.book };

    fn admit(&mut self, body: Batch) -> Result<u64, (AdmitFault, Batch)> {
        self.book.admit(self.seat, body)
    }

    fn undo(&mut self, batch: u64) -> Result<(), UndoFault> {
        self.book.undo(self.seat, batch)
    }

    fn confirm(&mut self, batch: u64) -> Result<(), NotOpen> {
        self.book.confirm(self.seat, batch)
    }

    fn take(&mut self, max: usize) -> Result<Option<Flush>, TakeFault> {
        self.book.take(self.seat, max)
    }

    fn settle(&mut self, flush: u64) -> Result<(), NotLive> {
        self.book.settle(self.seat, flush)
    }

    fn drop_flush(&mut self, flush: u64) -> Result<(), NotLive> {
        self.book.drop_flush(self.seat, flush)
    }

    fn give_back(&mut self, flush: u64) -> Result<(), NotLive> {
        self.book.give_back(self.seat, flush)
    }

    fn quarantine(&mut self, sender: SenderName) -> Result<(), QuarantineFault> {
        self.book.quarantine(self.seat, sender)
    }

    fn lift(&mut self, sender: &SenderName) -> Result<(), NotQuarantined> {
        self.book.lift(self.seat, sender)
    }

    fn totals(&mut self) -> Result<Vec<SeriesTotals>, AllocError> {
        self.book.totals()
    }
}

/// A flush turn of a book.
pub fn book_turn<T: Drop, U: Uplink<Pass = T>, P: Pace<Pass = T>>(
    alloc: Global,
    seated: &mut SeatedBook,
    uplink: &mut U,
    pace: &mut P,
    max: usize,
) -> Turn
    requires low { 1 ≤ max }
    requires high { max ≤ MAX_TAKEN }
    ensures seat { seated.new.seat ≡ seated.old.seat }
    ensures made { IsMade U.sends seated.old.seat max seated.old.book seated.new.book uplink.old
        uplink.new result }
    ensures paced { IsTurnPaced P.reaches pace.old pace.new result }
{
    flush_turn(alloc, seated, uplink, pace, max)
}

impl<U: Uplink<Pass = ()> + Drop> BookKeeper<U> {
    /// A keeper of this book. A flush takes at most `max` series.
    pub fn new(alloc: Global, book: Book, seat: u16, uplink: U, max: usize) -> BookKeeper<U>
        requires low { 1 ≤ max }
        requires high { max ≤ MAX_TAKEN }
        ensures book { result.seated.book ≡ book }
        ensures seat { result.seated.seat ≡ seat }
        ensures uplink { result.uplink ≡ uplink }
        ensures max { result.max ≡ max }
    {
        BookKeeper {
            seated: SeatedBook { book, seat },
            uplink,
            max,
            alloc,
        }
    }

    /// The book, with all entries.
    pub fn into_book(self) -> Book
        ensures { result ≡ self.seated.book }
    {
        let BookKeeper { seated, .. } = self;
        let SeatedBook { book, .. } = seated;
        book
    }
}

impl<U: Uplink<Pass = ()> + Drop> Store for BookKeeper<U> {
    ghost gives = { λ k c w. (w.seated.seat ≡ k.seated.seat) × (w.max ≡ k.max)
        × KeeperGives U.sends k.seated.seat k.max k.seated.book k.uplink c w.seated.book w.uplink };

    fn admit(&mut self, body: Batch) -> Result<u64, (AdmitFault, Batch)> {
        self.seated.admit(body)
    }

    fn undo(&mut self, batch: u64) -> Result<(), UndoFault> {
        self.seated.undo(batch)
    }

    fn confirm(&mut self, batch: u64) -> Result<(), NotOpen> {
        self.seated.confirm(batch)
    }

    fn take(&mut self, max: usize) -> Result<Option<Flush>, TakeFault> {
        self.seated.take(max)
    }

    fn settle(&mut self, flush: u64) -> Result<(), NotLive> {
        self.seated.settle(flush)
    }

    fn drop_flush(&mut self, flush: u64) -> Result<(), NotLive> {
        self.seated.drop_flush(flush)
    }

    fn give_back(&mut self, flush: u64) -> Result<(), NotLive> {
        self.seated.give_back(flush)
    }

    fn quarantine(&mut self, sender: SenderName) -> Result<(), QuarantineFault> {
        self.seated.quarantine(sender)
    }

    fn lift(&mut self, sender: &SenderName) -> Result<(), NotQuarantined> {
        self.seated.lift(sender)
    }

    fn totals(&mut self) -> Result<Vec<SeriesTotals>, AllocError> {
        self.seated.totals()
    }
}

impl<U: Uplink<Pass = ()> + Drop> Keeper for BookKeeper<U> {
    fn order(&mut self) -> Result<Turn, OrderFault> {
        Ok(book_turn(
            self.alloc,
            &mut self.seated,
            &mut self.uplink,
            &mut NoPace,
            self.max,
        ))
    }
}
