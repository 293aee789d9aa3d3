//! The calls of a store.
ghost use Rattle.std.specs.Prelude.{◌<◌, ◌≤◌, length, option_map};
ghost use Rattle.std.specs.Result.{result_ok};
ghost use Rattle.delta_book.specs.Calls as book;
ghost use Rattle.gate_workers.specs.Calls as call;
ghost use Rattle.gate_workers.specs.Calls.{Call};

use crate::flush::Turn;
use crate::order::OrderFault;
use delta_book::faults::{
    AdmitFault, NotLive, NotOpen, NotQuarantined, QuarantineFault, TakeFault, UndoFault,
};
use delta_book::flush::Flush;
use delta_book::totals::SeriesTotals;
use metric_events::batch::Batch;
use metric_events::limits::MAX_TAKEN;
use metric_events::sender_name::SenderName;
use std::alloc::AllocError;

/// A store of points: the calls of a `Book`, from one seat.
pub trait Store {
    /// How a call with its answer changes the store. Where the store has a book of its own, that
    /// is the answer and what is stored then; where the book is shared, the receipts of its seat.
    ghost gives: { Self → Call → Self → Type 0 };

    fn admit(&mut self, body: Batch) -> Result<u64, (AdmitFault, Batch)>
        requires { 0 < length body.points }
        ensures { gives self.old (call.on_book (book.admit body result)) self.new };

    fn undo(&mut self, batch: u64) -> Result<(), UndoFault>
        ensures { gives self.old (call.on_book (book.undo batch result)) self.new };

    fn confirm(&mut self, batch: u64) -> Result<(), NotOpen>
        ensures { gives self.old (call.on_book (book.confirm batch result)) self.new };

    fn take(&mut self, max: usize) -> Result<Option<Flush>, TakeFault>
        requires low { 1 ≤ max }
        requires high { max ≤ MAX_TAKEN }
        ensures { gives self.old (call.on_book (book.take max result)) self.new };

    fn settle(&mut self, flush: u64) -> Result<(), NotLive>
        ensures { gives self.old (call.on_book (book.settle flush result)) self.new };

    fn drop_flush(&mut self, flush: u64) -> Result<(), NotLive>
        ensures { gives self.old (call.on_book (book.drop_flush flush result)) self.new };

    fn give_back(&mut self, flush: u64) -> Result<(), NotLive>
        ensures { gives self.old (call.on_book (book.give_back flush result)) self.new };

    fn quarantine(&mut self, sender: SenderName) -> Result<(), QuarantineFault>
        ensures { gives self.old (call.on_book (book.quarantine sender result)) self.new };

    fn lift(&mut self, sender: &SenderName) -> Result<(), NotQuarantined>
        ensures { gives self.old (call.on_book (book.lift sender.now result)) self.new };

    fn totals(&mut self) -> Result<Vec<SeriesTotals>, AllocError>
        ensures { gives self.old
            (call.on_book (book.totals (option_map (λ v. v.items) (result_ok result)))) self.new };
}

/// A store that can have a flush turn made. It is a trait of its own over the calls of the store,
/// since what keeps both a store and an uplink can't lend both to a turn.
pub trait Keeper: Store {
    /// Has a flush turn made, and returns its result.
    fn order(&mut self) -> Result<Turn, OrderFault>
        ensures { Self.gives self.old (call.order result) self.new };
}
