ghost use Rattle.std.specs.Prelude.{◌≡◌, ◌≢◌, ◌<◌, ◌≤◌, [], length, sum_by, option_map, IfOk};
ghost use Rattle.std.specs.Prelude.{IfErr};
ghost use Rattle.std.specs.List.{All, Any};
ghost use Rattle.std.specs.Result.{result_ok};
ghost use Rattle.metric_events.specs.Standing.{standing};
ghost use Rattle.delta_book.specs.Calls as call;
ghost use Rattle.delta_book.specs.Journal.{Journal, history};
ghost use Rattle.delta_book.specs.Totals.{acknowledged_points};
ghost use Rattle.shared_book.specs.Receipts.{fresh_seats};
ghost use Rattle.shared_book.specs.Moments.{IsShared, IsSharedCall};
ghost use Rattle.shared_book.specs.Audits.{IsMatched, IsShort, AllSeated, admitted_points};

use crate::audit::{Audit, AuditFault, audit_of, check_seated};
use crate::locked::Locked;
use crate::round::Round;
use crate::seat::{MAX_SEATS, Seat, make_seats};
use delta_book::book::Book;
use delta_book::faults::{
    AdmitFault, NotLive, NotOpen, NotQuarantined, QuarantineFault, TakeFault, UndoFault,
};
use delta_book::flush::Flush;
use delta_book::totals::SeriesTotals;
use metric_events::batch::Batch;
use metric_events::limits::MAX_TAKEN;
use metric_events::sender_name::SenderName;
use std::alloc::{AllocError, Global};
use std::marker::Model;
use std::sync::ledger::Blank;
use std::sync::{Mutex, Wait};

/// A book that threads share for a round, each from its own seat. Contracts see how many seats
/// there are. Each call takes the lock, so it may wait. If it returns, it is the call of `Book` on
/// a journal of this round: it is legal, has the opening of the book that was passed in and entries
/// of these seats alone, and is no shorter than the seat's receipts. No contract says which of
/// these journals it is.
#[derive(Drop)]
pub struct SharedBook<L: Round> {
    alloc: Global,
    seats: u16,
    lock: Mutex<Locked<L>>,
}

impl<L: Round> Model for SharedBook<L> {
    ghost use Rattle.std.specs.Prelude.{◌≡◌, ◌<◌, ◌≤◌, ℕ};

    ghost Value = { ℕ };

    ghost view = { λ s. s.seats };

    ghost invariant = { λ s. (s.seats ≡ L.parts) × (0 < s.seats) };
}

impl<L: Round> SharedBook<L> {
    /// Shares a book whose round has no entry yet, from 1 to `MAX_SEATS` seats, numbered from 0.
    /// The blank is the ledger of `L`, with as many parts as seats, and the book's opening is that
    /// of `L`, which the contracts of each call and of `finish` name. All seats have room for the
    /// receipts of a whole round. If memory runs out, the error returns the book.
    pub fn new(
        alloc: Global,
        book: Book,
        blank: Blank,
        seats: u16,
    ) -> Result<(SharedBook<L>, Vec<Seat<L>>), (AllocError, Book)>
        requires name { blank.name ≡ L.name }
        requires ledger { blank.parts ≡ L.parts }
        requires parts { blank.parts ≡ seats }
        requires some { 0 < seats }
        requires few { seats ≤ MAX_SEATS }
        requires empty { book.entries ≡ [] }
        requires opening { book.opening ≡ L.opening }
        ensures shared { IfOk result (λ r. r.0 ≡ seats) }
        ensures fresh { IfOk result (λ r. r.1.items ≡ fresh_seats seats) }
        ensures err { IfErr result (λ e. e.1 ≡ book) }
    {
        let (events, whole) = blank.open::<L>();
        match make_seats(alloc, whole, seats) {
            Ok(list) => Ok((
                SharedBook {
                    alloc,
                    seats,
                    lock: Mutex::new(Locked { book, events }),
                },
                list,
            )),
            Err(fault) => Err((fault, book)),
        }
    }

    /// As `Book::admit`. The batch is copied first, for the receipt: if memory for the copy runs
    /// out, `NoMemory` comes before the other refusals. A refusal returns the batch.
    pub fn admit(
        &self,
        rt: &impl Wait,
        seat: &mut Seat<L>,
        body: Batch,
    ) -> Result<u64, (AdmitFault, Batch)>
        requires { 0 < length body.points }
        ensures { IsSharedCall L.parts L.opening seat.old seat.new (call.admit body result) }
    {
        let Ok(copy) = body.copy(self.alloc) else {
            return Err((AdmitFault::NoMemory, body));
        };
        self.lock.lock(rt).admit(seat, body, copy)
    }

    /// As `Book::undo`. Takes no memory.
    pub fn undo(&self, rt: &impl Wait, seat: &mut Seat<L>, batch: u64) -> Result<(), UndoFault>
        ensures { IsSharedCall L.parts L.opening seat.old seat.new (call.undo batch result) }
    {
        self.lock.lock(rt).undo(seat, batch)
    }

    /// As `Book::confirm`. Takes no memory.
    pub fn confirm(&self, rt: &impl Wait, seat: &mut Seat<L>, batch: u64) -> Result<(), NotOpen>
        ensures { IsSharedCall L.parts L.opening seat.old seat.new (call.confirm batch result) }
    {
        self.lock.lock(rt).confirm(seat, batch)
    }

    /// As `Book::take`. The receipt has the flush's number. After `None` the seat is unchanged.
    pub fn take(
        &self,
        rt: &impl Wait,
        seat: &mut Seat<L>,
        max: usize,
    ) -> Result<Option<Flush>, TakeFault>
        requires low { 1 ≤ max }
        requires high { max ≤ MAX_TAKEN }
        ensures { IsSharedCall L.parts L.opening seat.old seat.new (call.take max result) }
    {
        self.lock.lock(rt).take(seat, max)
    }

    /// As `Book::settle`. Takes no memory.
    pub fn settle(&self, rt: &impl Wait, seat: &mut Seat<L>, flush: u64) -> Result<(), NotLive>
        ensures { IsSharedCall L.parts L.opening seat.old seat.new (call.settle flush result) }
    {
        self.lock.lock(rt).settle(seat, flush)
    }

    /// As `Book::drop_flush`. Takes no memory.
    pub fn drop_flush(&self, rt: &impl Wait, seat: &mut Seat<L>, flush: u64) -> Result<(), NotLive>
        ensures { IsSharedCall L.parts L.opening seat.old seat.new (call.drop_flush flush result) }
    {
        self.lock.lock(rt).drop_flush(seat, flush)
    }

    /// As `Book::give_back`. Takes no memory.
    pub fn give_back(&self, rt: &impl Wait, seat: &mut Seat<L>, flush: u64) -> Result<(), NotLive>
        ensures { IsSharedCall L.parts L.opening seat.old seat.new (call.give_back flush result) }
    {
        self.lock.lock(rt).give_back(seat, flush)
    }

    /// As `Book::quarantine`.
    pub fn quarantine(
        &self,
        rt: &impl Wait,
        seat: &mut Seat<L>,
        sender: SenderName,
    ) -> Result<(), QuarantineFault>
        ensures { IsSharedCall L.parts L.opening seat.old seat.new (call.quarantine sender result) }
    {
        self.lock.lock(rt).quarantine(seat, sender)
    }

    /// As `Book::lift`. Takes no memory.
    pub fn lift(
        &self,
        rt: &impl Wait,
        seat: &mut Seat<L>,
        sender: &SenderName,
    ) -> Result<(), NotQuarantined>
        ensures { IsSharedCall L.parts L.opening seat.old seat.new (call.lift sender.now result) }
    {
        self.lock.lock(rt).lift(seat, sender)
    }

    /// As `Book::totals`. The seat does not change.
    pub fn totals(
        &self,
        rt: &impl Wait,
        seat: &mut Seat<L>,
    ) -> Result<Vec<SeriesTotals>, AllocError>
        ensures { IsSharedCall L.parts L.opening seat.old seat.new
            (call.totals (option_map (λ v. v.items) (result_ok result))) }
    {
        self.lock.lock(rt).totals(seat)
    }

    /// Ends the round: returns the book, with the opening of the book that was passed in, and the
    /// audit. Each seat's receipts are exactly the entries that name it, each once, in order.
    /// Errors: `SeatOut` if a seat is missing, then as `check`. An error returns everything. Takes
    /// no memory and does not wait.
    pub fn finish(
        self,
        seats: Vec<Seat<L>>,
    ) -> Result<(Book, Audit), (AuditFault, SharedBook<L>, Vec<Seat<L>>)>
        ensures matched { IfOk result (λ r. All (IsMatched r.0.entries) seats.items) }
        ensures seated { IfOk result (λ r. AllSeated self seats.items) }
        ensures once { IfOk result (λ r. length seats.items ≡ self) }
        ensures shared { IfOk result (λ r. IsShared L.parts L.opening r.0) }
        ensures events { IfOk result (λ r. r.1.events ≡ length r.0.entries) }
        ensures receipts { IfOk result (λ r. r.1.events ≡ sum_by
            (λ s. length s.receipts) seats.items) }
        ensures admitted { IfOk result (λ r. r.1.admitted ≡ admitted_points r.0.entries) }
        ensures acknowledged { IfOk result (λ r. r.1.acknowledged ≡ acknowledged_points
            (standing (history r.0)).series) }
        ensures out { IfErr result (λ e. e.0 ≡ AuditFault.SeatOut
            → ¬ (AllSeated self seats.items)) }
        ensures here { IfErr result (λ e. e.0 ≢ AuditFault.SeatOut → AllSeated self seats.items) }
        ensures missing { IfErr result (λ e. e.0 ≡ AuditFault.MissingReceipt → (j : Journal)
            × IsShared L.parts L.opening j × Any (IsShort j.entries) seats.items) }
        ensures stray { IfErr result (λ e. e.0 ≡ AuditFault.StrayEntry → (j : Journal)
            × IsShared L.parts L.opening j × All (λ s. ¬ (IsShort j.entries s)) seats.items
            × Any (λ s. ¬ (IsMatched j.entries s)) seats.items) }
        ensures back { IfErr result (λ e. (e.1 ≡ self) × (e.2.items ≡ seats.items)) }
    {
        let SharedBook {
            alloc,
            seats: count,
            lock,
        } = self;
        let locked = lock.into_inner();
        if let Err(fault) = check_seated(&locked.book, &seats, count) {
            let shared = SharedBook {
                alloc,
                seats: count,
                lock: Mutex::new(locked),
            };
            return Err((fault, shared, seats));
        }
        let Locked { book, events } = locked;
        let audit = audit_of(&book, events, seats);
        Ok((book, audit))
    }
}
