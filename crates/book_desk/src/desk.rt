//! The books of a desk, each with the series that belong to it.
ghost use Rattle.std.specs.Prelude.{◌≡◌, ◌≢◌, ◌≤◌, [], None, length, true, false};
ghost use Rattle.std.specs.Prelude.{OnOk, OnErr, IfErr, IfOk, IfSome, IfNone, ◌<◌};
ghost use Rattle.std.specs.List.{All};
ghost use Rattle.delta_book.specs.Journal.{journal_of};
ghost use Rattle.metric_events.specs.Opening.{first_opening};
ghost use Rattle.book_desk.specs.Each.{Each, EachBook};
ghost use Rattle.book_desk.specs.Ends.{IsEndedBy, IsNotEnded, AreLeft};
ghost use Rattle.book_desk.specs.Holds.{Holds, RestsFrom, Releases, HoldFails, hold_refusal};
ghost use Rattle.book_desk.specs.Holds.{is_held_in};
ghost use Rattle.book_desk.specs.Crossings.{IsCrossing, NoneCrosses};
ghost use Rattle.book_desk.specs.Posts.{Keeps};
ghost use Rattle.book_desk.specs.Takes as takes;
ghost use Rattle.book_desk.specs.Takes.{Takes, IsNotTaken, take_all_refusal};
ghost use Rattle.book_desk.specs.Takes.{IsTakenAlone, IsNotTakenAlone};
ghost use Rattle.book_desk.specs.Rounds.{IsClosedAlone, most_entries};
ghost use Rattle.book_desk.specs.Written as written;
ghost use Rattle.book_desk.specs.Written.{IsReported, IsNotReported, all_series};
ghost use Rattle.book_desk.specs.Refusals.{post_refusal, IsNotAdmitted};

use crate::cross::crosses;
use crate::end::{End, end_each};
use crate::flushes::{Flushes, TextFault, count};
use crate::hold::{hold_each, lift_each};
use crate::none::none_of;
use crate::post::admit_each;
use crate::reader::Reader;
use crate::rounds::{close_long, count_entries};
use crate::take::{take_each, take_one};
use delta_book::book::Book;
use delta_book::faults::{AdmitFault, QuarantineFault, TakeFault};
use metric_events::limits::MAX_TAKEN;
use metric_events::sender_name::SenderName;
use out_texts::report_text;
use std::alloc::{AllocError, Global};

/// Many books.
#[derive(Drop)]
pub struct Desk {
    pub alloc: Global,
    pub books: Vec<Book>,
}

/// Why a post is not admitted.
#[derive(Clone, Copy, Debug, PartialEq, Eq)]
pub enum DeskFault {
    /// Nothing was read for so many books.
    Nothing,
    /// The post is refused.
    Refused(AdmitFault),
}

/// Nothing was read for so many books.
#[derive(Clone, Copy, Debug, PartialEq, Eq)]
pub struct NothingRead;

/// Why flushes are not taken.
#[derive(Clone, Copy, Debug, PartialEq, Eq)]
pub enum TakeAllFault {
    /// Those that were taken before are not ended.
    NotEnded,
    /// There is nothing to take.
    Nothing,
    /// A book refuses.
    Refused(TakeFault),
}

/// Why flushes are not ended.
#[derive(Clone, Copy, Debug, PartialEq, Eq)]
pub enum EndFault {
    /// There are none of so many books.
    Nothing,
    /// One of them is not live.
    NotLive,
}

/// How many series a book has.
#[tactic(auto, using(crate::proofs::Counts::same_length))]
fn series_of(book: &Book) -> usize
    ensures { result ≡ written.series_of book.now }
{
    book.cells().len()
}

/// How many series these books have.
#[tactic(auto, using(std::proofs::lemmas::List::Sums::fold_more))]
fn all_series(books: &[Book]) -> usize
    ensures { result ≡ written.all_series books.now }
{
    let mut total: usize = 0;
    for book in books {
        total = total.saturating_add(series_of(book));
    }
    total
}

impl Desk {
    /// So many books, in which nothing has happened.
    pub fn new(alloc: Global, count: usize) -> Result<Desk, AllocError>
        ensures count { IfOk result (λ desk. length desk.books.items ≡ count) }
        ensures books { IfOk result (λ desk. All (λ b. b ≡ journal_of first_opening [])
            desk.books.items) }
    {
        let mut books = Vec::with_capacity(alloc, count)?;
        for _ in 0..count {
            books.push(Book::new(alloc)?)?;
        }
        Ok(Desk { alloc, books })
    }

    /// Admits what the reader has read, which is gone from it then. All books have their parts
    /// afterwards, confirmed, and nothing else has happened. Or each book is as it was, its journal
    /// included. The refusal is the one that comes first in the whole post.
    pub fn admit(&mut self, reader: &mut Reader) -> Result<(), DeskFault>
        ensures taken { OnOk result (Each Keeps self.old.books.items self.new.books.items
            reader.old) }
        ensures none { OnOk result (post_refusal self.old.books.items reader.old ≡ None) }
        ensures refused { IfErr result (λ e. IsNotAdmitted self.old.books.items reader.old e) }
        ensures same { OnErr result (self.new.books.items ≡ self.old.books.items) }
        ensures gone { reader.new ≡ [] }
    {
        let mut parts = reader.take_parts();
        if parts.len() != self.books.len() {
            return Err(DeskFault::Nothing);
        }
        match admit_each(&mut self.books, &mut parts, false) {
            None => Ok(()),
            Some(fault) => Err(DeskFault::Refused(fault)),
        }
    }

    /// Whether all books would take what the reader has read, which is gone from it then: the
    /// answer is the one that `admit` would give. Each book is as it was, its journal included.
    /// Memory may run out, since the parts are put to find out.
    pub fn try_admit(&mut self, reader: &mut Reader) -> Result<(), DeskFault>
        ensures none { OnOk result (post_refusal self.old.books.items reader.old ≡ None) }
        ensures refused { IfErr result (λ e. IsNotAdmitted self.old.books.items reader.old e) }
        ensures same { self.new.books.items ≡ self.old.books.items }
        ensures gone { reader.new ≡ [] }
    {
        let mut parts = reader.take_parts();
        if parts.len() != self.books.len() {
            return Err(DeskFault::Nothing);
        }
        match admit_each(&mut self.books, &mut parts, true) {
            None => Ok(()),
            Some(fault) => Err(DeskFault::Refused(fault)),
        }
    }

    /// The first book, from the `first`-th on, that holds something pending of a series of which
    /// the reader has a point in a later stretch of so many nanoseconds. Takes no memory.
    pub fn crosses(
        &self,
        reader: &Reader,
        stretch: u64,
        first: usize,
    ) -> Result<Option<usize>, NothingRead>
        requires { 0 < stretch }
        ensures crossing { IfOk result (λ found. IfSome found (λ i. IsCrossing stretch
            self.now.books.items reader.now first i)) }
        ensures none { IfOk result (λ found. IfNone found (NoneCrosses stretch
            self.now.books.items reader.now first (length self.now.books.items))) }
        ensures read { OnOk result (length reader.now ≡ length self.now.books.items) }
        ensures nothing { OnErr result (length reader.now ≢ length self.now.books.items) }
    {
        let parts = reader.parts();
        if parts.len() != self.books.len() {
            return Err(NothingRead);
        }
        for i in first..parts.len() {
            if crosses(stretch, &self.books[i], &parts[i]) {
                return Ok(Some(i));
            }
        }
        Ok(None)
    }

    /// Takes a flush of at most so many series of each book that has some, and returns how many
    /// flushes came. Where one refuses, the others get back what they gave.
    pub fn take(&mut self, flushes: &mut Flushes, max: usize) -> Result<usize, TakeAllFault>
        requires low { 1 ≤ max }
        requires high { max ≤ MAX_TAKEN }
        ensures taken { OnOk result (Each (Takes max) self.old.books.items self.new.books.items
            flushes.new.flushes.items) }
        ensures none { OnOk result (take_all_refusal self.old.books.items max ≡ None) }
        ensures count { IfOk result (λ n. n ≡ takes.count flushes.new.flushes.items) }
        ensures some { IfOk result (λ n. 1 ≤ n) }
        ensures refused { IfErr result (λ e. IsNotTaken max self.old.books.items
            self.new.books.items flushes.old.flushes.items e) }
        ensures same { OnErr result (flushes.new ≡ flushes.old) }
        ensures text { flushes.new.text ≡ flushes.old.text }
    {
        if !flushes.flushes.is_empty() {
            return Err(TakeAllFault::NotEnded);
        }
        let Ok(mut taken) = none_of(self.alloc, self.books.len()) else {
            return Err(TakeAllFault::Refused(TakeFault::NoMemory));
        };
        match take_each(&mut self.books, &mut taken, max) {
            Err(fault) => Err(TakeAllFault::Refused(fault)),
            Ok(()) => match count(&taken) {
                0 => Err(TakeAllFault::Nothing),
                found => {
                    flushes.flushes = taken;
                    Ok(found)
                }
            },
        }
    }

    /// As `take`, of the i-th book alone: one flush, in the place of that book.
    pub fn take_book(
        &mut self,
        flushes: &mut Flushes,
        i: usize,
        max: usize,
    ) -> Result<(), TakeAllFault>
        requires low { 1 ≤ max }
        requires high { max ≤ MAX_TAKEN }
        ensures taken { OnOk result (IsTakenAlone max i self.old.books.items self.new.books.items
            flushes.new.flushes.items) }
        ensures refused { IfErr result (λ e. IsNotTakenAlone max i self.old.books.items
            self.new.books.items flushes.old.flushes.items e) }
        ensures same { OnErr result (flushes.new ≡ flushes.old) }
        ensures text { flushes.new.text ≡ flushes.old.text }
    {
        if !flushes.flushes.is_empty() {
            return Err(TakeAllFault::NotEnded);
        }
        if i >= self.books.len() {
            return Err(TakeAllFault::Nothing);
        }
        let Ok(mut taken) = none_of(self.alloc, self.books.len()) else {
            return Err(TakeAllFault::Refused(TakeFault::NoMemory));
        };
        match take_one(&mut self.books[i], max) {
            Ok(flush) => {
                taken[i] = Some(flush);
                flushes.flushes = taken;
                Ok(())
            }
            Err(fault) => Err(fault),
        }
    }

    /// Ends all flushes that were taken.
    pub fn end(&mut self, flushes: &mut Flushes, end: End) -> Result<(), EndFault>
        ensures ended { OnOk result (Each (IsEndedBy end) self.old.books.items
            self.new.books.items flushes.old.flushes.items) }
        ensures refused { IfErr result (λ e. IsNotEnded end self.old.books.items
            self.new.books.items flushes.old.flushes.items e) }
        ensures left { AreLeft result flushes.old.flushes.items flushes.new.flushes.items }
        ensures text { flushes.new.text ≡ flushes.old.text }
    {
        if flushes.flushes.len() != self.books.len() {
            return Err(EndFault::Nothing);
        }
        let are_live = end_each(end, &mut self.books, &mut flushes.flushes);
        flushes.flushes = Vec::new(self.alloc);
        if are_live {
            Ok(())
        } else {
            Err(EndFault::NotLive)
        }
    }

    /// Quarantines the sender in all books, or in none.
    pub fn quarantine(&mut self, sender: &SenderName) -> Result<(), QuarantineFault>
        ensures held { OnOk result (EachBook (Holds sender.now) self.old.books.items
            self.new.books.items) }
        ensures refused { OnErr result (EachBook (RestsFrom sender.now) self.old.books.items
            self.new.books.items) }
        ensures none { OnOk result (hold_refusal self.old.books.items sender.now ≡ None) }
        ensures fault { IfErr result (λ e. HoldFails e
            (hold_refusal self.old.books.items sender.now)) }
    {
        hold_each(self.alloc, &mut self.books, sender)
    }

    /// Releases the sender in each book in which it is quarantined: whether there is one.
    pub fn lift(&mut self, sender: &SenderName) -> bool
        ensures held { result ≡ is_held_in self.old.books.items sender.now }
        ensures released { EachBook (Releases sender.now) self.old.books.items
            self.new.books.items }
        ensures same { result ≡ false → self.new.books.items ≡ self.old.books.items }
    {
        lift_each(&mut self.books, sender)
    }

    /// Closes the round of the i-th book alone, if its journal has at least so many entries and
    /// nothing is open or live there: whether it did.
    pub fn close_round(&mut self, i: usize, entries: usize) -> bool
        ensures closed { result ≡ true → IsClosedAlone entries i self.old.books.items
            self.new.books.items }
        ensures same { result ≡ false → self.new.books.items ≡ self.old.books.items }
    {
        if i >= self.books.len() {
            return false;
        }
        close_long(&mut self.books[i], entries)
    }

    /// How many entries the longest of the books' journals has.
    pub fn entries(&self) -> usize
        ensures { result ≡ most_entries self.now.books.items }
    {
        count_entries(&self.books)
    }

    /// How many series all books have.
    pub fn series(&self) -> usize
        ensures { result ≡ all_series self.now.books.items }
    {
        all_series(&self.books)
    }

    /// Writes the report of the i-th book, and returns how many bytes it has.
    pub fn report(&self, flushes: &mut Flushes, i: usize) -> Result<usize, TextFault>
        ensures text { IfOk result (λ n. IsReported self.now.books.items i
            flushes.new.text.items n) }
        ensures fault { IfErr result (λ e. IsNotReported self.now.books.items i e) }
        ensures none { OnErr result (flushes.new ≡ flushes.old) }
        ensures same { flushes.new.flushes ≡ flushes.old.flushes }
    {
        let Some(book) = self.books.as_slice().get(i) else {
            return Err(TextFault::NoSuch);
        };
        let Ok(totals) = book.totals() else {
            return Err(TextFault::NoMemory);
        };
        let Ok(text) = report_text(self.alloc, &totals) else {
            return Err(TextFault::NoMemory);
        };
        let bytes = text.len();
        flushes.text = text;
        Ok(bytes)
    }
}
