//! Ends or reverses an open batch or a live flush. These calls allocate nothing: `Book::new` has
//! reserved the room for their entries.
ghost use Rattle.std.specs.Prelude.{◌≡◌, ◌<◌, ℕ, true, IfErr, OnOk, OnErr, None, Some};
ghost use Rattle.series_id.specs.Identity.{Identity};
ghost use Rattle.metric_events.specs.Settled.{SendsBefore, is_settled_in, is_taken_before};
ghost use Rattle.metric_events.specs.Strike.{CanBeStruck, is_reversal};
ghost use Rattle.delta_book.specs.inner.Tables.{EndsFlush};
ghost use Rattle.delta_book.specs.Journal.{history, Appends};
ghost use Rattle.delta_book.specs.Refusals.{flush_refusal, undo_refusal, confirm_refusal};

use crate::book::Book;
use crate::cells::{end_in_cells, is_all_home, remove_batch};
use crate::faults::{NotLive, NotOpen, UndoFault};
use crate::open::{close, find_entry, points_at, series_at};
use metric_events::entry::Entry;
use metric_events::event::Event;
use metric_events::place::Place;

impl Book {
    /// Ends a live flush by this event: what it took gets this state.
    fn end_flush(
        &mut self,
        seat: u16,
        flush: u64,
        place: Place,
        event: Event,
    ) -> Result<(), NotLive>
        requires { EndsFlush flush place event }
        ensures ok { OnOk result (Appends self.old self.new seat event) }
        ensures none { OnOk result (flush_refusal (history self.old) flush ≡ None) }
        ensures fault { IfErr result (λ e. flush_refusal (history self.old) flush ≡ Some e) }
        ensures err { OnErr result (self.new ≡ self.old) }
        ensures order { OnOk result ((f g : ℕ) (x : Identity)
            → is_taken_before (history self.new) f g ≡ true
            → is_settled_in (history self.new) f ≡ true → SendsBefore (history self.new) f g x) }
        ensures struck { is_reversal event ≡ true → OnOk result (CanBeStruck (history self.new)) }
    {
        let Some(at) = find_entry(&self.live, flush) else {
            return Err(NotLive);
        };
        self.passed = 0;
        end_in_cells(&mut self.cells, place, series_at(&self.entries, at));
        self.entries.push_reserved(Entry { seat, event });
        close(&mut self.live, flush);
        Ok(())
    }

    /// The back end has taken all of a flush: its points are acknowledged for good. Allocates
    /// nothing.
    pub fn settle(&mut self, seat: u16, flush: u64) -> Result<(), NotLive>
        ensures ok { OnOk result (Appends self.old self.new seat (Event.Settle flush)) }
        ensures none { OnOk result (flush_refusal (history self.old) flush ≡ None) }
        ensures fault { IfErr result (λ e. flush_refusal (history self.old) flush ≡ Some e) }
        ensures err { OnErr result (self.new ≡ self.old) }
        // What a settled flush sent of a series ends before what a later one sends begins.
        ensures order { OnOk result ((f g : ℕ) (x : Identity)
            → is_taken_before (history self.new) f g ≡ true
            → is_settled_in (history self.new) f ≡ true → SendsBefore (history self.new) f g x) }
    {
        self.end_flush(seat, flush, Place::Acknowledged, Event::Settle { flush })
    }

    /// The back end has refused a flush for good: its points are dropped, and counted as
    /// dropped. Allocates nothing.
    pub fn drop_flush(&mut self, seat: u16, flush: u64) -> Result<(), NotLive>
        ensures ok { OnOk result (Appends self.old self.new seat (Event.Drop flush)) }
        ensures none { OnOk result (flush_refusal (history self.old) flush ≡ None) }
        ensures fault { IfErr result (λ e. flush_refusal (history self.old) flush ≡ Some e) }
        ensures err { OnErr result (self.new ≡ self.old) }
    {
        self.end_flush(seat, flush, Place::Dropped, Event::Drop { flush })
    }

    /// The back end has taken nothing of a flush: its points are pending again, as if the
    /// flush had never been taken. Allocates nothing.
    pub fn give_back(&mut self, seat: u16, flush: u64) -> Result<(), NotLive>
        ensures ok { OnOk result (Appends self.old self.new seat (Event.GiveBack flush)) }
        ensures none { OnOk result (flush_refusal (history self.old) flush ≡ None) }
        ensures fault { IfErr result (λ e. flush_refusal (history self.old) flush ≡ Some e) }
        ensures err { OnErr result (self.new ≡ self.old) }
        ensures struck { OnOk result (CanBeStruck (history self.new)) }
    {
        self.end_flush(seat, flush, Place::Home, Event::GiveBack { flush })
    }

    /// Removes an open batch, as if it had never come. Refusals in this order: `NotOpen`,
    /// `Taken`. Allocates nothing.
    pub fn undo(&mut self, seat: u16, batch: u64) -> Result<(), UndoFault>
        ensures ok { OnOk result (Appends self.old self.new seat (Event.Undo batch)) }
        ensures none { OnOk result (undo_refusal (history self.old) batch ≡ None) }
        ensures fault { IfErr result (λ e. undo_refusal (history self.old) batch ≡ Some e) }
        ensures err { OnErr result (self.new ≡ self.old) }
        ensures struck { OnOk result (CanBeStruck (history self.new)) }
    {
        let Some(at) = find_entry(&self.opened, batch) else {
            return Err(UndoFault::NotOpen);
        };
        if !is_all_home(&self.cells, points_at(&self.entries, at), batch) {
            return Err(UndoFault::Taken);
        }
        self.passed = 0;
        remove_batch(&mut self.cells, points_at(&self.entries, at), batch);
        self.entries.push_reserved(Entry {
            seat,
            event: Event::Undo { batch },
        });
        close(&mut self.opened, batch);
        Ok(())
    }

    /// Keeps an open batch for good: it can't be undone any more. Allocates nothing.
    pub fn confirm(&mut self, seat: u16, batch: u64) -> Result<(), NotOpen>
        ensures ok { OnOk result (Appends self.old self.new seat (Event.Confirm batch)) }
        ensures none { OnOk result (confirm_refusal (history self.old) batch ≡ None) }
        ensures fault { IfErr result (λ e. confirm_refusal (history self.old) batch ≡ Some e) }
        ensures err { OnErr result (self.new ≡ self.old) }
    {
        if find_entry(&self.opened, batch).is_none() {
            return Err(NotOpen);
        }
        self.entries.push_reserved(Entry {
            seat,
            event: Event::Confirm { batch },
        });
        close(&mut self.opened, batch);
        Ok(())
    }
}
