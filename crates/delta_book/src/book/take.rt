//! Takes a flush.
ghost use Rattle.std.specs.Prelude.{◌≡◌, ◌≢◌, ◌≤◌, [], length, nat_lt, ◌&&◌, IfNone};
ghost use Rattle.std.specs.Prelude.{IfSome, IfOk, IfErr, OnErr, if◌then◌else◌, ℕ, true, false};

use crate::book::Book;
use crate::faults::TakeFault;
use crate::flush::{Flush, Load, first_place, lift_first, prepare};
use crate::open::JournalRef;
use metric_events::entry::Entry;
use metric_events::event::Event;
use metric_events::limits::{MAX_LIVE, MAX_TAKEN};

impl Book {
    ghost use Rattle.delta_book.specs.Journal.{history};
    ghost use Rattle.delta_book.specs.Flushes.{IsTaken, is_full};
    ghost use Rattle.metric_events.specs.Choice.{pick};
    ghost use Rattle.metric_events.specs.Running.{live_flushes};
    ghost use Rattle.metric_events.specs.declared.limits.TheConstants.{MAX_LIVE};
    ghost use Rattle.delta_book.specs.Refusals.{has_room};

    /// There are fewer live flushes than there may be.
    fn has_few_live(&self) -> bool
        ensures { result ≡ nat_lt (length (live_flushes (history self.now))) MAX_LIVE }
    {
        self.live.len() < MAX_LIVE
    }

    /// One more flush may be taken.
    fn can_take(&self) -> bool
        ensures { result ≡ (nat_lt (length (live_flushes (history self.now))) MAX_LIVE
            && has_room (history self.now)) }
    {
        if self.has_few_live() {
            return self.has_room();
        }
        false
    }

    /// Whether there is something to take. The cells before it are not looked at again until
    /// another call than `take` changes the book.
    fn find_ready(&mut self) -> bool
        ensures same { self.new ≡ self.old }
        ensures nothing { result ≡ false → (max : ℕ) → pick (history self.old) max ≡ [] }
        ensures some { result ≡ true → (max : ℕ) → 1 ≤ max → pick (history self.old) max ≢ [] }
    {
        let place = first_place(&self.cells, &self.held, self.passed);
        self.passed = place;
        place < self.cells.len()
    }

    /// Takes a flush where there is something to take.
    fn take_ready(&mut self, seat: u16, max: usize) -> Result<Flush, TakeFault>
        requires { pick (history self.old) max ≢ [] }
        ensures some { IfOk result (λ flush. IsTaken self.old self.new seat max flush) }
        ensures fault { IfErr result (λ e. e ≡ (if is_full (history self.old) then TakeFault.Full
            else TakeFault.NoMemory)) }
        ensures err { OnErr result (self.new ≡ self.old) }
    {
        if !self.can_take() {
            return Err(TakeFault::Full);
        }
        let number = self.flushes + 1;
        let Ok(load) = prepare(self.alloc, &self.cells, &self.held, self.passed, max) else {
            return Err(TakeFault::NoMemory);
        };
        let Load { series, points } = load;
        let passed = lift_first(&mut self.cells, &self.held, self.passed, max, number);
        self.passed = passed;
        self.live.push_reserved(JournalRef {
            number,
            entry: self.entries.len(),
        });
        self.flushes = number;
        self.entries.push_reserved(Entry {
            seat,
            event: Event::Take {
                flush: number,
                series,
            },
        });
        Ok(Flush { number, points })
    }

    /// Takes all pending points of the first `max` series that are free, in series order, and
    /// returns the flush: flushes are numbered 1, 2, .. . A series is free where it has pending
    /// points and none in flight, and its owner is not quarantined. `None`, with nothing changed,
    /// exactly where there is nothing to take; then `Full` and `NoMemory`, in this order, which
    /// change nothing.
    pub fn take(&mut self, seat: u16, max: usize) -> Result<Option<Flush>, TakeFault>
        requires low { 1 ≤ max }
        requires high { max ≤ MAX_TAKEN }
        ensures nothing { IfOk result (λ o. IfNone o ((pick (history self.old) max ≡ [])
            × (self.new ≡ self.old))) }
        ensures some { IfOk result (λ o. IfSome o (λ flush. IsTaken self.old self.new seat max
            flush)) }
        ensures fault { IfErr result (λ e. e ≡ (if is_full (history self.old) then TakeFault.Full
            else TakeFault.NoMemory)) }
        ensures err { OnErr result ((pick (history self.old) max ≢ []) × (self.new ≡ self.old)) }
    {
        if !self.find_ready() {
            return Ok(None);
        }
        match self.take_ready(seat, max) {
            Ok(flush) => Ok(Some(flush)),
            Err(fault) => Err(fault),
        }
    }
}
