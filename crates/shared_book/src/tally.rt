//! Compares a journal with the receipts of its seats, entry by entry.
ghost use Rattle.std.specs.Prelude.{◌≡◌, ◌↔◌, ◌+◌, ◌<◌, [], IsTrue, false, length, take};
ghost use Rattle.std.specs.Prelude.{option_copied};
ghost use Rattle.std.specs.List.{All, Any};
ghost use Rattle.shared_book.specs.inner.Audits.{IsTallied};
ghost use Rattle.shared_book.specs.Receipts.{receipt_of};
ghost use Rattle.shared_book.specs.inner.Receipts.{IsNext};

use crate::receipt::{Receipt, noted};
use crate::seat::{MAX_SEATS, Seat};
use metric_events::batch::Batch;
use metric_events::entry::Entry;
use metric_events::event::Event;
use std::sync::ledger::Ledger;

/// The result of comparing entries with receipts.
#[derive(Drop)]
pub struct Tally {
    /// For each number of a seat, how many entries name it: the index of its next receipt.
    pub named: [usize; MAX_SEATS as usize],
    /// Whether each entry's receipt was the next one at its seat.
    pub same: bool,
}

impl Tally {
    /// Compares a journal with the receipts of these seats. An entry of another seat is skipped.
    pub fn of<L: Ledger>(journal: &[Entry], seats: &[Seat<L>]) -> Tally
        ensures { IsTallied journal.now seats.now result.named result.same }
    {
        let mut tally = Tally {
            named: [0; MAX_SEATS as usize],
            same: true,
        };
        for index in 0..journal.len() {
            tally.note(journal, index, seats);
        }
        tally
    }

    /// Counts the entry at this index, after those before it.
    fn note<L: Ledger>(&mut self, journal: &[Entry], index: usize, seats: &[Seat<L>])
        requires index { index < length journal.now }
        requires before { IsTallied (take index journal.now) seats.now
            self.old.named self.old.same }
        ensures after { IsTallied (take (index + 1) journal.now) seats.now
            self.new.named self.new.same }
    {
        let entry = &journal[index];
        let number = entry.seat as usize;
        if number >= self.named.len() {
            return;
        }
        let at = self.named[number];
        if self.same {
            self.same = are_next(seats, entry.seat, at, index as u64, &entry.event);
        }
        self.named[number] = at + 1;
    }
}

/// Whether these are the same batch, or there is none.
fn are_same(copy: &Option<Batch>, body: Option<&Batch>) -> bool
    ensures { IsTrue result ↔ (copy.now ≡ option_copied body.entry) }
{
    match (copy, body) {
        (Some(copy), Some(body)) => copy.is_same(body),
        (None, None) => true,
        _ => false,
    }
}

/// Whether this is the receipt of an event at this index of the journal.
fn is_receipt_of(receipt: &Receipt, index: u64, event: &Event) -> bool
    ensures { IsTrue result ↔ (receipt.now ≡ receipt_of index event.now) }
{
    let (kind, number, body) = noted(event);
    receipt.index == index
        && receipt.kind == kind
        && receipt.number == number
        && are_same(&receipt.body, body)
}

/// Whether the receipt at index `at` is that of an event.
fn is_next(receipts: &[Receipt], at: usize, index: u64, event: &Event) -> bool
    ensures { IsTrue result ↔ IsNext receipts.now at (receipt_of index event.now) }
{
    at < receipts.len() && is_receipt_of(&receipts[at], index, event)
}

/// Whether each seat of this number has the receipt of an event at index `at`.
fn are_next<L: Ledger>(seats: &[Seat<L>], number: u16, at: usize, index: u64, event: &Event) -> bool
    ensures all { IsTrue result → All (λ s. s.number ≡ number
        → IsNext s.receipts at (receipt_of index event.now)) seats.now }
    ensures any { result ≡ false
        → Any (λ s. (s.number ≡ number)
        × ¬ (IsNext s.receipts at (receipt_of index event.now))) seats.now }
{
    for seat in seats {
        if seat.number() == number && !is_next(seat.receipts(), at, index, event) {
            return false;
        }
    }
    true
}
