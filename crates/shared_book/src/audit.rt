//! The audit of a round: compares the receipts of all seats with the journal.
ghost use Rattle.std.specs.Prelude.{◌≡◌, ◌≢◌, ◌<◌, ◌≤◌, ◌^◌, length, sum_by, OnOk, IfErr};
ghost use Rattle.std.specs.List.{All, Any};
ghost use Rattle.metric_events.specs.Standing.{standing};
ghost use Rattle.delta_book.specs.Journal.{history};
ghost use Rattle.delta_book.specs.Totals.{acknowledged_points};
ghost use Rattle.shared_book.specs.Audits.{IsMatched, IsShort, AllSeated, points_in};
ghost use Rattle.shared_book.specs.Audits.{admitted_points};

use crate::seat::{Seat, all_seated};
use crate::tally::Tally;
use delta_book::book::Book;
use metric_events::entry::Entry;
use metric_events::event::Event;
use metric_events::limits::MAX_ENTRIES;
use std::sync::ledger::{self, Ledger};

/// The counts of a round whose audit succeeded.
#[derive(Clone, Copy, Debug, PartialEq, Eq)]
pub struct Audit {
    /// The entries of the round's journal.
    pub events: u128,
    /// The points of all batches that were admitted in the round, including those that were undone.
    pub admitted: u128,
    /// The points that the back end has accepted in the round.
    pub acknowledged: u128,
}

/// Why an audit fails.
#[derive(Clone, Copy, Debug, PartialEq, Eq)]
pub enum AuditFault {
    /// One of the seats is missing.
    SeatOut,
    /// A seat has fewer receipts than entries name it.
    MissingReceipt,
    /// A seat's receipts are not those of the entries that name it.
    StrayEntry,
}

/// Checks that the receipts of each of these seats are exactly the entries of the book's journal
/// that name it. Errors: `MissingReceipt` if a seat has fewer receipts than entries name it; else
/// `StrayEntry` if a seat's receipts differ from these entries, in order, index, kind, number or
/// batch. Takes no memory.
pub fn check<L: Ledger>(book: &Book, seats: &[Seat<L>]) -> Result<(), AuditFault>
    ensures matched { OnOk result (All (IsMatched book.now.entries) seats.now) }
    ensures missing { IfErr result (λ e. e ≡ AuditFault.MissingReceipt
        → Any (IsShort book.now.entries) seats.now) }
    ensures long { IfErr result (λ e. e ≡ AuditFault.StrayEntry
        → All (λ s. ¬ (IsShort book.now.entries s)) seats.now) }
    ensures stray { IfErr result (λ e. e ≡ AuditFault.StrayEntry
        → Any (λ s. ¬ (IsMatched book.now.entries s)) seats.now) }
    ensures either { IfErr result (λ e. e ≢ AuditFault.SeatOut) }
{
    let tally = Tally::of(book.journal(), seats);
    let mut same = tally.same;
    for seat in seats {
        let receipts = seat.receipts().len();
        let named = tally.named[seat.number() as usize];
        if receipts < named {
            return Err(AuditFault::MissingReceipt);
        }
        if named < receipts {
            same = false;
        }
    }
    if !same {
        return Err(AuditFault::StrayEntry);
    }
    Ok(())
}

/// As `check`, for the seats of a shared book, which are numbered from 0 to `count - 1`. `SeatOut`
/// if no seat has one of these numbers.
pub(crate) fn check_seated<L: Ledger>(
    book: &Book,
    seats: &[Seat<L>],
    count: u16,
) -> Result<(), AuditFault>
    ensures seated { OnOk result (AllSeated count seats.now) }
    ensures matched { OnOk result (All (IsMatched book.now.entries) seats.now) }
    ensures out { IfErr result (λ e. e ≡ AuditFault.SeatOut → ¬ (AllSeated count seats.now)) }
    ensures here { IfErr result (λ e. e ≢ AuditFault.SeatOut → AllSeated count seats.now) }
    ensures missing { IfErr result (λ e. e ≡ AuditFault.MissingReceipt
        → Any (IsShort book.now.entries) seats.now) }
    ensures long { IfErr result (λ e. e ≡ AuditFault.StrayEntry
        → All (λ s. ¬ (IsShort book.now.entries s)) seats.now) }
    ensures stray { IfErr result (λ e. e ≡ AuditFault.StrayEntry
        → Any (λ s. ¬ (IsMatched book.now.entries s)) seats.now) }
{
    if !all_seated(seats, count) {
        return Err(AuditFault::SeatOut);
    }
    check(book, seats)
}

/// Joins the shares of all seats, and returns how many receipts they have: as many as the ledger
/// has counted events.
fn join_shares<L: Ledger>(events: ledger::Book<L>, seats: Vec<Seat<L>>) -> u128
    requires small { events.total ≤ MAX_ENTRIES }
    requires some { 0 < L.parts }
    requires all { AllSeated L.parts seats.items }
    ensures total { result ≡ events.total }
    ensures sum { result ≡ sum_by (λ s. length s.receipts) seats.items }
    ensures once { length seats.items ≡ L.parts }
{
    let mut events = events;
    let mut seats = seats;
    let Some(first) = seats.pop() else {
        return 0;
    };
    let (mut whole, receipts) = first.into_share();
    let mut count = receipts as u128;
    while let Some(seat) = seats.pop() {
        let (share, receipts) = seat.into_share();
        whole.merge(share);
        events.audit(&mut whole);
        count += receipts as u128;
    }
    events.audit(&mut whole);
    count
}

/// How many points an event admits.
fn points_of(event: &Event) -> u128
    ensures value { result ≡ points_in event.now }
    ensures small { result < 2 ^ 64 }
{
    match event {
        Event::Admit { body, .. } => body.points.as_slice().len() as u128,
        _ => 0,
    }
}

/// How many points these entries admit.
fn points_admitted(entries: &[Entry]) -> u128
    requires { length entries.now ≤ MAX_ENTRIES }
    ensures { result ≡ admitted_points entries.now }
{
    let mut total = 0;
    for entry in entries {
        total += points_of(&entry.event);
    }
    total
}

/// The counts of a book whose entries are exactly the receipts of these seats.
pub(crate) fn audit_of<L: Ledger>(
    book: &Book,
    events: ledger::Book<L>,
    seats: Vec<Seat<L>>,
) -> Audit
    requires counted { length book.now.entries ≡ events.total }
    requires some { 0 < L.parts }
    requires all { AllSeated L.parts seats.items }
    ensures events { result.events ≡ length book.now.entries }
    ensures receipts { result.events ≡ sum_by (λ s. length s.receipts) seats.items }
    ensures once { length seats.items ≡ L.parts }
    ensures admitted { result.admitted ≡ admitted_points book.now.entries }
    ensures acknowledged { result.acknowledged ≡ acknowledged_points
        (standing (history book.now)).series }
{
    let admitted = points_admitted(book.journal());
    Audit {
        events: join_shares(events, seats),
        admitted,
        acknowledged: book.acknowledged(),
    }
}
