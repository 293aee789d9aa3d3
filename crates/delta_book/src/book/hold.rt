//! Quarantines a sender, or releases it. A release allocates nothing: `Book::new` has reserved the
//! room for its entry.
ghost use Rattle.std.specs.Prelude.{◌≡◌, ◌↔◌, ◌<◌, true, [], length, get_or, IfSome, IfErr, OnOk};
ghost use Rattle.std.specs.Prelude.{OnErr, IsSome, IsTrue, unwrap_or, None, Some};
ghost use Rattle.metric_events.specs.Legal.{is_held};
ghost use Rattle.metric_events.specs.Senders.{same_sender};
ghost use Rattle.metric_events.specs.Strike.{CanBeStruck};
ghost use Rattle.delta_book.specs.Journal.{history, Appends};
ghost use Rattle.delta_book.specs.Refusals.{quarantine_refusal, lift_refusal};

use crate::book::Book;
use crate::faults::{NotQuarantined, QuarantineFault};
use crate::lists::has_sender;
use metric_events::entry::Entry;
use metric_events::event::Event;
use metric_events::limits::MAX_HELD;
use metric_events::sender_name::SenderName;

impl Book {
    /// The first refusal that applies to the sender.
    fn quarantine_fault(&self, sender: &SenderName) -> Option<QuarantineFault>
        ensures { result ≡ quarantine_refusal (history self.now) sender.now }
    {
        if has_sender(&self.held, sender) {
            return Some(QuarantineFault::Already);
        }
        if self.held.len() >= MAX_HELD || !self.has_room() {
            return Some(QuarantineFault::Full);
        }
        None
    }

    /// Quarantines a sender: none of its batches is admitted, and none of its points is taken by
    /// a flush. Refusals in this order, which change nothing: `Already`, `Full`, `NoMemory`.
    pub fn quarantine(&mut self, seat: u16, sender: SenderName) -> Result<(), QuarantineFault>
        ensures ok { OnOk result (Appends self.old self.new seat (Event.Quarantine sender)) }
        ensures none { OnOk result (quarantine_refusal (history self.old) sender ≡ None) }
        ensures fault { IfErr result (λ e. e ≡ unwrap_or (quarantine_refusal
            (history self.old) sender) QuarantineFault.NoMemory) }
        ensures err { OnErr result (self.new ≡ self.old) }
    {
        if let Some(fault) = self.quarantine_fault(&sender) {
            return Err(fault);
        }
        let Ok(name) = sender.copy(self.alloc) else {
            return Err(QuarantineFault::NoMemory);
        };
        if self.held.reserve(1).is_err() {
            return Err(QuarantineFault::NoMemory);
        }
        self.passed = 0;
        self.held.push_reserved(name);
        self.entries.push_reserved(Entry {
            seat,
            event: Event::Quarantine { sender },
        });
        Ok(())
    }

    /// Releases a quarantined sender, as if it had never been quarantined. Allocates nothing.
    pub fn lift(&mut self, seat: u16, sender: &SenderName) -> Result<(), NotQuarantined>
        ensures ok { OnOk result (Appends self.old self.new seat (Event.Lift sender.now)) }
        ensures none { OnOk result (lift_refusal (history self.old) sender.now ≡ None) }
        ensures fault { IfErr result (λ e. lift_refusal (history self.old) sender.now ≡ Some e) }
        ensures err { OnErr result (self.new ≡ self.old) }
        ensures struck { OnOk result (CanBeStruck (history self.new)) }
    {
        let Some(i) = find_sender(&self.held, sender) else {
            return Err(NotQuarantined);
        };
        self.passed = 0;
        let name = self.held.remove(i);
        self.entries.push_reserved(Entry {
            seat,
            event: Event::Lift { sender: name },
        });
        Ok(())
    }
}

/// The position of a name in a list.
fn find_sender(held: &[SenderName], sender: &SenderName) -> Option<usize>
    ensures exact { IsSome result ↔ IsTrue (is_held sender.now held.now) }
    ensures inside { IfSome result (λ i. i < length held.now) }
    ensures same { IfSome result (λ i. same_sender (get_or held.now i []) sender.now ≡ true) }
{
    for (i, name) in held.iter().enumerate() {
        if name.is_same(sender) {
            return Some(i);
        }
    }
    None
}
