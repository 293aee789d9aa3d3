//! Admits a batch, or refuses it.
ghost use Rattle.std.specs.Prelude.{◌≡◌, ◌+◌, ◌<◌, length, IfOk, IfErr, OnOk, OnErr, unwrap_or};

use crate::book::Book;
use crate::faults::AdmitFault;
use crate::lists::has_sender;
use crate::open::JournalRef;
use crate::put::put_batch;
use metric_events::batch::Batch;
use metric_events::entry::Entry;
use metric_events::event::Event;
use metric_events::limits::MAX_OPEN;
use metric_events::sender_name::SenderName;

impl Book {
    ghost use Rattle.delta_book.specs.Journal.{history, admits, Appends};
    ghost use Rattle.delta_book.specs.Refusals.{admit_refusal, door_refusal, undo_refusal};
    ghost use Rattle.delta_book.specs.Refusals.{confirm_refusal};

    /// The first refusal that does not depend on the batch's points.
    fn door_fault(&self, sender: &SenderName) -> Option<AdmitFault>
        ensures { result ≡ door_refusal (history self.now) sender.now }
    {
        if has_sender(&self.held, sender) {
            return Some(AdmitFault::Quarantined);
        }
        if self.opened.len() >= MAX_OPEN || !self.has_room() {
            return Some(AdmitFault::Full);
        }
        None
    }

    /// Accepts all points of a batch and returns its number: batches are numbered 1, 2, .. . The
    /// batch is then open and can be undone. Or accepts none and returns the batch with the first
    /// refusal that applies, which changes nothing: `Quarantined`, `Full`, the first point with
    /// `OtherWriter` or `OutOfOrder`, `TooManySeries`, `TooLarge`, and `NoMemory` last.
    pub fn admit(&mut self, seat: u16, body: Batch) -> Result<u64, (AdmitFault, Batch)>
        requires { 0 < length body.points }
        ensures number { IfOk result (λ n. n ≡ admits (history self.old) + 1) }
        ensures ok { IfOk result (λ n. Appends self.old self.new seat (Event.Admit n body)) }
        ensures none { OnOk result (admit_refusal (history self.old) body ≡ None) }
        ensures fault { IfErr result (λ e. e.0 ≡ unwrap_or (admit_refusal (history self.old) body)
            AdmitFault.NoMemory) }
        ensures returned { IfErr result (λ e. e.1 ≡ body) }
        ensures err { OnErr result (self.new ≡ self.old) }
        ensures opened { IfOk result (λ n. confirm_refusal (history self.new) n ≡ None) }
        ensures undoable { IfOk result (λ n. undo_refusal (history self.new) n ≡ None) }
    {
        if let Some(fault) = self.door_fault(&body.sender) {
            return Err((fault, body));
        }
        let number = self.batches + 1;
        self.passed = 0;
        if let Err(fault) = put_batch(
            self.alloc,
            &mut self.cells,
            &body.sender,
            body.points.as_slice(),
            number,
        ) {
            return Err((fault, body));
        }
        self.opened.push_reserved(JournalRef {
            number,
            entry: self.entries.len(),
        });
        self.batches = number;
        self.entries.push_reserved(Entry {
            seat,
            event: Event::Admit {
                batch: number,
                body,
            },
        });
        Ok(number)
    }
}
