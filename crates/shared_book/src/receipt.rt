//! The receipt of a call that was accepted, which a seat stores.
ghost use Rattle.std.specs.Prelude.{◌≡◌, option_copied};
ghost use Rattle.shared_book.specs.Receipts.{noted_of};

use metric_events::batch::Batch;
use metric_events::event::Event;

/// The kind of an event.
#[derive(Clone, Copy, Debug, PartialEq, Eq)]
pub enum EventKind {
    Admit,
    Undo,
    Confirm,
    Take,
    Settle,
    Drop,
    GiveBack,
    Quarantine,
    Lift,
}

/// What the receipt of an event notes of it: its kind; the number of the batch or flush that it
/// names, 0 if it names a sender; the batch of an `Admit`.
pub(crate) fn noted(event: &Event) -> (EventKind, u64, Option<&Batch>)
    ensures { (result.0, result.1, option_copied result.2) ≡ noted_of event.now }
{
    match event {
        Event::Admit { batch, body } => (EventKind::Admit, *batch, Some(body)),
        Event::Undo { batch } => (EventKind::Undo, *batch, None),
        Event::Confirm { batch } => (EventKind::Confirm, *batch, None),
        Event::Take { flush, .. } => (EventKind::Take, *flush, None),
        Event::Settle { flush } => (EventKind::Settle, *flush, None),
        Event::Drop { flush } => (EventKind::Drop, *flush, None),
        Event::GiveBack { flush } => (EventKind::GiveBack, *flush, None),
        Event::Quarantine { .. } => (EventKind::Quarantine, 0, None),
        Event::Lift { .. } => (EventKind::Lift, 0, None),
    }
}

/// The receipt of one call that was accepted.
pub struct Receipt {
    /// The index of the call's entry in the journal of the round, from 0.
    pub index: u64,
    /// The kind of the call's event.
    pub kind: EventKind,
    /// The number of the batch or flush that the call was passed or has returned; 0 if there is
    /// none.
    pub number: u64,
    /// A copy of the batch that an `admit` was passed.
    pub body: Option<Batch>,
}

impl Drop for Receipt {
    fn drop(self) {
        let Receipt {
            index: _,
            kind: _,
            number: _,
            body: _,
        } = self;
    }
}
