ghost use Rattle.metric_events.specs.Opening.{first_opening};
ghost use Rattle.metric_events.specs.declared.opening.Opening.{Opening};

use std::marker::Brand;
use std::sync::ledger::Ledger;

/// A round of a shared book: its ledger of events, and the opening that the round's journal has
/// throughout. The function that begins a round chooses both in its proof: a new ledger, and the
/// opening of the book that is passed in.
pub trait Round: Ledger {
    ghost opening: { Opening };
}

impl Round for Brand {
    ghost opening = { first_opening };
}
