//! Takes back the batch that was admitted last.
ghost use Rattle.std.specs.Prelude.{◌≡◌, ℕ};

use crate::book::Book;
use crate::cells::remove_batch;
use crate::open::{close, points_at};
use metric_events::batch::Batch;
use metric_events::event::Event;

impl Book {
    ghost use Rattle.delta_book.specs.Journal.{Journal, Appends, EndsWithAdmit};

    /// Takes back the batch that was admitted last, if nothing has happened since: the book is as
    /// it was before, its journal and the room in it included. Allocates nothing.
    pub fn retract(&mut self, batch: u64)
        requires { EndsWithAdmit self.old batch }
        ensures { (before : Journal) (seat : ℕ) (body : Batch)
            → Appends before self.old seat (Event.Admit batch body) → self.new ≡ before }
    {
        let last = self.entries.len() - 1;
        self.passed = 0;
        remove_batch(&mut self.cells, points_at(&self.entries, last), batch);
        self.entries.truncate(last);
        close(&mut self.opened, batch);
        self.batches -= 1;
    }
}
