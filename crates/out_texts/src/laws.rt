//! Laws of the definitions, each as the contract of a function that does nothing.

ghost use Rattle.std.specs.Prelude.{ℕ};
ghost use Rattle.delta_book.specs.Flushes.{IsTaken};
ghost use Rattle.delta_book.specs.Journal.{Journal};
ghost use Rattle.delta_book.specs.declared.flush.Flush.{Flush};
ghost use Rattle.out_texts.specs.Once.{HasEachOnce};

/// In the request for a flush that `Book::take` returns, no resource occurs twice, no scope occurs
/// twice in a resource, and no metric occurs twice in a scope.
pub fn grouping()
    ensures once { (old new : Journal) (seat max : ℕ) (flush : Flush)
        → IsTaken old new seat max flush → HasEachOnce flush.points }
{}
