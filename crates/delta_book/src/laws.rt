ghost use Rattle.std.specs.Prelude.{ℕ, ◌≡◌, ◌↔◌, ◌<◌, length, None};
ghost use Rattle.std.specs.List.{All};
ghost use Rattle.metric_events.specs.DataPoint.{IsPoint};
ghost use Rattle.metric_events.specs.History.{History, IsNewBatch};
ghost use Rattle.metric_events.specs.Legal.{MayAdmit};
ghost use Rattle.metric_events.specs.declared.batch.Batch.{Batch};
ghost use Rattle.delta_book.specs.Refusals.{admit_refusal};

/// Under a new number, a batch that is not empty is refused exactly where it may not be admitted.
/// It does nothing: callers call it to cite its clause in a proof.
pub fn admission()
    ensures { (E : History) (b : ℕ) (body : Batch) → IsNewBatch b E → 0 < length body.points
        → All IsPoint body.points → (admit_refusal E body ≡ None) ↔ MayAdmit E b body }
{}
