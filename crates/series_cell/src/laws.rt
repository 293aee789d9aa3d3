ghost use Rattle.std.specs.Prelude.{List};
ghost use Rattle.metric_events.specs.declared.accepted.Accepted.{Accepted};
ghost use Rattle.series_cell.specs.Cells.{CellView, Stands};
ghost use Rattle.series_cell.specs.Reading.{IsTotalOf};

/// The law of cells: the rows are the sums of the points by state, and the covering spans and the
/// frontier are those of the points. Does nothing when it runs: a caller that names it can cite
/// its clause.
pub fn reading()
    ensures { (c : CellView) (qs : List Accepted) → Stands c qs → IsTotalOf c qs }
{}
