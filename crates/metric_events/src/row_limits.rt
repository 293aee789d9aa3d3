//! The limits of a row's words: one list, for one row and for the sum of a series' rows.
ghost use Rattle.std.specs.Prelude.{◌≡◌, Bool, List, ℤ};
ghost use Rattle.series_id.specs.declared.kinds.Kind.TheVariants.{Sum, Histogram};
ghost use Rattle.metric_events.specs.Rows as rows;

use crate::limits::{MAX_AMOUNT, MAX_BUCKET, MAX_POINTS, MAX_SUM};
use series_id::Kind;

/// The greatest value of word `k` of a row of this kind.
pub fn word_limit(kind: &Kind, k: usize) -> u64
    ensures { result ≡ rows.word_limit kind.now k }
{
    match kind {
        Kind::Sum { .. } => sum_limit(k),
        Kind::Histogram { .. } => histogram_limit(k),
    }
}

fn sum_limit(k: usize) -> u64
    ensures { (monotonic : Bool) → result ≡ rows.word_limit (Sum monotonic) k }
{
    if k == 0 { MAX_POINTS } else { MAX_AMOUNT }
}

fn histogram_limit(k: usize) -> u64
    ensures { (bounds : List ℤ) → result ≡ rows.word_limit (Histogram bounds) k }
{
    match k {
        0 | 1 => MAX_POINTS,
        2 => MAX_SUM,
        _ => MAX_BUCKET,
    }
}
