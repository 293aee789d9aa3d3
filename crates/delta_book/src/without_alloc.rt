//! Finds what refuses a batch, its points one after another and the count of series, without
//! putting any of it. This allocates nothing. The time grows with the square of the batch, so only
//! a batch for which an allocation failed is examined in this way.
ghost use Rattle.std.specs.Prelude.{ℕ, ◌||◌, if◌then◌else◌, ◌≡◌, ◌++◌, ◌≤◌, ◌<◌, List, length, map};
ghost use Rattle.std.specs.Prelude.{true};
ghost use Rattle.std.specs.List.{list_any};
ghost use Rattle.metric_events.specs.Points.{admitted, is_among};
ghost use Rattle.metric_events.specs.Series.{frontier, series_count, is_ascending};
ghost use Rattle.metric_events.specs.declared.limits.TheConstants.{MAX_SERIES};
ghost use Rattle.delta_book.specs.Refusals.{has_other_writer, point_fault};
ghost use Rattle.delta_book.specs.inner.Batches.{is_point_of, frontier_in};
ghost use Rattle.delta_book.specs.Tables.{id_of};
ghost use Rattle.delta_book.specs.inner.Tables.{ForPoints};

use crate::cells::find_cell;
use crate::faults::AdmitFault;
use crate::lists::points_to;
use metric_events::point::Point;
use metric_events::sender_name::SenderName;
use series_cell::cell::Cell;
use series_id::SharedId;

fn is_taken(cells: &[Cell], series: &SharedId, sender: &SenderName) -> bool
    ensures { ForPoints cells.now (λ qs. result ≡ has_other_writer qs series.now sender.now) }
{
    match find_cell(cells, series) {
        Some(i) => !cells[i].owner().is_same(sender),
        None => false,
    }
}

/// The frontier of a series.
pub fn end_of(cells: &[Cell], series: &SharedId) -> u64
    ensures { ForPoints cells.now (λ qs. result ≡ frontier series.now qs) }
{
    match find_cell(cells, series) {
        Some(i) => cells[i].frontier(),
        None => 0,
    }
}

fn end_in(points: &[Point], series: &SharedId) -> u64
    ensures { result ≡ frontier_in series.now points.now }
{
    let mut end = 0;
    for p in points {
        if p.shared_series().is_same(series) {
            end = end.max(p.span().end());
        }
    }
    end
}

/// The refusal of the first point that may not follow those before it.
pub fn fault_without_alloc(
    cells: &[Cell],
    sender: &SenderName,
    batch: &[Point],
) -> Option<AdmitFault>
    ensures { ForPoints cells.now (λ qs. result ≡ point_fault qs sender.now 0 batch.now) }
{
    for (i, p) in batch.iter().enumerate() {
        let series = p.shared_series();
        if is_taken(cells, series, sender) {
            return Some(AdmitFault::OtherWriter(i));
        }
        let end = end_of(cells, series).max(end_in(&batch[..i], series));
        if p.span().start() < end {
            return Some(AdmitFault::OutOfOrder(i, end));
        }
    }
    None
}

fn is_listed_in(points: &[Point], series: &SharedId) -> bool
    ensures { result ≡ list_any (is_point_of series.now) points.now }
{
    points.iter().any(|p| p.shared_series().is_same(series))
}

fn is_known(cells: &[Cell], before: &[Point], series: &SharedId) -> bool
    ensures { is_ascending (map id_of cells.now) ≡ true
        → result ≡ (is_among series.now (map id_of cells.now)
        || list_any (is_point_of series.now) before.now) }
{
    match find_cell(cells, series) {
        Some(_) => true,
        None => is_listed_in(before, series),
    }
}

fn one_unless(known: bool) -> usize
    ensures { result ≡ (if known then 0 else 1) }
{
    if known { 0 } else { 1 }
}

/// How many series there are, the batch's included.
pub fn count_series(cells: &[Cell], batch: &[Point]) -> usize
    requires { length cells.now ≤ MAX_SERIES }
    ensures { (b : ℕ) (s : List ℕ) → ForPoints cells.now (λ qs.
        result ≡ series_count (qs ++ map (admitted b s) batch.now)) }
{
    let mut n = cells.len();
    for (j, p) in batch.iter().enumerate() {
        n += one_unless(is_known(cells, points_to(batch, j), p.shared_series()));
    }
    n
}
