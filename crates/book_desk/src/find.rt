//! Finds the cell of a series.
ghost use Rattle.std.specs.Prelude.{◌≡◌, ◌<◌, ◌≤◌, MatchOption, MatchResult, length, map, true};
ghost use Rattle.std.specs.Prelude.{false};
ghost use Rattle.metric_events.specs.Points.{is_among};
ghost use Rattle.metric_events.specs.Series.{is_ascending};
ghost use Rattle.delta_book.specs.Tables.{id_of};
ghost use Rattle.delta_book.specs.inner.Puts.{IsGap};
ghost use Rattle.delta_book.specs.inner.Tables.{IdAt};

use series_cell::cell::Cell;
use series_id::{SeriesId, SharedId};
use std::cmp::Ordering;

/// The position of a series' cell, or the position where it belongs, by binary search.
fn search(cells: &[Cell], series: &SeriesId) -> Result<usize, usize>
    ensures { MatchResult result (λ i. (i < length cells.now) × IdAt cells.now i series.now)
        (λ i. (i ≤ length cells.now)
        × (is_ascending (map id_of cells.now) ≡ true → IsGap cells.now i series.now)) }
{
    let mut low = 0;
    let mut high = cells.len();
    while low < high {
        let middle = low + (high - low) / 2;
        match series.cmp(cells[middle].id()) {
            Ordering::Equal => return Ok(middle),
            Ordering::Less => high = middle,
            Ordering::Greater => low = middle + 1,
        }
    }
    Err(low)
}

/// The position of a series' cell. The position that the identity has noted is tried first.
pub fn find_cell(cells: &[Cell], series: &SharedId) -> Option<usize>
    ensures { MatchOption result (is_ascending (map id_of cells.now) ≡ true
        → is_among series.now (map id_of cells.now) ≡ false) (λ i. (i < length cells.now)
        × IdAt cells.now i series.now) }
{
    let hint = series.place();
    if hint < cells.len() && series.is_same(cells[hint].shared_id()) {
        return Some(hint);
    }
    match search(cells, series.as_series()) {
        Ok(i) => Some(i),
        Err(_) => None,
    }
}
