//! The cells of a book, in series order.
ghost use Rattle.std.specs.Prelude.{◌≡◌, ◌<◌, ◌∷◌, [], ℕ, List, map, length, true, false, ◌++◌};
ghost use Rattle.std.specs.Prelude.{MatchOption, MatchResult, ◌≤◌, not, if◌then◌else◌};
ghost use Rattle.std.specs.List.{list_any, list_all};
ghost use Rattle.metric_events.specs.DataPoint.{DataPoint};
ghost use Rattle.metric_events.specs.Points.{landed, is_among, is_flying, is_in_flight, admitted};
ghost use Rattle.metric_events.specs.Series.{of_series, is_ascending};
ghost use Rattle.metric_events.specs.Standing.{stands};
ghost use Rattle.metric_events.specs.Legal.{are_distinct, is_batch_home};
ghost use Rattle.metric_events.specs.declared.accepted.Accepted.{Accepted};
ghost use Rattle.series_cell.specs.Cells.{Stands, IsOfSame, AreTogether, HasHome, is_of_batch};
ghost use Rattle.series_cell.specs.Cells.{lifted};
ghost use Rattle.delta_book.specs.Tables.{AreCells, id_of};
ghost use Rattle.delta_book.specs.inner.Tables.{ForPoints, HasPending, IdAt, IsEntered, Removes};
ghost use Rattle.delta_book.specs.inner.Tables.{on_series};
ghost use Rattle.delta_book.specs.inner.Removals.{AreOfSame, AreCellsFor, HasPart, RemovesPart};
ghost use Rattle.delta_book.specs.inner.Parts.{part_of, parts_of};
ghost use Rattle.delta_book.specs.inner.Puts.{IsGap};

use metric_events::place::Place;
use metric_events::point::Point;
use series_cell::cell::Cell;
use series_id::{SeriesId, SharedId};
use std::cmp::Ordering;

/// What a cell gets of a point.
#[derive(Clone, Copy)]
pub enum Fill {
    /// The point with its words.
    Point,
    /// Its span alone: the sums of its series lack its words.
    SpanOnly,
}

/// The position of a series' cell, or the position where it belongs, by binary search.
fn search_place(cells: &[Cell], series: &SeriesId) -> Result<usize, usize>
    ensures { MatchResult result (λ i. (i < length cells.now) × IdAt cells.now i series.now)
        (λ i. (i ≤ length cells.now)
        × (is_ascending (map id_of cells.now) ≡ true → IsGap cells.now i series.now)) }
{
    let mut low = 0;
    let mut high = cells.len();
    while low < high {
        let middle = low + (high - low) / 2;
        match series.cmp(cells[middle].id()) {
            Ordering::Equal => return Ok(middle),
            Ordering::Less => high = middle,
            Ordering::Greater => low = middle + 1,
        }
    }
    Err(low)
}

/// The position of a series' cell, or the position where it belongs. The position that the
/// identity has noted is tried first; the one that is found is noted.
pub fn find_place(cells: &[Cell], series: &SharedId) -> Result<usize, usize>
    ensures { MatchResult result (λ i. (i < length cells.now) × IdAt cells.now i series.now)
        (λ i. (i ≤ length cells.now)
        × (is_ascending (map id_of cells.now) ≡ true → IsGap cells.now i series.now)) }
{
    let hint = series.place();
    if hint < cells.len() && series.is_same(cells[hint].shared_id()) {
        return Ok(hint);
    }
    let found = search_place(cells, series.as_series());
    series.note_place(match found {
        Ok(place) | Err(place) => place,
    });
    found
}

/// The position of a series' cell.
pub fn find_cell(cells: &[Cell], series: &SharedId) -> Option<usize>
    ensures { MatchOption result (is_ascending (map id_of cells.now) ≡ true
        → is_among series.now (map id_of cells.now) ≡ false) (λ i. (i < length cells.now)
        × IdAt cells.now i series.now) }
{
    match find_place(cells, series) {
        Ok(i) => Some(i),
        Err(_) => None,
    }
}

fn land_one(cell: &mut Cell, place: Place)
    ensures stands { (f : ℕ) (qs : List Accepted) → Stands cell.old qs
        → list_any (stands (is_in_flight f)) qs ≡ true → is_flying place ≡ false
        → Stands cell.new (map (landed f place) qs) }
    ensures same { IsOfSame cell.old cell.new }
{
    match place {
        Place::Acknowledged => cell.acknowledge(),
        Place::Dropped => cell.discard(),
        Place::Home => cell.set_down(),
        Place::InFlight(_) => {}
    }
}

fn land_series(cells: &mut [Cell], place: Place, series: &SharedId)
    ensures { (f : ℕ) → ForPoints cells.old (λ qs.
        list_any (stands (is_in_flight f)) (of_series series.now qs) ≡ true
        → is_flying place ≡ false
        → AreCells cells.new (map (on_series (landed f place) (series.now ∷ [])) qs)) }
{
    if let Some(i) = find_cell(cells, series) {
        land_one(&mut cells[i], place);
    }
}

/// What is in flight of these series gets this state.
pub fn end_in_cells(cells: &mut [Cell], place: Place, series: &[SharedId])
    ensures { (f : ℕ) → ForPoints cells.old (λ qs. are_distinct series.now ≡ true
        → list_all (λ x. list_any (stands (is_in_flight f)) (of_series x qs)) series.now ≡ true
        → is_flying place ≡ false
        → AreCells cells.new (map (on_series (landed f place) series.now) qs)) }
{
    for x in series {
        land_series(cells, place, x);
    }
}

fn is_home_in(cells: &[Cell], series: &SharedId, number: u64) -> bool
    ensures { ForPoints cells.now (λ qs.
        list_any (is_of_batch number) (of_series series.now qs) ≡ true
        → AreTogether number (of_series series.now qs)
        → result ≡ is_batch_home number (of_series series.now qs)) }
{
    match find_cell(cells, series) {
        Some(i) => cells[i].can_remove(number),
        None => true,
    }
}

/// Each point of the batch is pending.
pub fn is_all_home(cells: &[Cell], batch: &[Point], number: u64) -> bool
    ensures { ForPoints cells.now (λ qs. IsEntered qs number batch.now
        → result ≡ is_batch_home number qs) }
{
    for p in batch {
        if !is_home_in(cells, p.shared_series(), number) {
            return false;
        }
    }
    true
}

/// Removes what a cell has of a point.
fn remove_part(cell: &mut Cell, point: &Point, fill: Fill, number: u64)
    requires { HasHome cell.old number (part_of fill point.now) }
    ensures stands { (before after : List Accepted)
        → Stands cell.old (before
        ++ admitted number cell.old.owner (part_of fill point.now) ∷ after)
        → Stands cell.new (before ++ after) }
    ensures same { IsOfSame cell.old cell.new }
{
    match fill {
        Fill::Point => cell.remove(number, point),
        Fill::SpanOnly => cell.remove_span(number, point),
    }
}

/// Removes what there is of a point. Its cell stays.
fn remove_one(cells: &mut [Cell], point: &Point, fill: Fill, number: u64)
    requires { HasPart cells.old number (part_of fill point.now ∷ []) }
    ensures removed { RemovesPart cells.old cells.new number (part_of fill point.now ∷ []) }
    ensures series { AreOfSame cells.old cells.new }
{
    if let Some(i) = find_cell(cells, point.shared_series()) {
        remove_part(&mut cells[i], point, fill, number);
    }
}

/// Removes this part of the points of a batch. Their cells stay.
fn remove_points(cells: &mut [Cell], batch: &[Point], fill: Fill, number: u64)
    requires { HasPart cells.old number (parts_of fill batch.now) }
    ensures removed { RemovesPart cells.old cells.new number (parts_of fill batch.now) }
    ensures series { AreOfSame cells.old cells.new }
{
    for k in 0..batch.len() {
        let i = batch.len() - 1 - k;
        remove_one(cells, &batch[i], fill, number);
    }
}

/// Whether the cell of a point's series represents no point.
fn is_empty_at(cells: &[Cell], point: &Point) -> bool
    ensures { (qs : List Accepted) (ps : List DataPoint) → result ≡ false
        → AreCellsFor cells.now qs (ps ++ point.now ∷ [])
        → AreCellsFor cells.now qs ps }
{
    match find_cell(cells, point.shared_series()) {
        Some(i) => cells[i].frontier() == 0,
        None => false,
    }
}

/// Removes all cells that represent no point, at once, so that none is moved twice.
fn keep_full(cells: &mut Vec<Cell>)
    ensures { (qs : List Accepted) (ps : List DataPoint) → AreCellsFor cells.old.items qs ps
        → AreCells cells.new.items qs }
{
    cells.retain(|cell| cell.frontier() != 0);
}

/// Removes the cells of a batch's series that represent no point. Where there is none, as mostly,
/// no other cell is looked at.
fn sweep_cells(cells: &mut Vec<Cell>, batch: &[Point])
    ensures { (qs : List Accepted) → AreCellsFor cells.old.items qs batch.now
        → AreCells cells.new.items qs }
{
    for k in 0..batch.len() {
        let i = batch.len() - 1 - k;
        if is_empty_at(cells, &batch[i]) {
            keep_full(cells);
            return;
        }
    }
}

/// Removes this part of the points of a batch, and the cells whose last points they were.
pub fn remove_parts(cells: &mut Vec<Cell>, batch: &[Point], fill: Fill, number: u64)
    requires { HasPending cells.old.items number (parts_of fill batch.now) }
    ensures { Removes cells.old.items cells.new.items number (parts_of fill batch.now) }
{
    remove_points(cells, batch, fill, number);
    sweep_cells(cells, batch);
}

/// Removes the points of a batch, each with its words, and the cells whose last points they were.
pub fn remove_batch(cells: &mut Vec<Cell>, batch: &[Point], number: u64)
    requires { HasPending cells.old.items number batch.now }
    ensures { Removes cells.old.items cells.new.items number batch.now }
{
    remove_parts(cells, batch, Fill::Point, number);
}
