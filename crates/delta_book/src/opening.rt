//! Makes the opening of the next round from what this round leaves.
ghost use Rattle.std.specs.Prelude.{◌≡◌, ◌≤◌, ◌<◌, ◌^◌, ℕ, List, length, map, nat_le, true, IfOk};
ghost use Rattle.std.specs.Prelude.{MatchOption};
ghost use Rattle.std.specs.List.{list_all};
ghost use Rattle.series_id.specs.Identity.{row_length};
ghost use Rattle.metric_events.specs.History.{History, opening, admits, takes};
ghost use Rattle.metric_events.specs.Opening.{IsOpening};
ghost use Rattle.metric_events.specs.Points.{points};
ghost use Rattle.metric_events.specs.Running.{held_senders};
ghost use Rattle.metric_events.specs.Series.{of_series, series_in_order};
ghost use Rattle.metric_events.specs.Rows.{add_rows};
ghost use Rattle.metric_events.specs.Standing.{series_standing};
ghost use Rattle.metric_events.specs.Close.{handed_on, close};
ghost use Rattle.metric_events.specs.declared.accepted.Accepted.{Accepted};
ghost use Rattle.metric_events.specs.declared.opened_series.OpenedSeries.{OpenedSeries};
ghost use Rattle.series_cell.specs.Cells.{Stands};
ghost use Rattle.delta_book.specs.declared.opening.TheConstants.{LAST_ROUND};
ghost use Rattle.delta_book.specs.Tables.{AreCells, AreBooked};
ghost use Rattle.delta_book.specs.inner.Tables.{HasPoint};
ghost use Rattle.delta_book.specs.inner.Ready.{IsBookedCell};
ghost use Rattle.delta_book.specs.Carries.{AllCarry, AllHandOn, AllOpened};
ghost use Rattle.delta_book.specs.inner.Pasts.{HasPast, HasNoPast, AddsPast};

use crate::totals::row_of;
use metric_events::opened_list::OpenedList;
use metric_events::opened_series::OpenedSeries;
use metric_events::opening::Opening;
use metric_events::sender_list::SenderList;
use metric_events::sender_name::SenderName;
use metric_events::wide_row::WideRow;
use series_cell::cell::Cell;
use series_id::SeriesId;
use std::alloc::{AllocError, Global};
use std::cmp::Ordering;

/// The last round that a book may have.
pub const LAST_ROUND: u64 = 4_294_967_295;

/// A row with the words of earlier rounds added.
fn add_past(alloc: Global, row: &[u64], past: &[u128]) -> Result<WideRow, AllocError>
    requires long { length past.now ≡ length row.now }
    requires small { list_all (λ w. nat_le w (2 ^ 127)) past.now ≡ true }
    ensures { IfOk result (λ w. w ≡ add_rows row.now past.now) }
{
    let mut words = Vec::with_capacity(alloc, row.len())?;
    for k in 0..row.len() {
        words.push(u128::from(row[k]) + past[k])?;
    }
    Ok(WideRow::new(words))
}

/// A row of a series that is new in this round.
fn widen(alloc: Global, row: &[u64]) -> Result<WideRow, AllocError>
    ensures { IfOk result (λ w. w ≡ row.now) }
{
    let mut words = Vec::with_capacity(alloc, row.len())?;
    for word in row {
        words.push(u128::from(*word))?;
    }
    Ok(WideRow::new(words))
}

/// What the opening has of a series, by binary search. `None` of one that is new in this round.
fn find_past<'a>(before: &'a Opening, series: &SeriesId) -> Option<&'a OpenedSeries>
    requires { IsOpening before.now }
    ensures { MatchOption result (HasNoPast before.now series.now)
        (λ s. HasPast before.now series.now s.now) }
{
    let opened = before.series.as_slice();
    let mut low = 0;
    let mut high = opened.len();
    while low < high {
        let middle = low + (high - low) / 2;
        let found = &opened[middle];
        match series.cmp(found.series.as_series()) {
            Ordering::Equal => return Some(found),
            Ordering::Less => high = middle,
            Ordering::Greater => low = middle + 1,
        }
    }
    None
}

/// What was acknowledged and what was dropped of a series, in this round and before.
fn with_past(
    alloc: Global,
    acknowledged: &[u64],
    dropped: &[u64],
    before: &Opening,
    series: &SeriesId,
) -> Result<(WideRow, WideRow), AllocError>
    requires opened { IsOpening before.now }
    requires few { before.now.round ≤ LAST_ROUND }
    requires acknowledged { length acknowledged.now ≡ row_length series.now.kind }
    requires dropped { length dropped.now ≡ row_length series.now.kind }
    ensures { IfOk result (λ w. AddsPast before.now.series series.now acknowledged.now dropped.now
        w.0 w.1) }
{
    match find_past(before, series) {
        Some(past) => {
            let acknowledged = add_past(alloc, acknowledged, past.acknowledged.as_slice())?;
            let dropped = add_past(alloc, dropped, past.dropped.as_slice())?;
            Ok((acknowledged, dropped))
        }
        None => {
            let acknowledged = widen(alloc, acknowledged)?;
            let dropped = widen(alloc, dropped)?;
            Ok((acknowledged, dropped))
        }
    }
}

/// What the next round gets of a series.
fn hand_on(alloc: Global, cell: &Cell, before: &Opening) -> Result<OpenedSeries, AllocError>
    requires booked { IsBookedCell cell.now }
    requires opened { IsOpening before.now }
    requires few { before.now.round ≤ LAST_ROUND }
    ensures { (held : List (List ℕ)) (qs : List Accepted)
        → Stands cell.now (of_series cell.now.id qs) → HasPoint cell.now.id qs
        → IfOk result (λ s. s ≡ handed_on before.now.series (series_standing qs held cell.now.id)) }
{
    let home = row_of(alloc, cell.stored())?;
    let (acknowledged, dropped) = with_past(
        alloc,
        cell.acknowledged(),
        cell.dropped(),
        before,
        cell.id(),
    )?;
    let owner = cell.owner().copy(alloc)?;
    Ok(OpenedSeries {
        series: cell.shared_id().share()?,
        owner,
        frontier: cell.frontier(),
        home,
        home_span: cell.stored_span(),
        acknowledged,
        dropped,
    })
}

/// What the next round gets of all series, in series order.
fn hand_on_all(
    alloc: Global,
    cells: &[Cell],
    before: &Opening,
) -> Result<Vec<OpenedSeries>, AllocError>
    requires booked { AreBooked cells.now }
    requires opened { IsOpening before.now }
    requires few { before.now.round ≤ LAST_ROUND }
    ensures { (held : List (List ℕ)) (qs : List Accepted) → AreCells cells.now qs
        → IfOk result (λ v. v.items ≡ map (λ x. handed_on before.now.series
        (series_standing qs held x)) (series_in_order qs)) }
{
    let mut all = Vec::with_capacity(alloc, cells.len())?;
    for cell in cells {
        all.push(hand_on(alloc, cell, before)?)?;
    }
    Ok(all)
}

/// Copies of the names.
fn copy_names(alloc: Global, names: &[SenderName]) -> Result<Vec<SenderName>, AllocError>
    ensures { IfOk result (λ v. v.items ≡ names.now) }
{
    let mut all = Vec::new(alloc);
    for name in names {
        all.push(name.copy(alloc)?)?;
    }
    Ok(all)
}

/// The opening of the next round.
pub fn next_opening(
    alloc: Global,
    cells: &[Cell],
    held: &[SenderName],
    before: &Opening,
    batches: u64,
    flushes: u64,
) -> Result<Opening, AllocError>
    requires booked { AreBooked cells.now }
    requires opened { IsOpening before.now }
    requires few { before.now.round < LAST_ROUND }
    ensures { (E : History) → AreCells cells.now (points E) → held.now ≡ held_senders E
        → before.now ≡ opening E → batches ≡ admits E → flushes ≡ takes E
        → IfOk result (λ o. o ≡ close E) }
{
    let series = hand_on_all(alloc, cells, before)?;
    let held = copy_names(alloc, held)?;
    Ok(Opening {
        round: before.round + 1,
        series: OpenedList::new(series),
        held: SenderList::new(held),
        batches,
        flushes,
    })
}

/// Begins the next round in each cell. Allocates nothing.
pub fn carry_all(cells: &mut [Cell])
    requires { AllCarry cells.old }
    ensures { (ss : List OpenedSeries) → AllHandOn cells.old ss → AllOpened cells.new ss }
{
    for i in 0..cells.len() {
        cells[i].carry();
    }
}
