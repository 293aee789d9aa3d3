//! Puts a batch into the cells, or refuses it and leaves the cells as they were.
//!
//! The points go in one after another, so a batch needs no search among its own points, and the
//! place of each is sought once. A point that is refused asks for no memory. From the first on with
//! which a sum gets over its limits, the spans go in alone, to find which refusal comes first. If
//! the batch is refused, what is put of it is removed, with the cells that then represent no point.
ghost use Rattle.std.specs.Prelude.{◌≡◌, ℕ, ◌+◌, ◌<◌, ◌≤◌, ◌^◌, ◌++◌, ◌∷◌, [], List, length, map};
ghost use Rattle.std.specs.Prelude.{drop, take, true, false, OnOk, OnErr, IfOk, IfErr, IfSome};
ghost use Rattle.std.specs.Prelude.{Some, None, unwrap_or};
ghost use Rattle.std.specs.List.{All};
ghost use Rattle.series_id.specs.Identity.{row_length};
ghost use Rattle.metric_events.specs.DataPoint.{IsPoint};
ghost use Rattle.metric_events.specs.Points.{admitted};
ghost use Rattle.metric_events.specs.Series.{is_ascending};
ghost use Rattle.metric_events.specs.Legal.{is_too_large};
ghost use Rattle.metric_events.specs.declared.limits.TheConstants.{MAX_SERIES};
ghost use Rattle.series_cell.specs.Cells.{Stands, IsOfSame, end_of};
ghost use Rattle.delta_book.specs.Refusals.{point_fault, batch_fault};
ghost use Rattle.delta_book.specs.Tables.{AreBooked, id_of};
ghost use Rattle.delta_book.specs.declared.faults.AdmitFault.TheVariants.{NoMemory};
ghost use Rattle.delta_book.specs.inner.Tables.{AreSome, ForAccepted, ForPoints, IdAt, Keeps};
ghost use Rattle.delta_book.specs.inner.Tables.{Puts};
ghost use Rattle.delta_book.specs.inner.Parts.{part_of, parts_of};
ghost use Rattle.delta_book.specs.inner.Puts.{AddsPoint, IsGap, RejectsAt, RejectsPart, fault_at};
ghost use Rattle.delta_book.specs.inner.Puts.{fits_alone, fits_in, fits_with, large_fault};
ghost use Rattle.delta_book.specs.inner.Puts.{next_fault};

use crate::cells::{Fill, find_place, remove_parts};
use crate::faults::AdmitFault;
use crate::limits::{exceeds_max_series, is_within, limit_of_large, limit_without_alloc};
use crate::lists::{points_from, points_to};
use crate::without_alloc::fault_without_alloc;
use metric_events::point::Point;
use metric_events::sender_name::SenderName;
use series_cell::cell::Cell;
use std::alloc::{AllocError, Global};

/// Why a point is not put.
#[derive(Clone, Copy)]
pub enum Rejection {
    /// This is what refuses the batch.
    Fault(AdmitFault),
    /// The sum of a series would be over its limits.
    TooLarge,
    /// An allocation failed.
    NoMemory,
}

/// A cell without a point, which shares this point's identity.
fn empty_cell(alloc: Global, sender: &SenderName, point: &Point) -> Result<Cell, AllocError>
    ensures none { IfOk result (λ c. Stands c []) }
    ensures owner { IfOk result (λ c. c.owner ≡ sender.now) }
    ensures id { IfOk result (λ c. c.id ≡ point.now.series) }
{
    Cell::of_shared(alloc, sender.copy(alloc)?, point.shared_series().share()?)
}

/// Puts a point into the cell of its series, after all that is there.
fn put_point(cell: &mut Cell, point: &Point, number: u64) -> Result<(), Rejection>
    requires series { point.now.series ≡ cell.old.id }
    requires order { end_of cell.old ≤ point.now.span.start }
    requires long { length cell.old.accepted ≡ row_length cell.old.id.kind }
    ensures put { OnOk result (AddsPoint cell.old cell.new number point.now) }
    ensures within { OnOk result (fits_in cell.old point.now ≡ true) }
    ensures kept { OnErr result (cell.new ≡ cell.old) }
    ensures same { IsOfSame cell.old cell.new }
    ensures rejection { IfErr result (λ e. RejectsPart e Fill.Point (fits_in cell.old point.now)) }
{
    if !is_within(point.series().kind(), cell.accepted(), point.row()) {
        return Err(Rejection::TooLarge);
    }
    match cell.put(point, number) {
        Ok(()) => Ok(()),
        Err(AllocError) => Err(Rejection::NoMemory),
    }
}

/// Puts the span of a point into the cell of its series, after all that is there.
fn put_span(cell: &mut Cell, point: &Point, number: u64) -> Result<(), Rejection>
    requires series { point.now.series ≡ cell.old.id }
    requires order { end_of cell.old ≤ point.now.span.start }
    ensures put { OnOk result (AddsPoint cell.old cell.new number (part_of Fill.SpanOnly
        point.now)) }
    ensures kept { OnErr result (cell.new ≡ cell.old) }
    ensures same { IsOfSame cell.old cell.new }
    ensures rejection { IfErr result (λ e. e ≡ Rejection.NoMemory) }
{
    match cell.put_span(point, number) {
        Ok(()) => Ok(()),
        Err(AllocError) => Err(Rejection::NoMemory),
    }
}

/// Puts this part of a point into the cell of its series, after all that is there.
fn put_part(cell: &mut Cell, point: &Point, fill: Fill, number: u64) -> Result<(), Rejection>
    requires series { point.now.series ≡ cell.old.id }
    requires order { end_of cell.old ≤ point.now.span.start }
    requires long { length cell.old.accepted ≡ row_length cell.old.id.kind }
    ensures put { OnOk result (AddsPoint cell.old cell.new number (part_of fill point.now)) }
    ensures within { OnOk result (fill ≡ Fill.Point → fits_in cell.old point.now ≡ true) }
    ensures kept { OnErr result (cell.new ≡ cell.old) }
    ensures same { IsOfSame cell.old cell.new }
    ensures rejection { IfErr result (λ e. RejectsPart e fill (fits_in cell.old point.now)) }
{
    match fill {
        Fill::Point => put_point(cell, point, number),
        Fill::SpanOnly => put_span(cell, point, number),
    }
}

/// Why a cell refuses a point of its series at this position of a batch.
fn find_at(cell: &Cell, sender: &SenderName, point: &Point, place: usize) -> Option<AdmitFault>
    ensures { result ≡ fault_at cell.now sender.now place point.now }
{
    if !cell.owner().is_same(sender) {
        return Some(AdmitFault::OtherWriter(place));
    }
    let end = cell.frontier();
    if point.span().start() < end {
        return Some(AdmitFault::OutOfOrder(place, end));
    }
    None
}

/// Puts this part of a point into the cell at position `i`.
fn put_at(
    cells: &mut [Cell],
    i: usize,
    sender: &SenderName,
    point: &Point,
    place: usize,
    fill: Fill,
    number: u64,
) -> Result<(), Rejection>
    requires inside { i < length cells.old }
    requires there { IdAt cells.old i point.now.series }
    requires some { AreSome cells.old }
    ensures put { OnOk result (Puts cells.old cells.new number sender.now (part_of fill point.now
        ∷ [])) }
    ensures within { OnOk result (fill ≡ Fill.Point
        → ForPoints cells.old (λ qs. fits_with qs point.now ≡ true)) }
    ensures kept { OnErr result (cells.new ≡ cells.old) }
    ensures next { OnOk result (ForPoints cells.old (λ qs.
        next_fault qs sender.now place point.now ≡ None)) }
    ensures rejection { IfErr result (λ e. ForPoints cells.old (λ qs.
        RejectsAt e fill qs sender.now place point.now)) }
{
    if let Some(fault) = find_at(&cells[i], sender, point, place) {
        return Err(Rejection::Fault(fault));
    }
    put_part(&mut cells[i], point, fill, number)
}

/// A cell that has this part of a point alone.
fn new_cell(
    alloc: Global,
    sender: &SenderName,
    point: &Point,
    fill: Fill,
    number: u64,
) -> Result<Cell, Rejection>
    ensures stands { IfOk result (λ c. Stands c (admitted number sender.now (part_of fill point.now)
        ∷ [])) }
    ensures id { IfOk result (λ c. c.id ≡ point.now.series) }
    ensures within { OnOk result (fill ≡ Fill.Point → fits_alone point.now ≡ true) }
    ensures rejection { IfErr result (λ e. RejectsPart e fill (fits_alone point.now)) }
{
    let Ok(mut cell) = empty_cell(alloc, sender, point) else {
        return Err(Rejection::NoMemory);
    };
    match put_part(&mut cell, point, fill, number) {
        Ok(()) => Ok(cell),
        Err(rejection) => Err(rejection),
    }
}

/// Puts this part of a point into a new cell at position `i`. A series without a point has no
/// sender and no frontier that could refuse it.
fn put_new(
    alloc: Global,
    cells: &mut Vec<Cell>,
    i: usize,
    sender: &SenderName,
    point: &Point,
    fill: Fill,
    number: u64,
) -> Result<(), Rejection>
    requires inside { i ≤ length cells.old.items }
    requires gap { is_ascending (map id_of cells.old.items) ≡ true
        → IsGap cells.old.items i point.now.series }
    ensures put { OnOk result (Puts cells.old.items cells.new.items number sender.now (part_of fill
        point.now ∷ [])) }
    ensures within { OnOk result (fill ≡ Fill.Point
        → ForPoints cells.old.items (λ qs. fits_with qs point.now ≡ true)) }
    ensures kept { OnErr result (cells.new.items ≡ cells.old.items) }
    ensures next { OnOk result ((place : ℕ) → ForPoints cells.old.items (λ qs.
        next_fault qs sender.now place point.now ≡ None)) }
    ensures rejection { (place : ℕ) → IfErr result (λ e. ForPoints cells.old.items (λ qs.
        RejectsAt e fill qs sender.now place point.now)) }
{
    let cell = match new_cell(alloc, sender, point, fill, number) {
        Ok(cell) => cell,
        Err(rejection) => return Err(rejection),
    };
    let Ok(()) = cells.insert(i, cell) else {
        return Err(Rejection::NoMemory);
    };
    Ok(())
}

/// Puts this part of the point at this position of a batch, after those before it, into the cell of
/// its series or into a new one.
fn put_next(
    alloc: Global,
    cells: &mut Vec<Cell>,
    sender: &SenderName,
    point: &Point,
    place: usize,
    fill: Fill,
    number: u64,
) -> Result<(), Rejection>
    requires { AreSome cells.old.items }
    ensures put { OnOk result (Puts cells.old.items cells.new.items number sender.now (part_of fill
        point.now ∷ [])) }
    ensures within { OnOk result (fill ≡ Fill.Point
        → ForPoints cells.old.items (λ qs. fits_with qs point.now ≡ true)) }
    ensures kept { OnErr result (cells.new.items ≡ cells.old.items) }
    ensures next { OnOk result (ForPoints cells.old.items (λ qs.
        next_fault qs sender.now place point.now ≡ None)) }
    ensures rejection { IfErr result (λ e. ForPoints cells.old.items (λ qs.
        RejectsAt e fill qs sender.now place point.now)) }
{
    match find_place(cells, point.shared_series()) {
        Ok(i) => put_at(cells, i, sender, point, place, fill, number),
        Err(i) => put_new(alloc, cells, i, sender, point, fill, number),
    }
}

/// Puts this part of the points from position `first` of a batch on, up to the one with which a sum
/// would be over its limits, and returns how many. Where one may not follow those before it, or
/// memory runs out (`None`), these are removed.
fn put_points(
    alloc: Global,
    cells: &mut Vec<Cell>,
    sender: &SenderName,
    points: &[Point],
    first: usize,
    fill: Fill,
    number: u64,
) -> Result<usize, Option<AdmitFault>>
    requires places { first + length points.now < 2 ^ 64 }
    requires some { AreSome cells.old.items }
    ensures few { IfOk result (λ n. n ≤ length points.now) }
    ensures put { IfOk result (λ n. Puts cells.old.items cells.new.items number sender.now
        (parts_of fill (take n points.now))) }
    ensures faults { IfOk result (λ n. ForPoints cells.old.items (λ qs.
        point_fault (qs ++ map (admitted 0 sender.now) (take n points.now)) sender.now (first + n)
        (drop n points.now)
        ≡ point_fault qs sender.now first points.now)) }
    ensures within { IfOk result (λ n. fill ≡ Fill.Point
        → ForPoints cells.old.items (λ qs.
        is_too_large (qs ++ map (admitted number sender.now) (take n points.now))
        (take n points.now) ≡ false)) }
    ensures over { IfOk result (λ n. n < length points.now → (fill ≡ Fill.Point)
        × ForPoints cells.old.items (λ qs.
        is_too_large (qs ++ map (admitted number sender.now) points.now) points.now ≡ true)) }
    ensures kept { OnErr result (Keeps cells.old.items cells.new.items) }
    ensures fault { IfErr result (λ o. IfSome o (λ e. ForPoints cells.old.items (λ qs.
        point_fault qs sender.now first points.now ≡ Some e))) }
{
    for (i, point) in points.iter().enumerate() {
        if let Err(rejection) = put_next(alloc, cells, sender, point, first + i, fill, number) {
            match rejection {
                Rejection::TooLarge => return Ok(i),
                Rejection::Fault(fault) => {
                    remove_parts(cells, points_to(points, i), fill, number);
                    return Err(Some(fault));
                }
                Rejection::NoMemory => {
                    remove_parts(cells, points_to(points, i), fill, number);
                    return Err(None);
                }
            }
        }
    }
    Ok(points.len())
}

/// What refuses a batch with a too large sum, whose points before position `first` are put: a point
/// from there on, else the count of series, else the sum. The spans of these points are put to find
/// out, and removed. `None` where there is no memory for them.
fn fault_of_large(
    alloc: Global,
    cells: &mut Vec<Cell>,
    sender: &SenderName,
    points: &[Point],
    first: usize,
    number: u64,
) -> Option<AdmitFault>
    requires places { first + length points.now < 2 ^ 64 }
    requires some { AreSome cells.old.items }
    ensures kept { Keeps cells.old.items cells.new.items }
    ensures fault { IfSome result (λ e. ForPoints cells.old.items (λ qs.
        e ≡ large_fault number first qs sender.now points.now)) }
{
    if let Err(fault) = put_points(alloc, cells, sender, points, first, Fill::SpanOnly, number) {
        return fault;
    }
    let fault = limit_of_large(cells);
    remove_parts(cells, points, Fill::SpanOnly, number);
    Some(fault)
}

/// Puts the points of a batch, or none of them. `None` is a failed allocation.
fn put_all(
    alloc: Global,
    cells: &mut Vec<Cell>,
    sender: &SenderName,
    batch: &[Point],
    number: u64,
) -> Result<(), Option<AdmitFault>>
    requires { AreSome cells.old.items }
    ensures put { OnOk result (Puts cells.old.items cells.new.items number sender.now batch.now) }
    ensures none { OnOk result (ForPoints cells.old.items (λ qs.
        batch_fault qs sender.now batch.now ≡ None)) }
    ensures kept { OnErr result (Keeps cells.old.items cells.new.items) }
    ensures fault { IfErr result (λ o. IfSome o (λ e. ForPoints cells.old.items (λ qs.
        batch_fault qs sender.now batch.now ≡ Some e))) }
{
    let count = put_points(alloc, cells, sender, batch, 0, Fill::Point, number)?;
    if count < batch.len() {
        let fault = fault_of_large(
            alloc,
            cells,
            sender,
            points_from(batch, count),
            count,
            number,
        );
        remove_parts(cells, points_to(batch, count), Fill::Point, number);
        return Err(fault);
    }
    if exceeds_max_series(cells) {
        remove_parts(cells, batch, Fill::Point, number);
        return Err(Some(AdmitFault::TooManySeries));
    }
    Ok(())
}

/// The refusal of a batch, found without putting any of it. Allocates nothing.
fn refusal_without_alloc(cells: &[Cell], sender: &SenderName, batch: &[Point]) -> Option<AdmitFault>
    requires few { length cells.now ≤ MAX_SERIES }
    requires accepted { AreBooked cells.now }
    requires made { All IsPoint batch.now }
    ensures { ForAccepted cells.now (λ qs. result ≡ batch_fault qs sender.now batch.now) }
{
    match fault_without_alloc(cells, sender, batch) {
        Some(fault) => Some(fault),
        None => limit_without_alloc(cells, batch),
    }
}

/// Puts a batch, or none of it and returns the first refusal that applies. After a failed
/// allocation that is `NoMemory` only where no other refusal applies.
pub fn put_batch(
    alloc: Global,
    cells: &mut Vec<Cell>,
    sender: &SenderName,
    batch: &[Point],
    number: u64,
) -> Result<(), AdmitFault>
    requires accepted { AreBooked cells.old.items }
    requires made { All IsPoint batch.now }
    ensures put { OnOk result (Puts cells.old.items cells.new.items number sender.now batch.now) }
    ensures none { OnOk result (ForPoints cells.old.items (λ qs.
        batch_fault qs sender.now batch.now ≡ None)) }
    ensures kept { OnErr result (Keeps cells.old.items cells.new.items) }
    ensures fault { IfErr result (λ e. ForAccepted cells.old.items
        (λ qs. e ≡ unwrap_or (batch_fault qs sender.now batch.now) NoMemory)) }
{
    let Err(refusal) = put_all(alloc, cells, sender, batch, number) else {
        return Ok(());
    };
    match refusal {
        Some(fault) => Err(fault),
        None => {
            let fault = refusal_without_alloc(cells, sender, batch);
            Err(fault.unwrap_or(AdmitFault::NoMemory))
        }
    }
}
