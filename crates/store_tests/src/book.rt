//! What no contract says of the book: who shares an identity, and that a place which was noted may
//! be wrong.

use crate::bodies::{admit, batch_of, ones, series};
use crate::look;
use delta_book::book::Book;
use ensure::ensure_eq;
use metric_events::batch::Batch;
use series_id::{Kind, SharedId};
use std::process::Abort;
use std::test::Fail;

/// Admits a batch, expects this number, and so many owners of the series' identity.
fn expect_owners(
    rt: &impl Abort,
    book: &mut Book,
    body: Batch,
    number: u64,
    shared: &SharedId,
    owners: usize,
) {
    assert_eq!(rt; admit(rt, book, body), Ok(number));
    look::count(rt, shared.owners(), owners, "owners");
}

// The cell of a series, the entry of a flush and the point that it sends share an identity. A batch
// that brings the series with an identity of its own keeps that.
#[test]
fn a_flush_shares_the_identity_of_its_cell(rt: HostRuntime) -> Result<(), Fail> {
    let alloc = rt.alloc();
    let mut book = Book::new(alloc)?;
    let falling = || Kind::Sum { monotonic: false };
    let shared = SharedId::new(alloc, series(alloc, 1, falling())?)?;
    let first = batch_of(alloc, shared.share()?, 1)?;
    expect_owners(&rt, &mut book, first, 1, &shared, 3);
    let again = SharedId::new(alloc, series(alloc, 1, falling())?)?;
    let second = batch_of(alloc, again, 2)?;
    expect_owners(&rt, &mut book, second, 2, &shared, 3);
    let flush = book.take(7, 1)?.ok_or("nothing was taken")?;
    look::count(&rt, flush.points.as_slice().len(), 1, "points");
    look::count(&rt, shared.owners(), 5, "owners");
    Ok(())
}

// A cell shares the identity of its first point, whoever else has the points.
#[test]
fn a_cell_shares_the_identity_of_its_first_point(rt: HostRuntime) -> Result<(), Fail> {
    let alloc = rt.alloc();
    let mut book = Book::new(alloc)?;
    let series = series(alloc, 1, Kind::Sum { monotonic: false })?;
    let body = batch_of(alloc, SharedId::new(alloc, series)?, 1)?;
    let kept = body.copy(alloc)?;
    ensure_eq!(admit(&rt, &mut book, body), Ok(1));
    let cell = book.cells().first().ok_or("no cell")?;
    let point = kept.points.as_slice().first().ok_or("no point")?;
    look::count(&rt, cell.shared_id().owners(), 2, "owners");
    look::holds(
        &rt,
        cell.shared_id().is_same(point.shared_series()),
        "one identity",
    );
    Ok(())
}

// A series is found even if its noted position is that of another cell, or past the last one.
#[test]
fn a_noted_position_may_be_wrong(rt: HostRuntime) -> Result<(), Fail> {
    let alloc = rt.alloc();
    let mut book = Book::new(alloc)?;
    ensure_eq!(admit(&rt, &mut book, ones(alloc, 0, 3, 1)?), Ok(1));
    let series = series(alloc, 2, Kind::Sum { monotonic: false })?;
    let shared = SharedId::new(alloc, series)?;
    for (number, place) in [(2, 0), (3, 1), (4, 2), (5, usize::MAX)] {
        shared.note_place(place);
        let body = batch_of(alloc, shared.share()?, number)?;
        ensure_eq!(admit(&rt, &mut book, body), Ok(number));
        look::count(&rt, shared.place(), 2, "the place");
    }
    let cell = book.cells().last().ok_or("no cell")?;
    look::words(&rt, cell.accepted(), &[5, 5, 0], "of the series");
    Ok(())
}
