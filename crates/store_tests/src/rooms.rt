//! What no contract says of the room of cells: that it is given back, also where points are left.

use crate::bodies::{admit, one_point, sender, sum_point};
use delta_book::book::Book;
use delta_book::faults::AdmitFault;
use ensure::ensure_eq;
use metric_events::batch::Batch;
use metric_events::points::Points;
use std::alloc::Global;
use std::process::Abort;
use std::test::Fail;

/// So many points of series 1, one after another from this time on. Where `late` is, one that comes
/// too late ends the batch.
fn many(alloc: Global, sent_by: usize, start: u64, count: u64, late: bool) -> Result<Batch, Fail> {
    let mut points = Points::new(alloc);
    for k in 0..count {
        points.push(sum_point(alloc, 1, start.saturating_add(k), 1, 1)?)?;
    }
    if late {
        points.push(sum_point(alloc, 1, start, 1, 1)?)?;
    }
    let sender = sender(alloc, sent_by)?;
    Ok(Batch { sender, points })
}

/// Less room is left where one or two points are: it is given back where it is at least four times
/// what they take.
const FEW: usize = 8;

/// One series is taken, as this flush, and settled.
fn settle_one(book: &mut Book, number: u64) -> Result<(), Fail> {
    let flush = book.take(7, 1)?.ok_or("nothing was taken")?;
    ensure_eq!(flush.number, number);
    ensure_eq!(book.settle(7, number), Ok(()));
    Ok(())
}

/// The first cell has room for few points more.
fn expect_few(rt: &impl Abort, book: &Book) -> Result<(), Fail> {
    let cell = book.cells().first().ok_or("no cell")?;
    assert!(rt; cell.room() < FEW, "room for {} points", cell.room());
    Ok(())
}

// A stranger's posts, and its own ones that come too late, ask for no room that stays.
#[test]
fn refused_posts_keep_no_room(rt: HostRuntime) -> Result<(), Fail> {
    let alloc = rt.alloc();
    let mut book = Book::new(alloc)?;
    let first = one_point(alloc, 0, 1, 1)?;
    ensure_eq!(admit(&rt, &mut book, first), Ok(1));
    for _ in 0..3 {
        let strange = many(alloc, 1, 20, 1000, false)?;
        ensure_eq!(
            admit(&rt, &mut book, strange),
            Err(AdmitFault::OtherWriter(0))
        );
        expect_few(&rt, &book)?;
        let late = many(alloc, 0, 1, 1000, false)?;
        ensure_eq!(
            admit(&rt, &mut book, late),
            Err(AdmitFault::OutOfOrder(0, 11))
        );
        expect_few(&rt, &book)?;
        let last_late = many(alloc, 0, 20, 1000, true)?;
        let fault = Err(AdmitFault::OutOfOrder(1000, 1020));
        ensure_eq!(admit(&rt, &mut book, last_late), fault);
        expect_few(&rt, &book)?;
    }
    Ok(())
}

// Points that were taken and have landed keep no room, whether others are pending or none.
#[test]
fn landed_points_keep_no_room(rt: HostRuntime) -> Result<(), Fail> {
    let alloc = rt.alloc();
    let mut book = Book::new(alloc)?;
    let first = many(alloc, 0, 1, 1000, false)?;
    ensure_eq!(admit(&rt, &mut book, first), Ok(1));
    ensure_eq!(book.confirm(7, 1), Ok(()));
    land_beside_another(&rt, alloc, &mut book)?;
    expect_few(&rt, &book)?;
    let second = many(alloc, 0, 3000, 1000, false)?;
    ensure_eq!(admit(&rt, &mut book, second), Ok(3));
    settle_one(&mut book, 2)?;
    expect_few(&rt, &book)
}

/// A flush is settled, and a point comes meanwhile.
fn land_beside_another(rt: &impl Abort, alloc: Global, book: &mut Book) -> Result<(), Fail> {
    let flush = book.take(7, 1)?.ok_or("nothing was taken")?;
    let later = one_point(alloc, 0, 2000, 1)?;
    ensure_eq!(admit(rt, book, later), Ok(2));
    ensure_eq!(book.settle(7, flush.number), Ok(()));
    Ok(())
}

// A batch that is undone keeps no room.
#[test]
fn undone_points_keep_no_room(rt: HostRuntime) -> Result<(), Fail> {
    let alloc = rt.alloc();
    let mut book = Book::new(alloc)?;
    let first = one_point(alloc, 0, 1, 1)?;
    ensure_eq!(admit(&rt, &mut book, first), Ok(1));
    let undone = many(alloc, 0, 20, 1000, false)?;
    ensure_eq!(admit(&rt, &mut book, undone), Ok(2));
    ensure_eq!(book.undo(7, 2), Ok(()));
    expect_few(&rt, &book)
}
