//! Series, points, senders and batches, named by numbers, and the call that admits one.

ghost use Rattle.std.specs.Prelude.{◌≡◌, IfOk};
ghost use Rattle.metric_events.specs.PointFaults.{IsSum};

use delta_book::book::Book;
use delta_book::faults::AdmitFault;
use metric_events::batch::Batch;
use metric_events::point::Point;
use metric_events::points::Points;
use metric_events::sender_name::SenderName;
use series_id::{AttrSet, Kind, SeriesId, SharedId, Text};
use std::alloc::Global;
use std::process::Abort;
use std::test::Fail;

/// A series in a scope of this name. Series that differ in an early field are compared quickly.
pub fn series(alloc: Global, name: usize, kind: Kind) -> Result<SeriesId, Fail>
    ensures { IfOk result (λ x. x.kind ≡ kind) }
{
    Ok(SeriesId::new(
        AttrSet::empty(alloc),
        Text::new(format!(in alloc; "{name}")?),
        Text::new(String::new(alloc)),
        AttrSet::empty(alloc),
        Text::new(String::new(alloc)),
        Text::new(String::new(alloc)),
        kind,
        AttrSet::empty(alloc),
    )?)
}

/// A point of a sum, of this series and this length in nanoseconds.
pub fn sum_point(
    alloc: Global,
    name: usize,
    start: u64,
    length: u64,
    value: i64,
) -> Result<Point, Fail> {
    let series = series(alloc, name, Kind::Sum { monotonic: false })?;
    Ok(Point::sum(alloc, series, start, start.saturating_add(length), value)?)
}

pub fn sender(alloc: Global, name: usize) -> Result<SenderName, Fail> {
    let text = format!(in alloc; "sender.{name}")?;
    Ok(SenderName::new(alloc, text.as_bytes())?)
}

/// A batch of sender 0: a point of value 1 over a nanosecond, for each series of this range.
pub fn ones(alloc: Global, from: usize, to: usize, start: u64) -> Result<Batch, Fail> {
    let mut points = Points::new(alloc);
    for name in from..to {
        points.push(sum_point(alloc, name, start, 1, 1)?)?;
    }
    Ok(Batch {
        sender: sender(alloc, 0)?,
        points,
    })
}

/// A batch of one point of series 1 over ten nanoseconds.
pub fn one_point(alloc: Global, sent_by: usize, start: u64, value: i64) -> Result<Batch, Fail> {
    let mut points = Points::new(alloc);
    points.push(sum_point(alloc, 1, start, 10, value)?)?;
    let sender = sender(alloc, sent_by)?;
    Ok(Batch { sender, points })
}

/// A batch of one point of this series, with the value 1.
pub fn batch_of(alloc: Global, series: SharedId, start: u64) -> Result<Batch, Fail>
    requires { IsSum series.kind }
{
    let mut points = Points::new(alloc);
    points.push(Point::shared_sum(series, start, start.saturating_add(1), 1)?)?;
    let sender = sender(alloc, 0)?;
    Ok(Batch { sender, points })
}

/// Admits a batch with points: its number, or the fault.
pub fn admit(rt: &impl Abort, book: &mut Book, body: Batch) -> Result<u64, AdmitFault> {
    assert!(rt; !body.points.as_slice().is_empty());
    match book.admit(7, body) {
        Ok(number) => Ok(number),
        Err((fault, _)) => Err(fault),
    }
}
