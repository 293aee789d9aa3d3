//! Series, senders, batches of one point, and the call that admits one.
ghost use Rattle.std.specs.Prelude.{◌≡◌, false, IfOk};

use delta_book::faults::AdmitFault;
use metric_events::batch::Batch;
use metric_events::point::Point;
use metric_events::points::Points;
use metric_events::sender_name::SenderName;
use series_id::{AttrSet, Kind, SeriesId, Text};
use shared_book::round::Round;
use shared_book::seat::Seat;
use shared_book::shared::SharedBook;
use std::alloc::Global;
use std::process::Abort;
use std::sync::Wait;
use std::test::Fail;

/// The non-monotonic sum of this name.
pub fn series(alloc: Global, name: &str) -> Result<SeriesId, Fail>
    ensures { IfOk result (λ x. x.kind ≡ Kind.Sum false) }
{
    Ok(SeriesId::new(
        AttrSet::empty(alloc),
        Text::new(String::new(alloc)),
        Text::new(String::new(alloc)),
        AttrSet::empty(alloc),
        Text::new(format!(in alloc; "{name}")?),
        Text::new(String::new(alloc)),
        Kind::Sum { monotonic: false },
        AttrSet::empty(alloc),
    )?)
}

pub fn sender(alloc: Global, name: &str) -> Result<SenderName, Fail> {
    Ok(SenderName::new(alloc, name.as_bytes())?)
}

/// A batch with one point of a sum.
pub fn body(
    alloc: Global,
    owner: &str,
    name: &str,
    span: (u64, u64),
    value: i64,
) -> Result<Batch, Fail> {
    let mut points = Points::new(alloc);
    let series = series(alloc, name)?;
    points.push(Point::sum(alloc, series, span.0, span.1, value)?)?;
    Ok(Batch {
        sender: sender(alloc, owner)?,
        points,
    })
}

/// Four batches of one point each, of a sender with this name and the series with this name.
pub fn four_bodies(alloc: Global, name: &str) -> Result<Vec<Batch>, Fail> {
    let mut bodies = Vec::new(alloc);
    for (start, end) in [(10, 20), (20, 30), (30, 40), (40, 50)] {
        bodies.push(body(alloc, name, name, (start, end), 1)?)?;
    }
    Ok(bodies)
}

/// Admits a batch of one point: its number, or the fault.
pub fn admit<L: Round, R: Wait + Abort>(
    rt: &R,
    shared: &SharedBook<L>,
    seat: &mut Seat<L>,
    body: Batch,
) -> Result<u64, AdmitFault> {
    assert!(rt; !body.points.as_slice().is_empty());
    match shared.admit(rt, seat, body) {
        Ok(number) => Ok(number),
        Err((fault, _)) => Err(fault),
    }
}
