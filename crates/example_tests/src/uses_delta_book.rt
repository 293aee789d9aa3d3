use crate::bodies::ONE_POINT;
use delta_book::book::Book;
use metric_events::batch::Batch;
use metric_events::sender_name::SenderName;
use otlp_read::read_request;
use std::test::Fail;

#[test]
fn a_point_is_admitted_taken_and_settled(rt: HostRuntime) -> Result<(), Fail> {
    let alloc = rt.alloc();
    let sender = SenderName::new(alloc, b"A")?;
    let points = read_request(alloc, ONE_POINT.as_bytes())?.points;
    assert!(rt; !points.as_slice().is_empty(), "no point was read");
    let mut book = Book::new(alloc)?;
    let Ok(batch) = book.admit(0, Batch { sender, points }) else {
        panic!(rt; "refused");
    };
    book.confirm(0, batch)?;
    let flush = book.take(0, 1000)?.ok_or("nothing to take")?;
    book.settle(0, flush.number)?;
    for series in &book.totals()? {
        assert!(rt; series.acknowledged.as_slice() == [1, 5, 0].as_slice());
    }
    Ok(())
}
