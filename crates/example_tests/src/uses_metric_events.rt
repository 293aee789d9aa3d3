use metric_events::point::Point;
use series_id::{AttrSet, Kind, SeriesId, Text};
use std::test::Fail;

#[test]
fn a_point_has_a_span_and_a_row(rt: HostRuntime) -> Result<(), Fail> {
    let alloc = rt.alloc();
    let none = || Text::new(String::new(alloc));
    let empty = || AttrSet::empty(alloc);
    let name = Text::new(String::from_str(alloc, "requests")?);
    let kind = Kind::Sum { monotonic: true };
    let series = SeriesId::new(
        empty(),
        none(),
        none(),
        empty(),
        name,
        none(),
        kind,
        empty(),
    )?;
    let point = Point::sum(alloc, series, 10, 20, 5)?;
    assert!(rt; (point.span().start(), point.span().end()) == (10, 20));
    assert!(rt; point.row() == [1, 5, 0].as_slice());
    Ok(())
}
