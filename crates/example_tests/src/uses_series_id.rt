use series_id::{AttrSet, AttrValue, Kind, Scalar, SeriesId, Text};
use std::alloc::Global;
use std::test::Fail;

/// The monotonic sum `requests` of a host, in no scope and without a unit.
fn requests_of(alloc: Global, host: &str) -> Result<SeriesId, Fail> {
    let none = || Text::new(String::new(alloc));
    let host = AttrValue::One(Scalar::Text(Text::new(String::from_str(alloc, host)?)));
    let mut pairs = Vec::new(alloc);
    pairs.push((Text::new(String::from_str(alloc, "host")?), host))?;
    let resource = AttrSet::from_pairs(alloc, pairs)?;
    let name = Text::new(String::from_str(alloc, "requests")?);
    let kind = Kind::Sum { monotonic: true };
    let no_attributes = AttrSet::empty(alloc);
    let attributes = AttrSet::empty(alloc);
    Ok(SeriesId::new(
        resource,
        none(),
        none(),
        no_attributes,
        name,
        none(),
        kind,
        attributes,
    )?)
}

#[test]
fn hosts_are_different_series(rt: HostRuntime) -> Result<(), Fail> {
    let a = requests_of(rt.alloc(), "a")?;
    let b = requests_of(rt.alloc(), "b")?;
    assert!(rt; !a.is_same(&b) && a.is_before(&b) && a.shares_stream(&b));
    Ok(())
}
