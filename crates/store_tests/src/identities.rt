//! What no contract says, since it sees values alone: that copies share what they hold, that a hash
//! tells fields apart, and how small an identity and a point are.
ghost use Rattle.std.specs.Prelude.{◌≡◌, IfOk};
ghost use Rattle.metric_events.specs.PointFaults.{IsSum};

use ensure::{ensure, ensure_eq};
use metric_events::point::{Point, PointFault};
use metric_events::series_list::SeriesList;
use series_id::{AttrSet, AttrValue, Kind, Scalar, SeriesId, SharedId, Text};
use std::alloc::Global;
use std::mem::size_of;
use std::test::Fail;

/// The text of each field: the resource's key, the scope's name, version and key, the metric's name
/// and unit, the point's key. An empty key is none.
type Fields = [&'static str; 7];

const FIELDS: Fields = ["host", "lib", "2.1", "", "requests", "By", "path"];

fn text(alloc: Global, text: &str) -> Result<Text, Fail> {
    Ok(Text::new(String::from_str(alloc, text)?))
}

/// The set of this key, with the value `x`.
fn set_of(alloc: Global, key: &str) -> Result<AttrSet, Fail> {
    if key.is_empty() {
        return Ok(AttrSet::empty(alloc));
    }
    let mut pairs = Vec::new(alloc);
    pairs.push((
        text(alloc, key)?,
        AttrValue::One(Scalar::Text(text(alloc, "x")?)),
    ))?;
    Ok(AttrSet::from_pairs(alloc, pairs)?)
}

/// A sum with these fields.
fn series(alloc: Global, fields: Fields, monotonic: bool) -> Result<SeriesId, Fail>
    ensures { IfOk result (λ x. IsSum x.kind) }
{
    let [
        resource,
        scope_name,
        scope_version,
        scope,
        name,
        unit,
        point,
    ] = fields;
    Ok(SeriesId::new(
        set_of(alloc, resource)?,
        text(alloc, scope_name)?,
        text(alloc, scope_version)?,
        set_of(alloc, scope)?,
        text(alloc, name)?,
        text(alloc, unit)?,
        Kind::Sum { monotonic },
        set_of(alloc, point)?,
    )?)
}

fn shared(alloc: Global, fields: Fields, monotonic: bool) -> Result<SharedId, Fail>
    ensures { IfOk result (λ x. IsSum x.kind) }
{
    Ok(SharedId::new(alloc, series(alloc, fields, monotonic)?)?)
}

/// Compiles only for types that threads may share and send.
fn check_threads<T: Send + Sync>(_: &T) {}

#[test]
fn threads_may_share_series(rt: HostRuntime) -> Result<(), Fail> {
    let own = series(rt.alloc(), FIELDS, true)?;
    check_threads(&own);
    check_threads(own.resource());
    check_threads(&shared(rt.alloc(), FIELDS, true)?);
    Ok(())
}

#[test]
fn sets_share_their_pairs(rt: HostRuntime) -> Result<(), Fail> {
    let alloc = rt.alloc();
    let set = set_of(alloc, "host")?;
    ensure_eq!(set.owners(), 1);
    let copy = set.copy(alloc)?;
    ensure_eq!((set.owners(), copy.owners()), (2, 2));
    drop(set);
    ensure_eq!(copy.owners(), 1);
    Ok(())
}

#[test]
fn copies_of_identities_share_their_sets(rt: HostRuntime) -> Result<(), Fail> {
    let alloc = rt.alloc();
    let own = series(alloc, FIELDS, true)?;
    let copy = own.copy(alloc)?;
    ensure_eq!((own.resource().owners(), copy.attrs().owners()), (2, 2));
    ensure!(copy.is_same(&own));
    Ok(())
}

#[test]
fn owners_share_an_identity_and_its_place(rt: HostRuntime) -> Result<(), Fail> {
    let one = shared(rt.alloc(), FIELDS, true)?;
    let other = one.share()?;
    ensure_eq!(
        (one.owners(), other.as_series().resource().owners()),
        (2, 1)
    );
    ensure_eq!(other.place(), 0);
    one.note_place(7);
    ensure_eq!(other.place(), 7);
    drop(one);
    ensure_eq!(other.owners(), 1);
    Ok(())
}

#[test]
fn copies_of_lists_share_their_series(rt: HostRuntime) -> Result<(), Fail> {
    let alloc = rt.alloc();
    let shared = shared(alloc, FIELDS, true)?;
    let mut list = Vec::new(alloc);
    list.push(shared.share()?)?;
    let list = SeriesList::new(list);
    let copy = list.copy(alloc)?;
    ensure_eq!((copy.as_slice().len(), shared.owners()), (1, 3));
    Ok(())
}

#[test]
fn points_of_one_identity_share_it(rt: HostRuntime) -> Result<(), Fail> {
    let alloc = rt.alloc();
    let shared = shared(alloc, FIELDS, false)?;
    let point = Point::shared_sum(shared.share()?, 10, 20, -7)?;
    let copy = point.copy(alloc)?;
    ensure_eq!(shared.owners(), 3);
    ensure!(copy.is_same(&point));
    let late = Point::shared_sum(shared.share()?, 20, 10, -7).err();
    ensure_eq!(late, Some(PointFault::BadSpan));
    ensure_eq!(shared.owners(), 3);
    Ok(())
}

/// Series of which each two differ in one field or two.
fn different(alloc: Global) -> Result<Vec<SharedId>, Fail> {
    let mut all = Vec::new(alloc);
    for field in 0..FIELDS.len() {
        let mut fields = FIELDS;
        fields[field] = "a";
        all.push(shared(alloc, fields, true)?)?;
    }
    for monotonic in [true, false] {
        all.push(shared(alloc, FIELDS, monotonic)?)?;
    }
    Ok(all)
}

#[test]
fn each_field_counts_for_the_hash(rt: HostRuntime) -> Result<(), Fail> {
    let (mine, its) = (different(rt.alloc())?, different(rt.alloc())?);
    ensure_eq!((mine.len(), its.len()), (9, 9));
    for (i, one) in mine.iter().enumerate() {
        for (j, other) in its.iter().enumerate() {
            ensure_eq!(one.hash() == other.hash(), i == j, i);
        }
    }
    Ok(())
}

// An identity is one word, a span two, and a row in place four.
#[test]
fn points_are_small(rt: HostRuntime) -> Result<(), Fail> {
    let _ = rt;
    ensure_eq!((size_of::<SharedId>(), size_of::<Point>()), (8, 56));
    Ok(())
}
