//! Looks an identity up in a cache, before anything of it is made.

ghost use Rattle.std.specs.Prelude.{◌≡◌, ◌≤◌, IfSome, IsPermutation, IsTrue, List, Some};
ghost use Rattle.std.specs.Prelude.{length, map, option_and_then, take};
ghost use Rattle.serde_json.specs.Data.{Data};
ghost use Rattle.series_id.specs.Identity.{IsIdentity};
ghost use Rattle.series_id.specs.Sorting.{pair_of as pair_in};
ghost use Rattle.otlp_read.specs.Lists.{all_of, list_in};
ghost use Rattle.otlp_read.specs.Attributes.{pair_of, set_of};
ghost use Rattle.otlp_read.specs.Streams.{series_in, series_of};
ghost use Rattle.json_points.specs.inner.Nodes.{AreItems};
ghost use Rattle.json_points.specs.inner.Slots.{slot_data};
ghost use Rattle.json_points.specs.inner.RefViews.{pair_data};
ghost use Rattle.json_points.specs.inner.MetricViews.{metric_data, scope_data, stream_of};
ghost use Rattle.json_points.specs.inner.StreamViews.{stream_data};

use crate::attributes::pair_ref;
use crate::identity_cache::IdentityCache;
use crate::node::{Node, Nodes};
use crate::scalar_ref::{NO_PAIR, PairRef, ScalarRef};
use crate::stream::Stream;
use crate::stream_hash::StreamHash;
use crate::streams::{Metric, Scope};
use series_id::{AttrSet, AttrValue, Attribute, Kind, SeriesId, SharedId};

/// The most attributes of a point that is looked up.
pub const MOST_PAIRS: usize = 16;

/// The series of a stream with this kind and these attributes, if the cache has it. Attributes in
/// any order are found, but only up to `MOST_PAIRS` of them, each with a single value. Takes no
/// memory.
pub fn look_up(
    cache: &mut IdentityCache,
    stream_hash: &mut StreamHash,
    stream: Stream<'_, '_>,
    kind: &Kind,
    found: &Option<Node<'_, '_>>,
) -> Option<SharedId>
    ensures { IfSome result (λ s.
        series_of (stream_data stream.entry) kind.now (slot_data found.now) ≡ Some s) }
{
    if cache.is_empty() {
        return None;
    }
    let mut room = [NO_PAIR; MOST_PAIRS];
    let count = pairs_in(&mut room, found)?;
    let pairs = &mut room[..count];
    sort_pairs(pairs);
    look_up_pairs(cache, stream_hash, stream, kind, pairs)
}

/// Puts the attributes of a field at the front of `room`: how many they are. `None` if there are
/// more than there is room for, or if one has no single value.
pub fn pairs_in<'a>(room: &mut [PairRef<'a>], found: &Option<Node<'_, 'a>>) -> Option<usize>
    ensures pairs { IfSome result (λ n. list_in pair_of (slot_data found.now)
        ≡ Some (map pair_data (take n room.new))) }
    ensures within { IfSome result (λ n. n ≤ length room.new) }
    ensures length { length room.new ≡ length room.old }
{
    let Some(node) = found else {
        return Some(0);
    };
    put_pairs(room, node.items()?)
}

/// The same of a list.
fn put_pairs<'a>(room: &mut [PairRef<'a>], nodes: Nodes<'_, 'a>) -> Option<usize>
    ensures pairs { IfSome result (λ n. (ds : List Data) → AreItems nodes.entry ds
        → all_of pair_of ds ≡ Some (map pair_data (take n room.new))) }
    ensures within { IfSome result (λ n. n ≤ length room.new) }
    ensures length { length room.new ≡ length room.old }
{
    let mut rest = nodes;
    let mut count: usize = 0;
    while let Some(node) = rest.next() {
        if count >= room.len() {
            return None;
        }
        room[count] = pair_ref(&node)?;
        count += 1;
    }
    Some(count)
}

/// Sorts attributes by key.
pub fn sort_pairs(pairs: &mut [PairRef<'_>])
    ensures { IsPermutation pairs.old pairs.new }
{
    pairs.sort_unstable_by_key(|pair| pair.key);
}

/// The series of a stream with this kind and these attributes, which are in key order.
fn look_up_pairs(
    cache: &mut IdentityCache,
    stream_hash: &mut StreamHash,
    stream: Stream<'_, '_>,
    kind: &Kind,
    pairs: &[PairRef<'_>],
) -> Option<SharedId>
    ensures { IfSome result (λ s.
        option_and_then (series_in (stream_data stream.entry) kind.now)
        (set_of (map pair_data pairs.now)) ≡ Some s) }
{
    let mut hash = stream_hash.of(stream);
    hash.add_kind(kind);
    hash.add_pairs(pairs);
    let mut slot = hash.slot();
    let mut found = share_at(cache, slot, stream, kind, pairs);
    if found.is_none() {
        slot = hash.other_slot();
        found = share_at(cache, slot, stream, kind, pairs);
    }
    if found.is_some() {
        cache.go_to(slot);
    }
    found
}

/// A share of the series in a slot, if it is that of the stream, the kind and the attributes.
fn share_at(
    cache: &IdentityCache,
    slot: usize,
    stream: Stream<'_, '_>,
    kind: &Kind,
    pairs: &[PairRef<'_>],
) -> Option<SharedId>
    ensures { IfSome result (λ s.
        option_and_then (series_in (stream_data stream.entry) kind.now)
        (set_of (map pair_data pairs.now)) ≡ Some s) }
{
    let kept = cache.at(slot)?;
    if is_series(kept.series.as_series(), stream, kind, pairs) {
        kept.series.share().ok()
    } else {
        None
    }
}

/// Whether a series is that of the stream, the kind and the attributes. The clause is of a series
/// within its limits, as every `SharedId` is.
fn is_series(series: &SeriesId, stream: Stream<'_, '_>, kind: &Kind, pairs: &[PairRef<'_>]) -> bool
    ensures only { IsIdentity series.now → IsTrue result →
        option_and_then (series_in (stream_data stream.entry) kind.now)
        (set_of (map pair_data pairs.now)) ≡ Some series.now }
{
    if !is_in_metric(series, stream.metric) {
        return false;
    }
    if !series.kind().is_same(kind) {
        return false;
    }
    are_pairs(pairs, series.attrs().pairs())
}

/// Whether a series is one of the metric.
pub fn is_in_metric(series: &SeriesId, metric: Metric<'_>) -> bool
    ensures only { IsTrue result → stream_of series.now ≡ metric_data metric.entry }
{
    series.name().as_str() == metric.name
        && series.unit().as_str() == metric.unit
        && is_in_scope(series, metric.scope)
}

/// Whether a series is one of the scope.
fn is_in_scope(series: &SeriesId, scope: Scope<'_>) -> bool
    ensures only { IsTrue result → scope_data scope.entry ≡ record {
      resource = series.now.resource;
      name = series.now.scope_name;
      version = series.now.scope_version;
      attributes = series.now.scope_attrs;
    } }
{
    series.scope_name().as_str() == scope.name
        && series.scope_version().as_str() == scope.version
        && is_same_set(series.scope_attrs(), scope.attributes)
        && is_same_set(series.resource(), scope.resource)
}

/// Whether two sets are equal. It takes less than their order where all values are single ones.
fn is_same_set(mine: &AttrSet, its: &AttrSet) -> bool
    ensures only { IsTrue result → mine.now ≡ its.now }
{
    are_same(mine.pairs(), its.pairs()) || mine.is_same(its)
}

/// Whether two lists have the same attributes, each with a single value.
fn are_same(mine: &[Attribute], its: &[Attribute]) -> bool
    ensures only { IsTrue result → mine.now ≡ its.now }
{
    if mine.len() != its.len() {
        return false;
    }
    for i in 0..mine.len() {
        if !is_same_attribute(&mine[i], &its[i]) {
            return false;
        }
    }
    true
}

/// Whether two attributes are equal, and have a single value.
fn is_same_attribute(mine: &Attribute, its: &Attribute) -> bool
    ensures only { IsTrue result → mine.now ≡ its.now }
{
    match &mine.value {
        AttrValue::One(value) => {
            let pair = PairRef {
                key: mine.key.as_str(),
                value: ScalarRef::of(value),
            };
            is_pair(&pair, its)
        }
        AttrValue::Many(_) => false,
    }
}

/// Whether the attributes are those of a set, in its order.
pub fn are_pairs(pairs: &[PairRef<'_>], its: &[Attribute]) -> bool
    ensures only { IsTrue result → map pair_data pairs.now ≡ map pair_in its.now }
{
    if pairs.len() != its.len() {
        return false;
    }
    for i in 0..pairs.len() {
        if !is_pair(&pairs[i], &its[i]) {
            return false;
        }
    }
    true
}

/// Whether an attribute is one of a set.
#[inline(always)]
pub fn is_pair(pair: &PairRef<'_>, its: &Attribute) -> bool
    ensures only { IsTrue result → pair_data pair.now ≡ pair_in its.now }
{
    match &its.value {
        AttrValue::One(scalar) => {
            pair.key == its.key.as_str() && pair.value.is_same(ScalarRef::of(scalar))
        }
        AttrValue::Many(_) => false,
    }
}
