//! Looks first at the identity that came after the last one before.

ghost use Rattle.std.specs.Prelude.{◌≡◌, IfSome, IsTrue, List, Some, map};
ghost use Rattle.serde_json.specs.Data.{Data};
ghost use Rattle.series_id.specs.Identity.{IsIdentity};
ghost use Rattle.series_id.specs.Sorting.{pair_of as pair_in};
ghost use Rattle.otlp_read.specs.Lists.{all_of, list_in};
ghost use Rattle.otlp_read.specs.Attributes.{pair_of};
ghost use Rattle.otlp_read.specs.Streams.{series_of};
ghost use Rattle.json_points.specs.inner.Nodes.{AreItems};
ghost use Rattle.json_points.specs.inner.Slots.{slot_data};
ghost use Rattle.json_points.specs.inner.MetricViews.{stream_of};
ghost use Rattle.json_points.specs.inner.StreamViews.{stream_data};

use crate::attributes::pair_ref;
use crate::identity_cache::IdentityCache;
use crate::lookup::{is_in_metric, is_pair};
use crate::node::{Node, Nodes};
use crate::slot::Slot;
use crate::stream::Stream;
use series_id::{Attribute, Kind, SeriesId, SharedId};

/// The series of a stream with this kind and these attributes, if it came after the last one
/// before, and its attributes are in key order. Takes no memory, and no hash.
pub fn follow(
    cache: &mut IdentityCache,
    stream: Stream<'_, '_>,
    kind: &Kind,
    found: &Option<Node<'_, '_>>,
) -> Option<SharedId>
    ensures { IfSome result (λ s.
        series_of (stream_data stream.entry) kind.now (slot_data found.now) ≡ Some s) }
{
    let slot = cache.next()?;
    let series = share_said(cache, slot, stream, kind, found)?;
    cache.go_to(slot);
    Some(series)
}

/// A share of the series in a slot, if it is that of the stream, the kind and the attributes.
fn share_said(
    cache: &mut IdentityCache,
    slot: usize,
    stream: Stream<'_, '_>,
    kind: &Kind,
    found: &Option<Node<'_, '_>>,
) -> Option<SharedId>
    ensures { IfSome result (λ s.
        series_of (stream_data stream.entry) kind.now (slot_data found.now) ≡ Some s) }
{
    let kept = cache.at(slot)?;
    if !is_said(kept.series.as_series(), kind, found) {
        return None;
    }
    if is_known(kept, stream) {
        return kept.series.share().ok();
    }
    let learned = of_stream(kept, stream)?;
    let series = learned.series.share().ok()?;
    cache.replace(slot, learned);
    Some(series)
}

/// Whether an identity is one of the stream, by the identities that stand for both streams.
fn is_known(kept: &Slot, stream: Stream<'_, '_>) -> bool
    ensures only { IsTrue result → stream_of kept.now.series ≡ stream_data stream.entry }
{
    match stream.known {
        Some(known) => kept.stream().hash() == known.hash() && kept.stream().is_same(known),
        None => false,
    }
}

/// An identity, if it is one of the stream, with what is known of the stream.
fn of_stream(kept: &Slot, stream: Stream<'_, '_>) -> Option<Slot>
    ensures same { IfSome result (λ s. s.series ≡ kept.now.series) }
    ensures stream { IfSome result (λ s. stream_of s.series ≡ stream_data stream.entry) }
{
    if !is_in_metric(kept.series.as_series(), stream.metric) {
        return None;
    }
    let series = kept.series.share().ok()?;
    let stream = match stream.known {
        Some(known) => Some(known.share().ok()?),
        None => None,
    };
    Some(Slot { series, stream })
}

/// Whether a series has the kind and the attributes. The clause is of a series within its limits,
/// as every `SharedId` is.
fn is_said(series: &SeriesId, kind: &Kind, found: &Option<Node<'_, '_>>) -> bool
    ensures only { IsIdentity series.now → IsTrue result →
        series_of (stream_of series.now) kind.now (slot_data found.now) ≡ Some series.now }
{
    if !are_said(found, series.attrs().pairs()) {
        return false;
    }
    series.kind().is_same(kind)
}

/// Whether the attributes of a field are those of a set, in its order.
pub fn are_said(found: &Option<Node<'_, '_>>, its: &[Attribute]) -> bool
    ensures only { IsTrue result → list_in pair_of (slot_data found.now)
        ≡ Some (map pair_in its.now) }
{
    let Some(node) = found else {
        return its.is_empty();
    };
    let Some(nodes) = node.items() else {
        return false;
    };
    are_nodes(nodes, its)
}

/// The same of a list.
fn are_nodes(nodes: Nodes<'_, '_>, its: &[Attribute]) -> bool
    ensures only { IsTrue result → (ds : List Data) → AreItems nodes.entry ds
        → all_of pair_of ds ≡ Some (map pair_in its.now) }
{
    let mut rest = nodes;
    let mut count: usize = 0;
    while let Some(node) = rest.next() {
        if count >= its.len() {
            return false;
        }
        let Some(pair) = pair_ref(&node) else {
            return false;
        };
        if !is_pair(&pair, &its[count]) {
            return false;
        }
        count += 1;
    }
    count == its.len()
}
