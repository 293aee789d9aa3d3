//! Reads the parts of an identity: resource, scope and metric, and with a point's kind and
//! attributes its series.

ghost use Rattle.std.specs.Prelude.{◌≡◌, option_map, IfOk, Option};
ghost use Rattle.serde_json.specs.Data.{Data};
ghost use Rattle.metric_events.specs.DataPoint.{DataPoint};
ghost use Rattle.otlp_read.specs.Streams.{inner, scope_in, stream_in, sum_stream_in, series_in};
ghost use Rattle.otlp_read.specs.Streams.{series_of};
ghost use Rattle.json_points.specs.inner.MetricViews.{metric_data, resource_data, scope_data};
ghost use Rattle.json_points.specs.inner.StreamViews.{stream_data, sum_stream_data};
ghost use Rattle.json_points.specs.inner.Nodes.{data_at};
ghost use Rattle.json_points.specs.inner.Slots.{slot_data};

use crate::attributes::attributes_in;
use crate::fields::{field, is_delta, text_in, truth_in};
use crate::follow::follow;
use crate::identity_cache::IdentityCache;
use crate::lookup::{is_in_metric, look_up};
use crate::node::Node;
use crate::stream::Stream;
use crate::stream_hash::StreamHash;
use crate::times::Times;
use metric_events::point::Point;
use series_id::{AttrSet, Kind, SeriesId, SharedId, Text};
use std::alloc::{AllocError, Global};

/// A resource's attributes.
#[derive(Clone, Copy)]
pub struct Resource<'a> {
    pub attributes: &'a AttrSet,
}

/// The resource's attributes, and the scope.
#[derive(Clone, Copy)]
pub struct Scope<'a> {
    pub resource: &'a AttrSet,
    pub name: &'a str,
    pub version: &'a str,
    pub attributes: &'a AttrSet,
}

/// A metric of a scope, its name and unit.
#[derive(Clone, Copy)]
pub struct Metric<'a> {
    pub scope: Scope<'a>,
    pub name: &'a str,
    pub unit: &'a str,
}

/// A stream of sums, and whether they are monotonic.
#[derive(Clone, Copy)]
pub struct SumStream<'a, 'k> {
    pub stream: Stream<'a, 'k>,
    pub monotonic: bool,
}

/// How the points of a stream are read.
pub trait PointStream: Copy {
    /// What a value is read as, if it is such a point.
    ghost reads: { Self → Data → Option DataPoint };

    /// Reads a point, and keeps its times; `None` if it is foreign.
    fn read<'a>(
        self,
        alloc: Global,
        cache: &mut IdentityCache,
        times: &mut Times<'a>,
        node: &Node<'_, 'a>,
    ) -> Result<Option<Point>, AllocError>
        ensures { IfOk result (λ o. o ≡ reads self (data_at node.now)) };
}

/// The field of this name in an object that may be absent.
#[tactic(auto, unfolding(otlp_read::specs::Streams::inner))]
pub fn inner<'t, 'a>(found: &Option<Node<'t, 'a>>, name: &str) -> Option<Node<'t, 'a>>
    ensures { slot_data result ≡ inner name.now (slot_data found.now) }
{
    match found {
        Some(node) => field(node, name),
        None => None,
    }
}

/// The resource with these attributes. `None` if no identity may have them.
pub fn resource_in<'a>(attributes: Option<&'a AttrSet>) -> Option<Resource<'a>>
    ensures { option_map resource_data result ≡ option_map (λ s. s.now) attributes.entry }
{
    let attributes = attributes?;
    Some(Resource { attributes })
}

/// The scope of a resource, with its own attributes. `None` if one of its parts may be in no
/// identity; then all its points are foreign.
#[tactic(auto, unfolding(otlp_read::specs::Streams::scope_in))]
pub fn scope_in<'a>(
    resource: Option<Resource<'a>>,
    scope: &Option<Node<'_, 'a>>,
    attributes: Option<&'a AttrSet>,
) -> Option<Scope<'a>>
    ensures { option_map scope_data result ≡ scope_in (option_map resource_data resource.entry)
        (slot_data scope.now) (option_map (λ s. s.now) attributes.entry) }
{
    let resource = resource?;
    let name = text_in(&inner(scope, "name"))?;
    let version = text_in(&inner(scope, "version"))?;
    let attributes = attributes?;
    Some(Scope {
        resource: resource.attributes,
        name,
        version,
        attributes,
    })
}

/// The stream of a metric in a scope, if the temporality of its data is delta. The identity that
/// stands for the next stream may be of it.
pub fn stream_in<'a, 'k>(
    scope: Option<Scope<'a>>,
    metric: &Node<'_, 'a>,
    part: &Node<'_, '_>,
    next: Option<&'k SharedId>,
) -> Option<Stream<'a, 'k>>
    ensures { option_map stream_data result ≡ stream_in (option_map scope_data scope.entry)
        (data_at metric.now) (data_at part.now) }
{
    match metric_in(scope, metric, part) {
        Some(metric) => Some(stream_of(metric, next)),
        None => None,
    }
}

/// The metric of a scope, if the temporality of its data is delta.
#[tactic(auto, unfolding(otlp_read::specs::Streams::stream_in))]
fn metric_in<'a>(
    scope: Option<Scope<'a>>,
    metric: &Node<'_, 'a>,
    part: &Node<'_, '_>,
) -> Option<Metric<'a>>
    ensures { option_map metric_data result ≡ stream_in (option_map scope_data scope.entry)
        (data_at metric.now) (data_at part.now) }
{
    let scope = scope?;
    let name = text_in(&field(metric, "name"))?;
    let unit = text_in(&field(metric, "unit"))?;
    if is_delta(&field(part, "aggregationTemporality")) {
        Some(Metric { scope, name, unit })
    } else {
        None
    }
}

/// The stream of a metric. It is known if the identity is of it.
fn stream_of<'a, 'k>(metric: Metric<'a>, next: Option<&'k SharedId>) -> Stream<'a, 'k>
    ensures { stream_data result ≡ metric_data metric.entry }
{
    if let Some(known) = next
        && is_in_metric(known.as_series(), metric)
    {
        return Stream {
            metric,
            known: Some(known),
        };
    }
    Stream {
        metric,
        known: None,
    }
}

/// The metric of a scope, if the temporality of its sum is delta.
#[tactic(auto, unfolding(otlp_read::specs::Streams::sum_stream_in))]
pub fn sum_stream_in<'a, 'k>(
    scope: Option<Scope<'a>>,
    metric: &Node<'_, 'a>,
    sum: &Node<'_, '_>,
    next: Option<&'k SharedId>,
) -> Option<SumStream<'a, 'k>>
    ensures { option_map sum_stream_data result ≡ sum_stream_in (option_map scope_data scope.entry)
        (data_at metric.now) (data_at sum.now) }
{
    let stream = stream_in(scope, metric, sum, next)?;
    let monotonic = truth_in(&field(sum, "isMonotonic"))?;
    Some(SumStream { stream, monotonic })
}

/// The series of a stream with this kind and these attributes, shared with the cache if it has it.
/// `None` if the attributes are none that a series may have.
#[tactic(auto, unfolding(otlp_read::specs::Streams::series_of))]
pub fn series_of(
    alloc: Global,
    cache: &mut IdentityCache,
    stream_hash: &mut StreamHash,
    stream: Stream<'_, '_>,
    kind: Kind,
    found: &Option<Node<'_, '_>>,
) -> Result<Option<SharedId>, AllocError>
    ensures { IfOk result (λ o. o ≡ series_of (stream_data stream.entry) kind
        (slot_data found.now)) }
{
    if let Some(series) = follow(cache, stream, &kind, found) {
        return Ok(Some(series));
    }
    if let Some(series) = look_up(cache, stream_hash, stream, &kind, found) {
        return Ok(Some(series));
    }
    let Some(attributes) = attributes_in(alloc, found)? else {
        return Ok(None);
    };
    let mut hash = stream_hash.of(stream);
    hash.add_kind(&kind);
    hash.add_set(&attributes);
    let Some(series) = series_in(alloc, stream, kind, attributes)? else {
        return Ok(None);
    };
    Ok(Some(cache.shared(alloc, hash, series)?))
}

/// The series of a stream with this kind and these attributes.
#[tactic(auto, unfolding(otlp_read::specs::Streams::series_in))]
fn series_in(
    alloc: Global,
    stream: Stream<'_, '_>,
    kind: Kind,
    attributes: AttrSet,
) -> Result<Option<SeriesId>, AllocError>
    ensures { IfOk result (λ o. o ≡ series_in (stream_data stream.entry) kind attributes) }
{
    let Metric { scope, name, unit } = stream.metric;
    let resource = scope.resource.copy(alloc)?;
    let scope_name = text(alloc, scope.name)?;
    let scope_version = text(alloc, scope.version)?;
    let scope_attrs = scope.attributes.copy(alloc)?;
    let name = text(alloc, name)?;
    let unit = text(alloc, unit)?;
    let made = SeriesId::new(
        resource,
        scope_name,
        scope_version,
        scope_attrs,
        name,
        unit,
        kind,
        attributes,
    );
    match made {
        Ok(series) => Ok(Some(series)),
        Err(_) => Ok(None),
    }
}

/// A copy of a text.
fn text(alloc: Global, text: &str) -> Result<Text, AllocError>
    ensures { IfOk result (λ t. t ≡ text.now) }
{
    let copy = String::from_str(alloc, text)?;
    Ok(Text::new(copy))
}
