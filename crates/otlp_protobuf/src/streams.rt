//! Reads the parts of an identity: resource, scope and metric, and with a point's kind and
//! attributes its series.

ghost use Rattle.std.specs.Prelude.{◌≡◌, IfOk, List, ℕ, Option, option_and_then, option_map};
ghost use Rattle.std.specs.Option.{ForSome};
ghost use Rattle.serde_json.specs.Data.{Data};
ghost use Rattle.metric_events.specs.DataPoint.{DataPoint};
ghost use Rattle.otlp_read.specs.Streams.{series_in, series_of};
ghost use Rattle.otlp_protobuf.specs.inner.Sets.{said_list};
ghost use Rattle.otlp_protobuf.specs.inner.KindViews.{attributes_data, kind_data};
ghost use Rattle.otlp_protobuf.specs.inner.Views.{payload_data};
ghost use Rattle.otlp_protobuf.specs.inner.StreamViews.{delta_from, histogram_stream_from};
ghost use Rattle.otlp_protobuf.specs.inner.StreamViews.{resource_data, scope_data, scope_from};
ghost use Rattle.otlp_protobuf.specs.inner.StreamViews.{stream_data, stream_from, sum_stream_data};
ghost use Rattle.otlp_protobuf.specs.inner.StreamViews.{sum_stream_from, truth_from};

use crate::after_points::{last_after_points, last_two_after_points};
use crate::attributes::{attributes_in, text_in};
use crate::byte_hash::ByteHash;
use crate::identity_cache::IdentityCache;
use crate::kind_ref::KindRef;
use crate::known_set::KnownSet;
use crate::point_attributes::PointAttributes;
use crate::scan::{bits, last_two, text_if};
use crate::wire::Payload;
use metric_events::point::Point;
use series_id::{AttrSet, Kind, SeriesId, SharedId, Text};
use std::alloc::{AllocError, Global};

/// A resource's attributes, and the hash of its bytes.
#[derive(Clone, Copy)]
pub struct Resource<'a> {
    pub attributes: &'a KnownSet,
    pub hash: ByteHash,
}

/// The resource's attributes, the scope, and the hash of the bytes of both.
#[derive(Clone, Copy)]
pub struct Scope<'a> {
    pub resource: &'a KnownSet,
    pub name: &'a str,
    pub version: &'a str,
    pub attributes: &'a AttrSet,
    pub hash: ByteHash,
}

/// A metric of a scope, and the hash of both.
#[derive(Clone, Copy)]
pub struct Stream<'a> {
    pub scope: Scope<'a>,
    pub name: &'a str,
    pub unit: &'a str,
    pub hash: ByteHash,
}

/// A stream of sums, and whether they are monotonic.
#[derive(Clone, Copy)]
pub struct SumStream<'a> {
    pub stream: Stream<'a>,
    pub monotonic: bool,
}

/// How the points of a stream are read.
pub trait PointStream: Copy {
    /// A point as JSON.
    ghost shows: { List ℕ → Data };

    /// What it is read as, if it is such a point.
    ghost reads: { Self → Data → Option DataPoint };

    /// Reads a point; `None` if it is foreign.
    fn read(
        self,
        alloc: Global,
        cache: &mut IdentityCache,
        bytes: &[u8],
    ) -> Result<Option<Point>, AllocError>
        ensures { IfOk result (λ o. o ≡ reads self (shows bytes.now)) };
}

/// The resource with these attributes. `None` if no identity may have them.
pub fn resource_in<'a>(attributes: Option<&'a KnownSet>, hash: ByteHash) -> Option<Resource<'a>>
    ensures { option_map resource_data result ≡ option_map (λ k. k.now.set) attributes.entry }
{
    let attributes = attributes?;
    Some(Resource { attributes, hash })
}

/// The scope of a resource, with its own attributes. `None` if one of its parts may be in no
/// identity; then all its points are foreign.
pub fn scope_in<'a>(
    resource: Option<Resource<'a>>,
    scope: &'a [u8],
    attributes: Option<&'a KnownSet>,
    hash: ByteHash,
) -> Option<Scope<'a>>
    ensures { option_map scope_data result ≡ scope_from (option_map resource_data resource.entry)
        scope.now (option_map (λ k. k.now.set) attributes.entry) }
{
    let resource = resource?;
    let (name, version) = last_two(scope, 1, 2);
    let name = text_in(text_if(name))?;
    let version = text_in(text_if(version))?;
    let attributes = attributes?;
    Some(Scope {
        resource: resource.attributes,
        name,
        version,
        attributes: &attributes.set,
        hash,
    })
}

/// Whether a temporality is delta.
fn is_delta(found: Option<Payload<'_>>) -> bool
    ensures { result ≡ delta_from (option_map payload_data found.entry) }
{
    match found {
        Some(payload) => bits(payload) % 4_294_967_296 == 1,
        None => false,
    }
}

/// A truth, false if it is absent.
fn is_true(found: Option<Payload<'_>>) -> bool
    ensures { result ≡ truth_from (option_map payload_data found.entry) }
{
    match found {
        Some(payload) => bits(payload) != 0,
        None => false,
    }
}

/// The metric of a scope, if its data have delta temporality.
fn stream_if<'a>(delta: bool, scope: Option<Scope<'a>>, metric: &'a [u8]) -> Option<Stream<'a>>
    ensures { option_map stream_data result
        ≡ stream_from (option_map scope_data scope.entry) metric.now delta }
{
    let scope = scope?;
    let (name, unit) = last_two(metric, 1, 3);
    let name = text_in(text_if(name))?;
    let unit = text_in(text_if(unit))?;
    if delta {
        let hash = scope.hash.with(name.as_bytes()).with(unit.as_bytes());
        Some(Stream {
            scope,
            name,
            unit,
            hash,
        })
    } else {
        None
    }
}

/// The stream of a metric's histogram.
pub fn histogram_stream<'a>(
    scope: Option<Scope<'a>>,
    metric: &'a [u8],
    histogram: &[u8],
) -> Option<Stream<'a>>
    ensures { option_map stream_data result ≡ histogram_stream_from
        (option_map scope_data scope.entry) metric.now histogram.now }
{
    stream_if(
        is_delta(last_after_points(histogram, TEMPORALITY)),
        scope,
        metric,
    )
}

/// The stream of a metric's sum.
pub fn sum_stream<'a>(
    scope: Option<Scope<'a>>,
    metric: &'a [u8],
    sum: &[u8],
) -> Option<SumStream<'a>>
    ensures { option_map sum_stream_data result ≡ sum_stream_from
        (option_map scope_data scope.entry) metric.now sum.now }
{
    let (temporality, monotonic) = last_two_after_points(sum, TEMPORALITY, MONOTONIC);
    let stream = stream_if(is_delta(temporality), scope, metric)?;
    let monotonic = is_true(monotonic);
    Some(SumStream { stream, monotonic })
}

/// The numbers of what a sum or a histogram says of itself.
const TEMPORALITY: u32 = 2;

const MONOTONIC: u32 = 3;

/// The series of a stream with this kind and these attributes: the one that came next, if it is
/// known to be it.
#[inline(always)]
pub fn series_of(
    alloc: Global,
    cache: &mut IdentityCache,
    known: Option<SharedId>,
    stream: &Stream<'_>,
    kind: KindRef<'_>,
    attributes: PointAttributes<'_>,
) -> Result<Option<SharedId>, AllocError>
    requires { ForSome known (λ s. option_and_then
        (λ k. series_of (stream_data stream.now) k (said_list (attributes_data attributes)))
        (kind_data kind) ≡ Some s) }
    ensures { IfOk result (λ o. o ≡ option_and_then
        (λ k. series_of (stream_data stream.now) k (said_list (attributes_data attributes.entry)))
        (kind_data kind.entry)) }
{
    match known {
        Some(series) => {
            cache.go_on();
            Ok(Some(series))
        }
        None => other_series(alloc, cache, stream, kind, attributes),
    }
}

/// The same of another one. One that is kept is shared. `None` if no series may have them.
#[inline(never)]
fn other_series(
    alloc: Global,
    cache: &mut IdentityCache,
    stream: &Stream<'_>,
    kind: KindRef<'_>,
    attributes: PointAttributes<'_>,
) -> Result<Option<SharedId>, AllocError>
    ensures { IfOk result (λ o. o ≡ option_and_then
        (λ k. series_of (stream_data stream.now) k (said_list (attributes_data attributes.entry)))
        (kind_data kind.entry)) }
{
    let (run, _) = attributes.run();
    let hash = stream.hash.with(run);
    if let Some(series) = cache.look_up(hash, stream, &kind, attributes) {
        return Ok(Some(series));
    }
    let Some(series) = new_series(alloc, stream, kind, attributes)? else {
        return Ok(None);
    };
    cache.keep(alloc, hash, stream, kind, attributes, &series);
    Ok(Some(series))
}

/// The same, made anew.
#[tactic(auto, unfolding(otlp_read::specs::Streams::series_of))]
fn new_series(
    alloc: Global,
    stream: &Stream<'_>,
    kind: KindRef<'_>,
    attributes: PointAttributes<'_>,
) -> Result<Option<SharedId>, AllocError>
    ensures { IfOk result (λ o. o ≡ option_and_then
        (λ k. series_of (stream_data stream.now) k (said_list (attributes_data attributes.entry)))
        (kind_data kind.entry)) }
{
    let Some(kind) = kind.to_kind(alloc)? else {
        return Ok(None);
    };
    let Some(attributes) = attributes_in(alloc, attributes.bytes, attributes.number)? else {
        return Ok(None);
    };
    let Some(series) = series_in(alloc, stream, kind, attributes)? else {
        return Ok(None);
    };
    Ok(Some(SharedId::new(alloc, series)?))
}

/// The series of a stream with this kind and these attributes.
#[tactic(auto, unfolding(otlp_read::specs::Streams::series_in))]
fn series_in(
    alloc: Global,
    stream: &Stream<'_>,
    kind: Kind,
    attributes: AttrSet,
) -> Result<Option<SeriesId>, AllocError>
    ensures { IfOk result (λ o. o ≡ series_in (stream_data stream.now) kind attributes) }
{
    let resource = stream.scope.resource.set.copy(alloc)?;
    let scope_name = text(alloc, stream.scope.name)?;
    let scope_version = text(alloc, stream.scope.version)?;
    let scope_attrs = stream.scope.attributes.copy(alloc)?;
    let name = text(alloc, stream.name)?;
    let unit = text(alloc, stream.unit)?;
    let made = SeriesId::new(
        resource,
        scope_name,
        scope_version,
        scope_attrs,
        name,
        unit,
        kind,
        attributes,
    );
    match made {
        Ok(series) => Ok(Some(series)),
        Err(_) => Ok(None),
    }
}

/// A copy of a text.
fn text(alloc: Global, text: &str) -> Result<Text, AllocError>
    ensures { IfOk result (λ t. t ≡ text.now) }
{
    let copy = String::from_str(alloc, text)?;
    Ok(Text::new(copy))
}
