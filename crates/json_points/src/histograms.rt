//! Reads the points of histograms (`HistogramDataPoint` of
//! `opentelemetry/proto/metrics/v1/metrics.proto`).

ghost use Rattle.std.specs.Prelude.{◌≡◌, ◌≢◌, option_map, option_and_then, IfOk, OnErr, OnOk};
ghost use Rattle.std.specs.Result.{result_ok};
ghost use Rattle.series_id.specs.Ascending.{histogram_of};
ghost use Rattle.series_id.specs.declared.limits.TheConstants.{MAX_BOUND};
ghost use Rattle.otlp_read.specs.Fields.{field};
ghost use Rattle.otlp_read.specs.Integers.{signed_in};
ghost use Rattle.otlp_read.specs.Lists.{list_in};
ghost use Rattle.otlp_read.specs.Histograms.{count_in, total_in, histogram_fields, histogram_point};
ghost use Rattle.otlp_read.specs.Histograms.{histogram_point_in};
ghost use Rattle.json_points.specs.inner.Nodes.{data_at};
ghost use Rattle.json_points.specs.inner.Slots.{slot_data};
ghost use Rattle.json_points.specs.inner.RefViews.{histogram_fields_data};
ghost use Rattle.json_points.specs.inner.StreamViews.{stream_data};

use crate::fields::{field, flags_fit};
use crate::identity_cache::IdentityCache;
use crate::integers::unsigned_64;
use crate::lists::list_in;
use crate::node::Node;
use crate::stream::Stream;
use crate::streams::{PointStream, series_of};
use crate::times::Times;
use metric_events::point::{Point, PointFault};
use series_id::Kind;
use std::alloc::{AllocError, Global};

/// Start and end (nanoseconds), count and sum of a histogram's point.
#[derive(Clone, Copy)]
pub struct HistogramFields {
    pub start: u64,
    pub end: u64,
    pub count: u64,
    pub total: Option<u64>,
}

/// The count of values, 0 if it is absent.
#[tactic(auto, unfolding(otlp_read::specs::Histograms::count_in))]
fn count_in(found: &Option<Node<'_, '_>>) -> Option<u64>
    ensures { result ≡ count_in (slot_data found.now) }
{
    match found {
        None => Some(0),
        Some(node) => unsigned_64(node),
    }
}

/// The sum of the values, which may be absent.
#[tactic(auto, unfolding(otlp_read::specs::Histograms::total_in))]
fn total_in(found: &Option<Node<'_, '_>>) -> Option<Option<u64>>
    ensures { result ≡ total_in (slot_data found.now) }
{
    match found {
        None => Some(None),
        Some(node) => unsigned_64(node).map(Some),
    }
}

/// The count of the field of this name.
fn count_at(node: &Node<'_, '_>, name: &str) -> Option<u64>
    ensures { result ≡ count_in (field name.now (data_at node.now)) }
{
    count_in(&field(node, name))
}

/// The sum of the field of this name.
fn total_at(node: &Node<'_, '_>, name: &str) -> Option<Option<u64>>
    ensures { result ≡ total_in (field name.now (data_at node.now)) }
{
    total_in(&field(node, name))
}

/// The fields of a point; `None` if the point is foreign for one of them.
#[tactic(auto, unfolding(otlp_read::specs::Histograms::histogram_fields))]
fn histogram_fields<'a>(times: &mut Times<'a>, node: &Node<'_, 'a>) -> Option<HistogramFields>
    ensures { option_map histogram_fields_data result ≡ histogram_fields (data_at node.now) }
{
    let start = times.start.read_at(node, "startTimeUnixNano")?;
    let end = times.end.read_at(node, "timeUnixNano")?;
    let count = count_at(node, "count")?;
    let total = total_at(node, "sum")?;
    if flags_fit(&field(node, "flags")) {
        Some(HistogramFields {
            start,
            end,
            count,
            total,
        })
    } else {
        None
    }
}

/// The kind of a histogram with these bounds; `None` if they are no bounds.
fn kind_of(alloc: Global, bounds: &Option<Node<'_, '_>>) -> Result<Option<Kind>, AllocError>
    ensures { IfOk result (λ o. o ≡ option_and_then (λ found. result_ok (histogram_of found))
        (list_in (signed_in MAX_BOUND MAX_BOUND) (slot_data bounds.now))) }
{
    let Some(found) = list_in(alloc, bounds)? else {
        return Ok(None);
    };
    Ok(Kind::histogram(found).ok())
}

/// In no stream, every point is foreign.
impl PointStream for Option<Stream<'_, '_>> {
    ghost reads = { λ stream. histogram_point_in (option_map stream_data stream) };

    fn read<'a>(
        self,
        alloc: Global,
        cache: &mut IdentityCache,
        times: &mut Times<'a>,
        node: &Node<'_, 'a>,
    ) -> Result<Option<Point>, AllocError> {
        match self {
            None => Ok(None),
            Some(stream) => histogram_point(alloc, cache, times, stream, node),
        }
    }
}

/// Reads a point of a histogram in a stream; `None` if it is foreign.
#[tactic(auto, unfolding(otlp_read::specs::Histograms::histogram_point, otlp_read::specs::Histograms::kind_in))]
fn histogram_point<'a>(
    alloc: Global,
    cache: &mut IdentityCache,
    times: &mut Times<'a>,
    stream: Stream<'_, '_>,
    node: &Node<'_, 'a>,
) -> Result<Option<Point>, AllocError>
    ensures { IfOk result (λ o. o ≡ histogram_point (stream_data stream.entry) (data_at node.now)) }
{
    let Some(fields) = histogram_fields(times, node) else {
        return Ok(None);
    };
    let Some(kind) = kind_of(alloc, &field(node, "explicitBounds"))? else {
        return Ok(None);
    };
    let Some(buckets) = list_in(alloc, &field(node, "bucketCounts"))? else {
        return Ok(None);
    };
    let found = field(node, "attributes");
    let Some(series) = series_of(alloc, cache, &mut times.hash, stream, kind, &found)? else {
        return Ok(None);
    };
    let HistogramFields {
        start,
        end,
        count,
        total,
    } = fields;
    let point = allowed_point(Point::shared_histogram(
        alloc, series, start, end, count, total, buckets,
    ))?;
    Ok(point)
}

/// The point, or `None` if it breaks a rule of points. Fails only if an allocation failed.
fn allowed_point(point: Result<Point, PointFault>) -> Result<Option<Point>, AllocError>
    ensures point { IfOk result (λ o. o ≡ result_ok point) }
    ensures ok { OnOk result (point ≢ Err PointFault.NoMemory) }
    ensures memory { OnErr result (point ≡ Err PointFault.NoMemory) }
{
    match point {
        Ok(point) => Ok(Some(point)),
        Err(PointFault::NoMemory) => Err(AllocError),
        Err(_) => Ok(None),
    }
}
