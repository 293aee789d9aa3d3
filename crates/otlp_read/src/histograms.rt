//! Reads the points of histograms (`HistogramDataPoint` of
//! `opentelemetry/proto/metrics/v1/metrics.proto`).

ghost use Rattle.std.specs.Prelude.{◌≡◌, ◌≢◌, codes, option_map, option_and_then, IfOk, IfSome};
ghost use Rattle.std.specs.Prelude.{OnErr, OnOk};
ghost use Rattle.std.specs.Result.{result_ok};
ghost use Rattle.serde_json.specs.View.{view};
ghost use Rattle.series_id.specs.Ascending.{histogram_of};
ghost use Rattle.series_id.specs.declared.limits.TheConstants.{MAX_BOUND};
ghost use Rattle.otlp_read.specs.Integers.{signed_in};
ghost use Rattle.otlp_read.specs.Lists.{list_in};
ghost use Rattle.otlp_read.specs.Fields.{field};
ghost use Rattle.otlp_read.specs.Histograms.{count_in, total_in, histogram_fields, histogram_point};
ghost use Rattle.otlp_read.specs.Histograms.{histogram_point_in};
ghost use Rattle.otlp_read.specs.inner.PointViews.{histogram_fields_data};
ghost use Rattle.otlp_read.specs.inner.StreamViews.{stream_data};
ghost use Rattle.otlp_read.specs.inner.RefViews.{found_data};

use crate::fields::{flags_fit, nanos_in};
use crate::identity_cache::IdentityCache;
use crate::integers::unsigned_64;
use crate::lists::list_in;
use crate::members::point_members;
use crate::streams::{PointStream, Stream, series_of};
use metric_events::point::{Point, PointFault};
use serde_json::Value;
use series_id::Kind;
use std::alloc::{AllocError, Global};

/// Start and end (nanoseconds), count and sum of a histogram's point, and the fields of its
/// buckets, bounds and attributes, which are read later.
#[derive(Clone, Copy)]
struct HistogramFields<'v> {
    start: u64,
    end: u64,
    count: u64,
    total: Option<u64>,
    buckets: Option<&'v Value>,
    bounds: Option<&'v Value>,
    attributes: Option<&'v Value>,
}

/// The count of values, 0 if it is absent.
#[tactic(auto, unfolding(crate::specs::Histograms::count_in))]
fn count_in(found: Option<&Value>) -> Option<u64>
    ensures { result ≡ count_in (found_data found.entry) }
{
    match found {
        None => Some(0),
        Some(value) => unsigned_64(value),
    }
}

/// The sum of the values, which may be absent.
#[tactic(auto, unfolding(crate::specs::Histograms::total_in))]
fn total_in(found: Option<&Value>) -> Option<Option<u64>>
    ensures { result ≡ total_in (found_data found.entry) }
{
    match found {
        None => Some(None),
        Some(value) => unsigned_64(value).map(Some),
    }
}

/// The fields of a point; `None` if the point is foreign for one of them.
#[tactic(auto, unfolding(crate::specs::Histograms::histogram_fields))]
fn histogram_fields<'v>(value: &'v Value) -> Option<HistogramFields<'v>>
    ensures fields { option_map histogram_fields_data result ≡ histogram_fields (view value.now) }
    ensures buckets { IfSome result (λ f. found_data f.buckets ≡ field (codes "bucketCounts")
        (view value.now)) }
    ensures bounds { IfSome result (λ f. found_data f.bounds ≡ field (codes "explicitBounds")
        (view value.now)) }
    ensures attributes { IfSome result (λ f. found_data f.attributes ≡ field (codes "attributes")
        (view value.now)) }
{
    let members = point_members(value.as_object()?);
    let start = nanos_in(members.start)?;
    let end = nanos_in(members.end)?;
    let count = count_in(members.count)?;
    let total = total_in(members.total)?;
    if flags_fit(members.flags) {
        Some(HistogramFields {
            start,
            end,
            count,
            total,
            buckets: members.buckets,
            bounds: members.bounds,
            attributes: members.attributes,
        })
    } else {
        None
    }
}

/// The kind of a histogram with these bounds; `None` if they are no bounds.
fn kind_of(alloc: Global, bounds: Option<&Value>) -> Result<Option<Kind>, AllocError>
    ensures { IfOk result (λ o. o ≡ option_and_then (λ found. result_ok (histogram_of found))
        (list_in (signed_in MAX_BOUND MAX_BOUND) (found_data bounds.entry))) }
{
    let Some(found) = list_in(alloc, bounds)? else {
        return Ok(None);
    };
    Ok(Kind::histogram(found).ok())
}

/// In no stream, every point is foreign.
impl PointStream for Option<Stream<'_>> {
    ghost reads = { λ stream. histogram_point_in (option_map stream_data stream) };

    fn read(
        self,
        alloc: Global,
        cache: &mut IdentityCache,
        value: &Value,
    ) -> Result<Option<Point>, AllocError> {
        match self {
            None => Ok(None),
            Some(stream) => histogram_point(alloc, cache, stream, value),
        }
    }
}

/// Reads a point of a histogram in a stream; `None` if it is foreign.
#[tactic(auto, unfolding(crate::specs::Histograms::histogram_point, crate::specs::Histograms::kind_in))]
fn histogram_point(
    alloc: Global,
    cache: &mut IdentityCache,
    stream: Stream<'_>,
    value: &Value,
) -> Result<Option<Point>, AllocError>
    ensures { IfOk result (λ o. o ≡ histogram_point (stream_data stream.entry) (view value.now)) }
{
    let Some(fields) = histogram_fields(value) else {
        return Ok(None);
    };
    let Some(kind) = kind_of(alloc, fields.bounds)? else {
        return Ok(None);
    };
    let Some(buckets) = list_in(alloc, fields.buckets)? else {
        return Ok(None);
    };
    let Some(series) = series_of(alloc, cache, stream, kind, fields.attributes)? else {
        return Ok(None);
    };
    let HistogramFields {
        start,
        end,
        count,
        total,
        ..
    } = fields;
    let point = allowed_point(Point::shared_histogram(
        alloc, series, start, end, count, total, buckets,
    ))?;
    Ok(point)
}

/// The point, or `None` if it breaks a rule of points. Fails only if an allocation failed.
fn allowed_point(point: Result<Point, PointFault>) -> Result<Option<Point>, AllocError>
    ensures point { IfOk result (λ o. o ≡ result_ok point) }
    ensures ok { OnOk result (point ≢ Err PointFault.NoMemory) }
    ensures memory { OnErr result (point ≡ Err PointFault.NoMemory) }
{
    match point {
        Ok(point) => Ok(Some(point)),
        Err(PointFault::NoMemory) => Err(AllocError),
        Err(_) => Ok(None),
    }
}
