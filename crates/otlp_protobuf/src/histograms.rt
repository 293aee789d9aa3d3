//! Reads the points of histograms, as `otlp_read` reads those of their JSON mapping.

ghost use Rattle.std.specs.Prelude.{◌≡◌, ◌≢◌, IfOk, List, OnErr, OnOk, map, option_and_then};
ghost use Rattle.std.specs.Prelude.{option_map};
ghost use Rattle.std.specs.Result.{result_ok};
ghost use Rattle.serde_json.specs.Data.{Data};
ghost use Rattle.series_id.specs.Ascending.{histogram_of};
ghost use Rattle.series_id.specs.declared.limits.TheConstants.{MAX_BOUND};
ghost use Rattle.otlp_read.specs.Integers.{signed_in};
ghost use Rattle.otlp_read.specs.Lists.{all_of};
ghost use Rattle.otlp_read.specs.Histograms.{count_in, total_in, histogram_fields, histogram_point};
ghost use Rattle.otlp_read.specs.Histograms.{histogram_point_in};
ghost use Rattle.otlp_protobuf.specs.Wire.{fields};
ghost use Rattle.otlp_protobuf.specs.Fields.{numbers};
ghost use Rattle.otlp_protobuf.specs.Members.{unsigned_data, double_data};
ghost use Rattle.otlp_protobuf.specs.Points.{histogram_point_of, histogram_point_data};
ghost use Rattle.otlp_protobuf.specs.Points.{histogram_point as point_shown};
ghost use Rattle.otlp_protobuf.specs.inner.HistogramViews.{histogram_fields_data};
ghost use Rattle.otlp_protobuf.specs.inner.HistogramViews.{histogram_fields_of};
ghost use Rattle.otlp_protobuf.specs.inner.StreamViews.{stream_data};

use crate::doubles::unsigned_double;
use crate::histogram_gather::{ATTRIBUTES, BOUNDS, BUCKETS, gather_histogram};
use crate::histogram_point::HistogramPoint;
use crate::identity_cache::{IdentityCache, run_of, share_if};
use crate::kind_ref::KindRef;
use crate::number_list::NumberList;
use crate::numbers::numbers_in;
use crate::point_attributes::PointAttributes;
use crate::point_fields::{flags_fit, nanos_in};
use crate::streams::{PointStream, Stream, series_of};
use metric_events::point::{Point, PointFault};
use std::alloc::{AllocError, Global};

/// Start and end (nanoseconds), count and sum of a histogram's point.
#[derive(Clone, Copy)]
pub struct HistogramFields {
    pub start: u64,
    pub end: u64,
    pub count: u64,
    pub total: Option<u64>,
}

/// The count of values, 0 if it is absent.
#[tactic(auto, unfolding(otlp_read::specs::Histograms::count_in, otlp_read::specs::Integers::unsigned_in))]
fn count_in(found: Option<u64>) -> Option<u64>
    ensures { result ≡ count_in (option_map unsigned_data found) }
{
    match found {
        None => Some(0),
        Some(count) => Some(count),
    }
}

/// The sum of the values, which may be absent.
#[tactic(auto, unfolding(otlp_read::specs::Histograms::total_in))]
fn total_in(found: Option<u64>) -> Option<Option<u64>>
    ensures { result ≡ total_in (option_map double_data found) }
{
    match found {
        None => Some(None),
        Some(bits) => unsigned_double(bits).map(Some),
    }
}

/// The fields of a point; `None` if the point is foreign for one of them.
fn histogram_fields(point: HistogramPoint) -> Option<HistogramFields>
    ensures { option_map histogram_fields_data result ≡ histogram_fields_of point }
{
    let start = nanos_in(point.start)?;
    let end = nanos_in(point.end)?;
    let count = count_in(point.count)?;
    let total = total_in(point.total)?;
    if flags_fit(point.flags) {
        Some(HistogramFields {
            start,
            end,
            count,
            total,
        })
    } else {
        None
    }
}

/// In no stream, every point is foreign.
impl PointStream for Option<Stream<'_>> {
    ghost shows = { point_shown };

    ghost reads = { λ stream. histogram_point_in (option_map stream_data stream) };

    fn read(
        self,
        alloc: Global,
        cache: &mut IdentityCache,
        bytes: &[u8],
    ) -> Result<Option<Point>, AllocError> {
        match self {
            None => Ok(None),
            Some(stream) => histogram_point(alloc, cache, &stream, bytes),
        }
    }
}

/// Reads a point of a histogram in a stream; `None` if it is foreign.
fn histogram_point(
    alloc: Global,
    cache: &mut IdentityCache,
    stream: &Stream<'_>,
    bytes: &[u8],
) -> Result<Option<Point>, AllocError>
    ensures { IfOk result (λ o. o
        ≡ histogram_point (stream_data stream.now) (point_shown bytes.now)) }
{
    let next = cache.next();
    let (point, is_known, buckets, bounds) = gather_histogram(bytes, run_of(next));
    let Some(fields) = histogram_fields(point) else {
        return Ok(None);
    };
    let kind = KindRef::Histogram {
        bounds: NumberList::of(bytes, BOUNDS, bounds),
    };
    let known = share_if(next, is_known, stream, &kind);
    let Some(buckets) = numbers_in(alloc, NumberList::of(bytes, BUCKETS, buckets))? else {
        return Ok(None);
    };
    let attributes = PointAttributes {
        bytes,
        number: ATTRIBUTES,
    };
    let Some(series) = series_of(alloc, cache, known, stream, kind, attributes)? else {
        return Ok(None);
    };
    let HistogramFields {
        start,
        end,
        count,
        total,
    } = fields;
    let point = allowed_point(Point::shared_histogram(
        alloc, series, start, end, count, total, buckets,
    ))?;
    Ok(point)
}

/// The point, or `None` if it breaks a rule of points. Fails only if an allocation failed.
fn allowed_point(point: Result<Point, PointFault>) -> Result<Option<Point>, AllocError>
    ensures point { IfOk result (λ o. o ≡ result_ok point) }
    ensures ok { OnOk result (point ≢ Err PointFault.NoMemory) }
    ensures memory { OnErr result (point ≡ Err PointFault.NoMemory) }
{
    match point {
        Ok(point) => Ok(Some(point)),
        Err(PointFault::NoMemory) => Err(AllocError),
        Err(_) => Ok(None),
    }
}
