//! Reads the points of sums, as `otlp_read` reads those of their JSON mapping.

ghost use Rattle.std.specs.Prelude.{◌≡◌, IfOk, IsTrue, List, option_map};
ghost use Rattle.serde_json.specs.Data.{Data};
ghost use Rattle.otlp_read.specs.Sums.{number_in, sum_fields, sum_point, sum_point_in};
ghost use Rattle.otlp_protobuf.specs.Members.{signed_data};
ghost use Rattle.otlp_protobuf.specs.Wire.{fields};
ghost use Rattle.otlp_protobuf.specs.Fields.{contents, gathered};
ghost use Rattle.otlp_protobuf.specs.Points.{no_number, number_point, take_number};
ghost use Rattle.otlp_protobuf.specs.Points.{number_point_of, number_point_data};
ghost use Rattle.otlp_protobuf.specs.inner.RunViews.{messages_of};
ghost use Rattle.otlp_protobuf.specs.inner.StreamViews.{sum_stream_data};
ghost use Rattle.otlp_protobuf.specs.inner.SumViews.{sum_fields_data, sum_fields_of};

use crate::fields::Fields;
use crate::identity_cache::{IdentityCache, run_of, share_if};
use crate::kind_ref::KindRef;
use crate::known_run::KnownRun;
use crate::number_point::NumberPoint;
use crate::others::{Seen, is_run, next_other};
use crate::point_attributes::PointAttributes;
use crate::point_fields::{flags_fit, nanos_in};
use crate::scan::Gathered;
use crate::streams::{PointStream, SumStream, series_of};
use metric_events::point::Point;
use std::alloc::{AllocError, Global};

/// The number of a point's attributes.
const ATTRIBUTES: u32 = 7;

/// Start and end (nanoseconds) and value of a sum's point.
#[derive(Clone, Copy)]
pub struct SumFields {
    pub start: u64,
    pub end: u64,
    pub value: i64,
}

/// A whole number, if it is there.
fn number_in(found: Option<i64>) -> Option<i64>
    ensures { result ≡ number_in (option_map signed_data found) }
{
    match found {
        Some(number) => Some(number),
        None => None,
    }
}

/// The fields of a point; `None` if the point is foreign for one of them.
fn sum_fields(point: NumberPoint) -> Option<SumFields>
    ensures { option_map sum_fields_data result ≡ sum_fields_of point }
{
    let start = nanos_in(point.start)?;
    let end = nanos_in(point.end)?;
    let value = number_in(point.int)?;
    if flags_fit(point.flags) && point.double.is_none() {
        Some(SumFields { start, end, value })
    } else {
        None
    }
}

/// In no stream, every point is foreign.
impl PointStream for Option<SumStream<'_>> {
    ghost shows = { number_point };

    ghost reads = { λ sum. sum_point_in (option_map sum_stream_data sum) };

    fn read(
        self,
        alloc: Global,
        cache: &mut IdentityCache,
        bytes: &[u8],
    ) -> Result<Option<Point>, AllocError> {
        match self {
            None => Ok(None),
            Some(sum) => sum_point(alloc, cache, &sum, bytes),
        }
    }
}

/// What a point says, and whether its attributes are those that are known.
#[inline(always)]
fn gather_number(bytes: &[u8], known: Option<&KnownRun>) -> (NumberPoint, bool)
    ensures said { result.0 ≡ gathered take_number no_number (fields bytes.now) }
    ensures known { IsTrue result.1
        → messages_of known.entry ≡ contents ATTRIBUTES (fields bytes.now) }
{
    let mut point = NumberPoint::new();
    let mut rest = Fields::of(bytes);
    let mut seen = Seen::None;
    while let Some(field) = next_other(&mut rest, &mut seen, ATTRIBUTES, known) {
        point = point.take(field);
    }
    (point, is_run(seen))
}

/// Reads a point of a sum in a stream; `None` if it is foreign.
#[inline(always)]
fn sum_point(
    alloc: Global,
    cache: &mut IdentityCache,
    sum: &SumStream<'_>,
    bytes: &[u8],
) -> Result<Option<Point>, AllocError>
    ensures { IfOk result (λ o. o
        ≡ sum_point (sum_stream_data sum.now) (number_point bytes.now)) }
{
    let next = cache.next();
    let (point, is_known) = gather_number(bytes, run_of(next));
    let Some(fields) = sum_fields(point) else {
        return Ok(None);
    };
    let kind = KindRef::Sum {
        monotonic: sum.monotonic,
    };
    let attributes = PointAttributes {
        bytes,
        number: ATTRIBUTES,
    };
    let known = share_if(next, is_known, &sum.stream, &kind);
    let Some(series) = series_of(alloc, cache, known, &sum.stream, kind, attributes)? else {
        return Ok(None);
    };
    let point = Point::shared_sum(series, fields.start, fields.end, fields.value);
    Ok(point.ok())
}
