//! Reads the points of sums (`NumberDataPoint` of
//! `opentelemetry/proto/metrics/v1/metrics.proto`).

ghost use Rattle.std.specs.Prelude.{◌≡◌, ◌&&◌, codes, is_some, not, option_map, IfOk, IfSome};
ghost use Rattle.serde_json.specs.View.{view};
ghost use Rattle.otlp_read.specs.Fields.{field, flags_fit};
ghost use Rattle.otlp_read.specs.Sums.{number_in, sum_fields, sum_point, sum_point_in};
ghost use Rattle.otlp_read.specs.inner.PointViews.{sum_fields_data};
ghost use Rattle.otlp_read.specs.inner.StreamViews.{sum_stream_data};
ghost use Rattle.otlp_read.specs.inner.RefViews.{found_data};

use crate::fields::{flags_fit, nanos_in};
use crate::identity_cache::IdentityCache;
use crate::integers::signed_64;
use crate::members::{PointMembers, point_members};
use crate::streams::{PointStream, SumStream, series_of};
use metric_events::point::Point;
use serde_json::Value;
use series_id::Kind;
use std::alloc::{AllocError, Global};

/// Start and end (nanoseconds) and value of a sum's point, and the field of its attributes, which
/// is read later.
#[derive(Clone, Copy)]
struct SumFields<'v> {
    start: u64,
    end: u64,
    value: i64,
    attributes: Option<&'v Value>,
}

/// The value, a whole number of 64 bits.
#[tactic(auto, unfolding(crate::specs::Sums::number_in))]
fn number_in(found: Option<&Value>) -> Option<i64>
    ensures { result ≡ number_in (found_data found.entry) }
{
    signed_64(found?)
}

/// Whether the point has a recorded value that is no double.
fn is_whole_value(members: PointMembers<'_>) -> bool
    ensures { result ≡ (flags_fit (found_data members.entry.flags)
        && not (is_some (found_data members.entry.double))) }
{
    flags_fit(members.flags) && members.double.is_none()
}

/// The fields of a point; `None` if the point is foreign for one of them.
#[tactic(auto, unfolding(crate::specs::Sums::sum_fields))]
fn sum_fields<'v>(value: &'v Value) -> Option<SumFields<'v>>
    ensures fields { option_map sum_fields_data result ≡ sum_fields (view value.now) }
    ensures attributes { IfSome result (λ f. found_data f.attributes ≡ field (codes "attributes")
        (view value.now)) }
{
    let members = point_members(value.as_object()?);
    let start = nanos_in(members.start)?;
    let end = nanos_in(members.end)?;
    let number = number_in(members.number)?;
    if is_whole_value(members) {
        Some(SumFields {
            start,
            end,
            value: number,
            attributes: members.attributes,
        })
    } else {
        None
    }
}

/// In no stream, every point is foreign.
impl PointStream for Option<SumStream<'_>> {
    ghost reads = { λ sum. sum_point_in (option_map sum_stream_data sum) };

    fn read(
        self,
        alloc: Global,
        cache: &mut IdentityCache,
        value: &Value,
    ) -> Result<Option<Point>, AllocError> {
        match self {
            None => Ok(None),
            Some(sum) => sum_point(alloc, cache, sum, value),
        }
    }
}

/// Reads a point of a sum in a stream; `None` if it is foreign.
#[tactic(auto, unfolding(crate::specs::Sums::sum_point))]
fn sum_point(
    alloc: Global,
    cache: &mut IdentityCache,
    sum: SumStream<'_>,
    value: &Value,
) -> Result<Option<Point>, AllocError>
    ensures { IfOk result (λ o. o ≡ sum_point (sum_stream_data sum.entry) (view value.now)) }
{
    let Some(fields) = sum_fields(value) else {
        return Ok(None);
    };
    let kind = Kind::Sum {
        monotonic: sum.monotonic,
    };
    let Some(series) = series_of(alloc, cache, sum.stream, kind, fields.attributes)? else {
        return Ok(None);
    };
    let point = Point::shared_sum(series, fields.start, fields.end, fields.value);
    Ok(point.ok())
}
