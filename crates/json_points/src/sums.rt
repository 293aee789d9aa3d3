//! Reads the points of sums (`NumberDataPoint` of
//! `opentelemetry/proto/metrics/v1/metrics.proto`).

ghost use Rattle.std.specs.Prelude.{◌≡◌, option_map, IfOk};
ghost use Rattle.serde_json.specs.Data.{Data, Members, no_members, object, put};
ghost use Rattle.otlp_read.specs.Sums.{number_in, sum_point};
ghost use Rattle.otlp_read.specs.Sums.{sum_point_in};
ghost use Rattle.json_points.specs.inner.Nodes.{data_at};
ghost use Rattle.json_points.specs.inner.Slots.{slot_data};
ghost use Rattle.json_points.specs.inner.RefViews.{sum_fields_data};
ghost use Rattle.json_points.specs.inner.SumParts.{HasParts, is_whole, said_by};
ghost use Rattle.json_points.specs.inner.StreamViews.{sum_stream_data};

use crate::fields::flags_fit;
use crate::identity_cache::IdentityCache;
use crate::integers::signed_64;
use crate::names::is_named;
use crate::node::Node;
use crate::streams::{PointStream, SumStream, series_of};
use crate::times::Times;
use metric_events::point::Point;
use series_id::Kind;
use std::alloc::{AllocError, Global};

/// Start and end (nanoseconds) and value of a sum's point.
#[derive(Clone, Copy)]
pub struct SumFields {
    pub start: u64,
    pub end: u64,
    pub value: i64,
}

/// The value, a whole number of 64 bits.
#[tactic(auto, unfolding(otlp_read::specs::Sums::number_in))]
fn number_in(found: &Option<Node<'_, '_>>) -> Option<i64>
    ensures { result ≡ number_in (slot_data found.now) }
{
    match found {
        None => None,
        Some(node) => signed_64(node),
    }
}

/// The fields of a point, each if it is present.
#[derive(Drop)]
pub struct SumParts<'t, 'a> {
    pub start: Option<Node<'t, 'a>>,
    pub end: Option<Node<'t, 'a>>,
    pub value: Option<Node<'t, 'a>>,
    pub flags: Option<Node<'t, 'a>>,
    pub double: Option<Node<'t, 'a>>,
    pub attributes: Option<Node<'t, 'a>>,
}

/// The fields of an object with no member.
fn no_parts<'t, 'a>() -> SumParts<'t, 'a>
    ensures { HasParts result (object no_members) }
{
    SumParts {
        start: None,
        end: None,
        value: None,
        flags: None,
        double: None,
        attributes: None,
    }
}

/// The fields of an object that has one member more, the last of its name.
fn put_part<'t, 'a>(parts: &mut SumParts<'t, 'a>, name: &str, value: Node<'t, 'a>)
    ensures { (before : Members) → HasParts parts.old (object before)
        → HasParts parts.new (object (put name.now (data_at value.entry) before)) }
{
    let found = value.present();
    if is_named(name, "attributes") {
        parts.attributes = found;
    } else if is_named(name, "startTimeUnixNano") {
        parts.start = found;
    } else if is_named(name, "timeUnixNano") {
        parts.end = found;
    } else if is_named(name, "asInt") {
        parts.value = found;
    } else if is_named(name, "asDouble") {
        parts.double = found;
    } else if is_named(name, "flags") {
        parts.flags = found;
    }
}

/// The fields of a value.
fn parts_of<'t, 'a>(node: &Node<'t, 'a>) -> SumParts<'t, 'a>
    ensures { HasParts result (data_at node.now) }
{
    let mut parts = no_parts();
    let Some(mut fields) = node.fields() else {
        return parts;
    };
    while let Some((name, value)) = fields.next() {
        put_part(&mut parts, name, value);
    }
    parts
}

/// Whether the point has a recorded value that is no double.
fn is_whole_value(parts: &SumParts<'_, '_>) -> bool
    ensures { result ≡ is_whole parts.now }
{
    flags_fit(&parts.flags) && parts.double.is_none()
}

/// What a point says; `None` if it is foreign for one of its fields.
#[tactic(auto, unfolding(crate::specs::inner::SumParts::said_by))]
fn sum_fields<'a>(times: &mut Times<'a>, parts: &SumParts<'_, 'a>) -> Option<SumFields>
    ensures { option_map sum_fields_data result ≡ said_by parts.now }
{
    let start = times.start.read(&parts.start)?;
    let end = times.end.read(&parts.end)?;
    let value = number_in(&parts.value)?;
    if is_whole_value(parts) {
        Some(SumFields { start, end, value })
    } else {
        None
    }
}

/// In no stream, every point is foreign.
impl PointStream for Option<SumStream<'_, '_>> {
    ghost reads = { λ sum. sum_point_in (option_map sum_stream_data sum) };

    fn read<'a>(
        self,
        alloc: Global,
        cache: &mut IdentityCache,
        times: &mut Times<'a>,
        node: &Node<'_, 'a>,
    ) -> Result<Option<Point>, AllocError> {
        match self {
            None => Ok(None),
            Some(sum) => sum_point(alloc, cache, times, sum, node),
        }
    }
}

/// Reads a point of a sum in a stream; `None` if it is foreign.
#[tactic(auto, unfolding(otlp_read::specs::Sums::sum_point))]
fn sum_point<'a>(
    alloc: Global,
    cache: &mut IdentityCache,
    times: &mut Times<'a>,
    sum: SumStream<'_, '_>,
    node: &Node<'_, 'a>,
) -> Result<Option<Point>, AllocError>
    ensures { IfOk result (λ o. o ≡ sum_point (sum_stream_data sum.entry) (data_at node.now)) }
{
    let parts = parts_of(node);
    let Some(fields) = sum_fields(times, &parts) else {
        return Ok(None);
    };
    let kind = Kind::Sum {
        monotonic: sum.monotonic,
    };
    let found = &parts.attributes;
    let Some(series) = series_of(alloc, cache, &mut times.hash, sum.stream, kind, found)? else {
        return Ok(None);
    };
    let point = Point::shared_sum(series, fields.start, fields.end, fields.value);
    Ok(point.ok())
}
