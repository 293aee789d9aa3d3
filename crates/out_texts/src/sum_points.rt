//! Builds the points of sums as JSON (`NumberDataPoint` of
//! `opentelemetry/proto/metrics/v1/metrics.proto`).

ghost use Rattle.std.specs.Prelude.{◌≡◌, ◌≤◌, length, slice_index, IfOk};
ghost use Rattle.serde_json.specs.View.{view};
ghost use Rattle.metric_events.specs.declared.limits.TheConstants.{MAX_AMOUNT};
ghost use Rattle.metric_events.specs.PointFaults.{IsSum};
ghost use Rattle.out_texts.specs.Points as spec;

use crate::attributes::attributes_value;
use crate::objects::Object;
use delta_book::flush::FlushPoint;
use serde_json::Value;
use std::alloc::{AllocError, Global};

/// The value of a sum's row, which is the count of points, the sum of the positive values, and that
/// of the negative ones without their sign.
fn sum_of(row: &[u64]) -> i64
    requires up { slice_index row.now 1 ≤ MAX_AMOUNT }
    requires down { slice_index row.now 2 ≤ MAX_AMOUNT }
    requires long { 3 ≤ length row.now }
    ensures { result ≡ spec.sum_of row.now }
{
    row[1] as i64 - row[2] as i64
}

/// A point of a sum.
pub(crate) fn sum_point_value(alloc: Global, point: &FlushPoint) -> Result<Value, AllocError>
    requires { IsSum point.now.series.kind }
    ensures { IfOk result (λ v. view v ≡ spec.sum_point_value point.now) }
{
    let attributes = attributes_value(alloc, point.series().attrs())?;
    Object::new(alloc)
        .signed("asInt", sum_of(point.row()))
        .value("attributes", attributes)
        .decimal("startTimeUnixNano", point.span().start())
        .decimal("timeUnixNano", point.span().end())
        .finish()
}
