//! Builds the points of histograms as JSON (`HistogramDataPoint` of
//! `opentelemetry/proto/metrics/v1/metrics.proto`).

ghost use Rattle.std.specs.Prelude.{◌≡◌, ◌≤◌, length, sum, decimal, IfOk};
ghost use Rattle.serde_json.specs.Data.{number, string};
ghost use Rattle.serde_json.specs.Find.{of_integer};
ghost use Rattle.serde_json.specs.View.{view};
ghost use Rattle.metric_events.specs.declared.limits.TheConstants.{MAX_COUNT};
ghost use Rattle.metric_events.specs.PointFaults.{IsHistogram};
ghost use Rattle.out_texts.specs.Points as spec;

use crate::attributes::attributes_value;
use crate::objects::Object;
use crate::values::{HasValue, values_of};
use delta_book::flush::FlushPoint;
use serde_json::Value;
use std::alloc::{AllocError, Global};

/// The count of a histogram's values: the sum of its buckets, which has 64 bits.
fn count_of(buckets: &[u64]) -> u64
    requires { sum buckets.now ≤ MAX_COUNT }
    ensures { result ≡ sum buckets.now }
{
    let mut total = 0u128;
    for bucket in buckets {
        total += u128::from(*bucket);
    }
    total as u64
}

impl HasValue for u64 {
    ghost value_of = { λ n. string (decimal n) };

    /// A count, as a text.
    fn value(&self, alloc: Global) -> Result<Value, AllocError> {
        Ok(Value::from(self.to_string(alloc)?))
    }
}

impl HasValue for i64 {
    ghost value_of = { λ b. number (of_integer b) };

    /// A bound, as a number.
    fn value(&self, _alloc: Global) -> Result<Value, AllocError> {
        Ok(Value::from(*self))
    }
}

/// The sum of a histogram's row, if each of its points had one. The row is the count of points, the
/// count of points without a sum, the sum, and the buckets.
#[tactic(auto, unfolding(crate::specs::Points::total_of))]
fn total_of(row: &[u64]) -> Option<u64>
    requires { 3 ≤ length row.now }
    ensures { result ≡ spec.total_of row.now }
{
    if row[1] == 0 { Some(row[2]) } else { None }
}

/// A point of a histogram with these bounds.
#[tactic(auto, unfolding(crate::specs::Points::total_of))]
pub(crate) fn histogram_point_value(
    alloc: Global,
    bounds: &[i64],
    point: &FlushPoint,
) -> Result<Value, AllocError>
    requires { IsHistogram point.now.series.kind }
    ensures { IfOk result (λ v. view v ≡ spec.histogram_point_value bounds.now point.now) }
{
    let row = point.row();
    let buckets = &row[3..];
    let attributes = attributes_value(alloc, point.series().attrs())?;
    let counts = values_of(alloc, buckets)?;
    let bounds = values_of(alloc, bounds)?;
    let value = Object::new(alloc)
        .value("attributes", attributes)
        .value("bucketCounts", Value::from(counts))
        .decimal("count", count_of(buckets))
        .value("explicitBounds", Value::from(bounds))
        .decimal("startTimeUnixNano", point.span().start())
        .decimal("timeUnixNano", point.span().end());
    match total_of(row) {
        None => value.finish(),
        Some(sum) => value.value("sum", Value::from(sum)).finish(),
    }
}
