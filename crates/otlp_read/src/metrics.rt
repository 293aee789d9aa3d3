//! Reads metrics: their data fields, and the points in them (`Metric` of
//! `opentelemetry/proto/metrics/v1/metrics.proto`).

ghost use Rattle.std.specs.Prelude.{◌≡◌, ◌≤◌, map, option_map, IfOk, OnOk};
ghost use Rattle.serde_json.specs.View.{view};
ghost use Rattle.otlp_read.specs.inner.Containers.{Gives};
ghost use Rattle.otlp_read.specs.inner.StreamViews.{scope_data};
ghost use Rattle.otlp_read.specs.Tallies.{tally, add_metric, add_point, each_point};
ghost use Rattle.otlp_read.specs.Metrics.{part, parts, one_if, is_single, add_all, add_sum};
ghost use Rattle.otlp_read.specs.Metrics.{add_histogram, add_profile, add_parts, metric};
ghost use Rattle.otlp_read.specs.inner.PartViews.{part_data, parts_data};

use crate::containers::{object_in, objects};
use crate::fault::ReadFault;
use crate::fields::field;
use crate::place::Place;
use crate::reader::{Object, Reader};
use crate::reading::Reading;
use crate::streams::{PointStream, Scope, stream_in, sum_stream_in};
use metric_events::point::Point;
use serde_json::Value;
use std::alloc::{AllocError, Global};

/// A data field, and its points.
#[derive(Clone, Copy)]
struct Part<'v> {
    whole: &'v Value,
    points: &'v [Value],
}

/// The five data fields of a metric (`Metric.data`). A metric should have one of them.
#[derive(Clone, Copy)]
struct Parts<'v> {
    gauge: Option<Part<'v>>,
    sum: Option<Part<'v>>,
    histogram: Option<Part<'v>>,
    exponential: Option<Part<'v>>,
    summary: Option<Part<'v>>,
}

/// Reads a metric of a scope, and adds it to the reading.
#[tactic(auto, unfolding(crate::specs::Metrics::metric))]
fn metric(reader: &mut Reader<'_>, scope: Option<Scope<'_>>, value: &Value) -> Result<(), ReadFault>
    ensures { Gives (λ _. tally reader.new.out) result (metric (option_map scope_data scope.entry)
        (view value.now) (tally reader.old.out)) }
{
    let parts = parts_of(value)?;
    reader.out.metrics = reader.out.metrics.saturating_add(1);
    add_parts(reader, scope, value, parts)?;
    Ok(())
}

/// A metric of a scope.
impl Object for Option<Scope<'_>> {
    ghost adds = { λ scope. metric (option_map scope_data scope) };

    fn read(self, reader: &mut Reader<'_>, value: &Value) -> Result<(), ReadFault> {
        metric(reader, self, value)
    }
}

/// The data fields of a metric.
#[tactic(auto, unfolding(crate::specs::Metrics::parts))]
fn parts_of<'v>(metric: &'v Value) -> Result<Parts<'v>, ReadFault>
    ensures { Gives parts_data result (parts (view metric.now)) }
{
    let gauge = part_of(metric, "gauge")?;
    let sum = part_of(metric, "sum")?;
    let histogram = part_of(metric, "histogram")?;
    let exponential = part_of(metric, "exponentialHistogram")?;
    let summary = part_of(metric, "summary")?;
    Ok(Parts {
        gauge,
        sum,
        histogram,
        exponential,
        summary,
    })
}

/// The data field of this name.
#[tactic(auto, unfolding(crate::specs::Metrics::part))]
fn part_of<'v>(metric: &'v Value, name: &str) -> Result<Option<Part<'v>>, ReadFault>
    ensures { Gives (λ p. option_map part_data p) result (part name.now (view metric.now)) }
{
    let Some(whole) = object_in(field(metric, name), Place::DataField)? else {
        return Ok(None);
    };
    let points = objects(field(whole, "dataPoints"), Place::DataPoints)?;
    Ok(Some(Part { whole, points }))
}

/// Adds the points of all data fields.
#[tactic(auto, unfolding(crate::specs::Metrics::add_parts))]
fn add_parts(
    reader: &mut Reader<'_>,
    scope: Option<Scope<'_>>,
    metric: &Value,
    parts: Parts<'_>,
) -> Result<(), AllocError>
    ensures { OnOk result (tally reader.new.out ≡ add_parts (option_map scope_data scope.entry)
        (view metric.now) (parts_data parts.entry) (tally reader.old.out)) }
{
    add_all(&mut reader.out, parts.gauge);
    add_profile(reader, scope, metric, parts)?;
    add_all(&mut reader.out, parts.exponential);
    add_all(&mut reader.out, parts.summary);
    Ok(())
}

/// Adds the points of the sum and of the histogram. With two data fields all are foreign.
#[tactic(auto, unfolding(crate::specs::Metrics::add_profile))]
fn add_profile(
    reader: &mut Reader<'_>,
    scope: Option<Scope<'_>>,
    metric: &Value,
    parts: Parts<'_>,
) -> Result<(), AllocError>
    ensures { OnOk result (tally reader.new.out ≡ add_profile (option_map scope_data scope.entry)
        (view metric.now) (parts_data parts.entry) (tally reader.old.out)) }
{
    if is_single(parts) {
        add_sum(reader, scope, metric, parts.sum)?;
        add_histogram(reader, scope, metric, parts.histogram)?;
    } else {
        add_all(&mut reader.out, parts.sum);
        add_all(&mut reader.out, parts.histogram);
    }
    Ok(())
}

/// Whether there is at most one data field.
#[tactic(auto, unfolding(crate::specs::Metrics::is_single))]
fn is_single(parts: Parts<'_>) -> bool
    ensures { result ≡ is_single (parts_data parts.entry) }
{
    let there = one_if(parts.gauge)
        + one_if(parts.sum)
        + one_if(parts.histogram)
        + one_if(parts.exponential)
        + one_if(parts.summary);
    there <= 1
}

/// 1 if the data field is present, else 0.
fn one_if(part: Option<Part<'_>>) -> u8
    ensures value { result ≡ one_if (option_map part_data part.entry) }
    ensures small { result ≤ 1 }
{
    match part {
        None => 0,
        Some(_) => 1,
    }
}

/// Counts all points of a data field as foreign.
fn add_all(out: &mut Reading, part: Option<Part<'_>>)
    ensures { tally out.new ≡ add_all (option_map part_data part.entry) (tally out.old) }
{
    if let Some(part) = part {
        out.foreign = out.foreign.saturating_add(part.points.len() as u64);
    }
}

/// Adds the points of a sum.
fn add_sum(
    reader: &mut Reader<'_>,
    scope: Option<Scope<'_>>,
    metric: &Value,
    part: Option<Part<'_>>,
) -> Result<(), AllocError>
    ensures { OnOk result (tally reader.new.out ≡ add_sum (option_map scope_data scope.entry)
        (view metric.now) (option_map part_data part.entry) (tally reader.old.out)) }
{
    let Some(part) = part else {
        return Ok(());
    };
    let sum = sum_stream_in(scope, metric, part.whole);
    points(reader, sum, part.points)
}

/// Adds the points of a histogram.
fn add_histogram(
    reader: &mut Reader<'_>,
    scope: Option<Scope<'_>>,
    metric: &Value,
    part: Option<Part<'_>>,
) -> Result<(), AllocError>
    ensures { OnOk result (tally reader.new.out ≡ add_histogram (option_map scope_data scope.entry)
        (view metric.now) (option_map part_data part.entry) (tally reader.old.out)) }
{
    let Some(part) = part else {
        return Ok(());
    };
    let stream = stream_in(scope, metric, part.whole);
    points(reader, stream, part.points)
}

/// Reads points in order, and adds them.
fn points<S: PointStream>(
    reader: &mut Reader<'_>,
    stream: S,
    points: &[Value],
) -> Result<(), AllocError>
    ensures { OnOk result (tally reader.new.out ≡ each_point (S.reads stream)
        (map view points.now) (tally reader.old.out)) }
{
    for value in points {
        let point = stream.read(reader.alloc, reader.cache, value)?;
        add_point(&mut reader.out, point)?;
    }
    Ok(())
}

/// Adds a point of the profile, or counts a foreign one.
fn add_point(out: &mut Reading, point: Option<Point>) -> Result<(), AllocError>
    ensures { OnOk result (tally out.new ≡ add_point point (tally out.old)) }
{
    match point {
        Some(point) => out.points.push(point)?,
        None => out.foreign = out.foreign.saturating_add(1),
    }
    Ok(())
}
