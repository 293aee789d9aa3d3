//! Reads metrics, and the points in them (`Metric` of
//! `opentelemetry/proto/metrics/v1/metrics.proto`). A sum or a histogram with another data field
//! beside it is not known here.

ghost use Rattle.std.specs.Prelude.{◌≡◌, ◌-◌, ◌^◌, List, IsTrue, None, Option, OnOk, Ok, codes};
ghost use Rattle.std.specs.Prelude.{length, min, option_map};
ghost use Rattle.serde_json.specs.Data.{Data};
ghost use Rattle.otlp_read.specs.declared.place.Place.TheVariants.{DataPoints};
ghost use Rattle.otlp_read.specs.Containers.{objects};
ghost use Rattle.otlp_read.specs.Fields.{field};
ghost use Rattle.otlp_read.specs.Histograms.{histogram_point_in};
ghost use Rattle.otlp_read.specs.Metrics.{Part, add_all, metric, part};
ghost use Rattle.otlp_read.specs.Streams.{Scope as ScopeData, stream_in, sum_stream_in};
ghost use Rattle.otlp_read.specs.Sums.{sum_point_in};
ghost use Rattle.otlp_read.specs.Tallies.{tally, add_foreign, add_metric, add_point, each_point};
ghost use Rattle.json_points.specs.inner.Nodes.{AreItems, data_at};
ghost use Rattle.json_points.specs.inner.Slots.{IsList};
ghost use Rattle.json_points.specs.inner.MetricViews.{scope_data};

use crate::containers::{object_in, objects};
use crate::fields::field;
use crate::node::{Node, Nodes};
use crate::reader::{Object, Reader};
use crate::streams::{PointStream, Scope, stream_in, sum_stream_in};
use crate::times::Times;
use crate::unknown::Unknown;
use metric_events::point::Point;
use otlp_read::Reading;
use std::alloc::AllocError;

/// A metric of a scope.
impl Object for Option<Scope<'_>> {
    ghost adds = { λ scope. metric (option_map scope_data scope) };

    fn read(self, reader: &mut Reader<'_>, node: &Node<'_, '_>) -> Result<(), Unknown> {
        metric(reader, self, node)
    }
}

/// Reads a metric of a scope, and adds it to the reading.
fn metric(
    reader: &mut Reader<'_>,
    scope: Option<Scope<'_>>,
    node: &Node<'_, '_>,
) -> Result<(), Unknown>
    ensures { OnOk result (metric (option_map scope_data scope.entry) (data_at node.now)
        (tally reader.old.out) ≡ Ok (tally reader.new.out)) }
{
    if is_absent(node, "histogram") {
        if is_absent(node, "sum") {
            foreign_metric(&mut reader.out, node)
        } else {
            sum_metric(reader, scope, node)
        }
    } else if is_absent(node, "sum") {
        histogram_metric(reader, scope, node)
    } else {
        Err(Unknown)
    }
}

/// Whether an object has no such field.
fn is_absent(node: &Node<'_, '_>, name: &str) -> bool
    ensures { IsTrue result → field name.now (data_at node.now) ≡ None }
{
    match field(node, name) {
        Some(_) => false,
        None => true,
    }
}

/// Whether a metric has none of the data fields whose points are foreign.
fn has_no_foreign(node: &Node<'_, '_>) -> bool
    ensures gauge { IsTrue result → field (codes "gauge") (data_at node.now) ≡ None }
    ensures exponential { IsTrue result
        → field (codes "exponentialHistogram") (data_at node.now) ≡ None }
    ensures summary { IsTrue result → field (codes "summary") (data_at node.now) ≡ None }
{
    is_absent(node, "gauge")
        && is_absent(node, "exponentialHistogram")
        && is_absent(node, "summary")
}

/// Reads a metric whose points are foreign.
fn foreign_metric(out: &mut Reading, node: &Node<'_, '_>) -> Result<(), Unknown>
    requires sum { field (codes "sum") (data_at node.now) ≡ None }
    requires histogram { field (codes "histogram") (data_at node.now) ≡ None }
    ensures { OnOk result ((scope : Option ScopeData) → metric scope (data_at node.now)
        (tally out.old) ≡ Ok (tally out.new)) }
{
    add_metric(out);
    add_part(out, node, "gauge")?;
    add_part(out, node, "exponentialHistogram")?;
    add_part(out, node, "summary")
}

/// Counts one more metric.
fn add_metric(out: &mut Reading)
    ensures { tally out.new ≡ add_metric (tally out.old) }
{
    out.metrics = out.metrics.saturating_add(1);
}

/// Counts the points of a data field as foreign, if it is present.
fn add_part(out: &mut Reading, node: &Node<'_, '_>, name: &str) -> Result<(), Unknown>
    ensures { OnOk result ((p : Option Part) × (part name.now (data_at node.now) ≡ Ok p)
        × (tally out.new ≡ add_all p (tally out.old))) }
{
    let Some(whole) = object_in(field(node, name))? else {
        return Ok(());
    };
    let list = objects(&field(&whole, "dataPoints"))?;
    add_foreign(out, list);
    Ok(())
}

/// Counts points as foreign, none if their field is absent.
fn add_foreign(out: &mut Reading, list: Option<Nodes<'_, '_>>)
    ensures { (ds : List Data) → IsList list.entry ds
        → tally out.new ≡ add_foreign (length ds) (tally out.old) }
{
    let points = count(list);
    out.foreign = out.foreign.saturating_add(points);
}

/// How many points there are, or the largest number of 64 bits.
fn count(list: Option<Nodes<'_, '_>>) -> u64
    ensures { (ds : List Data) → IsList list.entry ds → result ≡ min (length ds) (2 ^ 64 - 1) }
{
    match list {
        None => 0,
        Some(nodes) => count_of(nodes),
    }
}

fn count_of(nodes: Nodes<'_, '_>) -> u64
    ensures { (ds : List Data) → AreItems nodes.entry ds
        → result ≡ min (length ds) (2 ^ 64 - 1) }
{
    let mut rest = nodes;
    let mut found: u64 = 0;
    while let Some(_) = rest.next() {
        found = found.saturating_add(1);
    }
    found
}

/// Reads a metric that is a sum.
fn sum_metric(
    reader: &mut Reader<'_>,
    scope: Option<Scope<'_>>,
    node: &Node<'_, '_>,
) -> Result<(), Unknown>
    requires { field (codes "histogram") (data_at node.now) ≡ None }
    ensures { OnOk result (metric (option_map scope_data scope.entry) (data_at node.now)
        (tally reader.old.out) ≡ Ok (tally reader.new.out)) }
{
    if !has_no_foreign(node) {
        return Err(Unknown);
    }
    let Some(sum) = object_in(field(node, "sum"))? else {
        return Err(Unknown);
    };
    add_metric(&mut reader.out);
    add_sum(reader, scope, node, &sum)
}

/// Adds the points of a metric's sum.
fn add_sum(
    reader: &mut Reader<'_>,
    scope: Option<Scope<'_>>,
    metric: &Node<'_, '_>,
    sum: &Node<'_, '_>,
) -> Result<(), Unknown>
    ensures { OnOk result ((ds : List Data)
        × (objects DataPoints (field (codes "dataPoints") (data_at sum.now)) ≡ Ok ds)
        × (tally reader.new.out ≡ each_point (sum_point_in (sum_stream_in
        (option_map scope_data scope.entry) (data_at metric.now) (data_at sum.now))) ds
        (tally reader.old.out))) }
{
    let list = objects(&field(sum, "dataPoints"))?;
    let next = reader.cache.next_stream();
    let stream = sum_stream_in(scope, metric, sum, next.as_ref());
    points(reader, stream, list)?;
    Ok(())
}

/// Reads a metric that is a histogram.
fn histogram_metric(
    reader: &mut Reader<'_>,
    scope: Option<Scope<'_>>,
    node: &Node<'_, '_>,
) -> Result<(), Unknown>
    requires { field (codes "sum") (data_at node.now) ≡ None }
    ensures { OnOk result (metric (option_map scope_data scope.entry) (data_at node.now)
        (tally reader.old.out) ≡ Ok (tally reader.new.out)) }
{
    if !has_no_foreign(node) {
        return Err(Unknown);
    }
    let Some(histogram) = object_in(field(node, "histogram"))? else {
        return Err(Unknown);
    };
    add_metric(&mut reader.out);
    add_histogram(reader, scope, node, &histogram)
}

/// Adds the points of a metric's histogram.
fn add_histogram(
    reader: &mut Reader<'_>,
    scope: Option<Scope<'_>>,
    metric: &Node<'_, '_>,
    histogram: &Node<'_, '_>,
) -> Result<(), Unknown>
    ensures { OnOk result ((ds : List Data)
        × (objects DataPoints (field (codes "dataPoints") (data_at histogram.now)) ≡ Ok ds)
        × (tally reader.new.out ≡ each_point (histogram_point_in (stream_in
        (option_map scope_data scope.entry) (data_at metric.now) (data_at histogram.now))) ds
        (tally reader.old.out))) }
{
    let list = objects(&field(histogram, "dataPoints"))?;
    let next = reader.cache.next_stream();
    let stream = stream_in(scope, metric, histogram, next.as_ref());
    points(reader, stream, list)?;
    Ok(())
}

/// Reads points in order, and adds them, none if their field is absent.
fn points<S: PointStream>(
    reader: &mut Reader<'_>,
    stream: S,
    list: Option<Nodes<'_, '_>>,
) -> Result<(), AllocError>
    ensures { OnOk result ((ds : List Data) → IsList list.entry ds
        → tally reader.new.out ≡ each_point (S.reads stream) ds (tally reader.old.out)) }
{
    match list {
        None => Ok(()),
        Some(nodes) => points_of(reader, stream, nodes),
    }
}

fn points_of<S: PointStream>(
    reader: &mut Reader<'_>,
    stream: S,
    nodes: Nodes<'_, '_>,
) -> Result<(), AllocError>
    ensures { OnOk result ((ds : List Data) → AreItems nodes.entry ds
        → tally reader.new.out ≡ each_point (S.reads stream) ds (tally reader.old.out)) }
{
    let mut rest = nodes;
    let mut times = Times::none();
    while let Some(node) = rest.next() {
        let point = stream.read(reader.alloc, reader.cache, &mut times, &node)?;
        add_point(&mut reader.out, point)?;
    }
    Ok(())
}

/// Adds a point of the profile, or counts a foreign one.
fn add_point(out: &mut Reading, point: Option<Point>) -> Result<(), AllocError>
    ensures { OnOk result (tally out.new ≡ add_point point (tally out.old)) }
{
    match point {
        Some(point) => out.points.push(point)?,
        None => out.foreign = out.foreign.saturating_add(1),
    }
    Ok(())
}
