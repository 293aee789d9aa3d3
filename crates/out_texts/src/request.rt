//! Builds and writes the request that forwards the points of a flush.

ghost use Rattle.std.specs.Prelude.{◌≡◌, List, map, true, IfOk};
ghost use Rattle.serde_json.specs.Data.{Data};
ghost use Rattle.serde_json.specs.View.{view, items_view, items_of};
ghost use Rattle.series_id.specs.Identity.{Identity};
ghost use Rattle.metric_events.specs.DataPoint.{DataPoint};
ghost use Rattle.metric_events.specs.Series.{is_ascending};
ghost use Rattle.out_texts.specs.Back.{ReadsBack};
ghost use Rattle.out_texts.specs.Groups.{groups, members};
ghost use Rattle.out_texts.specs.Once.{HasEachOnce};
ghost use Rattle.out_texts.specs.Sharing.{same};
ghost use Rattle.out_texts.specs.Request as spec;

use crate::attributes::attributes_value;
use crate::json_text::text_of;
use crate::level::Level;
use crate::objects::Object;
use crate::runs::run;
use crate::values::values_of;
use delta_book::flush::{Flush, FlushPoint};
use serde_json::{Value, json};
use series_id::{Kind, SeriesId};
use std::alloc::{AllocError, Global};

/// How an element of a level is built.
trait Element {
    /// The element of a series, with these points.
    ghost element_of: { Identity → List DataPoint → Data };

    /// Builds the element of a series, with these points.
    fn build(alloc: Global, series: &SeriesId, points: &[FlushPoint]) -> Result<Value, AllocError>
        ensures { IfOk result (λ v. view v ≡ element_of series.now points.now) };
}

/// The elements of these points at a level. Neighbours of one element share it.
fn elements<E: Element>(
    alloc: Global,
    level: Level,
    points: &[FlushPoint],
) -> Result<Vec<Value>, AllocError>
    ensures { IfOk result (λ vs. items_view vs.items ≡ items_of
        (map (λ g. E.element_of g.0.series (members g)) (groups (same level) points.now))) }
{
    let mut values = Vec::new(alloc);
    let mut left = points;
    while let [first, others @ ..] = left {
        let (_, after) = others.split_at(run(level, first, others));
        let (group, _) = left.split_at(left.len() - after.len());
        values.push(E::build(alloc, first.series(), group)?)?;
        left = after;
    }
    Ok(values)
}

/// A metric, with its points.
struct Metric;

impl Element for Metric {
    ghost element_of = { spec.metric_value };

    #[tactic(auto, unfolding(crate::specs::Request::metric_value))]
    fn build(alloc: Global, series: &SeriesId, points: &[FlushPoint]) -> Result<Value, AllocError> {
        let values = values_of(alloc, points)?;
        let metric = Object::new(alloc)
            .text("name", series.name().as_str())
            .text("unit", series.unit().as_str());
        let data = Object::new(alloc)
            .value("aggregationTemporality", Value::from(1u64))
            .value("dataPoints", Value::from(values));
        match series.kind() {
            Kind::Sum { monotonic } => {
                let data = data.value("isMonotonic", Value::from(*monotonic));
                metric.object("sum", data).finish()
            }
            Kind::Histogram { .. } => metric.object("histogram", data).finish(),
        }
    }
}

/// A scope, with the metrics of its points.
struct Scope;

impl Element for Scope {
    ghost element_of = { spec.scope_value };

    #[tactic(auto, unfolding(crate::specs::Request::scope_value))]
    fn build(alloc: Global, series: &SeriesId, points: &[FlushPoint]) -> Result<Value, AllocError> {
        let metrics = elements::<Metric>(alloc, Level::Metric, points)?;
        let attributes = attributes_value(alloc, series.scope_attrs())?;
        let scope = Object::new(alloc)
            .value("attributes", attributes)
            .text("name", series.scope_name().as_str())
            .text("version", series.scope_version().as_str());
        Object::new(alloc)
            .value("metrics", Value::from(metrics))
            .object("scope", scope)
            .finish()
    }
}

/// A resource, with the scopes of its points.
struct Resource;

impl Element for Resource {
    ghost element_of = { spec.resource_value };

    #[tactic(auto, unfolding(crate::specs::Request::resource_value))]
    fn build(alloc: Global, series: &SeriesId, points: &[FlushPoint]) -> Result<Value, AllocError> {
        let scopes = elements::<Scope>(alloc, Level::Scope, points)?;
        let attributes = attributes_value(alloc, series.resource())?;
        let resource = Object::new(alloc).value("attributes", attributes);
        Object::new(alloc)
            .object("resource", resource)
            .value("scopeMetrics", Value::from(scopes))
            .finish()
    }
}

/// The request with these points.
#[tactic(auto, unfolding(crate::specs::Request::request_value))]
fn request_value(alloc: Global, points: &[FlushPoint]) -> Result<Value, AllocError>
    ensures { IfOk result (λ v. view v ≡ spec.request_value points.now) }
{
    let resources = elements::<Resource>(alloc, Level::Resource, points)?;
    json!(in alloc; {"resourceMetrics": resources})
}

/// The body that forwards the points of a flush (OTLP metrics, `ExportMetricsServiceRequest`).
/// Neighbours with the same resource share an element of `resourceMetrics`. Within it, neighbours
/// with the same scope share an element of `scopeMetrics`. Within that, neighbours with the same
/// name, unit and kind share a metric.
///
/// Read back, the text has each point, in order, with its series, its span and its value, or its
/// buckets and, if each merged point had one, its sum. It has no foreign point.
///
/// If the points are in series order, no resource occurs twice, no scope occurs twice in a
/// resource, and no metric occurs twice in a scope.
#[tactic(auto, unfolding(crate::specs::Request::request_text))]
pub fn request_text(alloc: Global, flush: &Flush) -> Result<Vec<u8>, AllocError>
    ensures text { IfOk result (λ text. text.items ≡ spec.request_text flush.now.points) }
    ensures back { IfOk result (λ text. ReadsBack text.items flush.now.points) }
    ensures once { is_ascending (map (λ p. p.series) flush.now.points) ≡ true
        → HasEachOnce flush.now.points }
{
    let points = flush.points.as_slice();
    let value = request_value(alloc, points)?;
    text_of(alloc, value)
}
