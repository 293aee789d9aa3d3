//! Takes room for the points of a request at once.

ghost use Rattle.std.specs.Prelude.{◌≡◌, []};

use crate::fields::field;
use crate::lists::elements_in;
use metric_events::points::Points;
use serde_json::Value;
use std::alloc::Global;

/// The least length, in bytes, of a point of the profile: a start and an end of one digit each.
const LEAST_POINT: usize = 40;

/// No points, with room for all that a body of this length may have. If there is no memory for
/// that, each point asks for its own.
pub fn room_for(alloc: Global, body: &Value, length: usize) -> Points
    ensures { result ≡ [] }
{
    let mut points = Points::new(alloc);
    let most = most_in_body(body).min(length / LEAST_POINT);
    let _ = points.reserve(most);
    points
}

/// How many elements the `dataPoints` of sums and histograms have. What is no such list has none.
fn most_in_body(body: &Value) -> usize {
    let mut most: usize = 0;
    for resource in elements(body, "resourceMetrics") {
        most = most.saturating_add(most_in_resource(resource));
    }
    most
}

fn most_in_resource(resource: &Value) -> usize {
    let mut most: usize = 0;
    for scope in elements(resource, "scopeMetrics") {
        most = most.saturating_add(most_in_scope(scope));
    }
    most
}

fn most_in_scope(scope: &Value) -> usize {
    let mut most: usize = 0;
    for metric in elements(scope, "metrics") {
        let sums = most_in_part(metric, "sum");
        let histograms = most_in_part(metric, "histogram");
        most = most.saturating_add(sums).saturating_add(histograms);
    }
    most
}

fn most_in_part(metric: &Value, name: &str) -> usize {
    match field(metric, name) {
        None => 0,
        Some(part) => elements(part, "dataPoints").len(),
    }
}

/// The elements of the array of this name, none if there is no such array.
fn elements<'v>(value: &'v Value, name: &str) -> &'v [Value] {
    match elements_in(field(value, name)) {
        None => &[],
        Some(elements) => elements,
    }
}
