//! Reads a request: walks its containers from the outside in.

ghost use Rattle.std.specs.Prelude.{option_map};
ghost use Rattle.serde_json.specs.View.{view};
ghost use Rattle.otlp_read.specs.inner.Containers.{Gives};
ghost use Rattle.otlp_read.specs.inner.StreamViews.{resource_data};
ghost use Rattle.otlp_read.specs.Tallies.{tally};
ghost use Rattle.otlp_read.specs.Reading.{scope_metrics, resource_metrics, body, reading, Answers};

use crate::attributes::attributes_in;
use crate::containers::{object_in, objects};
use crate::fault::ReadFault;
use crate::fields::field;
use crate::identity_cache::IdentityCache;
use crate::place::Place;
use crate::reader::{Object, Reader, each};
use crate::reading::Reading;
use crate::room::room_for;
use crate::streams::{Resource, inner, resource_in, scope_in};
use serde_json::Value;
use std::alloc::Global;

/// Reads the body of a metrics request (`ExportMetricsServiceRequest` in OTLP's JSON encoding).
///
/// Fails with `NotJson` if the bytes are no UTF-8, no JSON, or nested more than 127 deep, and with
/// `WrongShape` at the first container of the wrong type. The walk is depth first, each object's
/// fields in the standard's order; an array's type and that of all its elements come before its
/// first element. Fails with `NoMemory` if an allocation fails, which may be before another error
/// is found.
///
/// Unknown names are ignored, `null` counts as absent, and of several members of one name the last
/// counts. A point outside the profile is counted as foreign; it is no error.
pub fn read_request(alloc: Global, bytes: &[u8]) -> Result<Reading, ReadFault>
    ensures { Answers bytes.now result }
{
    let mut cache = IdentityCache::without_slots();
    read_request_with(alloc, bytes, &mut cache)
}

/// Reads the body of a metrics request as `read_request` does. Points share the identities that
/// the cache has, and new ones are added to it.
///
/// Results and errors are those of `read_request`, whatever the cache has. What it has afterwards
/// is left open, also after an error.
pub fn read_request_with(
    alloc: Global,
    bytes: &[u8],
    cache: &mut IdentityCache,
) -> Result<Reading, ReadFault>
    ensures { Answers bytes.now result }
{
    let value = match Value::from_slice(alloc, bytes) {
        Ok(value) => value,
        Err(e) if e.is_memory() => return Err(ReadFault::NoMemory),
        Err(_) => return Err(ReadFault::NotJson),
    };
    read_value(alloc, cache, &value, bytes.len())
}

/// Reads a request of this length.
#[tactic(auto, unfolding(crate::specs::Reading::reading))]
fn read_value(
    alloc: Global,
    cache: &mut IdentityCache,
    value: &Value,
    length: usize,
) -> Result<Reading, ReadFault>
    ensures { Gives tally result (reading (view value.now)) }
{
    if !value.is_object() {
        return Err(ReadFault::WrongShape(Place::Root));
    }
    let out = Reading {
        points: room_for(alloc, value, length),
        foreign: 0,
        metrics: 0,
    };
    let mut reader = Reader { alloc, cache, out };
    body(&mut reader, value)?;
    let Reader { mut out, .. } = reader;
    out.points.fit();
    Ok(out)
}

/// Reads the body's resources.
#[tactic(auto, unfolding(crate::specs::Reading::body))]
fn body(reader: &mut Reader<'_>, value: &Value) -> Result<(), ReadFault>
    ensures { Gives (λ _. tally reader.new.out) result (body (view value.now)
        (tally reader.old.out)) }
{
    let values = objects(field(value, "resourceMetrics"), Place::ResourceMetrics)?;
    each(reader, (), values)
}

/// A resource of the body.
impl Object for () {
    ghost adds = { λ _. resource_metrics };

    fn read(self, reader: &mut Reader<'_>, value: &Value) -> Result<(), ReadFault> {
        resource_metrics(reader, value)
    }
}

/// Reads a resource and its scopes (`ResourceMetrics`).
#[tactic(auto, unfolding(crate::specs::Reading::resource_metrics))]
fn resource_metrics(reader: &mut Reader<'_>, value: &Value) -> Result<(), ReadFault>
    ensures { Gives (λ _. tally reader.new.out) result (resource_metrics (view value.now)
        (tally reader.old.out)) }
{
    let resource = object_in(field(value, "resource"), Place::Resource)?;
    let values = objects(field(value, "scopeMetrics"), Place::ScopeMetrics)?;
    let attributes = attributes_in(reader.alloc, inner(resource, "attributes"))?;
    each(reader, resource_in(attributes.as_ref()), values)
}

/// A scope of a resource.
impl Object for Option<Resource<'_>> {
    ghost adds = { λ resource. scope_metrics (option_map resource_data resource) };

    fn read(self, reader: &mut Reader<'_>, value: &Value) -> Result<(), ReadFault> {
        scope_metrics(reader, self, value)
    }
}

/// Reads a scope and its metrics (`ScopeMetrics`).
#[tactic(auto, unfolding(crate::specs::Reading::scope_metrics))]
fn scope_metrics(
    reader: &mut Reader<'_>,
    resource: Option<Resource<'_>>,
    value: &Value,
) -> Result<(), ReadFault>
    ensures { Gives (λ _. tally reader.new.out) result (scope_metrics
        (option_map resource_data resource.entry) (view value.now) (tally reader.old.out)) }
{
    let scope = object_in(field(value, "scope"), Place::Scope)?;
    let values = objects(field(value, "metrics"), Place::Metrics)?;
    let attributes = attributes_in(reader.alloc, inner(scope, "attributes"))?;
    let scope = scope_in(resource, scope, attributes.as_ref());
    each(reader, scope, values)
}
