//! Reads a request: walks its containers from the outside in.

ghost use Rattle.std.specs.Prelude.{◌≡◌, IfOk, IfSome, OnOk, Ok, Some, option_map};
ghost use Rattle.otlp_read.specs.Reading.{scope_metrics, resource_metrics, reading, text_reading};
ghost use Rattle.otlp_read.specs.Reading.{Answers, body};
ghost use Rattle.otlp_read.specs.Tallies.{tally};
ghost use Rattle.json_points.specs.inner.Nodes.{data_at};
ghost use Rattle.json_points.specs.inner.MetricViews.{resource_data};

use crate::attributes::attributes_in;
use crate::containers::{object_in, objects};
use crate::fields::field;
use crate::identity_cache::IdentityCache;
use crate::kept::Kept;
use crate::node::Node;
use crate::plain::is_plain;
use crate::reader::{Object, Reader, each};
use crate::set_cache::SetCache;
use crate::streams::{Resource, inner, resource_in, scope_in};
use crate::unknown::Unknown;
use json::{Scratch, Tape};
use metric_events::points::Points;
use otlp_read::{ReadFault, Reading};
use std::alloc::Global;

/// How many tokens a usual point has at least, about.
const LEAST_POINT: usize = 16;

/// Texts up to this length are read in memory that is kept.
const MOST_KEPT: usize = 65_536;

/// Reads the body of a metrics request as `otlp_read::read_request_with` does, with the same
/// results and errors, and without a tree where the text is usual. Points share the identities that
/// are kept.
pub fn read_request_with(alloc: Global, bytes: &[u8], kept: &mut Kept) -> Result<Reading, ReadFault>
    ensures { Answers bytes.now result }
{
    match read_usual(alloc, bytes, kept) {
        Some(reading) => Ok(reading),
        None => otlp_read::read_request_with(alloc, bytes, &mut kept.other),
    }
}

/// Reads the body of a metrics request, if its text is usual. `None` says nothing of the text: it
/// is not known here, or an allocation failed.
pub fn read_usual(alloc: Global, bytes: &[u8], kept: &mut Kept) -> Option<Reading>
    ensures { IfSome result (λ r. text_reading bytes.now ≡ Some (Ok (tally r))) }
{
    match read_bytes(alloc, bytes, kept) {
        Ok(reading) => Some(reading),
        Err(_) => None,
    }
}

/// Reads a usual text.
fn read_bytes(alloc: Global, bytes: &[u8], kept: &mut Kept) -> Result<Reading, Unknown>
    ensures { IfOk result (λ r. text_reading bytes.now ≡ Some (Ok (tally r))) }
{
    let Ok(text) = simdutf8::compat::from_utf8(bytes) else {
        return Err(Unknown);
    };
    if bytes.len() <= MOST_KEPT {
        read_text(
            alloc,
            text,
            &mut kept.cache,
            &mut kept.sets,
            &mut kept.scratch,
        )
    } else {
        let mut scratch = Scratch::new(alloc);
        read_text(alloc, text, &mut kept.cache, &mut kept.sets, &mut scratch)
    }
}

/// Reads a usual text, in this memory.
fn read_text(
    alloc: Global,
    text: &str,
    cache: &mut IdentityCache,
    sets: &mut SetCache,
    scratch: &mut Scratch,
) -> Result<Reading, Unknown>
    ensures { IfOk result (λ r. text_reading text.now ≡ Some (Ok (tally r))) }
{
    let Ok(tape) = Tape::parse(text, scratch, Vec::new(alloc)) else {
        return Err(Unknown);
    };
    if !is_plain(tape.nodes()) {
        return Err(Unknown);
    }
    let root = Node::of(tape.root());
    read_root(alloc, cache, sets, &root, tape.len())
}

/// Reads a request of so many tokens.
#[tactic(auto, unfolding(otlp_read::specs::Reading::reading))]
fn read_root(
    alloc: Global,
    cache: &mut IdentityCache,
    sets: &mut SetCache,
    root: &Node<'_, '_>,
    length: usize,
) -> Result<Reading, Unknown>
    ensures { IfOk result (λ r. reading (data_at root.now) ≡ Ok (tally r)) }
{
    if !root.is_object() {
        return Err(Unknown);
    }
    let mut points = Points::new(alloc);
    let _ = points.reserve(length / LEAST_POINT);
    let out = Reading {
        points,
        foreign: 0,
        metrics: 0,
    };
    let mut reader = Reader {
        alloc,
        cache,
        sets,
        out,
    };
    body(&mut reader, root)?;
    let Reader { mut out, .. } = reader;
    out.points.fit();
    Ok(out)
}

/// Reads the body's resources.
#[tactic(auto, unfolding(otlp_read::specs::Reading::body))]
fn body(reader: &mut Reader<'_>, node: &Node<'_, '_>) -> Result<(), Unknown>
    ensures { OnOk result (body (data_at node.now) (tally reader.old.out)
        ≡ Ok (tally reader.new.out)) }
{
    let list = objects(&field(node, "resourceMetrics"))?;
    each(reader, (), list)
}

/// A resource of the body.
impl Object for () {
    ghost adds = { λ _. resource_metrics };

    fn read(self, reader: &mut Reader<'_>, node: &Node<'_, '_>) -> Result<(), Unknown> {
        resource_metrics(reader, node)
    }
}

/// Reads a resource and its scopes (`ResourceMetrics`).
#[tactic(auto, unfolding(otlp_read::specs::Reading::resource_metrics))]
fn resource_metrics(reader: &mut Reader<'_>, node: &Node<'_, '_>) -> Result<(), Unknown>
    ensures { OnOk result (resource_metrics (data_at node.now) (tally reader.old.out)
        ≡ Ok (tally reader.new.out)) }
{
    let resource = object_in(field(node, "resource"))?;
    let list = objects(&field(node, "scopeMetrics"))?;
    let attributes = reader
        .sets
        .set_in(reader.alloc, &inner(&resource, "attributes"))?;
    each(reader, resource_in(attributes.as_ref()), list)
}

/// A scope of a resource.
impl Object for Option<Resource<'_>> {
    ghost adds = { λ resource. scope_metrics (option_map resource_data resource) };

    fn read(self, reader: &mut Reader<'_>, node: &Node<'_, '_>) -> Result<(), Unknown> {
        scope_metrics(reader, self, node)
    }
}

/// Reads a scope and its metrics (`ScopeMetrics`).
#[tactic(auto, unfolding(otlp_read::specs::Reading::scope_metrics))]
fn scope_metrics(
    reader: &mut Reader<'_>,
    resource: Option<Resource<'_>>,
    node: &Node<'_, '_>,
) -> Result<(), Unknown>
    ensures { OnOk result (scope_metrics (option_map resource_data resource.entry)
        (data_at node.now) (tally reader.old.out) ≡ Ok (tally reader.new.out)) }
{
    let scope = object_in(field(node, "scope"))?;
    let list = objects(&field(node, "metrics"))?;
    let attributes = attributes_in(reader.alloc, &inner(&scope, "attributes"))?;
    let scope = scope_in(resource, &scope, attributes.as_ref());
    each(reader, scope, list)
}
