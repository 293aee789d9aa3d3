//! Reads the values of attributes, single ones and lists (`AnyValue` of
//! `opentelemetry/proto/common/v1/common.proto`).

ghost use Rattle.std.specs.Prelude.{◌≡◌, ◌||◌, IfOk, IfSome, Some, codes, is_some, option_map};
ghost use Rattle.otlp_read.specs.Fields.{field, present};
ghost use Rattle.series_id.specs.declared.values.AttrValue.TheVariants.{One};
ghost use Rattle.otlp_read.specs.Values.{scalar_of, fields_of, value_in, only_of, has_other};
ghost use Rattle.otlp_read.specs.Values.{many_of, scalar_in, scalars_of, value_of};
ghost use Rattle.json_points.specs.inner.Nodes.{data_at};
ghost use Rattle.json_points.specs.inner.Slots.{slot_data};
ghost use Rattle.json_points.specs.inner.RefViews.{scalar_data};

use crate::fields::field;
use crate::integers::signed_64;
use crate::lists::{Element, list_in};
use crate::members::{Member, only_member};
use crate::names::is_named;
use crate::node::Node;
use crate::scalar_ref::ScalarRef;
use series_id::{AttrValue, Scalar, Scalars};
use std::alloc::{AllocError, Global};

/// The value of an attribute, empty if it is absent. `None` if it is one that no series may have.
#[tactic(auto, unfolding(otlp_read::specs::Values::value_in))]
pub fn value_in(
    alloc: Global,
    found: &Option<Node<'_, '_>>,
) -> Result<Option<AttrValue>, AllocError>
    ensures { IfOk result (λ o. o ≡ value_in (slot_data found.now)) }
{
    match found {
        None => Ok(Some(AttrValue::One(Scalar::Empty))),
        Some(node) => value_of(alloc, node),
    }
}

/// The value of an object; `None` if no series may have it.
#[tactic(auto, unfolding(otlp_read::specs::Values::value_of, otlp_read::specs::Values::fields_of))]
fn value_of(alloc: Global, node: &Node<'_, '_>) -> Result<Option<AttrValue>, AllocError>
    ensures { IfOk result (λ o. o ≡ value_of (data_at node.now)) }
{
    if !node.is_object() {
        return Ok(None);
    }
    match field(node, "arrayValue") {
        Some(list) => many_of(alloc, node, &list),
        None => one_of(alloc, node),
    }
}

/// The single value of an object.
fn one_of(alloc: Global, node: &Node<'_, '_>) -> Result<Option<AttrValue>, AllocError>
    ensures { IfOk result (λ o. o ≡ option_map One (scalar_of (fields_of (data_at node.now)))) }
{
    match scalar_of(alloc, node)? {
        None => Ok(None),
        Some(scalar) => Ok(Some(AttrValue::One(scalar))),
    }
}

/// The list of an object, if it is its only value.
#[tactic(auto, unfolding(otlp_read::specs::Values::many_of, otlp_read::specs::Values::fields_of))]
fn many_of(
    alloc: Global,
    node: &Node<'_, '_>,
    list: &Node<'_, '_>,
) -> Result<Option<AttrValue>, AllocError>
    ensures { IfOk result (λ o. o ≡ many_of (fields_of (data_at node.now)) (data_at list.now)) }
{
    if has_single(node) {
        return Ok(None);
    }
    match scalars_of(alloc, list)? {
        None => Ok(None),
        Some(scalars) => Ok(Some(AttrValue::Many(scalars))),
    }
}

/// Whether there is a value beside a list.
fn has_single(node: &Node<'_, '_>) -> bool
    ensures { result ≡ (has_other (data_at node.now)
        || is_some (field (codes "stringValue") (data_at node.now))
        || is_some (field (codes "boolValue") (data_at node.now))
        || is_some (field (codes "intValue") (data_at node.now))) }
{
    has_other(node)
        || field(node, "stringValue").is_some()
        || field(node, "boolValue").is_some()
        || field(node, "intValue").is_some()
}

/// The values of an array object (`ArrayValue`).
#[tactic(auto, unfolding(otlp_read::specs::Values::scalars_of))]
fn scalars_of(alloc: Global, list: &Node<'_, '_>) -> Result<Option<Scalars>, AllocError>
    ensures { IfOk result (λ o. o ≡ scalars_of (data_at list.now)) }
{
    if !list.is_object() {
        return Ok(None);
    }
    match list_in(alloc, &field(list, "values"))? {
        None => Ok(None),
        Some(scalars) => Ok(Some(Scalars::new(scalars))),
    }
}

impl Element for Scalar {
    ghost reads = { scalar_in };

    fn read(alloc: Global, node: &Node<'_, '_>) -> Result<Option<Scalar>, AllocError> {
        scalar_in(alloc, node)
    }
}

/// The single value of an element of a list.
#[tactic(auto, unfolding(otlp_read::specs::Values::scalar_in))]
fn scalar_in(alloc: Global, node: &Node<'_, '_>) -> Result<Option<Scalar>, AllocError>
    ensures { IfOk result (λ o. o ≡ scalar_in (data_at node.now)) }
{
    if node.is_object() {
        scalar_of(alloc, node)
    } else {
        Ok(None)
    }
}

/// The single value of an object, with a copy of its text.
fn scalar_of(alloc: Global, node: &Node<'_, '_>) -> Result<Option<Scalar>, AllocError>
    ensures { IfOk result (λ o. o ≡ scalar_of (fields_of (data_at node.now))) }
{
    match scalar_ref_of(node) {
        None => Ok(None),
        Some(scalar) => Ok(Some(scalar.to_scalar(alloc)?)),
    }
}

/// Whether there is a double, a map or bytes, which no series may have.
#[tactic(auto, unfolding(otlp_read::specs::Values::has_other))]
fn has_other(node: &Node<'_, '_>) -> bool
    ensures { result ≡ has_other (data_at node.now) }
{
    field(node, "doubleValue").is_some()
        || field(node, "kvlistValue").is_some()
        || field(node, "bytesValue").is_some()
}

/// The only one of three fields.
fn only_of<'a>(
    text: &Option<Node<'_, 'a>>,
    truth: &Option<Node<'_, '_>>,
    int: &Option<Node<'_, '_>>,
) -> Option<ScalarRef<'a>>
    ensures { option_map scalar_data result
        ≡ only_of (slot_data text.now) (slot_data truth.now) (slot_data int.now) }
{
    match (text, truth, int) {
        (None, None, None) => Some(ScalarRef::Empty),
        (Some(node), None, None) => Some(ScalarRef::Text(node.as_str()?)),
        (None, Some(node), None) => Some(ScalarRef::Truth(node.as_bool()?)),
        (None, None, Some(node)) => Some(ScalarRef::Int(signed_64(node)?)),
        _ => None,
    }
}

/// Whether there is a value that is no single one.
fn is_no_scalar(node: &Node<'_, '_>) -> bool
    ensures { result ≡ (has_other (data_at node.now)
        || is_some (field (codes "arrayValue") (data_at node.now))) }
{
    has_other(node) || field(node, "arrayValue").is_some()
}

/// The single value of an object.
fn scalar_ref_of<'a>(node: &Node<'_, 'a>) -> Option<ScalarRef<'a>>
    ensures { option_map scalar_data result ≡ scalar_of (fields_of (data_at node.now)) }
{
    if is_no_scalar(node) {
        return None;
    }
    let text = field(node, "stringValue");
    let truth = field(node, "boolValue");
    let int = field(node, "intValue");
    only_of(&text, &truth, &int)
}

/// The value of an attribute, if it is a single one and nothing else stands in its object.
#[inline(always)]
pub fn only_scalar<'a>(node: &Node<'_, 'a>) -> Option<ScalarRef<'a>>
    ensures { IfSome result (λ g.
        value_in (present (Some (data_at node.now))) ≡ Some (One (scalar_data g))) }
{
    let Some(Member { name, value }) = only_member(node) else {
        return None;
    };
    if is_named(name, "stringValue") {
        Some(ScalarRef::Text(value.as_str()?))
    } else if is_named(name, "intValue") {
        Some(ScalarRef::Int(signed_64(&value)?))
    } else if is_named(name, "boolValue") {
        Some(ScalarRef::Truth(value.as_bool()?))
    } else {
        None
    }
}
