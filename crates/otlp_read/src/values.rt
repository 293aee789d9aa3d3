//! Reads the values of attributes, single ones and lists (`AnyValue` of
//! `opentelemetry/proto/common/v1/common.proto`).

ghost use Rattle.std.specs.Prelude.{◌≡◌, option_map, IfOk, IfSome, Some};
ghost use Rattle.serde_json.specs.View.{view};
ghost use Rattle.series_id.specs.declared.values.AttrValue.TheVariants.{One};
ghost use Rattle.otlp_read.specs.Values.{scalar_of, scalar_in, scalars_of, many_of};
ghost use Rattle.otlp_read.specs.Values.{value_of, value_in};
ghost use Rattle.otlp_read.specs.inner.ValueViews.{fields_data};
ghost use Rattle.otlp_read.specs.inner.RefViews.{found_data, scalar_data};

use crate::fields::field;
use crate::integers::signed_64;
use crate::lists::{Element, list_in};
use crate::members::{ValueFields, fields_of};
use crate::scalar_ref::ScalarRef;
use serde_json::Value;
use series_id::{AttrValue, Scalar, Scalars};
use std::alloc::{AllocError, Global};

/// The value of an attribute, empty if it is absent. `None` if it is one that no series may have.
#[tactic(auto, unfolding(crate::specs::Values::value_in))]
pub fn value_in(alloc: Global, found: Option<&Value>) -> Result<Option<AttrValue>, AllocError>
    ensures { IfOk result (λ o. o ≡ value_in (found_data found.entry)) }
{
    match found {
        None => Ok(Some(AttrValue::One(Scalar::Empty))),
        Some(value) => value_of(alloc, value),
    }
}

/// The value of an object; `None` if no series may have it.
#[tactic(auto, unfolding(crate::specs::Values::value_of))]
fn value_of(alloc: Global, value: &Value) -> Result<Option<AttrValue>, AllocError>
    ensures { IfOk result (λ o. o ≡ value_of (view value.now)) }
{
    let Some(members) = value.as_object() else {
        return Ok(None);
    };
    let fields = fields_of(members);
    match fields.list {
        Some(list) => many_of(alloc, fields, list),
        None => one_of(alloc, fields),
    }
}

/// The single value of the fields.
fn one_of(alloc: Global, fields: ValueFields<'_>) -> Result<Option<AttrValue>, AllocError>
    ensures { IfOk result (λ o. o ≡ option_map One (scalar_of (fields_data fields.entry))) }
{
    match scalar_of(alloc, fields)? {
        None => Ok(None),
        Some(scalar) => Ok(Some(AttrValue::One(scalar))),
    }
}

/// The list of the fields, if it is the only one.
#[tactic(auto, unfolding(crate::specs::Values::many_of))]
fn many_of(
    alloc: Global,
    fields: ValueFields<'_>,
    list: &Value,
) -> Result<Option<AttrValue>, AllocError>
    ensures { IfOk result (λ o. o ≡ many_of (fields_data fields.entry) (view list.now)) }
{
    if fields.other || fields.text.is_some() || fields.truth.is_some() || fields.int.is_some() {
        return Ok(None);
    }
    match scalars_of(alloc, list)? {
        None => Ok(None),
        Some(scalars) => Ok(Some(AttrValue::Many(scalars))),
    }
}

/// The values of an array object (`ArrayValue`).
#[tactic(auto, unfolding(crate::specs::Values::scalars_of))]
fn scalars_of(alloc: Global, list: &Value) -> Result<Option<Scalars>, AllocError>
    ensures { IfOk result (λ o. o ≡ scalars_of (view list.now)) }
{
    if !list.is_object() {
        return Ok(None);
    }
    match list_in(alloc, field(list, "values"))? {
        None => Ok(None),
        Some(scalars) => Ok(Some(Scalars::new(scalars))),
    }
}

impl Element for Scalar {
    ghost reads = { scalar_in };

    fn read(alloc: Global, value: &Value) -> Result<Option<Scalar>, AllocError> {
        scalar_in(alloc, value)
    }
}

/// The single value of an element of a list.
#[tactic(auto, unfolding(crate::specs::Values::scalar_in))]
fn scalar_in(alloc: Global, value: &Value) -> Result<Option<Scalar>, AllocError>
    ensures { IfOk result (λ o. o ≡ scalar_in (view value.now)) }
{
    match value.as_object() {
        None => Ok(None),
        Some(members) => scalar_of(alloc, fields_of(members)),
    }
}

/// The single value of the fields, with a copy of its text.
fn scalar_of(alloc: Global, fields: ValueFields<'_>) -> Result<Option<Scalar>, AllocError>
    ensures { IfOk result (λ o. o ≡ scalar_of (fields_data fields.entry)) }
{
    match scalar_ref_of(fields) {
        None => Ok(None),
        Some(scalar) => Ok(Some(scalar.to_scalar(alloc)?)),
    }
}

/// The single value of the fields.
#[tactic(auto, unfolding(crate::specs::Values::scalar_of))]
fn scalar_ref_of<'v>(fields: ValueFields<'v>) -> Option<ScalarRef<'v>>
    ensures { option_map scalar_data result ≡ scalar_of (fields_data fields.entry) }
{
    if fields.other || fields.list.is_some() {
        return None;
    }
    match (fields.text, fields.truth, fields.int) {
        (None, None, None) => Some(ScalarRef::Empty),
        (Some(value), None, None) => Some(ScalarRef::Text(value.as_str()?)),
        (None, Some(value), None) => Some(ScalarRef::Truth(value.as_bool()?)),
        (None, None, Some(value)) => Some(ScalarRef::Int(signed_64(value)?)),
        _ => None,
    }
}

/// The value of an attribute, if it is a single one.
#[tactic(auto, unfolding(crate::specs::Values::value_in, crate::specs::Values::value_of, crate::specs::Values::scalar_of))]
pub fn scalar_ref_in<'v>(found: Option<&'v Value>) -> Option<ScalarRef<'v>>
    ensures { IfSome result (λ g. value_in (found_data found.entry) ≡ Some (One (scalar_data g))) }
{
    match found {
        None => Some(ScalarRef::Empty),
        Some(value) => scalar_ref_of(fields_of(value.as_object()?)),
    }
}
