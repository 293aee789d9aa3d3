//! Reads the values of attributes, single ones and lists (`AnyValue`).

ghost use Rattle.std.specs.Prelude.{◌≡◌, option_map, IfOk};
ghost use Rattle.serde_json.specs.Data.{object};
ghost use Rattle.series_id.specs.declared.values.AttrValue.TheVariants.{One, Many};
ghost use Rattle.otlp_read.specs.Values.{scalar_in, scalars_of, value_in, value_of};
ghost use Rattle.otlp_protobuf.specs.Fields.{so_far};
ghost use Rattle.otlp_protobuf.specs.Values.{newest, chosen, take_list, list_of, array_members};
ghost use Rattle.otlp_protobuf.specs.Values.{any_value, single_value};
ghost use Rattle.otlp_protobuf.specs.inner.RefViews.{scalar_data, text_scalar, scalar_at};
ghost use Rattle.otlp_protobuf.specs.inner.RefViews.{scalar_chosen};
ghost use Rattle.otlp_protobuf.specs.inner.PairViews.{is_list};
ghost use Rattle.otlp_protobuf.specs.inner.Views.{field_data, payload_data, whole_data};

use crate::fields::{Field, Fields};
use crate::lists::{Element, all_of};
use crate::scalar_ref::ScalarRef;
use crate::scan::{Whole, bits, content_or_none, text_of};
use crate::wire::Payload;
use series_id::{AttrValue, Scalar, Scalars};
use std::alloc::{AllocError, Global};

/// The field that a value has: the last one.
fn chosen<'a>(bytes: &'a [u8]) -> Option<Field<'a>>
    ensures { option_map field_data result ≡ chosen bytes.now }
{
    let mut found = None;
    let mut rest = Fields::of(bytes);
    while let Some(field) = rest.next() {
        found = newest(found, field);
    }
    found
}

/// A field, if it is one that a value may have, else what was found before.
fn newest<'a>(found: Option<Field<'a>>, field: Field<'a>) -> Option<Field<'a>>
    ensures { option_map field_data result
        ≡ newest (option_map field_data found.entry) (field_data field.entry) }
{
    if field.number < 8 { Some(field) } else { found }
}

/// The single value of a field; `None` if it has a double, a list, a map or bytes.
fn scalar_at<'a>(number: u32, payload: Payload<'a>) -> Option<ScalarRef<'a>>
    ensures { option_map scalar_data result ≡ scalar_at number (payload_data payload.entry) }
{
    match number {
        1 => Some(text_scalar(text_of(payload))),
        2 => Some(ScalarRef::Truth(bits(payload) != 0)),
        3 => Some(ScalarRef::Int(bits(payload).cast_signed())),
        4 | 5 | 6 | 7 => None,
        _ => Some(ScalarRef::Empty),
    }
}

/// A text; empty is what is none.
fn text_scalar<'a>(text: Option<&'a str>) -> ScalarRef<'a>
    ensures { scalar_data result ≡ text_scalar (option_map (λ t. t.now) text.entry) }
{
    match text {
        Some(text) => ScalarRef::Text(text),
        None => ScalarRef::Empty,
    }
}

fn scalar_chosen<'a>(found: Option<Field<'a>>) -> Option<ScalarRef<'a>>
    ensures { option_map scalar_data result ≡ scalar_chosen (option_map field_data found.entry) }
{
    match found {
        Some(field) => scalar_at(field.number, field.payload),
        None => Some(ScalarRef::Empty),
    }
}

/// A value with a copy of its text.
fn scalar_in(alloc: Global, found: Option<Field<'_>>) -> Result<Option<Scalar>, AllocError>
    ensures { IfOk result (λ o. o ≡ scalar_chosen (option_map field_data found.entry)) }
{
    match scalar_chosen(found) {
        None => Ok(None),
        Some(scalar) => Ok(Some(scalar.to_scalar(alloc)?)),
    }
}

/// A value in a list.
impl Element for Scalar {
    ghost shows = { single_value };

    ghost reads = { scalar_in };

    #[tactic(auto, using(crate::proofs::ValueLemmas::scalar_in_list))]
    fn read(alloc: Global, bytes: &[u8]) -> Result<Option<Scalar>, AllocError> {
        scalar_in(alloc, chosen(bytes))
    }
}

/// Whether a value is a list.
fn is_list(found: Option<Field<'_>>) -> bool
    ensures { result ≡ is_list (option_map field_data found.entry) }
{
    match found {
        Some(field) => field.number == 5,
        None => false,
    }
}

/// The list of a value after a field.
fn take_list<'a>(alloc: Global, found: Whole<'a>, field: Field<'a>) -> Result<Whole<'a>, AllocError>
    ensures { IfOk result (λ w. whole_data w
        ≡ take_list (whole_data found.entry) (field_data field.entry)) }
{
    if field.number >= 8 {
        return Ok(found);
    }
    if field.number != 5 {
        return Ok(Whole::Absent);
    }
    found.with(alloc, content_or_none(field.payload))
}

/// The list of a value.
fn list_of<'a>(alloc: Global, bytes: &'a [u8]) -> Result<Whole<'a>, AllocError>
    ensures { IfOk result (λ w. so_far (whole_data w) ≡ list_of bytes.now) }
{
    let mut found = Whole::Absent;
    let mut rest = Fields::of(bytes);
    while let Some(field) = rest.next() {
        found = take_list(alloc, found, field)?;
    }
    Ok(found)
}

/// The values of a list.
#[tactic(auto, using(crate::proofs::ValueLemmas::scalars_are))]
fn many_of(alloc: Global, bytes: &[u8]) -> Result<Option<AttrValue>, AllocError>
    ensures { IfOk result (λ o. o
        ≡ option_map Many (scalars_of (object (array_members bytes.now)))) }
{
    match all_of(alloc, bytes, 1)? {
        None => Ok(None),
        Some(scalars) => Ok(Some(AttrValue::Many(Scalars::new(scalars)))),
    }
}

fn one_of(alloc: Global, found: Option<Field<'_>>) -> Result<Option<AttrValue>, AllocError>
    ensures { IfOk result (λ o. o
        ≡ option_map One (scalar_chosen (option_map field_data found.entry))) }
{
    match scalar_in(alloc, found)? {
        None => Ok(None),
        Some(scalar) => Ok(Some(AttrValue::One(scalar))),
    }
}

/// A value; `None` if no series may have it.
fn value_of(alloc: Global, bytes: &[u8]) -> Result<Option<AttrValue>, AllocError>
    ensures { IfOk result (λ o. o ≡ value_of (any_value bytes.now)) }
{
    let found = chosen(bytes);
    if is_list(found) {
        let list = list_of(alloc, bytes)?;
        many_of(alloc, list.bytes_or_none())
    } else {
        one_of(alloc, found)
    }
}

/// The value of an attribute, empty if it is absent.
#[tactic(auto, unfolding(otlp_read::specs::Values::value_in))]
pub fn value_in(alloc: Global, found: Option<&[u8]>) -> Result<Option<AttrValue>, AllocError>
    ensures { IfOk result (λ o. o ≡ value_in (option_map any_value
        (option_map (λ b. b.now) found.entry))) }
{
    match found {
        None => Ok(Some(AttrValue::One(Scalar::Empty))),
        Some(bytes) => value_of(alloc, bytes),
    }
}
