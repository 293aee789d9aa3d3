//! The bytes that say all of an identity, by which two are compared at once.

ghost use Rattle.std.specs.Prelude.{◌≡◌, ◌++◌, ◌∷◌, ◌%◌, [], IfOk, OnOk};
ghost use Rattle.std.specs.List.{flat_map};
ghost use Rattle.series_id.specs.inner.Written as spec;

use crate::attributes::{AttrSet, Attribute};
use crate::kinds::Kind;
use crate::scalars::Scalar;
use crate::series::SeriesId;
use crate::texts::Text;
use crate::values::AttrValue;
use std::alloc::{AllocError, Global};

/// How many bytes there is room for at first.
const ROOM: usize = 256;

/// Writes a byte.
fn write_byte(out: &mut Vec<u8>, byte: u8) -> Result<(), AllocError>
    ensures { OnOk result (out.new.items ≡ out.old.items ++ byte ∷ []) }
{
    out.push(byte)?;
    Ok(())
}

/// Writes the length of a text.
#[tactic(auto, unfolding(crate::specs::inner::Written::length_bytes))]
fn write_length(out: &mut Vec<u8>, length: usize) -> Result<(), AllocError>
    ensures { OnOk result (out.new.items ≡ out.old.items ++ spec.length_bytes length) }
{
    if length < 128 {
        return write_byte(out, length as u8);
    }
    write_byte(out, 128 + (length % 128) as u8)?;
    write_byte(out, (length / 128 % 256) as u8)
}

/// Writes a text.
#[tactic(auto, unfolding(crate::specs::inner::Written::text_bytes))]
fn write_text(out: &mut Vec<u8>, text: &Text) -> Result<(), AllocError>
    ensures { OnOk result (out.new.items ≡ out.old.items ++ spec.text_bytes text.now) }
{
    write_length(out, text.as_bytes().len())?;
    out.extend_from_slice(text.as_bytes())
}

/// Writes an integer.
#[tactic(auto, unfolding(crate::specs::inner::Written::int_bytes))]
fn write_int(out: &mut Vec<u8>, number: i64) -> Result<(), AllocError>
    ensures { OnOk result (out.new.items ≡ out.old.items ++ spec.int_bytes number) }
{
    out.extend_from_slice(&number.cast_unsigned().to_le_bytes())
}

/// Writes a mark, and a text.
fn write_marked_text(out: &mut Vec<u8>, mark: u8, text: &Text) -> Result<(), AllocError>
    ensures { OnOk result (out.new.items ≡ out.old.items ++ mark ∷ spec.text_bytes text.now) }
{
    write_byte(out, mark)?;
    write_text(out, text)
}

/// Writes a mark, and an integer.
fn write_marked_int(out: &mut Vec<u8>, mark: u8, number: i64) -> Result<(), AllocError>
    ensures { OnOk result (out.new.items ≡ out.old.items ++ mark ∷ spec.int_bytes number) }
{
    write_byte(out, mark)?;
    write_int(out, number)
}

/// Writes a scalar.
#[tactic(auto, unfolding(crate::specs::inner::Written::scalar_bytes))]
fn write_scalar(out: &mut Vec<u8>, value: &Scalar) -> Result<(), AllocError>
    ensures { OnOk result (out.new.items ≡ out.old.items ++ spec.scalar_bytes value.now) }
{
    match value {
        Scalar::Empty => write_byte(out, 0),
        Scalar::Truth(false) => write_byte(out, 1),
        Scalar::Truth(true) => write_byte(out, 2),
        Scalar::Int(number) => write_marked_int(out, 3, *number),
        Scalar::Text(text) => write_marked_text(out, 4, text),
    }
}

/// Writes scalars, one after another.
#[tactic(auto, using(std::proofs::lemmas::List::flat_map_more))]
fn write_scalars(out: &mut Vec<u8>, values: &[Scalar]) -> Result<(), AllocError>
    ensures { OnOk result (out.new.items ≡ out.old.items
        ++ flat_map spec.scalar_bytes values.now) }
{
    for value in values {
        write_scalar(out, value)?;
    }
    Ok(())
}

/// Writes how many there are of something.
fn write_count(out: &mut Vec<u8>, count: usize) -> Result<(), AllocError>
    ensures { OnOk result (out.new.items ≡ out.old.items ++ count % 256 ∷ []) }
{
    write_byte(out, (count % 256) as u8)
}

/// Writes a value.
#[tactic(auto, unfolding(crate::specs::inner::Written::value_bytes))]
fn write_value(out: &mut Vec<u8>, value: &AttrValue) -> Result<(), AllocError>
    ensures { OnOk result (out.new.items ≡ out.old.items ++ spec.value_bytes value.now) }
{
    match value {
        AttrValue::One(value) => write_scalar(out, value),
        AttrValue::Many(values) => {
            write_byte(out, 5)?;
            write_count(out, values.as_slice().len())?;
            write_scalars(out, values.as_slice())
        }
    }
}

/// Writes an attribute.
#[tactic(auto, unfolding(crate::specs::inner::Written::attribute_bytes))]
fn write_attribute(out: &mut Vec<u8>, attribute: &Attribute) -> Result<(), AllocError>
    ensures { OnOk result (out.new.items ≡ out.old.items
        ++ spec.attribute_bytes attribute.now) }
{
    write_text(out, &attribute.key)?;
    write_value(out, &attribute.value)
}

/// Writes attributes, one after another.
#[tactic(auto, using(std::proofs::lemmas::List::flat_map_more))]
fn write_attributes(out: &mut Vec<u8>, pairs: &[Attribute]) -> Result<(), AllocError>
    ensures { OnOk result (out.new.items ≡ out.old.items
        ++ flat_map spec.attribute_bytes pairs.now) }
{
    for pair in pairs {
        write_attribute(out, pair)?;
    }
    Ok(())
}

/// Writes a set.
#[tactic(auto, unfolding(crate::specs::inner::Written::set_bytes))]
fn write_set(out: &mut Vec<u8>, set: &AttrSet) -> Result<(), AllocError>
    ensures { OnOk result (out.new.items ≡ out.old.items ++ spec.set_bytes set.now) }
{
    write_count(out, set.pairs().len())?;
    write_attributes(out, set.pairs())
}

/// Writes bounds, one after another.
#[tactic(auto, using(std::proofs::lemmas::List::flat_map_more))]
fn write_bounds(out: &mut Vec<u8>, bounds: &[i64]) -> Result<(), AllocError>
    ensures { OnOk result (out.new.items ≡ out.old.items ++ flat_map spec.int_bytes bounds.now) }
{
    for bound in bounds {
        write_int(out, *bound)?;
    }
    Ok(())
}

/// Writes a kind.
#[tactic(auto, unfolding(crate::specs::inner::Written::kind_bytes))]
fn write_kind(out: &mut Vec<u8>, kind: &Kind) -> Result<(), AllocError>
    ensures { OnOk result (out.new.items ≡ out.old.items ++ spec.kind_bytes kind.now) }
{
    match kind {
        Kind::Sum { monotonic: false } => write_byte(out, 0),
        Kind::Sum { monotonic: true } => write_byte(out, 1),
        Kind::Histogram { bounds } => {
            write_byte(out, 2)?;
            write_count(out, bounds.as_slice().len())?;
            write_bounds(out, bounds.as_slice())
        }
    }
}

/// Writes an identity.
#[tactic(auto, unfolding(crate::specs::inner::Written::written))]
fn write_series(out: &mut Vec<u8>, series: &SeriesId) -> Result<(), AllocError>
    ensures { OnOk result (out.new.items ≡ out.old.items ++ spec.written series.now) }
{
    write_set(out, series.resource())?;
    write_text(out, series.scope_name())?;
    write_text(out, series.scope_version())?;
    write_set(out, series.scope_attrs())?;
    write_text(out, series.name())?;
    write_text(out, series.unit())?;
    write_kind(out, series.kind())?;
    write_set(out, series.attrs())
}

/// The bytes of an identity, in a block that has room for no more.
pub(crate) fn written(alloc: Global, series: &SeriesId) -> Result<Vec<u8>, AllocError>
    ensures { IfOk result (λ bytes. bytes.items ≡ spec.written series.now) }
{
    let mut out = Vec::with_capacity(alloc, ROOM)?;
    write_series(&mut out, series)?;
    out.shrink_to_fit();
    Ok(out)
}
