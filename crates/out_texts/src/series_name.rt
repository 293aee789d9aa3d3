//! Writes the name and the kind of a series, for reports and replies.

ghost use Rattle.std.specs.Prelude.{◌≡◌, ◌++◌, OnOk};
ghost use Rattle.out_texts.specs.SeriesNames as spec;

use crate::escape::put_escaped;
use crate::words::{HasText, put_joined, put_more};
use series_id::{AttrValue, Attribute, Kind, Scalar, SeriesId};
use std::alloc::AllocError;

impl HasText for Scalar {
    ghost text_of = { spec.scalar_text };

    /// Appends a text in quotes, a number, a boolean, or nothing.
    #[tactic(auto, unfolding(crate::specs::SeriesNames::scalar_text))]
    fn put(&self, out: &mut Vec<u8>) -> Result<(), AllocError> {
        match self {
            Scalar::Empty => Ok(()),
            Scalar::Truth(true) => out.extend_from_slice(b"true"),
            Scalar::Truth(false) => out.extend_from_slice(b"false"),
            Scalar::Int(number) => number.put(out),
            Scalar::Text(text) => {
                out.extend_from_slice(b"\"")?;
                put_escaped(out, text.as_bytes())?;
                out.extend_from_slice(b"\"")
            }
        }
    }
}

/// Appends a single value, or a list in brackets, with semicolons in between.
#[tactic(auto, unfolding(crate::specs::SeriesNames::value_text, crate::specs::SeriesNames::scalars_text))]
fn put_value(out: &mut Vec<u8>, value: &AttrValue) -> Result<(), AllocError>
    ensures { OnOk result (out.new.items ≡ out.old.items ++ spec.value_text value.now) }
{
    match value {
        AttrValue::One(scalar) => scalar.put(out),
        AttrValue::Many(scalars) => {
            out.extend_from_slice(b"[")?;
            put_joined(out, b';', scalars.as_slice())?;
            out.extend_from_slice(b"]")
        }
    }
}

impl HasText for Attribute {
    ghost text_of = { spec.attribute_text };

    /// Appends the key, escaped, `=` and the value.
    #[tactic(auto, unfolding(crate::specs::SeriesNames::attribute_text))]
    fn put(&self, out: &mut Vec<u8>) -> Result<(), AllocError> {
        put_escaped(out, self.key.as_bytes())?;
        out.extend_from_slice(b"=")?;
        put_value(out, &self.value)
    }
}

/// Appends attributes in braces, with commas in between; nothing if there are none.
#[tactic(auto, unfolding(crate::specs::SeriesNames::attributes_text, crate::specs::SeriesNames::braced))]
fn put_braced(out: &mut Vec<u8>, attributes: &[Attribute]) -> Result<(), AllocError>
    ensures { OnOk result (out.new.items ≡ out.old.items ++ spec.braced attributes.now) }
{
    let Some((first, more)) = attributes.split_first() else {
        return Ok(());
    };
    out.extend_from_slice(b"{")?;
    first.put(out)?;
    put_more(out, b',', more)?;
    out.extend_from_slice(b"}")
}

/// Appends the name of a series: the metric's name, escaped, and in braces the point attributes.
#[tactic(auto, unfolding(crate::specs::SeriesNames::series_name))]
pub fn put_series_name(out: &mut Vec<u8>, series: &SeriesId) -> Result<(), AllocError>
    ensures { OnOk result (out.new.items ≡ out.old.items ++ spec.series_name series.now) }
{
    put_escaped(out, series.name().as_bytes())?;
    put_braced(out, series.attrs().pairs())
}

/// Appends a kind: `sum`, `monotonic`, or `histogram` with its bounds in brackets.
#[tactic(auto, unfolding(crate::specs::SeriesNames::kind_text, crate::specs::SeriesNames::bounds_text))]
pub fn put_kind(out: &mut Vec<u8>, kind: &Kind) -> Result<(), AllocError>
    ensures { OnOk result (out.new.items ≡ out.old.items ++ spec.kind_text kind.now) }
{
    match kind {
        Kind::Sum { monotonic: true } => out.extend_from_slice(b"monotonic"),
        Kind::Sum { monotonic: false } => out.extend_from_slice(b"sum"),
        Kind::Histogram { bounds } => {
            out.extend_from_slice(b"histogram[")?;
            put_joined(out, b';', bounds.as_slice())?;
            out.extend_from_slice(b"]")
        }
    }
}
